// All lists after a merge. They stay where they are while there is room past them for the joined one; otherwise all go to the other half of the pool.
ghost use Rattle.std.specs.Prelude.{◌≡◌, ◌+◌, ◌-◌, ◌≤◌, ◌<◌};
ghost use Rattle.table.specs.Map.{wide_end, lists_at};
ghost use Rattle.table.specs.View.{Parts};
ghost use Rattle.pool.specs.Pool.{len_at, Sides};
ghost use Rattle.pool.specs.Forms.{PoolIn, LaidIn, LaidAs, PairIn, OwnersIn, NamesOf, RelistedIn};

use crate::absorb::absorb;
use crate::carry::carry_all;
use crate::links::link_all;
use crate::own::own_all;
use crate::rename::rename_all;
use crate::{Half, Pair, Renaming};
use table::map::LISTS;
use table::{end_of, start_of};

// How long record r's list is.
pub fn len_of(ws: &[u16], m: usize, r: usize) -> usize
    requires { Parts m (lists_at m) ws.now × (r < m) }
    ensures { (result ≡ len_at ws.now m r) × (result < wide_end) }
{
    end_of(ws, m, LISTS * m, r) - start_of(ws, m, LISTS * m, r)
}

// All lists go to the other half, one after the other.
fn relist_there(ws: &mut [u16], m: usize, pair: Pair, names: Renaming, half: Half) -> Half
    requires { PoolIn m half ws.old × LaidIn m half ws.old × PairIn m pair ws.old × OwnersIn m pair ws.old × NamesOf pair names }
    ensures size_value { (result.size ≡ half.size) × (result.links ≡ half.links) × (result.now ≡ half.other) × (result.other ≡ half.now) }
    ensures relisted_in { RelistedIn m pair names half result ws.old ws.new × LaidAs m result names ws.new }
{
    let limit = half.other + half.size;
    let e = absorb(ws, m, pair, names, half.other, limit);
    let top = carry_all(ws, m, pair, names, e, limit);
    let there = Half {
        now: half.other,
        other: half.now,
        top,
        ..half
    };
    own_all(ws, m, there);
    link_all(ws, m, there);
    there
}

// The joined list past all lists, the others renamed where they are.
fn relist_here(ws: &mut [u16], m: usize, pair: Pair, names: Renaming, half: Half) -> Half
    requires pool_in { PoolIn m half ws.old × LaidIn m half ws.old × PairIn m pair ws.old × OwnersIn m pair ws.old × NamesOf pair names }
    requires absorbed_bound { len_at ws.old m pair.absorber + len_at ws.old m pair.absorbed ≤ half.now + half.size - half.top }
    ensures size_value { (result.size ≡ half.size) × (result.links ≡ half.links) × (result.now ≡ half.now) × (result.other ≡ half.other) }
    ensures relisted_in { RelistedIn m pair names half result ws.old ws.new × LaidAs m result names ws.new }
{
    let e = absorb(ws, m, pair, names, half.top, half.now + half.size);
    rename_all(ws, m, pair, half, names);
    Half { top: e, ..half }
}

// The one if there is room past the lists, or else the other.
pub(crate) fn relist(ws: &mut [u16], m: usize, pair: Pair, names: Renaming, half: Half) -> Half
    requires { PoolIn m half ws.old × LaidIn m half ws.old × PairIn m pair ws.old × OwnersIn m pair ws.old × NamesOf pair names }
    ensures size_value { (result.size ≡ half.size) × (result.links ≡ half.links) × Sides half.now half.other result.now result.other }
    ensures relisted_in { RelistedIn m pair names half result ws.old ws.new × LaidAs m result names ws.new }
{
    let both = len_of(ws, m, pair.absorber) + len_of(ws, m, pair.absorbed);
    if both <= half.now + half.size - half.top {
        relist_here(ws, m, pair, names, half)
    } else {
        relist_there(ws, m, pair, names, half)
    }
}
