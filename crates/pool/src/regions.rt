// One merge: a record absorbs another.
ghost use Rattle.std.specs.Prelude.{◌≡◌, ◌+◌, ◌≤◌, ◌<◌, length, get_or, set};
ghost use Rattle.table.specs.Map.{areas_at, pool_at};
ghost use Rattle.table.specs.View.{recs_of};
ghost use Rattle.pool.specs.Fixed.{merged_pair};
ghost use Rattle.pool.specs.Pool.{remarked};
ghost use Rattle.pool.specs.Forms.{PoolIn, LaidIn, ListedIn};

use crate::bearers::hand_over;
use crate::relist::relist;
use crate::{Half, Pair, Renaming};
use table::map::CUTS;

// Record n has the spans of both.
fn recount(ws: &mut [u16], m: usize, n: usize, i: usize)
    requires m_in_bounds { (areas_at m ≤ length ws.old) × (n < m) × (i < m) }
    requires i_bound { get_or ws.old (m + n) 0 + get_or ws.old (m + i) 0 < 65536 }
    ensures { let sum = get_or ws.old (m + n) 0 + get_or ws.old (m + i) 0 in
        ws.new ≡ set (set ws.old (m + n) sum) (m + i) 0 }
{
    ws[m + n] += ws[m + i];
    ws[m + i] = 0;
}

// Record n bears the mark that either bore, and record i none.
fn carry_mark(ws: &mut [u16], m: usize, n: usize, i: usize)
    requires { (pool_at m ≤ length ws.old) × (n < m) × (i < m) }
    ensures { ws.new ≡ remarked m n i ws.old }
{
    if ws[CUTS * m + i] != 0 {
        ws[CUTS * m + n] = 1;
        ws[CUTS * m + i] = 0;
    }
}

// The neighbour absorbs the record, which keeps count 0, no list and no mark; its id is renamed everywhere.
pub fn merge_regions(ws: &mut [u16], m: usize, pair: Pair, half: Half) -> Half
    requires { PoolIn m half ws.old × LaidIn m half ws.old × ListedIn m pair ws.old }
    ensures m_after { let records = recs_of ws.old m in
        let old = get_or ws.old pair.absorbed 0 in
        recs_of ws.new m ≡ merged_pair records pair.absorbed old pair.absorber }
    ensures pool_in { PoolIn m result ws.new × LaidIn m result ws.new × (result.size ≡ half.size) × (result.links ≡ half.links) }
{
    let n = pair.absorber;
    let i = pair.absorbed;
    let old = ws[i];
    let new = n as u16;
    let there = relist(ws, m, pair, Renaming { old, new }, half);
    recount(ws, m, n, i);
    hand_over(ws, m, n, i);
    carry_mark(ws, m, n, i);
    there
}
