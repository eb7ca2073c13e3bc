// Lists that are carried into the other half of the pool, renamed on the way.
ghost use Rattle.std.specs.Prelude.{◌≡◌, ◌≤◌, ◌<◌, length, get_or};
ghost use Rattle.space.specs.Space.{Frame};
ghost use Rattle.table.specs.View.{part};
ghost use Rattle.pool.specs.Pool.{new_list, Source, Moved, Next};
ghost use Rattle.pool.specs.Forms.{OthersTo, OthersCarried};

use crate::build::{copy, replace_neighbour};
use crate::{Pair, Renaming};
use table::map::LISTS;
use table::{end_of, set_part, start_of};

// In the part a .. e, the list of record x, every old becomes new if the record is live. Gives where the part ends.
fn rename_live(ws: &mut [u16], x: usize, a: usize, e: usize, names: Renaming) -> usize
    requires { (a ≤ e) × (e ≤ length ws.old) × (x < length ws.old) }
    ensures ws_after { part a result ws.new ≡ new_list names.old names.new (get_or ws.old x 0) (part a e ws.old) }
    ensures lower_bound { (a ≤ result) × (result ≤ e) }
    ensures frame { Frame a e ws.old ws.new }
{
    if ws[x] == 0 {
        e
    } else {
        replace_neighbour(ws, a, e, names)
    }
}

// Record x's list, carried to `to`, below `limit`. Gives where it ends.
fn carry_one(ws: &mut [u16], m: usize, x: usize, names: Renaming, to: usize, limit: usize) -> usize
    requires { Source m x to limit ws.old }
    ensures { Moved m x names.old names.new to result ws.old ws.new }
{
    let start = start_of(ws, m, LISTS * m, x);
    let end = end_of(ws, m, LISTS * m, x);
    copy(ws, start, end, to, limit);
    let left = rename_live(ws, x, to, to + (end - start), names);
    set_part(ws, m, LISTS * m, x, to, left);
    left
}

// The same, of any record but the pair.
fn carry_next(
    ws: &mut [u16],
    m: usize,
    x: usize,
    pair: Pair,
    names: Renaming,
    to: usize,
    limit: usize,
) -> usize
    requires { (x ≡ pair.absorbed → ⊥) → (x ≡ pair.absorber → ⊥) → Source m x to limit ws.old }
    ensures { Next m x pair.absorbed pair.absorber names.old names.new to result ws.old ws.new }
{
    if x == pair.absorbed || x == pair.absorber {
        to
    } else {
        carry_one(ws, m, x, names, to, limit)
    }
}

// All records but the pair, the last first. Gives where the lists end.
pub(crate) fn carry_all(
    ws: &mut [u16],
    m: usize,
    pair: Pair,
    names: Renaming,
    to: usize,
    limit: usize,
) -> usize
    requires { OthersTo m pair to limit ws.old }
    ensures { OthersCarried m pair names to result limit ws.old ws.new }
{
    let mut e = to;
    for x in (0..m).rev() {
        e = carry_next(ws, m, x, pair, names, e, limit);
    }
    e
}
