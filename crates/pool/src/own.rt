// Which record's list a place is in: its number stands beside the place, in the free half of the pool.
ghost use Rattle.std.specs.Prelude.{◌+◌, ◌-◌, ◌≤◌, ◌<◌, length};
ghost use Rattle.space.specs.Space.{Frame};
ghost use Rattle.table.specs.View.{list_start, list_end};
ghost use Rattle.pool.specs.Pool.{Owned, OwnedPart};
ghost use Rattle.pool.specs.Forms.{StandingIn};

use crate::Half;
use table::map::LISTS;
use table::{end_of, start_of};

// The places a .. e of the half are in the list of x.
pub(crate) fn own_part(ws: &mut [u16], half: Half, a: usize, e: usize, x: usize)
    requires { (half.now ≤ a) × (a ≤ e) × (half.other + (e - half.now) ≤ length ws.old) × (x < 65536) }
    ensures { OwnedPart half.now half.other a e x ws.old ws.new }
{
    let from = half.other + (a - half.now);
    let until = half.other + (e - half.now);
    ws[from..until].fill(x as u16);
}

// The list of record x.
fn own_one(ws: &mut [u16], m: usize, x: usize, half: Half)
    requires { StandingIn m half ws.old × (x < m) }
    ensures { let start = list_start ws.old m x in
        let end = list_end ws.old m x in
        OwnedPart half.now half.other start end x ws.old ws.new }
{
    let start = start_of(ws, m, LISTS * m, x);
    let end = end_of(ws, m, LISTS * m, x);
    own_part(ws, half, start, end, x);
}

// All lists.
pub(crate) fn own_all(ws: &mut [u16], m: usize, half: Half)
    requires { StandingIn m half ws.old }
    ensures owned { Owned m half.now half.other (half.now + half.size) ws.new }
    ensures frame { Frame half.other (half.other + half.size) ws.old ws.new }
{
    for x in 0..m {
        own_one(ws, m, x, half);
    }
}
