// The records in the workspace: what is read of them, and their tables of parts.

#![tactic(auto)]

pub mod map;
mod search;

ghost use Rattle.std.specs.Prelude.{◌≡◌, ◌+◌, ◌*◌, ◌/◌, ◌%◌, ◌≤◌, ◌<◌, length, get_or, set};
ghost use Rattle.table.specs.Map.{wide_end};
ghost use Rattle.table.specs.View.{wide, start_of, end_of, list_at, Parts, Placed};

pub use crate::search::{any_above, holds, place};

// Entry i.
pub fn at(l: &[u16], i: usize) -> usize
    requires { i < length l.now }
    ensures { (result ≡ get_or l.now i 0) × (result < 65536) }
{
    l[i] as usize
}

// A number in two halves, low at a, high m further on.
pub fn wide(ws: &[u16], m: usize, a: usize) -> usize
    requires { a + m < length ws.now }
    ensures { (result ≡ wide ws.now m a) × (result < wide_end) }
{
    at(ws, a) + 65536 * at(ws, a + m)
}

// Where the part of record r starts, in the table at s.
pub fn start_of(ws: &[u16], m: usize, s: usize, r: usize) -> usize
    requires { Parts m s ws.now × (r < m) }
    ensures { (result ≡ start_of ws.now m s r) × (result < wide_end) }
{
    wide(ws, m, s + r)
}

// Where it ends.
pub fn end_of(ws: &[u16], m: usize, s: usize, r: usize) -> usize
    requires { Parts m s ws.now × (r < m) }
    ensures { (result ≡ end_of ws.now m s r) × (result < wide_end) }
{
    wide(ws, m, s + 2 * m + r)
}

// The neighbours of record r, with the table at s, or its floors, with that at t: the part itself.
pub fn list_of(ws: &[u16], m: usize, s: usize, r: usize) -> &[u16]
    requires { Parts m s ws.now × (r < m) }
    ensures { result.now ≡ list_at ws.now m s r }
{
    let a = start_of(ws, m, s, r);
    let e = end_of(ws, m, s, r);
    &ws[a..e]
}

// A number in two halves is stored.
pub fn set_wide(ws: &mut [u16], m: usize, a: usize, v: usize)
    requires { (a + m < length ws.old) × (v < wide_end) }
    ensures { ws.new ≡ set (set ws.old a (v % 65536)) (a + m) (v / 65536) }
{
    ws[a] = (v % 65536) as u16;
    ws[a + m] = (v / 65536) as u16;
}

// The part of record r, in the table at s, is a .. e from now on.
pub fn set_part(ws: &mut [u16], m: usize, s: usize, r: usize, a: usize, e: usize)
    requires m_in_bounds { s + 4 * m ≤ length ws.old }
    requires r_lt_m { r < m }
    requires a_lt_wide_end { (a < wide_end) × (e < wide_end) }
    ensures { Placed m s r a e ws.old ws.new }
{
    set_wide(ws, m, s + r, a);
    set_wide(ws, m, s + 2 * m + r, e);
}
