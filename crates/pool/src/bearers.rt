// The records that bear an id, one after the other: each names the next in a column of its own, and the last names 0.
ghost use Rattle.std.specs.Prelude.{◌≡◌, ◌+◌, ◌≤◌, ◌<◌, length, set};
ghost use Rattle.table.specs.Map.{nexts_at};
ghost use Rattle.pool.specs.Bearers.{next_of, Handed, Joining, Owners};

use table::map::NEXTS;

// The record that y names.
pub fn next_of(ws: &[u16], m: usize, y: usize) -> usize
    requires { (nexts_at m + m ≤ length ws.now) × (y < m) }
    ensures { (result ≡ next_of ws.now m y) × (result < 65536) }
{
    usize::from(ws[NEXTS * m + y])
}

// All that bear i bear the new id. Gives the last of them.
fn rename_ids(ws: &mut [u16], m: usize, i: usize, new: u16) -> usize
    requires { Owners m new i ws.old }
    ensures { Handed m i new result ws.old ws.new }
{
    // A chain: each record names the next.
    let mut y = i;
    loop {
        ws[y] = new;
        let next = next_of(ws, m, y);
        if next == 0 {
            return y;
        }
        y = next;
    }
}

// The row of i, up to its last, comes right after n.
fn join_rows(ws: &mut [u16], m: usize, n: usize, i: usize, last: usize)
    requires { (nexts_at m + m ≤ length ws.old) × (n < m) × (i < m) × (last < m) × (m ≤ 65536) }
    ensures { ws.new
        ≡ set (set ws.old (nexts_at m + last) (next_of ws.old m n)) (nexts_at m + n) i }
{
    ws[NEXTS * m + last] = ws[NEXTS * m + n];
    ws[NEXTS * m + n] = i as u16;
}

// All that bear i bear n, the absorber, and come right after it.
pub(crate) fn hand_over(ws: &mut [u16], m: usize, n: usize, i: usize)
    requires { Owners m n i ws.old }
    ensures { Joining m n i ws.old ws.new }
{
    let last = rename_ids(ws, m, i, n as u16);
    join_rows(ws, m, n, i, last);
}
