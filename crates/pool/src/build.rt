// New lists, written beside the old ones.
ghost use Rattle.std.specs.Prelude.{◌≡◌, ◌++◌, ◌+◌, ◌-◌, ◌≤◌, ◌<◌, length};
ghost use Rattle.rules.specs.Merge.{around, tidy};
ghost use Rattle.space.specs.Space.{Frame};
ghost use Rattle.table.specs.View.{part};
ghost use Rattle.pool.specs.Part.{CopyRoom, renamed_list};

use crate::Renaming;
use crate::lists::{remove_adjacent_neighbours, swap};
use table::place;

// A list, from `from` up to `end`, as a circle without one entry: it is read from the entry after that one round to the one before it.
#[derive(Clone, Copy)]
pub struct Around {
    pub from: usize,
    pub end: usize,
    pub entry: usize,
}

// The part a .. e, again at `to`. Where the room for it ends, `limit`, only the contracts read, here and in all that calls this.
pub(crate) fn copy(ws: &mut [u16], a: usize, e: usize, to: usize, limit: usize)
    requires { CopyRoom a e to limit ws.old }
    ensures ws_after { part to (to + (e - a)) ws.new ≡ part a e ws.old }
    ensures frame { Frame to (to + (e - a)) ws.old ws.new }
{
    for k in 0..e - a {
        ws[to + k] = ws[a + k];
    }
}

// All of the list but the one entry, at `to`. Gives where it ends.
fn copy_around(ws: &mut [u16], l: Around, to: usize, limit: usize) -> usize
    requires { CopyRoom l.from l.end to limit ws.old × (l.from + l.entry < l.end) }
    ensures ws_after { part to result ws.new ≡ around (part l.from l.end ws.old) l.entry }
    ensures result_value { (result + 1 ≡ to + (l.end - l.from)) × Frame to result ws.old ws.new }
{
    let after = l.from + l.entry + 1;
    let rest = to + (l.end - after);
    copy(ws, after, l.end, to, limit);
    copy(ws, l.from, l.from + l.entry, rest, limit);
    rest + l.entry
}

// In the part a .. e every old becomes new, and adjacent duplicates go, if there is one. Gives where the part ends.
pub(crate) fn replace_neighbour(ws: &mut [u16], a: usize, e: usize, names: Renaming) -> usize
    requires { (a ≤ e) × (e ≤ length ws.old) }
    ensures ws_after { part a result ws.new ≡ renamed_list names.old names.new (part a e ws.old) }
    ensures lower_bound { (a ≤ result) × (result ≤ e) }
    ensures frame { Frame a e ws.old ws.new }
{
    // Not `contains`: `place` takes sixteen entries at a time.
    let k = place(&ws[a..e], names.old);
    if k == e - a {
        return e;
    }
    swap(&mut ws[a..e], names.old, names.new);
    let n = remove_adjacent_neighbours(&mut ws[a..e]);
    a + n
}

// Both lists, each without its one entry, and then adjacent duplicates go. Gives where the joined list ends.
pub(crate) fn join(ws: &mut [u16], first: Around, second: Around, to: usize, limit: usize) -> usize
    requires copy_room { CopyRoom first.from first.end to limit ws.old × CopyRoom second.from second.end to limit ws.old }
    requires first_bound { (first.from + first.entry < first.end) × (second.from + second.entry < second.end)
        × (to + (first.end - first.from) + (second.end - second.from) ≤ limit) }
    ensures ws_after { let one = around (part first.from first.end ws.old) first.entry in
        let other = around (part second.from second.end ws.old) second.entry in
        part to result ws.new ≡ tidy (one ++ other) }
    ensures lower_bound { (to ≤ result) × (result + 2 ≤ to + (first.end - first.from) + (second.end - second.from)) }
    ensures frame { Frame to limit ws.old ws.new }
{
    let x = copy_around(ws, first, to, limit);
    let y = copy_around(ws, second, x, limit);
    let n = remove_adjacent_neighbours(&mut ws[to..y]);
    to + n
}
