// Before the rounds and after them: entries that have an id are marked used, and a flag is up for each span that stands in the stack without one.
ghost use Rattle.std.specs.Prelude.{◌≡◌, ◌+◌, ◌<◌, ◌≤◌, length, get_or, set};
ghost use Rattle.rules.specs.Field.{none};
ghost use Rattle.rules.specs.Refusals.{most_spans};
ghost use Rattle.net.specs.Table.{last_place};
ghost use Rattle.expand.specs.Layout.{fresh, flagged, Past, Entries};
ghost use Rattle.expand.specs.Front.{Entering, Leaving};

use crate::Stack;
use field::place::NO_SPAN;

// A used entry: NO_SPAN in 16 bits, since entries are numbers of the workspace.
const USED: u16 = 65535;

// The entry at i is marked used if it has an id; if not, its flag rises. Flags begin at `flags`.
fn enter_one(ids: &[u16], ws: &mut [u16], flags: usize, i: usize)
    requires i_in_bounds { (i < length ws.old) × (i ≤ last_place) × (flags ≤ last_place) × (length ids.now ≤ most_spans) }
    requires ids_in_bounds { (flags + length ids.now ≤ length ws.old) × ((get_or ws.old i 0 ≡ none → ⊥) → get_or ws.old i 0 < length ids.now) }
    ensures { let entry = fresh ids.now (get_or ws.old i 0) in
        ws.new ≡ flagged flags entry 1 (set ws.old i entry) }
{
    let s = ws[i] as usize;
    if s == NO_SPAN {
        return;
    }
    if ids[s] == 0 {
        ws[flags + s] = 1;
    } else {
        ws[i] = USED;
    }
}

// "first, entries that have an id are marked used"
pub(crate) fn enter_all(ids: &[u16], ws: &mut [u16], flags: usize, stack: Stack)
    requires { let n = length ids.now in
        Past n stack.at (flags + n) ws.old × (stack.at + n ≤ flags) × Entries n stack.at stack.fill ws.old }
    ensures { Entering stack.at flags stack.fill ids.now ws.old ws.new stack.fill }
{
    for j in 0..stack.fill {
        enter_one(ids, ws, flags, stack.at + j);
    }
}

// The flag of the entry at i falls, and the entry is marked used if it has an id now.
fn leave_one(ids: &[u16], ws: &mut [u16], flags: usize, i: usize)
    requires i_lt_flags { (i < flags) × (flags ≤ last_place) × (length ids.now ≤ most_spans) }
    requires ids_in_bounds { (flags + length ids.now ≤ length ws.old) × ((get_or ws.old i 0 ≡ none → ⊥) → get_or ws.old i 0 < length ids.now) }
    ensures { let entry = get_or ws.old i 0 in
        ws.new ≡ set (flagged flags entry 0 ws.old) i (fresh ids.now entry) }
{
    let s = ws[i] as usize;
    if s == NO_SPAN {
        return;
    }
    ws[flags + s] = 0;
    if ids[s] != 0 {
        ws[i] = USED;
    }
}

// All of the stack.
pub(crate) fn leave_all(ids: &[u16], ws: &mut [u16], flags: usize, stack: Stack)
    requires { let n = length ids.now in
        Past n stack.at (flags + n) ws.old × (stack.at + n ≤ flags) × Entries n stack.at stack.fill ws.old }
    ensures { Leaving stack.at flags stack.fill ids.now ws.old ws.new stack.fill }
{
    for j in 0..stack.fill {
        leave_one(ids, ws, flags, stack.at + j);
    }
}
