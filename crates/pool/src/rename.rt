// Lists that are renamed where they are.
ghost use Rattle.std.specs.Prelude.{◌≡◌, ℕ, ◌≤◌, ◌<◌, length, get_or};
ghost use Rattle.table.specs.Map.{lists_at, floor_parts_at};
ghost use Rattle.table.specs.View.{Parts, list_start};
ghost use Rattle.pool.specs.Pool.{Renamed, Passed, Rows};
ghost use Rattle.pool.specs.Sweep.{MetBeside};
ghost use Rattle.pool.specs.Forms.{SearchedIn, OthersRenamed, ReachedIn, NamedRenamed};

use crate::bearers::next_of;
use crate::build::replace_neighbour;
use crate::{Half, Pair, Renaming};
use table::map::LISTS;
use table::{end_of, set_part, start_of, wide};

// In the list of record x, which is live, every old becomes new. The table is written only if the list ends elsewhere now.
fn rename_list(ws: &mut [u16], m: usize, x: usize, names: Renaming)
    requires { Parts m (lists_at m) ws.old × (x < m) × (floor_parts_at m ≤ list_start ws.old m x) × (get_or ws.old x 0 ≡ 0 → ⊥) }
    ensures { Renamed m x names.old names.new ws.old ws.new }
{
    let start = start_of(ws, m, LISTS * m, x);
    let end = end_of(ws, m, LISTS * m, x);
    let left = replace_neighbour(ws, start, end, names);
    if left != end {
        set_part(ws, m, LISTS * m, x, start, left);
    }
}

// The id of a record that is dead.
const DEAD: u16 = 0;

// The same, of any record but the pair; a dead record's list stays.
fn rename_one(ws: &mut [u16], m: usize, x: usize, pair: Pair, names: Renaming)
    requires { Parts m (lists_at m) ws.old × (x < m) × (floor_parts_at m ≤ list_start ws.old m x) }
    ensures { Passed m x pair.absorbed pair.absorber names.old names.new ws.old ws.new }
{
    if ws[x] != DEAD && x != pair.absorbed && x != pair.absorber {
        rename_list(ws, m, x, names);
    }
}

// The list of the record that bears what the record at s bears. Beside a place that is in no list anything can stand.
fn rename_beside(ws: &mut [u16], m: usize, s: usize, pair: Pair, names: Renaming)
    requires { Rows m ws.old × ((r : ℕ) → r < m → get_or ws.old r 0 < m) × (s < length ws.old) }
    ensures { MetBeside m s pair.absorbed pair.absorber names.old names.new ws.old ws.new }
{
    let y = usize::from(ws[s]);
    if y < m {
        let x = usize::from(ws[y]);
        rename_one(ws, m, x, pair, names);
    }
}

// The lists of the records beside the places that named y, the last first.
fn rename_named(ws: &mut [u16], m: usize, y: usize, pair: Pair, half: Half, names: Renaming)
    requires { ReachedIn m pair half ws.old × (y < m) × (names.old ≡ names.new → ⊥) }
    ensures { NamedRenamed m y pair half names ws.old ws.new }
{
    // A chain: each place links to an earlier one, and 0 ends it.
    let mut q = wide(ws, m, half.links + 2 * half.size + y);
    while q != 0 {
        q -= 1;
        rename_beside(ws, m, half.other + q, pair, names);
        q = wide(ws, half.size, half.links + q);
    }
}

// All records but the pair. Places that named old, or a record that became it, were linked: their records are those that can list it.
pub(crate) fn rename_all(ws: &mut [u16], m: usize, pair: Pair, half: Half, names: Renaming)
    requires { SearchedIn m pair half names ws.old × (names.old ≡ names.new → ⊥) }
    ensures { OthersRenamed m pair names ws.old ws.new }
{
    // A chain: each record names the next, and 0 ends it.
    let mut y = names.old as usize;
    while y != 0 {
        rename_named(ws, m, y, pair, half, names);
        y = next_of(ws, m, y);
    }
}
