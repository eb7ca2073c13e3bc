// Two records' lists become one.
ghost use Rattle.std.specs.Prelude.{◌≡◌, ◌+◌, ◌≤◌};
ghost use Rattle.space.specs.Space.{Frame};
ghost use Rattle.table.specs.View.{part};
ghost use Rattle.pool.specs.Pool.{len_at, Target};
ghost use Rattle.pool.specs.Forms.{joined_of, PairIn, AbsorbedIn};

use crate::build::{Around, join, replace_neighbour};
use crate::{Pair, Renaming};
use table::map::LISTS;
use table::{end_of, set_part, start_of};

// The lists of the pair joined at `to`, below `limit`, and renamed. Gives where the list ends.
fn join_lists(
    ws: &mut [u16],
    m: usize,
    pair: Pair,
    names: Renaming,
    to: usize,
    limit: usize,
) -> usize
    requires { Target m pair.absorber pair.absorbed to limit ws.old × PairIn m pair ws.old }
    ensures ws_after { part to result ws.new ≡ joined_of m pair names ws.old }
    ensures lower_bound { (to ≤ result) × (result ≤ to + len_at ws.old m pair.absorber + len_at ws.old m pair.absorbed) }
    ensures frame { Frame to limit ws.old ws.new }
{
    let absorber = Around {
        from: start_of(ws, m, LISTS * m, pair.absorber),
        end: end_of(ws, m, LISTS * m, pair.absorber),
        entry: pair.entry,
    };
    let absorbed = Around {
        from: start_of(ws, m, LISTS * m, pair.absorbed),
        end: end_of(ws, m, LISTS * m, pair.absorbed),
        entry: pair.back,
    };
    let end = join(ws, absorber, absorbed, to, limit);
    replace_neighbour(ws, to, end, names)
}

// The joined list is the absorber's, and the absorbed one's is empty. Gives where the joined list ends.
pub(crate) fn absorb(
    ws: &mut [u16],
    m: usize,
    pair: Pair,
    names: Renaming,
    to: usize,
    limit: usize,
) -> usize
    requires { Target m pair.absorber pair.absorbed to limit ws.old × PairIn m pair ws.old }
    ensures { AbsorbedIn m pair names to limit result ws.old ws.new }
{
    let e = join_lists(ws, m, pair, names, to, limit);
    set_part(ws, m, LISTS * m, pair.absorber, to, e);
    set_part(ws, m, LISTS * m, pair.absorbed, e, e);
    e
}
