// The mending of a hand-edited field: connections that lead to no span, or are not answered, become none, and each change is listed.
// One walk serves twice: with no room it counts the changes and writes nothing, with room for all it makes and notes them.

#![tactic(auto)]

mod grid;

ghost use Rattle.std.specs.Prelude.{◌≡◌, ◌+◌, ◌*◌, ◌<◌, length, get_or, []};
ghost use Rattle.rules.specs.Refusals.{refusal, most_spans};
ghost use Rattle.rules.specs.Mend.{stays, mend_outcome};
ghost use Rattle.field.specs.Lent.{lent, Celled};
ghost use Rattle.field.specs.Seen.{seen};
ghost use Rattle.mend.specs.Walk.{state, noted, step, walk, Ready};
ghost use Rattle.mend.specs.Grid.{bare, linked};
ghost use Rattle.mend.specs.Answer.{mend_number, outcome, before_links};

use crate::grid::Grid;
use checker::links::side_ok;
use checker::reach::leaves_grid;
use checker::{Refusal, check};
use field::lent::Heightfield;
use field::place::{Layer, NO_LAYER, SpanIx};

// Why nothing is mended: one of refusals 1 to 4, or a list without room.
#[derive(Clone, Copy)]
pub enum MendRefusal {
    Field(Refusal),
    NoRoom,
}

impl MendRefusal {
    // The number that C gets.
    pub fn number(self) -> u16
        ensures { result ≡ mend_number self }
    {
        match self {
            MendRefusal::Field(r) => r.number(),
            MendRefusal::NoRoom => 27,
        }
    }
}

// Change number k in its place.
fn note(changes: &mut [u16], k: usize, s: usize, d: usize, old: u8)
    requires { (3 * k + 2 < length changes.old) × (k < 4 * most_spans) × (s < 65536) × (d < 4) }
    ensures { changes.new ≡ noted changes.old k s d old }
{
    changes[3 * k] = s as u16;
    changes[3 * k + 1] = d as u16;
    changes[3 * k + 2] = old as u16;
}

// Connection old, in direction d, of the span in layer j of cell c stays.
fn link_stays(field: &Heightfield, c: usize, j: Layer, old: Layer, d: usize) -> bool
    requires celled { let F = seen field.now in
        Celled F × (j.0 < get_or F.count c 0) × (d < 4) }
    requires value { let F = seen field.now in
        old.0 ≡ get_or F.con (4 * (get_or F.index c 0 + j.0) + d) 0 }
    ensures { let F = seen field.now in
        result ≡ stays F (get_or F.index c 0 + j.0) d }
{
    let inside = !leaves_grid(field.w, field.h, c, d);
    side_ok(field, c, j, old, d, inside)
}

// The connection in direction d of span s, in layer j of cell c; k changes were found before it.
fn mend_link(
    grid: &Grid,
    con: &mut [u8],
    changes: &mut [u16],
    room: usize,
    c: usize,
    j: Layer,
    s: SpanIx,
    d: usize,
    k: usize,
) -> usize
    requires ready { Ready (linked grid.now con.old) changes.old room k 1 × (j.0 < get_or grid.now.count.now c 0) }
    requires s_value { (s.0 ≡ get_or grid.now.index.now c 0 + j.0) × (d < 4) }
    ensures { state con.new changes.new result
        ≡ step (bare grid.now) room (4 * s.0 + d) (state con.old changes.old k) }
{
    let i = 4 * s.0 + d;
    let old = con[i];
    let field = Heightfield {
        w: grid.w,
        h: grid.h,
        index: grid.index,
        count: grid.count,
        area: grid.area,
        con: &*con,
    };
    if link_stays(&field, c, j, Layer(old), d) {
        return k;
    }
    if room <= k {
        return k + 1;
    }
    con[i] = NO_LAYER;
    note(changes, k, s.0, d, old);
    k + 1
}

// The four connections of span s.
fn mend_span(
    grid: &Grid,
    con: &mut [u8],
    changes: &mut [u16],
    room: usize,
    c: usize,
    j: Layer,
    s: SpanIx,
    k: usize,
) -> usize
    requires ready { Ready (linked grid.now con.old) changes.old room k 4 × (j.0 < get_or grid.now.count.now c 0) }
    requires s_value { s.0 ≡ get_or grid.now.index.now c 0 + j.0 }
    ensures { state con.new changes.new result
        ≡ walk (bare grid.now) room (4 * s.0) 4 (state con.old changes.old k) }
{
    let mut found = k;
    for d in 0..4 {
        found = mend_link(grid, con, changes, room, c, j, s, d, found);
    }
    found
}

// The connections of the spans of cell c.
fn mend_cell(
    grid: &Grid,
    con: &mut [u8],
    changes: &mut [u16],
    room: usize,
    c: usize,
    k: usize,
) -> usize
    requires { let G = grid.now in
        Ready (linked G con.old) changes.old room k (4 * get_or G.count.now c 0) × (c < G.w * G.h) }
    ensures { let G = grid.now in
        state con.new changes.new result
        ≡ walk (bare G) room (4 * get_or G.index.now c 0) (4 * get_or G.count.now c 0) (state con.old changes.old k) }
{
    let i = grid.index[c] as usize;
    let layers = grid.count[c];
    let mut found = k;
    for j in 0..layers {
        let s = SpanIx(i + j as usize);
        found = mend_span(grid, con, changes, room, c, Layer(j), s, found);
    }
    found
}

// Every connection; how many changes there are.
fn mend_cells(grid: &Grid, con: &mut [u8], changes: &mut [u16], room: usize) -> usize
    requires { let G = grid.now in
        Ready (linked G con.old) changes.old room 0 (4 * length G.area.now) }
    ensures { let G = grid.now in
        state con.new changes.new result
        ≡ walk (bare G) room 0 (4 * length G.area.now) (state con.old changes.old 0) }
{
    // A copy of its own, so that the compiler keeps it in registers while connections are written.
    let grid = &{ *grid };
    let mut found: usize = 0;
    for c in 0..grid.count.len() {
        found = mend_cell(grid, con, changes, room, c, found);
    }
    found
}

// A field with none of refusals 1 to 4. Counts first, since nothing is written where the list has no room.
fn mend_all(grid: &Grid, con: &mut [u8], changes: &mut [u16]) -> Result<u32, MendRefusal>
    requires { before_links (refusal (linked grid.now con.old) []) ≡ 0 }
    ensures { outcome result con.new changes.new
        ≡ mend_outcome (linked grid.now con.old) changes.old }
{
    let room = changes.len() / 3;
    if room < mend_cells(grid, con, changes, 0) {
        return Err(MendRefusal::NoRoom);
    }
    let made = mend_cells(grid, con, changes, room);
    Ok(made as u32)
}

// The first refusal that is about connections.
const LINKS: u16 = 5;

// The entry: any input; how many connections were set to none. A sound field is left as it is after the checker's one pass.
// Of the refusals that the checker gives, those past 4 are about connections, and are what is mended: so no `?` on the checker's answer.
pub fn mend(
    w: u16,
    h: u16,
    index: &[u32],
    count: &[u8],
    area: &[u8],
    con: &mut [u8],
    changes: &mut [u16],
) -> Result<u32, MendRefusal>
    ensures { outcome result con.new changes.new
        ≡ mend_outcome (lent w h index.now count.now area.now con.old) changes.old }
{
    let w = w as usize;
    let h = h as usize;
    let n = area.len();
    let field = Heightfield {
        w,
        h,
        index,
        count,
        area,
        con: &*con,
    };
    match check(&field, n, n) {
        Ok(()) => Ok(0),
        Err(r) => {
            if r.number() < LINKS {
                return Err(MendRefusal::Field(r));
            }
            let grid = Grid {
                w,
                h,
                index,
                count,
                area,
            };
            mend_all(&grid, con, changes)
        }
    }
}
