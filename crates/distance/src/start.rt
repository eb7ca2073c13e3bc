// The start: 65,535, and 0 for a span with fewer than four neighbours of its own area.
ghost use Rattle.std.specs.Prelude.{◌≡◌, true, ◌<◌, get_or, eqb};
ghost use Rattle.rules.specs.Distance as rules;
ghost use Rattle.field.specs.Lent.{Reached, Stands, cons_at};
ghost use Rattle.distance.specs.Value.{ringed, Layers};
ghost use Rattle.field.specs.Seen.{seen};

use field::lent::Heightfield;
use field::place::{Place, follow};

// Where a span starts that has four neighbours of its own area.
pub(crate) const FARTHEST: u16 = 65535;

// Above every layer, since a cell has at most 63, and not above none. It is one bit, so that all four connections of a span are tested at once when compiled.
const PAST_LAYERS: u8 = 128;

// A span with the connections cons has a neighbour in each direction.
pub(crate) fn surrounded(cons: [u8; 4]) -> bool
    requires { Layers cons }
    ensures { result ≡ ringed cons }
{
    cons[0] < PAST_LAYERS && cons[1] < PAST_LAYERS && cons[2] < PAST_LAYERS && cons[3] < PAST_LAYERS
}

// The neighbour in direction d, which is there, of the span at place p has the span's own area.
fn same(field: &Heightfield, cons: [u8; 4], p: Place, d: usize) -> bool
    requires { let F = seen field.now in
        Reached F × Stands F p.cell p.span.0 × (cons ≡ cons_at F.con p.span.0) × (d < 4) × (get_or cons d 0 ≡ 255 → ⊥) }
    ensures { let F = seen field.now in
        result ≡ eqb (rules.same F p.span.0 d) 1 }
{
    let q = follow(field.w, field.index, cons, p.cell, d);
    field.area[q.span.0] == field.area[p.span.0]
}

// The start of the span at place p, which has four neighbours: the first of another area decides.
pub(crate) fn start_span(field: &Heightfield, cons: [u8; 4], p: Place) -> u16
    requires { let F = seen field.now in
        Reached F × Stands F p.cell p.span.0 × (cons ≡ cons_at F.con p.span.0) × (ringed cons ≡ true) }
    ensures { let F = seen field.now in
        result ≡ rules.start_at F p.span.0 }
{
    if same(field, cons, p, 0)
        && same(field, cons, p, 1)
        && same(field, cons, p, 2)
        && same(field, cons, p, 3)
    {
        return FARTHEST;
    }
    0
}
