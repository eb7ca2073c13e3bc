// Refusals 5 and 6: a connection leads into the grid, to a span that leads back. A walk asks it of half of the directions, and two numbers tell of the others.
// Row by row, so that no division tells where a cell stands.
ghost use Rattle.std.specs.Prelude.{◌≡◌, false, not, ◌+◌, ◌*◌, ◌<◌, ◌≤◌};
ghost use Rattle.rules.specs.Base.{◌and◌, every};
ghost use Rattle.rules.specs.Field.{spans, leaves, con_of};
ghost use Rattle.rules.specs.Mend.{stays};
ghost use Rattle.field.specs.Lent.{lent, Celled, cons_at};
ghost use Rattle.checker.specs.Links.{span_in, Layered, Inner, Column, inner_at, half_at, reach_at, back_at, in_cell, in_columns, in_row};
ghost use Rattle.field.specs.Seen.{seen};

use crate::tally::links_in;
use field::block::{block_of, is_empty};
use field::lent::Heightfield;
use field::place::{Layer, NO_LAYER, SpanIx, cell_across, connections, span_at};

// The connection k of the span in layer j of cell c, in a direction d that does not leave the grid, is none, or leads to a span that leads back.
fn link_ok(field: &Heightfield, c: usize, j: Layer, k: Layer, d: usize) -> bool
    requires { let F = seen field.now in
        Layered F c j.0 × (k.0 ≡ con_of F (span_in F c j.0) d) × (d < 4) × (leaves F.w F.h c d ≡ false) }
    ensures { let F = seen field.now in
        result ≡ stays F (span_in F c j.0) d }
{
    if k.0 == NO_LAYER {
        return true;
    }
    let a = cell_across(field.w, c, d);
    if field.count[a] <= k.0 {
        return false;
    }
    let t = span_at(field.index, a, k);
    // The answer names a layer of the cell that it comes from: there only j is the span that asked.
    field.con[4 * t.0 + (d + 2) % 4] == j.0
}

// The same in any direction; inside: it does not leave the grid.
pub fn side_ok(field: &Heightfield, c: usize, j: Layer, k: Layer, d: usize, inside: bool) -> bool
    requires { let F = seen field.now in
        Layered F c j.0 × (k.0 ≡ con_of F (span_in F c j.0) d) × (d < 4) × (inside ≡ not (leaves F.w F.h c d)) }
    ensures { let F = seen field.now in
        result ≡ stays F (span_in F c j.0) d }
{
    if inside {
        return link_ok(field, c, j, k, d);
    }
    k.0 == NO_LAYER
}

// Of the connections cons those in directions 0 and 1, of the span in layer j of cell c, which has a cell on both sides.
// Most cells do: written out, so that no side is tested.
fn inner_ok(field: &Heightfield, c: usize, j: Layer, cons: [u8; 4]) -> bool
    requires { let F = seen field.now in
        Layered F c j.0 × (cons ≡ cons_at F.con (span_in F c j.0)) × Inner F.w F.h c }
    ensures { let F = seen field.now in
        result ≡ half_at F (span_in F c j.0) }
{
    link_ok(field, c, j, Layer(cons[0]), 0) && link_ok(field, c, j, Layer(cons[1]), 1)
}

// The same of cell c in column x of row z, wherever that is.
fn edge_ok(field: &Heightfield, c: usize, j: Layer, cons: [u8; 4], x: usize, z: usize) -> bool
    requires { let F = seen field.now in
        Layered F c j.0 × (cons ≡ cons_at F.con (span_in F c j.0)) × Column F.w F.h c x z }
    ensures { let F = seen field.now in
        result ≡ half_at F (span_in F c j.0) }
{
    side_ok(field, c, j, Layer(cons[0]), 0, 0 < x)
        && side_ok(field, c, j, Layer(cons[1]), 1, z + 1 < field.h)
}

// The same of span s, in layer j of cell c, in column x of row z; inner: it has a cell on both sides.
fn span_ok(
    field: &Heightfield,
    c: usize,
    s: SpanIx,
    j: Layer,
    x: usize,
    z: usize,
    inner: bool,
) -> bool
    requires { let F = seen field.now in
        Layered F c j.0 × (s.0 ≡ span_in F c j.0) × Column F.w F.h c x z × (inner ≡ inner_at F.w F.h x z) }
    ensures { result ≡ half_at (seen field.now) s.0 }
{
    let cons = connections(field.con, s);
    if inner {
        return inner_ok(field, c, j, cons);
    }
    edge_ok(field, c, j, cons, x, z)
}

// The spans of cell c.
fn cell_ok(field: &Heightfield, c: usize, x: usize, z: usize, inner: bool) -> bool
    requires { let F = seen field.now in
        Celled F × Column F.w F.h c x z × (inner ≡ inner_at F.w F.h x z) × (c < F.w * F.h) }
    ensures { let F = seen field.now in
        result ≡ in_cell F (half_at F) c }
{
    let i = field.index[c] as usize;
    let k = field.count[c];
    for j in 0..k {
        if !span_ok(field, c, SpanIx(i + j as usize), Layer(j), x, z, inner) {
            return false;
        }
    }
    true
}

// The cell in column x of row z has a cell across in directions 0 and 1.
fn is_inner(w: usize, h: usize, x: usize, z: usize) -> bool
    requires { (x < w) × (z < h) }
    ensures { result ≡ inner_at w h x z }
{
    0 < x && z + 1 < h
}

// The cell in column x of row z.
fn column_ok(field: &Heightfield, x: usize, z: usize) -> bool
    requires { let F = seen field.now in
        Celled F × (x < F.w) × (z < F.h) }
    ensures { let F = seen field.now in
        result ≡ in_cell F (half_at F) (F.w * z + x) }
{
    let inner = is_inner(field.w, field.h, x, z);
    cell_ok(field, field.w * z + x, x, z, inner)
}

// The k columns of row z from x on.
fn columns_ok(field: &Heightfield, x: usize, k: usize, z: usize) -> bool
    requires { let F = seen field.now in
        Celled F × (x + k ≤ F.w) × (z < F.h) }
    ensures { let F = seen field.now in
        result ≡ in_columns F (half_at F) z x k }
{
    for j in 0..k {
        if !column_ok(field, x + j, z) {
            return false;
        }
    }
    true
}

// The same, a block without spans at once.
fn block_ok(field: &Heightfield, x: usize, k: usize, z: usize) -> bool
    requires { let F = seen field.now in
        Celled F × (x + k ≤ F.w) × (z < F.h) }
    ensures { let F = seen field.now in
        result ≡ in_columns F (half_at F) z x k }
{
    is_empty(field.count, field.w * z + x, k) || columns_ok(field, x, k, z)
}

// Row z, block by block: the loop strides.
fn row_ok(field: &Heightfield, z: usize) -> bool
    requires { let F = seen field.now in
        Celled F × (z < F.h) }
    ensures { let F = seen field.now in
        result ≡ in_row F (half_at F) z }
{
    let mut x: usize = 0;
    while x < field.w {
        let k = block_of(field.w - x);
        if !block_ok(field, x, k, z) {
            return false;
        }
        x += k;
    }
    true
}

// Every row.
fn rows_ok(field: &Heightfield) -> bool
    requires { Celled (seen field.now) }
    ensures { let F = seen field.now in
        result ≡ every (spans F) (half_at F) }
{
    (0..field.h).all(|z| row_ok(field, z))
}

// Every connection. Each in directions 0 and 1 is asked. One that is good has an answer of its own in 2 or 3:
// where there are no others, all of these are answers, and good.
pub(crate) fn links_ok(field: &Heightfield) -> bool
    requires { Celled (seen field.now) }
    ensures { let F = seen field.now in
        result ≡ (every (spans F) (reach_at F) and every (spans F) (back_at F)) }
{
    rows_ok(field) && links_in(field.con, 2) == links_in(field.con, 0)
}
