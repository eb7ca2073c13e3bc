// The greatest value, and the box blur.
ghost use Rattle.std.specs.Prelude.{◌≡◌, ◌+◌, ◌<◌, ◌≤◌, max, length};
ghost use Rattle.rules.specs.Distance as rules;
ghost use Rattle.field.specs.Lent.{Reached, Stands, cons_at};
ghost use Rattle.rules.specs.Rows.{over_cell, blur_to, blur_row};
ghost use Rattle.distance.specs.Walk.{columns_up, cells_of};
ghost use Rattle.field.specs.Seen.{seen};

use field::block::{block_of, is_empty};
use field::lent::Heightfield;
use field::place::{NO_LAYER, Place, SpanIx, connections, follow};

// A raw value of at most this stays.
pub const THRESHOLD: usize = 2;

// The greatest value of a list, 0 for none.
pub fn greatest(raw: &[u16]) -> u16
    ensures { result ≡ rules.greatest raw.now }
{
    let mut best: u16 = 0;
    for x in raw {
        best = best.max(*x);
    }
    best
}

// The terms of direction d for the span at place p, which holds v: its neighbour and its corner neighbour, or v for each that is missing.
fn term(field: &Heightfield, raw: &[u16], cons: [u8; 4], p: Place, d: usize, v: usize) -> usize
    requires place { let F = seen field.now in
        Reached F × Stands F p.cell p.span.0 × (cons ≡ cons_at F.con p.span.0) × (length raw.now ≡ length F.area) }
    requires size { (d < 4) × (v < 65536) }
    ensures { let F = seen field.now in
        (result ≡ rules.term F raw.now p.span.0 v d) × (result ≤ 131070) }
{
    if cons[d] == NO_LAYER {
        return v * 2;
    }
    let q = follow(field.w, field.index, cons, p.cell, d);
    let t = q.span;
    let x = raw[t.0] as usize;
    let next = connections(field.con, t);
    let e = (d + 1) % 4;
    if next[e] == NO_LAYER {
        return x + v;
    }
    let k = follow(field.w, field.index, next, q.cell, e);
    x + raw[k.span.0] as usize
}

// The blurred value of the span at place p.
fn blur_span(field: &Heightfield, raw: &[u16], p: Place) -> u16
    requires { let F = seen field.now in
        Reached F × Stands F p.cell p.span.0 × (length raw.now ≡ length F.area) }
    ensures { let F = seen field.now in
        result ≡ rules.blur_at F raw.now p.span.0 }
{
    let v = raw[p.span.0] as usize;
    if v <= THRESHOLD {
        return v as u16;
    }
    let cons = connections(field.con, p.span);
    let a = term(field, raw, cons, p, 0, v);
    let b = term(field, raw, cons, p, 1, v);
    let c = term(field, raw, cons, p, 2, v);
    let d = term(field, raw, cons, p, 3, v);
    ((v + a + b + c + d + 5) / 9) as u16
}

// The spans of cell c.
fn blur_cell(field: &Heightfield, raw: &[u16], blurred: &mut [u16], c: usize)
    requires { let F = seen field.now in
        Reached F × (length raw.now ≡ length F.area) × (length blurred.old ≡ length F.area) × (c < length F.count) }
    ensures { let F = seen field.now in
        blurred.new ≡ over_cell F (blur_to F raw.now) c blurred.old }
{
    let i = field.index[c] as usize;
    let k = field.count[c] as usize;
    for j in 0..k {
        let s = i + j;
        let p = Place {
            cell: c,
            span: SpanIx(s),
        };
        blurred[s] = blur_span(field, raw, p);
    }
}

// The k columns of row y from x on.
fn blur_columns(field: &Heightfield, raw: &[u16], blurred: &mut [u16], x: usize, k: usize, y: usize)
    requires { let F = seen field.now in
        Reached F × (length raw.now ≡ length F.area) × (length blurred.old ≡ length F.area) × (x + k ≤ F.w) × (y < F.h) }
    ensures { let F = seen field.now in
        blurred.new ≡ columns_up F (blur_to F raw.now) y x k blurred.old }
{
    let first = field.w * y + x;
    for j in 0..k {
        blur_cell(field, raw, blurred, first + j);
    }
}

// The same, a block without spans at once.
fn blur_block(field: &Heightfield, raw: &[u16], blurred: &mut [u16], x: usize, k: usize, y: usize)
    requires { let F = seen field.now in
        Reached F × (length raw.now ≡ length F.area) × (length blurred.old ≡ length F.area) × (x + k ≤ F.w) × (y < F.h) }
    ensures { let F = seen field.now in
        blurred.new ≡ columns_up F (blur_to F raw.now) y x k blurred.old }
{
    if is_empty(field.count, field.w * y + x, k) {
        return;
    }
    blur_columns(field, raw, blurred, x, k, y);
}

// Row y, block by block: the loop strides.
pub fn blur_row(field: &Heightfield, raw: &[u16], blurred: &mut [u16], y: usize)
    requires { let F = seen field.now in
        Reached F × (length raw.now ≡ length F.area) × (length blurred.old ≡ length F.area) × (y < F.h) }
    ensures { let F = seen field.now in
        blurred.new ≡ blur_row F raw.now y blurred.old }
{
    let mut x: usize = 0;
    while x < field.w {
        let k = block_of(field.w - x);
        blur_block(field, raw, blurred, x, k, y);
        x += k;
    }
}

// All spans; before it the list of the blurred values has the cell of each.
pub fn box_blur(field: &Heightfield, raw: &[u16], blurred: &mut [u16])
    requires { let F = seen field.now in
        Reached F × (length raw.now ≡ length F.area) × (blurred.old ≡ cells_of F) }
    ensures { let F = seen field.now in
        blurred.new ≡ rules.blur F raw.now }
{
    // A copy of its own, so that the compiler keeps it in registers.
    let field = &{ *field };
    for s in 0..field.area.len() {
        let p = Place {
            cell: blurred[s] as usize,
            span: SpanIx(s),
        };
        blurred[s] = blur_span(field, raw, p);
    }
}
