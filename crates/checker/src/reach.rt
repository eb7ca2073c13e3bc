// Refusal 5: over the directions of a span, over the layers of a cell, and over the cells.
ghost use Rattle.std.specs.Prelude.{◌≡◌, ◌*◌, ◌<◌, ◌≤◌, length};
ghost use Rattle.rules.specs.Base.{every};
ghost use Rattle.rules.specs.Field.{spans, leaves};
ghost use Rattle.field.specs.Lent.{lent, Celled};
ghost use Rattle.checker.specs.Links.{names, names_at, reach_at, in_cell};
ghost use Rattle.field.specs.Seen.{seen};

use field::lent::Heightfield;
use field::place::{Layer, NO_LAYER, SpanIx, cell_across, connections};

// There is no cell across.
pub fn leaves_grid(w: usize, h: usize, c: usize, d: usize) -> bool
    requires { (0 < w) × (c < 65536) × (d < 4) }
    ensures { result ≡ leaves w h c d }
{
    match d {
        0 => c % w == 0,
        1 => h <= c / w + 1,
        2 => w <= c % w + 1,
        _ => c / w == 0,
    }
}

// Connection k, in direction d, of a span in cell c is none, or stays in the grid and names a layer of the cell across.
fn con_ok(w: usize, h: usize, count: &[u8], c: usize, k: Layer, d: usize) -> bool
    requires { (w ≤ 256) × (c < 65536) × (c < w * h) × (length count.now ≡ w * h) × (d < 4) }
    ensures { result ≡ names w h count.now c k.0 d }
{
    if k.0 == NO_LAYER {
        return true;
    }
    if leaves_grid(w, h, c, d) {
        return false;
    }
    let a = cell_across(w, c, d);
    k.0 < count[a]
}

// The four connections of a span in cell c.
fn span_ok(w: usize, h: usize, count: &[u8], c: usize, cons: [u8; 4]) -> bool
    requires { (w ≤ 256) × (c < 65536) × (c < w * h) × (length count.now ≡ w * h) }
    ensures { result ≡ every 4 (names_at w h count.now c cons) }
{
    (0..4).all(|d| con_ok(w, h, count, c, Layer(cons[d]), d))
}

// The spans of cell c.
fn cell_ok(field: &Heightfield, c: usize) -> bool
    requires { let F = seen field.now in
        Celled F × (c < length F.count) }
    ensures { let F = seen field.now in
        result ≡ in_cell F (reach_at F) c }
{
    let i = field.index[c] as usize;
    let k = field.count[c];
    for j in 0..k {
        let cons = connections(field.con, SpanIx(i + j as usize));
        if !span_ok(field.w, field.h, field.count, c, cons) {
            return false;
        }
    }
    true
}

// Every span.
pub(crate) fn reach_ok(field: &Heightfield) -> bool
    requires { Celled (seen field.now) }
    ensures { let F = seen field.now in
        result ≡ every (spans F) (reach_at F) }
{
    (0..field.count.len()).all(|c| cell_ok(field, c))
}
