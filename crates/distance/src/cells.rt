// The cell of each span, so that the stages need not find it again: they go over spans, and cells without spans are passed over once.
ghost use Rattle.std.specs.Prelude.{◌≡◌, ◌+◌, ◌*◌, ◌<◌, ◌≤◌, length};
ghost use Rattle.field.specs.Lent.{lent, Reached};
ghost use Rattle.rules.specs.Rows.{over_cell};
ghost use Rattle.distance.specs.Walk.{note_cell, cells_up, cells_of};
ghost use Rattle.field.specs.Seen.{seen};

use field::block::{block_of, is_empty};
use field::lent::Heightfield;

// For the spans of cell c. Most have one, for which a loop sets up more than it does.
fn spread_cell(field: &Heightfield, cells: &mut [u16], c: usize)
    requires { let F = seen field.now in
        Reached F × (c < F.w * F.h) × (length cells.old ≡ length F.area) }
    ensures { let F = seen field.now in
        cells.new ≡ over_cell F (note_cell F) c cells.old }
{
    let i = field.index[c] as usize;
    let k = field.count[c] as usize;
    if k == 1 {
        cells[i] = c as u16;
        return;
    }
    for j in 0..k {
        cells[i + j] = c as u16;
    }
}

// For those of the k cells from c on.
fn spread_cells(field: &Heightfield, cells: &mut [u16], c: usize, k: usize)
    requires { let F = seen field.now in
        Reached F × (c + k ≤ F.w * F.h) × (length cells.old ≡ length F.area) }
    ensures { let F = seen field.now in
        cells.new ≡ cells_up F (note_cell F) c k cells.old }
{
    for j in 0..k {
        spread_cell(field, cells, c + j);
    }
}

// The same, a block without spans at once.
fn spread_block(field: &Heightfield, cells: &mut [u16], c: usize, k: usize)
    requires { let F = seen field.now in
        Reached F × (c + k ≤ F.w * F.h) × (length cells.old ≡ length F.area) }
    ensures { let F = seen field.now in
        cells.new ≡ cells_up F (note_cell F) c k cells.old }
{
    if is_empty(field.count, c, k) {
        return;
    }
    spread_cells(field, cells, c, k);
}

// For all spans, block by block: the loop strides.
pub fn spread(field: &Heightfield, cells: &mut [u16])
    requires { let F = seen field.now in
        Reached F × (length cells.old ≡ length F.area) }
    ensures { cells.new ≡ cells_of (seen field.now) }
{
    // A copy of its own, so that the compiler keeps it in registers.
    let field = &{ *field };
    let all = field.w * field.h;
    let mut c: usize = 0;
    while c < all {
        let k = block_of(all - c);
        spread_block(field, cells, c, k);
        c += k;
    }
}
