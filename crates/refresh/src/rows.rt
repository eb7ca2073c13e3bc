// The spans of a row, which follow each other, and the part of a list that they are.
ghost use Rattle.std.specs.Prelude.{◌≡◌, ◌+◌, ◌<◌, ◌≤◌, length};
ghost use Rattle.field.specs.Lent.{Sound};
ghost use Rattle.refresh.specs.Part.{FirstCell, LastCell, RowPart, part_to, same_part};
ghost use Rattle.field.specs.Seen.{seen};

use field::lent::Heightfield;
use space::copy;

// Spans from number `from` on, up to number `to`, which is not among them.
#[derive(Clone, Copy)]
pub(crate) struct Part {
    pub from: usize,
    pub to: usize,
}

// The first of the w cells from cell c on that is not empty, counted from c; w if there is none.
fn first_cell(count: &[u8], c: usize, w: usize) -> usize
    requires { (c + w ≤ length count.now) × (c + w ≤ 65536) }
    ensures { FirstCell count.now c w result }
{
    for x in 0..w {
        if count[c + x] != 0 {
            return x;
        }
    }
    w
}

// How many of these cells there are up to the last that is not empty.
fn last_cell(count: &[u8], c: usize, w: usize) -> usize
    requires { (c + w ≤ length count.now) × (c + w ≤ 65536) }
    ensures { LastCell count.now c w result }
{
    for x in (0..w).rev() {
        if count[c + x] != 0 {
            return x + 1;
        }
    }
    0
}

// The spans of row y.
pub(crate) fn row_part(field: &Heightfield, y: usize) -> Part
    requires { let F = seen field.now in
        Sound F × (y < F.h) }
    ensures { RowPart (seen field.now) y result.from result.to }
{
    let c = field.w * y;
    let a = first_cell(field.count, c, field.w);
    let z = last_cell(field.count, c, field.w);
    if z == 0 {
        return Part { from: 0, to: 0 };
    }
    let last = c + z - 1;
    Part {
        from: field.index[c + a] as usize,
        to: field.index[last] as usize + field.count[last] as usize,
    }
}

// A part of one list into another.
pub(crate) fn copy_part(values: &[u16], to: &mut [u16], a: usize, b: usize)
    requires { (a ≤ b) × (b ≤ length values.now) × (b ≤ length to.old) }
    ensures { to.new ≡ part_to values.now a b to.old }
{
    copy(&values[a..b], &mut to[a..b]);
}

// Whether a part of one list holds what another holds there.
pub(crate) fn same_part(old: &[u16], new: &[u16], a: usize, b: usize) -> bool
    requires { (a ≤ b) × (b ≤ length old.now) × (b ≤ length new.now) }
    ensures { result ≡ same_part old.now new.now a b }
{
    &new[a..b] == &old[a..b]
}
