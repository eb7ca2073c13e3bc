// The rows of the passes and of the blur redone. A row that may be the last is compared with what was stored for it: that is kept in the blurred list,
// whose row is made again from the raw values afterwards.
ghost use Rattle.std.specs.Prelude.{◌≡◌, ◌+◌, ◌-◌, ◌<◌, ◌≤◌, length};
ghost use Rattle.rules.specs.Rows.{pass1_row};
ghost use Rattle.rules.specs.Refresh.{Rows, as_stored, values_row, from_pass1, onward, backward, blur_rows};
ghost use Rattle.field.specs.Lent.{Sound};
ghost use Rattle.distance.specs.Value.{Low};
ghost use Rattle.refresh.specs.Part.{RowPart};
ghost use Rattle.refresh.specs.Redo.{redone, pass1_rows, pass2_rows, Kept};
ghost use Rattle.field.specs.Seen.{seen};

use crate::rows::{copy_part, row_part, same_part};
use distance::blur::blur_row;
use distance::pass::{pass1_row, pass2_row};
use field::lent::Heightfield;

// Pass 1 over rows a to b, b not included.
pub(crate) fn pass1_rows(field: &Heightfield, pass1: &mut [u16], a: usize, b: usize)
    requires { let F = seen field.now in
        Sound F × (a ≤ b) × (b ≤ F.h) × Low F pass1.old }
    ensures { let F = seen field.now in
        (pass1.new ≡ pass1_rows F a b pass1.old) × Low F pass1.new }
{
    for y in a..b {
        pass1_row(field, pass1, y);
    }
}

// Row y of pass 1: whether it comes out as stored.
fn redo1_row(field: &Heightfield, pass1: &mut [u16], kept: &mut [u16], y: usize) -> bool
    requires { let F = seen field.now in
        Sound F × (y < F.h) × Low F pass1.old × (length kept.old ≡ length F.area) }
    ensures { let F = seen field.now in
        (pass1.new ≡ pass1_row F y pass1.old) × (result ≡ as_stored F y pass1.old pass1.new)
        × Low F pass1.new × Kept F y (y + 1) kept.old kept.new }
{
    let part = row_part(field, y);
    let a = part.from;
    let b = part.to;
    copy_part(pass1, kept, a, b);
    pass1_row(field, pass1, y);
    same_part(kept, pass1, a, b)
}

// Pass 1 from row z1 + 1 on: the first row that comes out as stored, or the last of the field.
pub(crate) fn settle1(field: &Heightfield, pass1: &mut [u16], kept: &mut [u16], z1: usize) -> usize
    requires { let F = seen field.now in
        Sound F × (z1 < F.h) × Low F pass1.old × (length kept.old ≡ length F.area) }
    ensures { let F = seen field.now in
        (redone pass1.new result ≡ onward F z1 (F.h - (z1 + 1)) (z1 + 1) pass1.old) × (z1 ≤ result) × (result < F.h)
        × Low F pass1.new × Kept F (z1 + 1) (result + 1) kept.old kept.new }
{
    for y in z1 + 1..field.h {
        if redo1_row(field, pass1, kept, y) {
            return y;
        }
    }
    field.h - 1
}

// Row y of pass 2 from its pass 1 values; the row is spans a to b, b not included.
fn pass2_from(field: &Heightfield, pass1: &[u16], raw: &mut [u16], y: usize, a: usize, b: usize)
    requires { let F = seen field.now in
        Sound F × (y < F.h) × RowPart F y a b × Low F pass1.now × Low F raw.old }
    ensures { let F = seen field.now in
        (raw.new ≡ from_pass1 F pass1.now y raw.old) × Low F raw.new }
{
    copy_part(pass1, raw, a, b);
    pass2_row(field, raw, y);
}

// Pass 2 over rows a to b, b not included.
pub(crate) fn pass2_rows(field: &Heightfield, pass1: &[u16], raw: &mut [u16], a: usize, b: usize)
    requires { let F = seen field.now in
        Sound F × (a ≤ b) × (b ≤ F.h) × Low F pass1.now × Low F raw.old }
    ensures { let F = seen field.now in
        (raw.new ≡ pass2_rows F pass1.now a b raw.old) × Low F raw.new }
{
    for y in (a..b).rev() {
        let part = row_part(field, y);
        pass2_from(field, pass1, raw, y, part.from, part.to);
    }
}

// Row y of pass 2: whether it comes out as stored. Its twin redo1_row reads no second list; one function for both has no shorter clause.
fn redo2_row(
    field: &Heightfield,
    pass1: &[u16],
    raw: &mut [u16],
    kept: &mut [u16],
    y: usize,
) -> bool
    requires { let F = seen field.now in
        Sound F × (y < F.h) × Low F pass1.now × Low F raw.old × (length kept.old ≡ length F.area) }
    ensures { let F = seen field.now in
        (raw.new ≡ from_pass1 F pass1.now y raw.old) × (result ≡ as_stored F y raw.old raw.new)
        × Low F raw.new × Kept F y (y + 1) kept.old kept.new }
{
    let part = row_part(field, y);
    let a = part.from;
    let b = part.to;
    copy_part(raw, kept, a, b);
    pass2_from(field, pass1, raw, y, a, b);
    same_part(kept, raw, a, b)
}

// Pass 2 from row z0 - 1, or row 0, backward: the first row that comes out as stored, or row 0.
pub(crate) fn settle2(
    field: &Heightfield,
    pass1: &[u16],
    raw: &mut [u16],
    kept: &mut [u16],
    first: usize,
) -> usize
    requires { let F = seen field.now in
        Sound F × (first < F.h) × Low F pass1.now × Low F raw.old × (length kept.old ≡ length F.area) }
    ensures { let F = seen field.now in
        (redone raw.new result ≡ backward F (first + 1) pass1.now (first + 1) raw.old) × (result ≤ first)
        × Low F raw.new × Kept F result (first + 1) kept.old kept.new }
{
    for y in (0..first + 1).rev() {
        if redo2_row(field, pass1, raw, kept, y) {
            return y;
        }
    }
    0
}

// The blur of rows first to last, both included.
pub(crate) fn blur_rows(
    field: &Heightfield,
    raw: &[u16],
    blurred: &mut [u16],
    first: usize,
    last: usize,
)
    requires { let F = seen field.now in
        Sound F × (first ≤ last) × (last < F.h) × (length raw.now ≡ length F.area) × (length blurred.old ≡ length F.area) }
    ensures { (let F = seen field.now in
        let v : Rows = record { first = first; last = last } in
        blurred.new ≡ blur_rows F raw.now v blurred.old) }
{
    for y in first..last + 1 {
        blur_row(field, raw, blurred, y);
    }
}
