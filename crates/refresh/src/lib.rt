// A door in an editor: area codes change in one rectangle, and the rows that may come out otherwise are redone. With it the build that writes the
// three lists that a refresh takes.

#![tactic(auto)]

pub mod into;
mod redo;
mod rows;

ghost use Rattle.std.specs.Prelude.{◌≡◌, [], ◌∷◌, Ok, ◌+◌, ◌-◌, ◌<◌, ◌≤◌, length};
ghost use Rattle.rules.specs.Refusals.{refusal};
ghost use Rattle.rules.specs.Distance as rules;
ghost use Rattle.rules.specs.Refresh.{wrong_rect, wrong_stored, onward, backward, refreshed, stages_outcome, refresh_outcome};
ghost use Rattle.field.specs.Lent.{Sound};
ghost use Rattle.checker.specs.Answer.{verdict_number};
ghost use Rattle.distance.specs.Value.{Low};
ghost use Rattle.distance.specs.Walk.{cells_of};
ghost use Rattle.refresh.specs.Redo.{redone, Kept, Passed};
ghost use Rattle.refresh.specs.Answer.{rect, stages_given, refresh_number_of, refresh_given, odd_length, refusal_of, refresh_verdict_number};
ghost use Rattle.field.specs.Seen.{seen};

use crate::redo::{blur_rows, pass1_rows, pass2_rows, settle1, settle2};
use crate::rows::copy_part;
use checker::{Refusal, check};
use distance::blur::{box_blur, greatest};
use distance::cells::spread;
use distance::pass::{pass1 as pass1_whole, pass2 as pass2_whole};
use field::lent::Heightfield;
use table::any_above;

// max_distance, and the first and the last row redone in each stage.
#[derive(Clone, Copy)]
pub struct Refreshed {
    pub max_distance: u16,
    pub pass1_first: u16,
    pub pass1_last: u16,
    pub pass2_first: u16,
    pub pass2_last: u16,
    pub blur_first: u16,
    pub blur_last: u16,
}

// Why a refresh is refused.
#[derive(Clone, Copy)]
pub enum RefreshRefusal {
    // One of refusals 1 to 6.
    Field(Refusal),
    // 11: a rectangle that is empty or not in the field.
    WrongRect,
    // 31: a stored value above 510.
    WrongStored,
}

impl RefreshRefusal {
    // The number that C gets.
    pub fn number(self) -> u16
        ensures { result ≡ refresh_number_of self }
    {
        match self {
            RefreshRefusal::Field(r) => r.number(),
            RefreshRefusal::WrongRect => 11,
            RefreshRefusal::WrongStored => 31,
        }
    }
}

impl From<Refusal> for RefreshRefusal {
    ghost use Rattle.refresh.specs.declared.RefreshRefusal.TheVariants.{Field};

    ghost from_gives = { λ refusal e. e ≡ Field refusal };

    fn from(refusal: Refusal) -> RefreshRefusal {
        RefreshRefusal::Field(refusal)
    }
}

// The rows that the passes redo: pass 1 from first to last, pass 2 from last back to top.
#[derive(Clone, Copy)]
struct Passes {
    first: usize,
    last: usize,
    top: usize,
}

// The most that a stored pass 1 or raw value may be.
const MOST_STORED: u16 = 510;

// Of two lengths the first that is not n, or the second.
fn odd_length(n: usize, a: usize, b: usize) -> usize
    ensures { result ≡ odd_length n a b }
{
    if a == n { b } else { a }
}

// The first of refusals 1 to 6 that applies; a, b and c are the lengths of the entry's own three lists.
fn check_three(field: &Heightfield, a: usize, b: usize, c: usize) -> Result<(), Refusal>
    ensures { let F = seen field.now in
        verdict_number result ≡ refusal F (a ∷ b ∷ c ∷ []) }
{
    let odd = odd_length(field.area.len(), a, b);
    check(field, odd, c)
}

// The raw distances from the pass 1 values; cells has the cell of each span.
fn raw_from(field: &Heightfield, pass1: &[u16], raw: &mut [u16], cells: &[u16])
    requires { let F = seen field.now in
        Sound F × Low F pass1.now × (length raw.old ≡ length F.area) × (cells.now ≡ cells_of F) }
    ensures { let F = seen field.now in
        raw.new ≡ rules.pass2 F pass1.now }
{
    copy_part(pass1, raw, 0, field.area.len());
    pass2_whole(field, raw, cells);
}

// The three lists of a field that is not refused; max_distance. Until the blur its list has the cell of each span.
fn build_stages(field: &Heightfield, pass1: &mut [u16], raw: &mut [u16], blurred: &mut [u16]) -> u16
    requires { let F = seen field.now in
        Sound F × (length pass1.old ≡ length F.area) × (length raw.old ≡ length F.area) × (length blurred.old ≡ length F.area) }
    ensures { let F = seen field.now in
        (pass1.new ≡ rules.pass1 F (rules.start F)) × (raw.new ≡ rules.pass2 F pass1.new)
        × (blurred.new ≡ rules.blur F raw.new) × (result ≡ rules.greatest raw.new) }
{
    spread(field, blurred);
    pass1_whole(field, pass1, blurred);
    raw_from(field, pass1, raw, blurred);
    box_blur(field, raw, blurred);
    greatest(raw)
}

// Pass 1 values, raw and blurred distances of any lists: a field that is refused leaves all three as they were.
pub fn build_distance_stages(
    field: &Heightfield,
    pass1: &mut [u16],
    raw: &mut [u16],
    blurred: &mut [u16],
) -> Result<u16, Refusal>
    ensures { let F = seen field.now in
        stages_given result pass1.new raw.new blurred.new
        ≡ stages_outcome F pass1.old raw.old blurred.old }
{
    check_three(field, pass1.len(), raw.len(), blurred.len())?;
    Ok(build_stages(field, pass1, raw, blurred))
}

// Pass 1 from row first on: its last row.
fn redo_pass1(
    field: &Heightfield,
    pass1: &mut [u16],
    kept: &mut [u16],
    first: usize,
    z1: usize,
) -> usize
    requires { let F = seen field.now in
        Sound F × (first ≤ z1) × (z1 < F.h) × Low F pass1.old × (length kept.old ≡ length F.area) }
    ensures { let F = seen field.now in
        (redone pass1.new result ≡ onward F z1 (F.h - first) first pass1.old) × (z1 ≤ result) × (result < F.h)
        × Low F pass1.new × Kept F (z1 + 1) (result + 1) kept.old kept.new }
{
    pass1_rows(field, pass1, first, z1 + 1);
    settle1(field, pass1, kept, z1)
}

// Pass 2 from row last backward, past row first: the row with which that ends.
fn redo_pass2(
    field: &Heightfield,
    pass1: &[u16],
    raw: &mut [u16],
    kept: &mut [u16],
    first: usize,
    last: usize,
) -> usize
    requires { let F = seen field.now in
        Sound F × (first ≤ last) × (last < F.h) × Low F pass1.now × Low F raw.old × (length kept.old ≡ length F.area) }
    ensures { let F = seen field.now in
        (redone raw.new result ≡ backward F (first + 1) pass1.now (last + 1) raw.old) × (result ≤ first)
        × Low F raw.new × Kept F result (first + 1) kept.old kept.new }
{
    pass2_rows(field, pass1, raw, first + 1, last + 1);
    settle2(field, pass1, raw, kept, first)
}

// Both passes: the first and the last row of pass 1, and the row with which pass 2 ends.
fn redo_passes(
    field: &Heightfield,
    z0: usize,
    z1: usize,
    pass1: &mut [u16],
    raw: &mut [u16],
    kept: &mut [u16],
) -> Passes
    requires { let F = seen field.now in
        Sound F × (z0 ≤ z1) × (z1 < F.h) × Low F pass1.old × Low F raw.old × (length kept.old ≡ length F.area) }
    ensures { let F = seen field.now in
        Passed z0 z1 F pass1.old raw.old kept.old pass1.new raw.new kept.new
        result.first result.last result.top }
{
    let first = z0.saturating_sub(1);
    let last = redo_pass1(field, pass1, kept, first, z1);
    let top = redo_pass2(field, pass1, raw, kept, first, last);
    Passes { first, last, top }
}

// The refresh of what is not refused.
fn refresh_rows(
    field: &Heightfield,
    z0: usize,
    z1: usize,
    pass1: &mut [u16],
    raw: &mut [u16],
    blurred: &mut [u16],
) -> Refreshed
    requires { let F = seen field.now in
        Sound F × (z0 ≤ z1) × (z1 < F.h) × Low F pass1.old × Low F raw.old × (length blurred.old ≡ length F.area) }
    ensures { let F = seen field.now in
        refresh_given (Ok result) pass1.new raw.new blurred.new
        ≡ refreshed F (rect 0 z0 0 z1) pass1.old raw.old blurred.old }
{
    let Passes { first, last, top } = redo_passes(field, z0, z1, pass1, raw, blurred);
    let low = top.saturating_sub(1);
    let high = (last + 1).min(field.h - 1);
    blur_rows(field, raw, blurred, low, high);
    Refreshed {
        max_distance: greatest(raw),
        pass1_first: first as u16,
        pass1_last: last as u16,
        pass2_first: top as u16,
        pass2_last: last as u16,
        blur_first: low as u16,
        blur_last: high as u16,
    }
}

// 11: the rectangle is empty, or not in the field.
fn wrong_rect(field: &Heightfield, x0: usize, z0: usize, x1: usize, z1: usize) -> bool
    ensures { let F = seen field.now in
        result ≡ wrong_rect F (rect x0 z0 x1 z1) }
{
    if x1 < x0 || z1 < z0 {
        return true;
    }
    field.w <= x1 || field.h <= z1
}

// 31: a stored value is too great.
fn wrong_stored(pass1: &[u16], raw: &[u16]) -> bool
    ensures { result ≡ wrong_stored pass1.now raw.now }
{
    any_above(pass1, MOST_STORED) || any_above(raw, MOST_STORED)
}

// The first of refusals 1 to 6, 11 and 31 that applies; own is the length of the blurred list.
fn check_refresh(
    field: &Heightfield,
    x0: usize,
    z0: usize,
    x1: usize,
    z1: usize,
    pass1: &[u16],
    raw: &[u16],
    own: usize,
) -> Result<(), RefreshRefusal>
    ensures { let F = seen field.now in
        refresh_verdict_number result ≡ refusal_of F (rect x0 z0 x1 z1) pass1.now raw.now own }
{
    check_three(field, pass1.len(), raw.len(), own)?;
    if wrong_rect(field, x0, z0, x1, z1) {
        return Err(RefreshRefusal::WrongRect);
    }
    if wrong_stored(pass1, raw) {
        return Err(RefreshRefusal::WrongStored);
    }
    Ok(())
}

// The lists after a change of area codes in columns x0 to x1 of rows z0 to z1: what is refused leaves all three as they were.
pub fn refresh_distance_field(
    field: &Heightfield,
    x0: u16,
    z0: u16,
    x1: u16,
    z1: u16,
    pass1: &mut [u16],
    raw: &mut [u16],
    blurred: &mut [u16],
) -> Result<Refreshed, RefreshRefusal>
    ensures { let F = seen field.now in
        refresh_given result pass1.new raw.new blurred.new
        ≡ refresh_outcome F (rect x0 z0 x1 z1) pass1.old raw.old blurred.old }
{
    let from = z0 as usize;
    let to = z1 as usize;
    check_refresh(
        field,
        x0 as usize,
        from,
        x1 as usize,
        to,
        pass1,
        raw,
        blurred.len(),
    )?;
    Ok(refresh_rows(field, from, to, pass1, raw, blurred))
}
