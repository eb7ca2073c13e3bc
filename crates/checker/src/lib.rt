// The refusals 1 to 6 in their order: each over the whole field before the next.

#![tactic(auto)]

mod cells;
pub mod links;
pub mod reach;
mod tally;

ghost use Rattle.std.specs.Prelude.{◌≡◌, [], ◌∷◌, not, ◌+◌, ◌≤◌, length};
ghost use Rattle.rules.specs.Refusals.{refusal, wrong_length, most_spans};
ghost use Rattle.field.specs.Lent.{lent};
ghost use Rattle.checker.specs.Answer.{number_of, verdict_number};
ghost use Rattle.field.specs.Seen.{seen};

use crate::cells::cells_ok;
use crate::links::links_ok;
use crate::reach::reach_ok;
use field::lent::Heightfield;

// The refusals of a field, with their numbers. The last four are the region entry's.
#[derive(Clone, Copy)]
pub enum Refusal {
    TooWide = 1,
    TooMany = 2,
    WrongLength = 3,
    WrongCells = 4,
    WrongReach = 5,
    WrongBack = 6,
    TooShort = 7,
    TooFar = 8,
    NoIds = 12,
    NoSum = 13,
}

impl Refusal {
    // The number that C gets.
    pub fn number(self) -> u16
        ensures { result ≡ number_of self }
    {
        self as u16
    }
}

// The most cells of a field's width and of its height.
const MOST_CELLS_A_SIDE: usize = 256;

// The most spans of a field.
const MOST_SPANS: usize = 65000;

// The lists are as long as w, h and the number of spans say; a and b are the lengths of the entry's own two.
fn lengths_ok(field: &Heightfield, a: usize, b: usize) -> bool
    requires { let F = seen field.now in
        (F.w ≤ 256) × (F.h ≤ 256) × (length F.area ≤ most_spans) }
    ensures { let F = seen field.now in
        result ≡ not (wrong_length F (a ∷ b ∷ [])) }
{
    let cells = field.w * field.h;
    let spans = field.area.len();
    field.index.len() == cells
        && field.count.len() == cells
        && field.con.len() == 4 * spans
        && a == spans
        && b == spans
}

// The first of refusals 1 to 6 that applies; a and b are the lengths of the entry's own two lists.
pub fn check(field: &Heightfield, a: usize, b: usize) -> Result<(), Refusal>
    ensures { let F = seen field.now in
        verdict_number result ≡ refusal F (a ∷ b ∷ []) }
{
    // A copy of its own, so that the compiler keeps it in registers.
    let field = &{ *field };
    if MOST_CELLS_A_SIDE < field.w {
        return Err(Refusal::TooWide);
    }
    if MOST_CELLS_A_SIDE < field.h {
        return Err(Refusal::TooWide);
    }
    if MOST_SPANS < field.area.len() {
        return Err(Refusal::TooMany);
    }
    if !lengths_ok(field, a, b) {
        return Err(Refusal::WrongLength);
    }
    if !cells_ok(field.index, field.count, field.area.len()) {
        return Err(Refusal::WrongCells);
    }
    if links_ok(field) {
        return Ok(());
    }
    // One of 5 and 6 applies: a walk of its own tells which.
    if !reach_ok(field) {
        return Err(Refusal::WrongReach);
    }
    Err(Refusal::WrongBack)
}

// 3 for a list of another length than an entry asks, or 1 or 2 where that applies; the list itself is not lent here.
pub fn wrong_length(field: &Heightfield) -> u16
    ensures { let F = seen field.now in
        let n = length F.area in
        result ≡ refusal F ((n + 1) ∷ (n + 1) ∷ []) }
{
    let n = field.area.len() + 1;
    match check(field, n, n) {
        Err(r) => r.number(),
        Ok(()) => 0,
    }
}
