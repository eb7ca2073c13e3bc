// The public entries.

#![tactic(auto)]

mod explain;
mod form;
pub mod into;
mod regions;

ghost use Rattle.rules.specs.Outcomes.{distance_outcome};
ghost use Rattle.field.specs.Lent.{lent};
ghost use Rattle.watershed.specs.Answer.{Answers, GivesDistances};
ghost use Rattle.field.specs.Seen.{seen};

pub use crate::explain::{Explanation, explain_span};
pub use crate::regions::{build_regions, build_regions_compared};
use checker::{Refusal, check};
use distance::blur::{box_blur, greatest};
use distance::distances::calculate_distance_field;
use field::lent::{Heightfield, codes_are_bytes};

// Raw and blurred distances of any lists, and max_distance: a field that is refused leaves both as they were.
pub fn build_distance_field(
    field: &Heightfield,
    raw: &mut [u16],
    blurred: &mut [u16],
) -> Result<u16, Refusal>
    ensures fact { let F = seen field.now in
        let o = distance_outcome F raw.old blurred.old in
        Answers o result raw.new blurred.new }
    ensures meaning { let F = seen field.now in
        GivesDistances F result raw.new blurred.new }
{
    codes_are_bytes(field.area);
    check(field, raw.len(), blurred.len())?;
    // Until the blur its list has the cell of each span.
    calculate_distance_field(field, raw, blurred);
    box_blur(field, raw, blurred);
    Ok(greatest(raw))
}
