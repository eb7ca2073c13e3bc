// What is told of a span, with its numbers in a lent list, as C gets them: eleven numbers are more than every machine returns by value in the same way.
ghost use Rattle.std.specs.Prelude.{◌≡◌, [], length};
ghost use Rattle.rules.specs.Outcomes.{Sizes};
ghost use Rattle.field.specs.Lent.{lent};
ghost use Rattle.watershed.specs.Explain.{explained};
ghost use Rattle.watershed.specs.Into.{numbers_of, ExplainsInto, ExplainsMeant};
ghost use Rattle.field.specs.Seen.{seen};

use crate::explain::{Explanation, explain_span};
use checker::wrong_length;
use field::lent::Heightfield;
use space::copy;

// How many numbers are told.
const NUMBERS: usize = 11;

fn write(to: &mut [u16], e: Explanation)
    requires { length to.old ≡ 11 }
    ensures { to.new ≡ numbers_of (explained e [] []) }
{
    let numbers = [
        e.refusal,
        e.reason,
        e.strip,
        e.group_count,
        e.least_area,
        e.grown_id,
        e.from_span,
        e.trail_length,
        e.number,
        e.gave_back_id,
        e.objecting_span,
    ];
    copy(&numbers, to);
}

// As `explain_span`, with the numbers in a list of eleven; gives the refusal.
pub fn explain_into(
    field: &Heightfield,
    dist: &[u16],
    max_distance: u16,
    border_size: u16,
    min_region_area: u16,
    merge_region_area: u16,
    workspace: &mut [u16],
    span: u32,
    trail: &mut [u16],
    answer: &mut [u16],
) -> u16
    ensures into { (let F = seen field.now in
        let z : Sizes = record { border = border_size; least = min_region_area; merge = merge_region_area } in
        ExplainsInto F dist.now max_distance z span workspace.old trail.old answer.old
        result workspace.new trail.new answer.new) }
    ensures meant { (let F = seen field.now in
        let z : Sizes = record { border = border_size; least = min_region_area; merge = merge_region_area } in
        ExplainsMeant F dist.now max_distance z span workspace.old trail.old answer.old result) }
{
    if answer.len() != NUMBERS {
        return wrong_length(field);
    }
    let e = explain_span(
        field,
        dist,
        max_distance,
        border_size,
        min_region_area,
        merge_region_area,
        workspace,
        span,
        trail,
    );
    write(answer, e);
    e.refusal
}
