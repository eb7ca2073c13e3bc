// Why a span has no room, as C and Rust call it. The eleven numbers are more than every machine returns by value in the same way, so they are
// written to a list; the refusal is given too.
ghost use Rattle.rules.specs.Outcomes.{Sizes};
ghost use Rattle.field.specs.Lent.{lent};
ghost use Rattle.watershed.specs.Into.{ExplainsInto, ExplainsMeant};

use crate::lend;
use watershed::into::explain_into;

#[unsafe(no_mangle)]
pub extern "C" fn gussetraft_explain_span_into(
    w: u16,
    h: u16,
    index: &[u32],
    count: &[u8],
    area: &[u8],
    con: &[u8],
    dist: &[u16],
    max_distance: u16,
    border_size: u16,
    min_region_area: u16,
    merge_region_area: u16,
    workspace: &mut [u16],
    span: u32,
    trail: &mut [u16],
    answer: &mut [u16],
) -> u16
    ensures into { (let F = lent w h index.now count.now area.now con.now in
        let z : Sizes = record { border = border_size; least = min_region_area; merge = merge_region_area } in
        ExplainsInto F dist.now max_distance z span workspace.old trail.old answer.old
        result workspace.new trail.new answer.new) }
    ensures meant { (let F = lent w h index.now count.now area.now con.now in
        let z : Sizes = record { border = border_size; least = min_region_area; merge = merge_region_area } in
        ExplainsMeant F dist.now max_distance z span workspace.old trail.old answer.old result) }
{
    let field = lend(w, h, index, count, area, con);
    explain_into(
        &field,
        dist,
        max_distance,
        border_size,
        min_region_area,
        merge_region_area,
        workspace,
        span,
        trail,
        answer,
    )
}
