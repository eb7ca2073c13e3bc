// "Why has this span no room?"
ghost use Rattle.std.specs.Prelude.{◌≡◌, List, [], ◌∷◌, ◌++◌, ℕ, ◌+◌, ◌-◌, ◌*◌, ◌≤◌, ◌<◌, length, take, replicate};
ghost use Rattle.rules.specs.Refusals.{region_refusal};
ghost use Rattle.rules.specs.Outcomes.{Sizes};
ghost use Rattle.rules.specs.Reasons.{trail, reason_of, explain_refusal, unexplained, explains, explain_outcome};
ghost use Rattle.field.specs.Lent.{lent};
ghost use Rattle.flood.specs.Stories.{story_of};
ghost use Rattle.table.specs.Map.{records_end};
ghost use Rattle.records.specs.Stock.{Given, Blank, Built};
ghost use Rattle.trail.specs.Noted.{mergings_from};
ghost use Rattle.reasons.specs.Why.{Means};
ghost use Rattle.watershed.specs.Form.{sizes_of};
ghost use Rattle.watershed.specs.Explain.{explained, without_room, with_room, room_reason, Grown, Living, Explains};
ghost use Rattle.field.specs.Seen.{seen};

use crate::form::{first_id, lower};
use crate::regions::{
    MORE_RECORDS, RegionSizes, check_regions, grow_regions, ready_records, stop_refusal,
};
use field::lent::{Heightfield, codes_are_bytes};
use flood::story::{NOBODY, Story};
use merge::merge_and_filter_told;
use records::build::build_records;
use records::map::{links_past, records_end};
use region::RegionId;
use space::clear;
use trail::write_trail;
use wipe::wipe;

// What is told of a span: 0 or the refusal number, and the reason. Numbers that a reason does not have are 0.
// Numbers, not enums: C gets them so (`into`).
#[derive(Clone, Copy, Default)]
pub struct Explanation {
    pub refusal: u16,
    pub reason: u16,
    pub strip: u16,
    pub group_count: u16,
    pub least_area: u16,
    pub grown_id: u16,
    pub from_span: u16,
    pub trail_length: u16,
    pub number: u16,
    pub gave_back_id: u16,
    pub objecting_span: u16,
}

// The numbers of the reasons.
const NOT_WALKABLE: u16 = 1;

const PAINTED: u16 = 2;

const NEVER_REACHED: u16 = 3;

const FILTERED_OUT: u16 = 4;

const FLOODED: u16 = 5;

const EXPANDED: u16 = 6;

// "14 for a span number not below n".
const NO_SUCH_SPAN: u16 = 14;

// The first of refusals 1 to 8 and 14 that applies, 0 for none; work and own are the lengths of the workspace and of the trail's list.
// A number, as an `Explanation` gives it: 14 is no refusal of a field.
fn check_explain(
    field: &Heightfield,
    dist: &[u16],
    max_distance: u16,
    work: usize,
    own: usize,
    span: usize,
) -> u16
    ensures { let F = seen field.now in
        result ≡ explain_refusal F own work dist.now max_distance span }
{
    match check_regions(field, dist, max_distance, work, own) {
        Err(r) => r.number(),
        Ok(()) => {
            if span < field.area.len() {
                return 0;
            }
            NO_SUCH_SPAN
        }
    }
}

// A refusal, with its number alone.
fn refused(refusal: u16) -> Explanation
    ensures { (ws trail : List ℕ) → explained result ws trail ≡ unexplained refusal ws trail }
{
    Explanation {
        refusal,
        ..Explanation::default()
    }
}

// One of reasons 1 to 4. The group is under the least area.
fn without_room(reason: u16, strip: u16, group: usize, least: u16, story: Story) -> Explanation
    requires { group ≤ least }
    ensures { (l : List ℕ) → explained result [] l ≡ without_room reason strip group least (story_of story) l }
{
    Explanation {
        reason,
        strip,
        group_count: group as u16,
        least_area: least,
        gave_back_id: story.gave,
        objecting_span: story.objecting,
        ..Explanation::default()
    }
}

// Reason 5 or 6. The trail is so long.
fn with_room(reason: u16, from: u16, id: u16, long: usize, number: u16, story: Story) -> Explanation
    requires { long < 65536 }
    ensures { (l : List ℕ) → explained result [] l ≡ with_room reason from id long number (story_of story) l }
{
    Explanation {
        reason,
        grown_id: id,
        from_span: from,
        trail_length: long as u16,
        number,
        gave_back_id: story.gave,
        objecting_span: story.objecting,
        ..Explanation::default()
    }
}

// A span in a room: flooded, or expanded if it took another's id.
fn in_room(id: u16, long: usize, number: u16, story: Story) -> Explanation
    requires { long < 65536 }
    ensures { (n : ℕ) (t : List ℕ) → long ≡ length t → explained result [] (t ++ replicate (n - length t) 0)
        ≡ explains n (room_reason id story.from t number) (story_of story) 0 }
{
    if story.from == NOBODY {
        return with_room(FLOODED, 0, id, long, number, story);
    }
    with_room(EXPANDED, story.from, id, long, number, story)
}

// The records, in the workspace before `end`.
fn build_in(field: &Heightfield, ids: &[u16], ws: &mut [u16], end: usize, table: usize, next: usize)
    requires { (end ≤ length ws.old)
        × Given (seen field.now) ids.now table (take end ws.old)
        × Blank ids.now (next + 1) (take end ws.old) × (records_end (next + 1) (length ids.now) ≤ table) }
    ensures { let F = seen field.now in
        Built F ids.now next (take end ws.old) (take end ws.new) }
{
    build_records(field, ids, &mut ws[..end], table, next);
}

// The trail of an id from the merges noted from b on, zeros after it. Gives its length.
fn lay_trail(ws: &[u16], b: usize, merges: usize, id: u16, list: &mut [u16]) -> usize
    requires { (b + 2 * merges ≤ length ws.now) × (length (trail (mergings_from ws.now b merges) id) ≤ length list.old) }
    ensures { let t = trail (mergings_from ws.now b merges) id in
        (result ≡ length t) × (list.new ≡ t ++ replicate (length list.old - length t) 0) }
{
    clear(list);
    write_trail(ws, b, merges, id, list, 0)
}

// A span that growth gave an id: the filter removes it, or it is in a room. ids are the grown ids, and at the end the trail.
fn explain_region(
    field: &Heightfield,
    dist: &[u16],
    max_distance: u16,
    sizes: RegionSizes,
    ws: &mut [u16],
    ids: &mut [u16],
    table: usize,
    next: usize,
    span: usize,
    story: Story,
) -> Explanation
    requires { let F = seen field.now in
        Grown F dist.now max_distance sizes.border table span next (story_of story) ids.old ws.old
        × Living F.area ids.old span }
    ensures { (let F = seen field.now in
        let z = sizes_of sizes in
        explained result [] ids.new
        ≡ explains (length F.area) (reason_of F dist.now max_distance z span) (story_of story) 0) }
{
    codes_are_bytes(field.area);
    let n = field.area.len();
    // The part before `end` is all that the records and their links can take. The table of neighbours lies in it too: the links come when it has been read.
    let end = links_past(n + MORE_RECORDS, n);
    let r = ids[span];
    ready_records(ws, next + 1, n);
    build_in(field, ids, ws, end, table, next);
    let t = merge_and_filter_told(
        ws,
        ids,
        end,
        next + 1,
        n,
        sizes.least,
        sizes.merge,
        r as usize,
    );
    if t.id == 0 {
        clear(ids);
        return without_room(FILTERED_OUT, 0, t.group, sizes.least, story);
    }
    let number = lower(ids[span], first_id(sizes.border) - 1);
    let long = lay_trail(ws, end, t.merges, r, ids);
    in_room(r, long, number, story)
}

// A span of a field that growth is done with. ids are the grown ids, and at the end the trail.
fn explain_grown(
    field: &Heightfield,
    dist: &[u16],
    max_distance: u16,
    sizes: RegionSizes,
    ws: &mut [u16],
    ids: &mut [u16],
    table: usize,
    next: usize,
    span: usize,
    story: Story,
) -> Explanation
    requires { let F = seen field.now in
        Grown F dist.now max_distance sizes.border table span next (story_of story) ids.old ws.old }
    ensures { (let F = seen field.now in
        let z = sizes_of sizes in
        explained result [] ids.new
        ≡ explains (length F.area) (reason_of F dist.now max_distance z span) (story_of story) 0) }
{
    codes_are_bytes(field.area);
    let r = ids[span];
    if field.area[span] == 0 {
        clear(ids);
        return without_room(NOT_WALKABLE, 0, 0, 0, story);
    }
    if RegionId::BORDER_REGION.0 <= r {
        clear(ids);
        return without_room(PAINTED, r - RegionId::BORDER_REGION.0, 0, 0, story);
    }
    if r == 0 {
        clear(ids);
        return without_room(NEVER_REACHED, 0, 0, 0, story);
    }
    explain_region(
        field,
        dist,
        max_distance,
        sizes,
        ws,
        ids,
        table,
        next,
        span,
        story,
    )
}

// A span of a field that is not refused. The build's ids stand in the trail's list until the trail is written there.
fn explain_found(
    field: &Heightfield,
    dist: &[u16],
    max_distance: u16,
    sizes: RegionSizes,
    ws: &mut [u16],
    span: usize,
    trail: &mut [u16],
) -> Explanation
    requires { let F = seen field.now in
        (region_refusal F (length dist.now ∷ length trail.old ∷ []) (length ws.old) dist.now max_distance ≡ 0)
        × (span < length F.area) }
    ensures { (let F = seen field.now in
        let z = sizes_of sizes in
        Explains F dist.now max_distance z span (length ws.old) trail.old
        (explained result ws.new trail.new)) }
{
    let n = field.area.len();
    let table = records_end(n + MORE_RECORDS, n);
    let g = match grow_regions(
        field,
        dist,
        max_distance,
        sizes.border,
        ws,
        trail,
        table,
        span as u16,
    ) {
        Ok(g) => g,
        Err(stop) => {
            wipe(ws);
            return refused(stop_refusal(stop).number());
        }
    };
    let story = g.story;
    let r = explain_grown(
        field,
        dist,
        max_distance,
        sizes,
        ws,
        trail,
        table,
        g.next as usize,
        span,
        story,
    );
    wipe(ws);
    r
}

// Why a span of any lists has its number, or none: a call that is refused by 1 to 8 or 14 leaves trail and workspace as they were.
pub fn explain_span(
    field: &Heightfield,
    dist: &[u16],
    max_distance: u16,
    border_size: u16,
    min_region_area: u16,
    merge_region_area: u16,
    workspace: &mut [u16],
    span: u32,
    trail: &mut [u16],
) -> Explanation
    ensures trail_after { (let F = seen field.now in
        let z : Sizes = record { border = border_size; least = min_region_area; merge = merge_region_area } in
        explained result workspace.new trail.new
        ≡ explain_outcome F dist.now max_distance z span workspace.old trail.old) }
    ensures means { (let F = seen field.now in
        let z : Sizes = record { border = border_size; least = min_region_area; merge = merge_region_area } in
        result.refusal ≡ 0 → Means F dist.now max_distance z span (explained result workspace.new trail.new)) }
{
    codes_are_bytes(field.area);
    let refusal = check_explain(
        field,
        dist,
        max_distance,
        workspace.len(),
        trail.len(),
        span as usize,
    );
    if refusal != 0 {
        return refused(refusal);
    }
    explain_found(
        field,
        dist,
        max_distance,
        RegionSizes {
            border: border_size,
            least: min_region_area,
            merge: merge_region_area,
        },
        workspace,
        span as usize,
        trail,
    )
}
