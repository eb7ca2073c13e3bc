// The region entry, in its two forms.
ghost use Rattle.std.specs.Prelude.{◌≡◌, [], ◌∷◌, ◌+◌, ◌≤◌, length, replicate};
ghost use Rattle.rules.specs.Base.{any};
ghost use Rattle.rules.specs.Field.{Bytes};
ghost use Rattle.rules.specs.Refusals.{most_spans, too_far, region_refusal};
ghost use Rattle.rules.specs.Numbering.{dense, compared};
ghost use Rattle.rules.specs.Outcomes.{Sizes, region_outcome};
ghost use Rattle.rules.specs.Reasons.{begins, story};
ghost use Rattle.space.specs.Space.{sec, Clear};
ghost use Rattle.field.specs.Lent.{lent};
ghost use Rattle.growth.specs.Grow.{growth_room};
ghost use Rattle.growth.specs.Stops.{stop_number, stop_of, next_of, story_in};
ghost use Rattle.table.specs.Map.{floors_from};
ghost use Rattle.checker.specs.Answer.{number_of, verdict_number};
ghost use Rattle.watershed.specs.Answer.{regions_refused_by, regions_of, AnswersRegions, GivesRooms};
ghost use Rattle.watershed.specs.Form.{form_of, sizes_of};
ghost use Rattle.watershed.specs.Stages.{Admitted, Raised, Readied, Finds, table_at};
ghost use Rattle.field.specs.Seen.{seen};

use crate::form::{Form, give_form};
use checker::{Refusal, check};
use field::lent::{Heightfield, codes_are_bytes};
use flood::story::NOBODY;
use growth::grow::{GROWTH_ROOM, grow};
use growth::turns::{Growth, Stop};
use merge::merge_and_filter_regions;
use numbering::Regions;
use records::build::build_records;
use records::map::{floors_from, records_end};
use space::{clear, clear_part, copy, copy_part};
use table::any_above;
use wipe::wipe;

// The sizes that a caller gives: the border's, the least area that a room keeps, and the greatest that is merged away. C gives the entries three numbers.
#[derive(Clone, Copy)]
pub struct RegionSizes {
    pub border: u16,
    pub least: u16,
    pub merge: u16,
}

// The greatest max_distance that is taken.
const FARTHEST: u16 = 510;

// Refusal 8.
fn too_far(dist: &[u16], max_distance: u16) -> bool
    ensures { result ≡ too_far dist.now max_distance }
{
    FARTHEST < max_distance || any_above(dist, max_distance)
}

// The first of refusals 1 to 8 that applies; work and own are the lengths of the workspace and of the list of ids.
pub(crate) fn check_regions(
    field: &Heightfield,
    dist: &[u16],
    max_distance: u16,
    work: usize,
    own: usize,
) -> Result<(), Refusal>
    ensures { let F = seen field.now in
        verdict_number result ≡ region_refusal F (length dist.now ∷ own ∷ []) work dist.now max_distance }
{
    check(field, dist.len(), own)?;
    if work < 128 * field.area.len() + 4096 {
        return Err(Refusal::TooShort);
    }
    if too_far(dist, max_distance) {
        return Err(Refusal::TooFar);
    }
    Ok(())
}

// "Records run from 0 to the next id, both included", and the next id is at most n + 5: so many more than there are spans.
pub(crate) const MORE_RECORDS: usize = 6;

// The ids that stand in the workspace from kept on are put back.
fn put_back(ws: &[u16], kept: usize, ids: &mut [u16])
    requires { kept + length ids.old ≤ length ws.now }
    ensures { ids.new ≡ sec kept (length ids.old) ws.now }
{
    let end = kept + ids.len();
    copy(&ws[kept..end], ids);
}

// Growth from the ids of a field that is not refused. They stand past the table of neighbours until it is done, and are put back where it is stopped.
// With the story of the watched span, if there is one (NOBODY where not).
pub(crate) fn grow_regions(
    field: &Heightfield,
    dist: &[u16],
    max_distance: u16,
    border_size: u16,
    ws: &mut [u16],
    ids: &mut [u16],
    table: usize,
    watched: u16,
) -> Result<Growth, Stop>
    requires { let F = seen field.now in
        Admitted F dist.now ws.old ids.old
        × (table ≡ table_at (length F.area)) }
    ensures fact { let F = seen field.now in
        let ids₀ = ids.old in
        Raised F dist.now max_distance border_size table ids₀ (next_of result) (stop_of result) ids.new ws.new }
    ensures story_value { let F = seen field.now in
        stop_of result ≡ 0 → story_in (begins watched) result ≡ story F dist.now max_distance border_size watched }
{
    let n = field.area.len();
    let kept = table + 4 * n;
    copy_part(ids, ws, kept);
    clear(ids);
    clear_part(ws, 0, GROWTH_ROOM * n);
    let g = grow(
        field,
        dist,
        ids,
        ws,
        table,
        max_distance,
        border_size,
        watched,
    );
    if g.is_err() {
        put_back(ws, kept, ids);
    }
    g
}

// The refusal that what stops growth gives.
pub(crate) fn stop_refusal(stop: Stop) -> Refusal
    ensures { number_of result ≡ stop_number stop }
{
    match stop {
        Stop::NoIds => Refusal::NoIds,
        Stop::NoSum => Refusal::NoSum,
    }
}

// The workspace is made ready for m records: growth left zeros where it worked, and no more is zeroed than the records and the lists need.
pub(crate) fn ready_records(ws: &mut [u16], m: usize, n: usize)
    requires { (m ≤ 65536) × (n ≤ most_spans) × (growth_room n ≤ length ws.old) × (floors_from m n ≤ length ws.old)
        × Clear 0 (growth_room n) ws.old }
    ensures { Readied m n ws.old ws.new }
{
    let from = GROWTH_ROOM * n;
    let to = floors_from(m, n);
    if from < to {
        clear_part(ws, from, to);
    }
}

// The regions of a field that 1 to 8 let pass, or what stops growth. The table of neighbours stands past the most that the records take.
fn find_regions(
    field: &Heightfield,
    dist: &[u16],
    max_distance: u16,
    sizes: RegionSizes,
    ws: &mut [u16],
    ids: &mut [u16],
) -> Result<Regions, Refusal>
    requires { Admitted (seen field.now) dist.now ws.old ids.old }
    ensures fact { (let F = seen field.now in
        let z = sizes_of sizes in
        Finds F dist.now max_distance z ids.old (regions_refused_by result) (regions_of result ids.new)) }
    ensures ws_after { ws.new ≡ replicate (length ws.old) 0 }
    ensures bytes { Bytes (seen field.now) }
{
    codes_are_bytes(field.area);
    let n = field.area.len();
    let table = records_end(n + MORE_RECORDS, n);
    let g = match grow_regions(
        field,
        dist,
        max_distance,
        sizes.border,
        ws,
        ids,
        table,
        NOBODY,
    ) {
        Ok(g) => g,
        Err(stop) => {
            wipe(ws);
            return Err(stop_refusal(stop));
        }
    };
    let next = g.next as usize;
    ready_records(ws, next + 1, n);
    build_records(field, ids, ws, table, next);
    let r = merge_and_filter_regions(ws, ids, next + 1, n, sizes.least, sizes.merge);
    wipe(ws);
    Ok(r)
}

// Ids of the regions of any lists, in either form: a field that is refused leaves ids and workspace as they were.
fn build_form(
    form: Form,
    field: &Heightfield,
    dist: &[u16],
    max_distance: u16,
    sizes: RegionSizes,
    workspace: &mut [u16],
    ids: &mut [u16],
) -> Result<Regions, Refusal>
    ensures fact { (let F = seen field.now in
        let z = sizes_of sizes in
        let o = region_outcome (form_of form) F dist.now max_distance z workspace.old ids.old in
        AnswersRegions o result workspace.new ids.new) }
    ensures rooms { let F = seen field.now in
        GivesRooms (form_of form) F sizes.border result ids.new }
{
    check_regions(field, dist, max_distance, workspace.len(), ids.len())?;
    let r = find_regions(field, dist, max_distance, sizes, workspace, ids)?;
    Ok(give_form(form, sizes.border, ids, r))
}

// The dense form: the ids in use are 1 to max_region. Each form has an entry of its own, as C has.
pub fn build_regions(
    field: &Heightfield,
    dist: &[u16],
    max_distance: u16,
    border_size: u16,
    min_region_area: u16,
    merge_region_area: u16,
    workspace: &mut [u16],
    ids: &mut [u16],
) -> Result<Regions, Refusal>
    ensures fact { (let F = seen field.now in
        let z : Sizes = record { border = border_size; least = min_region_area; merge = merge_region_area } in
        let o = region_outcome dense F dist.now max_distance z workspace.old ids.old in
        AnswersRegions o result workspace.new ids.new) }
    ensures rooms { let F = seen field.now in
        GivesRooms dense F border_size result ids.new }
{
    build_form(
        Form::Dense,
        field,
        dist,
        max_distance,
        RegionSizes {
            border: border_size,
            least: min_region_area,
            merge: merge_region_area,
        },
        workspace,
        ids,
    )
}

// The compared form: the numbers of the Rust.
pub fn build_regions_compared(
    field: &Heightfield,
    dist: &[u16],
    max_distance: u16,
    border_size: u16,
    min_region_area: u16,
    merge_region_area: u16,
    workspace: &mut [u16],
    ids: &mut [u16],
) -> Result<Regions, Refusal>
    ensures fact { (let F = seen field.now in
        let z : Sizes = record { border = border_size; least = min_region_area; merge = merge_region_area } in
        let o = region_outcome compared F dist.now max_distance z workspace.old ids.old in
        AnswersRegions o result workspace.new ids.new) }
    ensures rooms { let F = seen field.now in
        GivesRooms compared F border_size result ids.new }
{
    build_form(
        Form::Compared,
        field,
        dist,
        max_distance,
        RegionSizes {
            border: border_size,
            least: min_region_area,
            merge: merge_region_area,
        },
        workspace,
        ids,
    )
}
