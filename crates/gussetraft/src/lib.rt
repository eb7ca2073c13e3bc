// The functions that C and Rust call (include/gussetraft.h). They take any input, as the entries do.

#![tactic(auto)]

mod pieces;
mod results;
pub mod roomids;
pub mod roomsizes;
pub mod why;

ghost use Rattle.std.specs.Prelude.{◌≡◌};
ghost use Rattle.rules.specs.Numbering.{dense, compared};
ghost use Rattle.rules.specs.Outcomes.{Sizes, distance_outcome, region_outcome};
ghost use Rattle.rules.specs.Mend.{mend_outcome};
ghost use Rattle.rules.specs.Refresh.{stages_outcome};
ghost use Rattle.field.specs.Lent.{lent};
ghost use Rattle.field.specs.Seen.{seen};
ghost use Rattle.mend.specs.Answer.{mend_refused_by, changes_in};
ghost use Rattle.refresh.specs.Answer.{rect, stages_refused_by, stages_most_in};
ghost use Rattle.refresh.specs.Into.{GivesInto};
ghost use Rattle.watershed.specs.Answer.{refused_by, most_in, regions_refused_by, max_region_in, overlaps_in, cut_in};
ghost use Rattle.gussetraft.specs.Exported.{Gives, LeavesDistances, GivesRegions, LeavesRooms, GivesMending, GivesStages};

use checker::Refusal;
use field::lent::Heightfield;
use mend::{MendRefusal, mend};
use numbering::Regions as Found;
use refresh::build_distance_stages;
use refresh::into::refresh_into;
use watershed::{build_distance_field, build_regions, build_regions_compared};

// The answer of the distance entry: 0 or the refusal number, and max_distance.
#[repr(C)]
#[derive(Clone, Copy)]
pub struct Distances {
    pub refusal: u16,
    pub max_distance: u16,
}

// The answer of the region entry: 0 or the refusal number, max_region, the overlap count, and the number of records cut short.
#[repr(C)]
#[derive(Clone, Copy)]
pub struct Regions {
    pub refusal: u16,
    pub max_region: u16,
    pub overlaps: u16,
    pub cut: u16,
}

// The answer of the mending: 0 or the refusal number, and how many connections were set to none.
#[repr(C)]
#[derive(Clone, Copy)]
pub struct Mending {
    pub refusal: u32,
    pub count: u32,
}

// The lists that C lends, as one value.
fn lend<'a>(
    w: u16,
    h: u16,
    index: &'a [u32],
    count: &'a [u8],
    area: &'a [u8],
    con: &'a [u8],
) -> Heightfield<'a>
    ensures { seen result ≡ lent w h index.now count.now area.now con.now }
{
    Heightfield {
        w: w as usize,
        h: h as usize,
        index,
        count,
        area,
        con,
    }
}

fn numbers(a: Result<u16, Refusal>) -> Distances
    ensures { (result.refusal ≡ refused_by a) × (result.max_distance ≡ most_in a) }
{
    match a {
        Err(r) => Distances {
            refusal: r.number(),
            max_distance: 0,
        },
        Ok(m) => Distances {
            refusal: 0,
            max_distance: m,
        },
    }
}

fn region_numbers(a: Result<Found, Refusal>) -> Regions
    ensures { (result.refusal ≡ regions_refused_by a) × (result.max_region ≡ max_region_in a)
        × (result.overlaps ≡ overlaps_in a) × (result.cut ≡ cut_in a) }
{
    match a {
        Err(r) => Regions {
            refusal: r.number(),
            max_region: 0,
            overlaps: 0,
            cut: 0,
        },
        Ok(v) => Regions {
            refusal: 0,
            max_region: v.max_region,
            overlaps: v.overlaps,
            cut: v.cut,
        },
    }
}

fn mend_numbers(a: Result<u32, MendRefusal>) -> Mending
    ensures { (result.refusal ≡ mend_refused_by a) × (result.count ≡ changes_in a) }
{
    match a {
        Err(r) => Mending {
            refusal: r.number() as u32,
            count: 0,
        },
        Ok(k) => Mending {
            refusal: 0,
            count: k,
        },
    }
}

#[unsafe(no_mangle)]
pub extern "C" fn gussetraft_build_distance_field(
    w: u16,
    h: u16,
    index: &[u32],
    count: &[u8],
    area: &[u8],
    con: &[u8],
    raw: &mut [u16],
    blurred: &mut [u16],
) -> Distances
    ensures fact { let F = lent w h index.now count.now area.now con.now in
        let o = distance_outcome F raw.old blurred.old in
        Gives o result raw.new blurred.new }
    ensures meaning { let F = lent w h index.now count.now area.now con.now in
        LeavesDistances F result raw.new blurred.new }
{
    let field = lend(w, h, index, count, area, con);
    numbers(build_distance_field(&field, raw, blurred))
}

#[unsafe(no_mangle)]
pub extern "C" fn gussetraft_build_regions(
    w: u16,
    h: u16,
    index: &[u32],
    count: &[u8],
    area: &[u8],
    con: &[u8],
    dist: &[u16],
    max_distance: u16,
    border_size: u16,
    min_region_area: u16,
    merge_region_area: u16,
    workspace: &mut [u16],
    ids: &mut [u16],
) -> Regions
    ensures fact { (let F = lent w h index.now count.now area.now con.now in
        let z : Sizes = record { border = border_size; least = min_region_area; merge = merge_region_area } in
        let o = region_outcome dense F dist.now max_distance z workspace.old ids.old in
        GivesRegions o result workspace.new ids.new) }
    ensures rooms { let F = lent w h index.now count.now area.now con.now in
        LeavesRooms dense F border_size result ids.new }
{
    let field = lend(w, h, index, count, area, con);
    let answer = build_regions(
        &field,
        dist,
        max_distance,
        border_size,
        min_region_area,
        merge_region_area,
        workspace,
        ids,
    );
    region_numbers(answer)
}

#[unsafe(no_mangle)]
pub extern "C" fn gussetraft_build_regions_compared(
    w: u16,
    h: u16,
    index: &[u32],
    count: &[u8],
    area: &[u8],
    con: &[u8],
    dist: &[u16],
    max_distance: u16,
    border_size: u16,
    min_region_area: u16,
    merge_region_area: u16,
    workspace: &mut [u16],
    ids: &mut [u16],
) -> Regions
    ensures fact { (let F = lent w h index.now count.now area.now con.now in
        let z : Sizes = record { border = border_size; least = min_region_area; merge = merge_region_area } in
        let o = region_outcome compared F dist.now max_distance z workspace.old ids.old in
        GivesRegions o result workspace.new ids.new) }
    ensures rooms { let F = lent w h index.now count.now area.now con.now in
        LeavesRooms compared F border_size result ids.new }
{
    let field = lend(w, h, index, count, area, con);
    let compared = build_regions_compared(
        &field,
        dist,
        max_distance,
        border_size,
        min_region_area,
        merge_region_area,
        workspace,
        ids,
    );
    region_numbers(compared)
}

#[unsafe(no_mangle)]
pub extern "C" fn gussetraft_mend(
    w: u16,
    h: u16,
    index: &[u32],
    count: &[u8],
    area: &[u8],
    con: &mut [u8],
    changes: &mut [u16],
) -> Mending
    ensures { let F = lent w h index.now count.now area.now con.old in
        let o = mend_outcome F changes.old in
        GivesMending o result con.new changes.new }
{
    mend_numbers(mend(w, h, index, count, area, con, changes))
}

#[unsafe(no_mangle)]
pub extern "C" fn gussetraft_build_distance_stages(
    w: u16,
    h: u16,
    index: &[u32],
    count: &[u8],
    area: &[u8],
    con: &[u8],
    pass1: &mut [u16],
    raw: &mut [u16],
    blurred: &mut [u16],
) -> Distances
    ensures { let F = lent w h index.now count.now area.now con.now in
        let o = stages_outcome F pass1.old raw.old blurred.old in
        GivesStages o result pass1.new raw.new blurred.new }
{
    let field = lend(w, h, index, count, area, con);
    numbers(build_distance_stages(&field, pass1, raw, blurred))
}

// The answer's eight numbers are more than every machine returns by value in the same way, so they are written to a list; the refusal is given too.
#[unsafe(no_mangle)]
pub extern "C" fn gussetraft_refresh_distance_field_into(
    w: u16,
    h: u16,
    index: &[u32],
    count: &[u8],
    area: &[u8],
    con: &[u8],
    x0: u16,
    z0: u16,
    x1: u16,
    z1: u16,
    pass1: &mut [u16],
    raw: &mut [u16],
    blurred: &mut [u16],
    answer: &mut [u16],
) -> u16
    ensures { let F = lent w h index.now count.now area.now con.now in
        GivesInto F (rect x0 z0 x1 z1) pass1.old raw.old blurred.old answer.old
        result pass1.new raw.new blurred.new answer.new }
{
    let field = lend(w, h, index, count, area, con);
    refresh_into(&field, x0, z0, x1, z1, pass1, raw, blurred, answer)
}
