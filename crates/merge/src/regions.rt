// The stages from records to the result.
ghost use Rattle.std.specs.Prelude.{◌≡◌, suc, ◌+◌, ◌*◌, ◌≤◌, ◌<◌, length, take};
ghost use Rattle.rules.specs.Filter.{filtered};
ghost use Rattle.rules.specs.Merge.{merged};
ghost use Rattle.rules.specs.Numbering.{numbered};
ghost use Rattle.rules.specs.Numbering as rules;
ghost use Rattle.table.specs.View.{recs_of};
ghost use Rattle.merge.specs.Ready.{Ready};
ghost use Rattle.merge.specs.Told.{ToldRegions};

use crate::told::merge_all;
use filter::{filter, filter_told};
use numbering::{Regions, number};

// The m records in the workspace are filtered and merged, and each span gets the number of its region.
pub fn merge_and_filter_regions(
    ws: &mut [u16],
    ids: &mut [u16],
    m: usize,
    n: usize,
    min_region_area: u16,
    merge_region_size: u16,
) -> Regions
    requires { Ready m n ws.old ids.old }
    ensures { record { ids = ids.new; most = result.max_region; over = result.overlaps; cut = result.cut }
        ≡ numbered (merged merge_region_size (suc m) (filtered min_region_area (recs_of ws.old m))) ids.old }
{
    filter(ws, m, min_region_area);
    // There is no room past the records, so no merge is noted.
    let end = ws.len();
    merge_all(ws, end, m, n, merge_region_size);
    number(ids, ws, m)
}

// What became of one record: its id after the filter, the count of the group with which it was removed; how many merges there were; and the regions.
#[derive(Clone, Copy)]
pub struct Told {
    pub id: u16,
    pub group: usize,
    pub merges: usize,
    pub regions: Regions,
}

// As merge_and_filter_regions, with what became of record r. The records lie before `end`, and the merges are noted from there on, two numbers each.
pub fn merge_and_filter_told(
    ws: &mut [u16],
    ids: &mut [u16],
    end: usize,
    m: usize,
    n: usize,
    min_region_area: u16,
    merge_region_size: u16,
    r: usize,
) -> Told
    requires { (end + 2 * m ≤ length ws.old) × Ready m n (take end ws.old) ids.old × (r < m) }
    ensures { (let g = result.regions in
        let found : rules.Regions = record { ids = ids.new; most = g.max_region; over = g.overlaps; cut = g.cut } in
        ToldRegions min_region_area merge_region_size m end r ws.old ids.old ws.new found
        result.id result.group result.merges) }
{
    let group = filter_told(&mut ws[..end], m, min_region_area, r);
    let id = ws[r];
    let merges = merge_all(ws, end, m, n, merge_region_size);
    let regions = number(ids, &mut ws[..end], m);
    Told {
        id,
        group,
        merges,
        regions,
    }
}
