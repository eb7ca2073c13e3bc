// Numbering: live ids are numbered from 1 by lowest record.

#![tactic(auto)]

ghost use Rattle.std.specs.Prelude.{◌≡◌, List, [], map, ℕ, ◌+◌, ◌*◌, ◌≤◌, ◌<◌, length, get_or, take};
ghost use Rattle.space.specs.Space.{Frame};
ghost use Rattle.rules.specs.Numbering.{numbered};
ghost use Rattle.table.specs.Map.{Names, spare_at, pool_at};
ghost use Rattle.table.specs.View.{recs_of};
ghost use Rattle.numbering.specs.Number.{step_live, live_ids, renumber, nonzero, Numbers, AllNumbers, Column, Blank, Spans};

use pool::many;
use region::RegionId;
use table::map::{CUTS, OVERLAPS, SPARE};

// Record i's id gets the next number, unless it is 0 or has one. Gives the last number given.
fn number_one(ws: &mut [u16], m: usize, numbers: usize, i: usize, k: u16) -> u16
    requires { Column m numbers ws.old × (i < m) × (k ≤ i) }
    ensures by_index { (l : List ℕ) → Numbers m numbers ws.old l k
        → Numbers m numbers ws.new (step_live l (get_or ws.old i 0)) result }
    ensures frame { Frame numbers (numbers + m) ws.old ws.new × (result ≤ k + 1) }
{
    let r = usize::from(ws[i]);
    if r == 0 || ws[numbers + r] != 0 {
        return k;
    }
    ws[numbers + r] = k + 1;
    k + 1
}

// All records, in order. Ids and numbers are columns of the one workspace, so an index reads both.
fn number_all(ws: &mut [u16], m: usize, numbers: usize) -> u16
    requires { Column m numbers ws.old × Blank m numbers ws.old }
    ensures numbers { Numbers m numbers ws.new (live_ids (take m ws.old) []) result }
    ensures frame { Frame numbers (numbers + m) ws.old ws.new }
{
    let mut k = 0;
    for i in 0..m {
        k = number_one(ws, m, numbers, i, k);
    }
    k
}

// The id of a span that has the id r.
fn new_id(ws: &[u16], m: usize, numbers: usize, r: u16) -> u16
    requires { Column m numbers ws.now × AllNumbers m numbers ws.now × Names m r }
    ensures { result ≡ renumber (take m ws.now) r }
{
    if RegionId::BORDER_REGION.0 <= r {
        return r;
    }
    let i = usize::from(ws[usize::from(r)]);
    ws[numbers + i]
}

// All spans.
fn new_ids(ids: &mut [u16], ws: &[u16], m: usize, numbers: usize)
    requires { Column m numbers ws.now × AllNumbers m numbers ws.now × Spans m ids.old }
    ensures { ids.new ≡ map (renumber (take m ws.now)) ids.old }
{
    for id in ids.iter_mut() {
        *id = new_id(ws, m, numbers, *id);
    }
}

// How many are not 0.
fn nonzero(l: &[u16]) -> u16
    requires { length l.now < 65536 }
    ensures { result ≡ nonzero l.now }
{
    (l.len() - many(l, 0)) as u16
}

// The last number given, how many records have overlap set, and how many bear the mark of a contour cut short.
#[derive(Clone, Copy)]
pub struct Regions {
    pub max_region: u16,
    pub overlaps: u16,
    pub cut: u16,
}

// Numbers the records, and writes each span's number.
pub fn number(ids: &mut [u16], ws: &mut [u16], m: usize) -> Regions
    requires { Column m (spare_at m) ws.old × Blank m (spare_at m) ws.old × Spans m ids.old × (pool_at m ≤ length ws.old) }
    ensures cut_value { record { ids = ids.new; most = result.max_region; over = result.overlaps; cut = result.cut }
        ≡ numbered (recs_of ws.old m) ids.old }
    ensures frame { Frame (spare_at m) (spare_at m + m) ws.old ws.new }
{
    let flags = OVERLAPS * m;
    let numbers = SPARE * m;
    let cuts = CUTS * m;
    let max_region = number_all(ws, m, numbers);
    new_ids(ids, ws, m, numbers);
    let overlaps = nonzero(&ws[flags..flags + m]);
    let cut = nonzero(&ws[cuts..cuts + m]);
    Regions {
        max_region,
        overlaps,
        cut,
    }
}
