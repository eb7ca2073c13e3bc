// What is done with a group once it is found.
ghost use Rattle.std.specs.Prelude.{◌≡◌, ℕ, ◌+◌, ◌*◌, ◌≤◌, ◌<◌, get_or, set};
ghost use Rattle.rules.specs.Records.{at as rec_of};
ghost use Rattle.rules.specs.Filter.{removed, total, remove_all};
ghost use Rattle.space.specs.Space.{Frame};
ghost use Rattle.table.specs.Map.{areas_at, spare_at, lists_at};
ghost use Rattle.table.specs.View.{recs_of, RecordsIn};
ghost use Rattle.filter.specs.Group.{waiting_at, found_in, lists_flagged, any_flagged, small, remove_small, Gathered, Calm};

use crate::gather::FOUND;
use region::RegionId;
use space::clear;
use table::map::LISTS;
use table::{any_above, at, list_of};

// The spans of the f found.
pub(crate) fn total(ws: &[u16], m: usize, f: usize) -> usize
    requires { Gathered m f ws.now }
    ensures { result ≡ total (recs_of ws.now m) (found_in ws.now m f) }
{
    let mut sum = 0;
    for k in 0..f {
        let i = at(ws, FOUND * m + k);
        sum += at(ws, m + i);
    }
    sum
}

// The flagged ids are those above.
const LAST_UNFLAGGED: u16 = RegionId::BORDER_REGION.0 - 1;

// Does the list hold a flagged id?
fn lists_flagged(l: &[u16]) -> bool
    ensures { result ≡ lists_flagged l.now }
{
    any_above(l, LAST_UNFLAGGED)
}

// Does one of the f found list a flagged id?
fn any_flagged(ws: &[u16], m: usize, f: usize) -> bool
    requires { Gathered m f ws.now }
    ensures { result ≡ any_flagged (recs_of ws.now m) (found_in ws.now m f) }
{
    for k in 0..f {
        let i = at(ws, FOUND * m + k);
        if lists_flagged(list_of(ws, m, LISTS * m, i)) {
            return true;
        }
    }
    false
}

// Is the group of that count to go?
fn small(ws: &[u16], m: usize, f: usize, least: u16, count: usize) -> bool
    requires gathered { Gathered m f ws.now }
    requires count_value { count ≡ total (recs_of ws.now m) (found_in ws.now m f) }
    ensures { result ≡ small least (recs_of ws.now m) (found_in ws.now m f) }
{
    count < least as usize && !any_flagged(ws, m, f)
}

// Record i gets id 0 and count 0.
fn remove_one(ws: &mut [u16], m: usize, i: usize)
    requires { RecordsIn m ws.old × (i < m) }
    ensures m_after { let records = recs_of ws.old m in
        recs_of ws.new m ≡ set records i (removed (rec_of records i)) }
    ensures records_in { RecordsIn m ws.new × Frame 0 (areas_at m) ws.old ws.new }
{
    ws[m + i] = 0;
    ws[i] = 0;
}

// All f found.
fn remove_all(ws: &mut [u16], m: usize, f: usize)
    requires { Gathered m f ws.old }
    ensures m_after { recs_of ws.new m ≡ remove_all (found_in ws.old m f) (recs_of ws.old m) }
    ensures records_in { RecordsIn m ws.new × Frame 0 (areas_at m) ws.old ws.new }
{
    for k in 0..f {
        let i = at(ws, FOUND * m + k);
        remove_one(ws, m, i);
    }
}

// A small group is removed; count is its own.
pub(crate) fn remove_small(ws: &mut [u16], m: usize, f: usize, least: u16, count: usize)
    requires gathered { Gathered m f ws.old }
    requires count_value { count ≡ total (recs_of ws.old m) (found_in ws.old m f) }
    ensures m_after { recs_of ws.new m ≡ remove_small least (recs_of ws.old m) (found_in ws.old m f) }
    ensures records_in { RecordsIn m ws.new × Frame 0 (areas_at m) ws.old ws.new }
{
    if small(ws, m, f, least, count) {
        remove_all(ws, m, f);
    }
}

// The spare columns are zeros again: that of those that wait is already.
pub(crate) fn forget(ws: &mut [u16], m: usize, f: usize)
    requires gathered { Gathered m f ws.old }
    requires by_index { (x : ℕ) → x < m → get_or ws.old (waiting_at m + x) 0 ≡ 0 }
    ensures m_unchanged { recs_of ws.new m ≡ recs_of ws.old m }
    ensures calm { Calm m ws.new × Frame (spare_at m) (lists_at m) ws.old ws.new }
{
    let a = FOUND * m;
    clear(&mut ws[a..a + f]);
}
