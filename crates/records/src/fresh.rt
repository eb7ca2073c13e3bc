// New records.
ghost use Rattle.std.specs.Prelude.{◌≡◌, ◌+◌, ◌*◌, ◌≤◌, ◌<◌, length, get_or, eqb};
ghost use Rattle.rules.specs.Base.{many};
ghost use Rattle.rules.specs.Refusals.{most_spans};
ghost use Rattle.table.specs.Map.{border, areas_at, records_end};
ghost use Rattle.records.specs.Rows.{slot};
ghost use Rattle.records.specs.Fresh.{tally_one, Tallied, Renewed};
ghost use Rattle.records.specs.Stock.{Blank};

use crate::map::HALVES;
use table::map::{FLOOR_ROOM, FLOORS, LISTS, POOL};
use table::set_part;

// One more span of id r, if that is below m.
fn tally_one(ws: &mut [u16], m: usize, r: usize)
    requires { (areas_at m ≤ length ws.old) × (m ≤ border) × (r < m → get_or ws.old (m + r) 0 < 65535) }
    ensures { ws.new ≡ tally_one m r ws.old }
{
    if r < m {
        ws[m + r] += 1;
    }
}

// How many spans have each id below m, in the column of counts.
fn tally(ids: &[u16], ws: &mut [u16], m: usize)
    requires { Blank ids.now m ws.old }
    ensures { Tallied ids.now m (length ids.now) ws.old ws.new }
{
    for &r in ids {
        tally_one(ws, m, r as usize);
    }
}

// Record i is new: no list yet, and its floors' room after that of the records before it, which have `lower` spans. Gives its own spans.
fn renew_one(ids: &[u16], ws: &mut [u16], m: usize, i: usize, lower: usize) -> usize
    requires renewed { Renewed ids.now m i ws.old ws.old × (i < m) × (lower ≡ slot ids.now i) }
    requires m_le_border { (m ≤ border) × (length ids.now ≤ most_spans) × (records_end m (length ids.now) ≤ length ws.old) }
    ensures { Renewed ids.now m (i + 1) ws.old ws.new × (result ≡ many (eqb i) ids.now) }
{
    let spans = ws[m + i] as usize;
    let floors = POOL * m + HALVES * ids.len() + FLOOR_ROOM * lower;
    ws[i] = i as u16;
    ws[m + i] = 0;
    set_part(ws, m, LISTS * m, i, POOL * m, POOL * m);
    set_part(ws, m, FLOORS * m, i, floors, floors);
    spans
}

// New records 0 to m - 1.
pub(crate) fn renew(ids: &[u16], ws: &mut [u16], m: usize)
    requires { Blank ids.now m ws.old }
    ensures { Renewed ids.now m m ws.old ws.new }
{
    tally(ids, ws, m);
    let mut lower = 0;
    for i in 0..m {
        lower += renew_one(ids, ws, m, i, lower);
    }
}
