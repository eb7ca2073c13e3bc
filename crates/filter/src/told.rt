// The filter, and the group with which one record is removed: "Why has this span no room?"
ghost use Rattle.std.specs.Prelude.{◌≡◌, not, ◌*◌, ◌<◌, eqb};
ghost use Rattle.rules.specs.Base.{◌and◌, when◌then◌else◌};
ghost use Rattle.rules.specs.Filter.{filtered};
ghost use Rattle.rules.specs.Reasons.{gone_with};
ghost use Rattle.space.specs.Space.{Frame};
ghost use Rattle.table.specs.Map.{spare_at};
ghost use Rattle.table.specs.View.{recs_of};
ghost use Rattle.filter.specs.Group.{Calm};

use crate::whole::filter_one;

// The count with which a record is gone, after one more group of that count: its id was `before`, and is `after`.
fn gone(before: u16, after: u16, count: usize, told: usize) -> usize
    ensures { result ≡ (when not (eqb before 0) and eqb after 0 then count else told) }
{
    if before != 0 && after == 0 {
        count
    } else {
        told
    }
}

// All records, in order. Gives the count of the group with which record r is removed, 0 if it is not.
pub fn filter_told(ws: &mut [u16], m: usize, least: u16, r: usize) -> usize
    requires { Calm m ws.old × (r < m) }
    ensures m_after { recs_of ws.new m ≡ filtered least (recs_of ws.old m) }
    ensures calm { Calm m ws.new × Frame 0 (spare_at m) ws.old ws.new }
    ensures value { result ≡ gone_with least r m (recs_of ws.old m) }
{
    let mut told = 0;
    for i in 0..m {
        let before = ws[r];
        let count = filter_one(ws, m, least, i);
        told = gone(before, ws[r], count, told);
    }
    told
}

// All records, in order. The same loop, with what it tells left: a second one would take `filter_one` out of both.
pub fn filter(ws: &mut [u16], m: usize, least: u16)
    requires { Calm m ws.old }
    ensures m_after { recs_of ws.new m ≡ filtered least (recs_of ws.old m) }
    ensures calm { Calm m ws.new × Frame 0 (spare_at m) ws.old ws.new }
{
    if 0 < m {
        filter_told(ws, m, least, 0);
    }
}
