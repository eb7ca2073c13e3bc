// One record's turn of the filter.
ghost use Rattle.std.specs.Prelude.{◌≡◌, ◌+◌, ◌*◌, ◌<◌, get_or};
ghost use Rattle.rules.specs.Filter.{filter_one};
ghost use Rattle.rules.specs.Reasons.{group_count};
ghost use Rattle.space.specs.Space.{Frame};
ghost use Rattle.table.specs.Map.{visits_at, spare_at};
ghost use Rattle.table.specs.View.{recs_of};
ghost use Rattle.filter.specs.Group.{filter_group, turn_count, Calm};

use crate::gather::{enter, gather};
use crate::remove::{forget, remove_small, total};
use table::map::VISITED;

// The group of record i. Gives its count.
fn filter_group(ws: &mut [u16], m: usize, least: u16, i: usize) -> usize
    requires { Calm m ws.old × (i < m) × (get_or ws.old (visits_at m + i) 0 ≡ 0) }
    ensures m_after { recs_of ws.new m ≡ filter_group least i (recs_of ws.old m) }
    ensures calm { Calm m ws.new × Frame 0 (spare_at m) ws.old ws.new }
    ensures value { result ≡ group_count i (recs_of ws.old m) }
{
    enter(ws, m, i);
    let f = gather(ws, m);
    let count = total(ws, m, f);
    remove_small(ws, m, f, least, count);
    forget(ws, m, f);
    count
}

// The group of record i, if it is not empty and not visited yet. Gives its count, 0 where there is none.
pub(crate) fn filter_one(ws: &mut [u16], m: usize, least: u16, i: usize) -> usize
    requires { Calm m ws.old × (i < m) }
    ensures m_after { recs_of ws.new m ≡ filter_one least i (recs_of ws.old m) }
    ensures calm { Calm m ws.new × Frame 0 (spare_at m) ws.old ws.new }
    ensures value { result ≡ turn_count i (recs_of ws.old m) }
{
    if ws[i] == 0 || ws[m + i] == 0 || ws[VISITED * m + i] != 0 {
        return 0;
    }
    filter_group(ws, m, least, i)
}
