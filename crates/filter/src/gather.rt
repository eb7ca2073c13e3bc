// A group: the records that can be reached from one through neighbour lists.
ghost use Rattle.std.specs.Prelude.{◌≡◌, [], ◌∷◌, ℕ, suc, ◌+◌, ◌-◌, ◌*◌, ◌≤◌, ◌<◌, get_or, set};
ghost use Rattle.rules.specs.Records.{at as rec_of};
ghost use Rattle.rules.specs.Filter.{seen, reach, gather};
ghost use Rattle.space.specs.Space.{Frame, stack_at};
ghost use Rattle.table.specs.Map.{Names, visits_at, spare_at, lists_at};
ghost use Rattle.table.specs.View.{recs_of, list_in};
ghost use Rattle.filter.specs.Group.{waiting_at, found_at, reach_one, group_at, Waiting, Found, Calm, Popped};

use region::RegionId;
use table::map::{LISTS, SPARE, VISITED};
use table::{at, end_of, start_of};

// The two spare columns: those that wait, and those that are found.
const WAITING: usize = SPARE;

pub(crate) const FOUND: usize = SPARE + 1;

// One entry r of a neighbour list: a live record not yet visited waits its turn. Gives how many wait.
fn reach_one(ws: &mut [u16], m: usize, r: u16, top: usize) -> usize
    requires { Waiting m top ws.old × Names m r }
    ensures by_index { (f : ℕ) → group_at ws.new m result f ≡ reach_one r (group_at ws.old m top f) }
    ensures waiting { Waiting m result ws.new × Frame (visits_at m) (found_at m) ws.old ws.new }
{
    if RegionId::BORDER_REGION.0 <= r {
        return top;
    }
    let q = r as usize;
    if ws[VISITED * m + q] != 0 || ws[q] == 0 {
        return top;
    }
    ws[WAITING * m + top] = ws[q];
    ws[VISITED * m + q] = 1;
    top + 1
}

// All entries of record i's list.
fn reach(ws: &mut [u16], m: usize, i: usize, top: usize) -> usize
    requires { Waiting m top ws.old × (i < m) }
    ensures f_after { let list = list_in ws.old m i in
        (f : ℕ) → group_at ws.new m result f ≡ reach list (group_at ws.old m top f) }
    ensures waiting { Waiting m result ws.new × Frame (visits_at m) (found_at m) ws.old ws.new }
{
    let a = start_of(ws, m, LISTS * m, i);
    let e = end_of(ws, m, LISTS * m, i);
    let mut n = top;
    for k in a..e {
        let r = ws[k];
        n = reach_one(ws, m, r, n);
    }
    n
}

// Record i is visited and waits alone.
pub(crate) fn enter(ws: &mut [u16], m: usize, i: usize)
    requires { Calm m ws.old × (i < m) × (get_or ws.old (visits_at m + i) 0 ≡ 0) }
    ensures waiting { Waiting m 1 ws.new × Found m 0 ws.new }
    ensures m_after { let records = recs_of ws.old m in
        group_at ws.new m 1 0 ≡ record { todo = i ∷ []; recs = set records i (seen (rec_of records i)); found = [] } }
    ensures frame { Frame (visits_at m) (found_at m) ws.old ws.new }
{
    ws[WAITING * m] = i as u16;
    ws[VISITED * m + i] = 1;
}

// The record that came last is found.
fn pop(ws: &mut [u16], m: usize, top: usize, f: usize) -> usize
    requires waiting { Waiting m top ws.old × Found m f ws.old }
    requires top_nonzero { (0 < top) × (f < m) }
    ensures popped { Popped m top f result ws.old ws.new × (result < m) }
    ensures waiting_2 { Waiting m (top - 1) ws.new × Found m (f + 1) ws.new }
    ensures frame { Frame (spare_at m) (lists_at m) ws.old ws.new }
{
    let r = ws[WAITING * m + (top - 1)];
    ws[WAITING * m + (top - 1)] = 0;
    ws[FOUND * m + f] = r;
    r as usize
}

// The whole group of the one that waits. Gives how many are found. The stack grows while it is taken from, so the loop asks for its top.
pub(crate) fn gather(ws: &mut [u16], m: usize) -> usize
    requires { Waiting m 1 ws.old × Found m 0 ws.old }
    ensures result_after { group_at ws.new m 0 result ≡ gather (suc m) (stack_at ws.old (waiting_at m) 1) (recs_of ws.old m) [] }
    ensures upper_bound { (result ≤ m) × Waiting m 0 ws.new × Found m result ws.new }
    ensures frame { Frame (visits_at m) (lists_at m) ws.old ws.new }
{
    let mut top = 1;
    let mut f = 0;
    while 0 < top {
        let i = pop(ws, m, top, f);
        top = reach(ws, m, i, top - 1);
        f += 1;
    }
    f
}
