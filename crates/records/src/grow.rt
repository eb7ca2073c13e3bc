// A span is added to its record, part by part.
ghost use Rattle.std.specs.Prelude.{◌≡◌, true, ◌+◌, ◌*◌, ◌≤◌, ◌<◌, length, get_or};
ghost use Rattle.rules.specs.Field.{none};
ghost use Rattle.rules.specs.Growth.{plain};
ghost use Rattle.net.specs.Table.{net_at};
ghost use Rattle.contour.specs.Pool.{Start};
ghost use Rattle.table.specs.Map.{spare_at, pool_at};
ghost use Rattle.table.specs.View.{list_start, list_end, floors_in};
ghost use Rattle.records.specs.Map.{pool_in};
ghost use Rattle.records.specs.Cell.{twins, others_from, Within, Lies, Prior, as_many_from, Some};
ghost use Rattle.records.specs.Rows.{Keeping, Step, Slack, Traced, traced, traced_cut, marked, cut_marked, floored, with_contour, contoured, celled};
ghost use Rattle.records.specs.Stock.{Reach};
ghost use Rattle.records.specs.Build.{KnowingFrom};

use crate::cell::{Spans, join};
use contour::edge::first_solid;
use contour::walk::{Contour, Pool, walk_contour};
use field::place::{SpanIx, connections};
use table::map::{AREAS, CUTS, FLOOR_ROOM, FLOORS, LISTS, OVERLAPS, POOL};
use table::{end_of, set_part, start_of};

// Overlap is set where another span of a cell has the id r too.
fn add_overlap(ws: &mut [u16], m: usize, r: usize, twin: bool)
    requires { (r < m) × (spare_at m ≤ length ws.old) }
    ensures { ws.new ≡ marked m r twin ws.old }
{
    if twin {
        ws[OVERLAPS * m + r] = 1;
    }
}

// The ids of the cell's other spans join the floors of record r, which has been counted already. The list's end is written only where the
// list has grown. Gives whether one of them has the span's id. What the pool has, up to top, only the contract reads.
fn add_floors(
    ids: &[u16],
    ws: &mut [u16],
    m: usize,
    top: usize,
    span: SpanIx,
    r: usize,
    cell: Spans,
    prior: usize,
) -> bool
    requires keeping { Keeping ids.now m top (span.0 + 1) ws.old × (r < m) × Slack m r ws.old × Within ids.now span.0 cell }
    requires lies { Some prior → Lies ids.now (as_many_from prior cell) }
    requires prior { (Some prior → Prior ids.now (floors_in ws.old m r) span.0 cell (as_many_from prior cell)) × (prior ≤ none) }
    ensures fact { let others = others_from ids.now span.0 cell.size cell.from in
        Step (floored others) ids.now m r top (span.0 + 1) ws.old ws.new }
    ensures result_value { let own = get_or ids.now span.0 0 in
        result ≡ twins ids.now span.0 own cell.size cell.from }
{
    let start = start_of(ws, m, FLOORS * m, r);
    let end = end_of(ws, m, FLOORS * m, r);
    let limit = start + FLOOR_ROOM * ws[m + r] as usize;
    let len = end - start;
    let taken = join(ids, &mut ws[start..limit], span, cell, prior, len);
    if taken.len == len {
        return taken.twin;
    }
    set_part(ws, m, FLOORS * m, r, start, start + taken.len);
    taken.twin
}

// The contour from the span is listed in the pool from top on, if the span has a solid edge.
fn trace(con: &[u8], ids: &[u16], ws: &mut [u16], pool: Pool, span: SpanIx, top: usize) -> Contour
    requires { Start pool con.now ids.now span.0 top ws.old }
    ensures fact { let list = traced (net_at pool.table ids.now ws.old) ids.now span.0 in
        Traced list ids.now pool.at top ws.old ws.new result.end }
    ensures cut_value { result.cut ≡ traced_cut (net_at pool.table ids.now ws.old) ids.now span.0 }
{
    let cons = connections(con, span);
    match first_solid(ids, ws, pool.table, cons, span) {
        Some(d) => walk_contour(con, ids, ws, pool, span, d, top),
        None => Contour {
            end: top,
            cut: false,
        },
    }
}

// How many records there are, and where the table of neighbours begins.
#[derive(Clone, Copy)]
pub struct Plan {
    pub records: usize,
    pub table: usize,
}

// The mark of record r is set where its contour was cut short.
fn add_cut(ws: &mut [u16], m: usize, r: usize, cut: bool)
    requires { (r < m) × (pool_at m ≤ length ws.old) }
    ensures { ws.new ≡ cut_marked m r cut ws.old }
{
    if cut {
        ws[CUTS * m + r] = 1;
    }
}

// Record r takes the contour from the span as its list, with its mark. Gives the pool's new end.
fn add_list(
    con: &[u8],
    ids: &[u16],
    ws: &mut [u16],
    plan: Plan,
    span: SpanIx,
    r: usize,
    top: usize,
) -> usize
    requires start { Start (pool_in plan) con.now ids.now span.0 top ws.old }
    requires keeping { Keeping ids.now plan.records top (span.0 + 1) ws.old × (r ≡ get_or ids.now span.0 0) × (r < plan.records) }
    requires r_bound { let m = plan.records in
        list_end ws.old m r ≤ list_start ws.old m r }
    ensures { let net = net_at plan.table ids.now ws.old in
        let f = with_contour (traced net ids.now span.0) (traced_cut net ids.now span.0) in
        Step f ids.now plan.records r result (span.0 + 1) ws.old ws.new }
{
    let m = plan.records;
    let pool = Pool {
        at: POOL * m,
        table: plan.table,
    };
    let c = trace(con, ids, ws, pool, span, top);
    set_part(ws, m, LISTS * m, r, POOL * m + top, POOL * m + c.end);
    add_cut(ws, m, r, c.cut);
    c.end
}

// While record r has no list it takes the span's area, and its contour. Gives the pool's new end.
pub(crate) fn add_contour(
    area: &[u8],
    con: &[u8],
    ids: &[u16],
    ws: &mut [u16],
    plan: Plan,
    span: SpanIx,
    r: usize,
    top: usize,
) -> usize
    requires reach { Reach plan area.now con.now ids.now ws.old span.0 }
    requires keeping { Keeping ids.now plan.records top (span.0 + 1) ws.old }
    requires r_value { (r ≡ get_or ids.now span.0 0) × (r < plan.records) × (r ≡ 0 → ⊥) }
    ensures { let net = net_at plan.table area.now ws.old in
        let f = contoured net ids.now span.0 in
        Step f ids.now plan.records r result (span.0 + 1) ws.old ws.new }
{
    let m = plan.records;
    if start_of(ws, m, LISTS * m, r) < end_of(ws, m, LISTS * m, r) {
        return top;
    }
    ws[AREAS * m + r] = area[span.0] as u16;
    add_list(con, ids, ws, plan, span, r, top)
}

// The span, of id r, adds one to its record; of its cell it takes floors and overlap, unless the record is known to have them: all, or what it has from
// the prior cell. What the pool has, up to top, only the contract reads.
pub(crate) fn add_cell(
    ids: &[u16],
    ws: &mut [u16],
    m: usize,
    top: usize,
    span: SpanIx,
    r: usize,
    cell: Spans,
    prior: usize,
)
    requires keeping { Keeping ids.now m top span.0 ws.old × Within ids.now span.0 cell }
    requires r_value { (r ≡ get_or ids.now span.0 0) × (plain (get_or ids.now span.0 0) ≡ true) }
    requires knowing_from { KnowingFrom ids.now m cell prior ws.old }
    ensures { let f = celled ids.now span.0 cell.size cell.from in
        Step f ids.now m r top (span.0 + 1) ws.old ws.new }
{
    ws[m + r] += 1;
    if prior == cell.from {
        return;
    }
    let twin = add_floors(ids, ws, m, top, span, r, cell, prior);
    add_overlap(ws, m, r, twin);
}
