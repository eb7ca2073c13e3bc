// The records of all regions, in one pass over the cells.
ghost use Rattle.std.specs.Prelude.{◌≡◌, true, ◌+◌, ◌*◌, ◌≤◌, ◌<◌, length, get_or};
ghost use Rattle.rules.specs.Growth.{plain};
ghost use Rattle.field.specs.Lent.{lent};
ghost use Rattle.table.specs.Map.{records_end};
ghost use Rattle.records.specs.Stock.{Given, Blank, Built};
ghost use Rattle.records.specs.Build.{spans_at, Standing, Added, Entering, Entered, Knowing, KnowingFrom};
ghost use Rattle.field.specs.Seen.{seen};

use crate::cell::{Spans, look_back};
use crate::fresh::renew;
use crate::grow::{Plan, add_cell, add_contour};
use field::lent::Heightfield;
use field::place::{Layer, SpanIx};
use region::RegionId;

// A span of a region is added to its record. Gives the pool's new end.
fn count_span(
    area: &[u8],
    con: &[u8],
    ids: &[u16],
    ws: &mut [u16],
    plan: Plan,
    cell: Spans,
    prior: usize,
    span: SpanIx,
    top: usize,
) -> usize
    requires standing { Standing plan area.now con.now ids.now cell span.0 top ws.old × (plain (get_or ids.now span.0 0) ≡ true) }
    requires knowing_from { KnowingFrom ids.now plan.records cell prior ws.old }
    ensures { Added plan area.now ids.now cell span.0 ws.old result ws.new }
{
    let r = ids[span.0] as usize;
    add_cell(ids, ws, plan.records, top, span, r, cell, prior);
    add_contour(area, con, ids, ws, plan, span, r, top)
}

// A span is added to the record of its id, if that is not 0 and not flagged.
fn add_span(
    area: &[u8],
    con: &[u8],
    ids: &[u16],
    ws: &mut [u16],
    plan: Plan,
    cell: Spans,
    prior: usize,
    span: SpanIx,
    top: usize,
) -> usize
    requires standing { Standing plan area.now con.now ids.now cell span.0 top ws.old }
    requires knowing_from { KnowingFrom ids.now plan.records cell prior ws.old }
    ensures { Added plan area.now ids.now cell span.0 ws.old result ws.new }
{
    let r = ids[span.0];
    if r == RegionId::NONE.0 || RegionId(r).is_border() {
        return top;
    }
    count_span(area, con, ids, ws, plan, cell, prior, span, top)
}

// All spans of a cell, layer by layer. What their records have from the prior cell is not looked for again.
fn add_spans(
    area: &[u8],
    con: &[u8],
    ids: &[u16],
    ws: &mut [u16],
    plan: Plan,
    cell: Spans,
    prior: usize,
    top: usize,
) -> usize
    requires entering { Entering plan area.now con.now ids.now cell top ws.old }
    requires knowing_from { KnowingFrom ids.now plan.records cell prior ws.old }
    ensures { Entered plan area.now ids.now cell cell.size top ws.old result ws.new }
{
    let mut end = top;
    for j in 0..cell.size {
        end = add_span(
            area,
            con,
            ids,
            ws,
            plan,
            cell,
            prior,
            cell.at(Layer(j as u8)),
            end,
        );
    }
    end
}

// The spans of cell c.
fn spans_of(index: &[u32], count: &[u8], c: usize) -> Spans
    requires { (c < length index.now) × (c < length count.now) }
    ensures { result ≡ spans_at index.now count.now c }
{
    Spans {
        from: index[c] as usize,
        size: count[c] as usize,
    }
}

// The pool's end, and the last cell with several spans.
#[derive(Clone, Copy)]
pub struct SoFar {
    pub top: usize,
    pub last: Spans,
}

// The spans of cell c are added. An empty cell is passed over at once.
fn add_cell_at(
    field: &Heightfield,
    ids: &[u16],
    ws: &mut [u16],
    plan: Plan,
    c: usize,
    t: SoFar,
) -> SoFar
    requires c_in_bounds { let F = seen field.now in
        (c < length F.index) × (c < length F.count) }
    requires fact { let F = seen field.now in
        let cell = spans_at F.index F.count c in
        Entering plan F.area F.con ids.now cell t.top ws.old × Knowing ids.now plan.records t.last ws.old }
    ensures { let F = seen field.now in
        let cell = spans_at F.index F.count c in
        Entered plan F.area ids.now cell cell.size t.top ws.old result.top ws.new
        × Knowing ids.now plan.records result.last ws.new }
{
    let cell = spans_of(field.index, field.count, c);
    if cell.size == 0 {
        return t;
    }
    let back = look_back(ids, t.last, cell);
    SoFar {
        top: add_spans(
            field.area, field.con, ids, ws, plan, cell, back.prior, t.top,
        ),
        last: back.last,
    }
}

// The records 0 to next of the regions of ids, in a workspace of zeros up to their end, with the table of neighbours past it.
pub fn build_records(field: &Heightfield, ids: &[u16], ws: &mut [u16], table: usize, next: usize)
    requires given { Given (seen field.now) ids.now table ws.old }
    requires blank { Blank ids.now (next + 1) ws.old × (records_end (next + 1) (length ids.now) ≤ table) }
    ensures { let F = seen field.now in
        Built F ids.now next ws.old ws.new }
{
    // A copy of its own, so that the compiler keeps it in registers.
    let field = &{ *field };
    let plan = Plan {
        records: next + 1,
        table,
    };
    renew(ids, ws, next + 1);
    let mut t = SoFar {
        top: 0,
        last: Spans { from: 0, size: 0 },
    };
    for c in 0..field.w * field.h {
        t = add_cell_at(field, ids, ws, plan, c, t);
    }
}
