// The walk round a region, listed in the pool: a section of the workspace, which lies before the table of neighbours.
ghost use Rattle.std.specs.Prelude.{◌≡◌, ◌+◌, ◌*◌, ◌<◌, ◌≤◌, length};
ghost use Rattle.rules.specs.Contour.{contour, cut_short};
ghost use Rattle.net.specs.Table.{net_at, last_place};
ghost use Rattle.contour.specs.Pool.{pooled, Standing, Start, Stridden, Begun, Walked, Trimmed};

use crate::edge::{across, is_solid_edge};
use crate::walker::Walker;
use field::place::{SpanIx, connections};
use net::neighbour;

// Where the pool begins in the workspace, four numbers a span, and the table of neighbours. Starts and ends of lists are counted from
// the pool's place on.
#[derive(Clone, Copy)]
pub struct Pool {
    pub at: usize,
    pub table: usize,
}

// No walk is longer.
const MOST_STRIDES: usize = 40000;

// At a solid edge, an id other than the last listed is listed and the walker turns; at an open one it steps.
fn stride(con: &[u8], ids: &[u16], ws: &mut [u16], pool: Pool, v: Walker) -> Walker
    requires { Standing pool con.now ids.now v ws.old }
    ensures { Stridden pool ids.now ws.old v ws.new result }
{
    let cons = connections(con, v.span);
    if is_solid_edge(ids, ws, pool.table, cons, v.span, v.dir) {
        let r = across(ids, ws, pool.table, cons, v.span, v.dir);
        if r == v.last {
            return v.turn();
        }
        ws[pool.at + v.end] = r;
        return v.note(r).turn();
    }
    let to = neighbour(ws, pool.table, v.span, v.dir);
    v.step(to)
}

// The id across the starting edge is listed.
fn begin(
    con: &[u8],
    ids: &[u16],
    ws: &mut [u16],
    pool: Pool,
    span: SpanIx,
    d: usize,
    start: usize,
) -> Walker
    requires { Start pool con.now ids.now span.0 start ws.old × (d < 4) }
    ensures { Begun pool ids.now ws.old span.0 d start ws.new result }
{
    let cons = connections(con, span);
    let r = across(ids, ws, pool.table, cons, span, d);
    ws[pool.at + start] = r;
    Walker {
        span,
        dir: d,
        last: r,
        end: start + 1,
    }
}

// Round the region, until the walker is back.
fn walk(
    con: &[u8],
    ids: &[u16],
    ws: &mut [u16],
    pool: Pool,
    span: SpanIx,
    d: usize,
    start: usize,
) -> Walker
    requires { Start pool con.now ids.now span.0 start ws.old × (d < 4) }
    ensures { Walked pool ids.now ws.old span.0 d start ws.new result }
{
    let mut v = begin(con, ids, ws, pool, span, d, start);
    for k in 0..MOST_STRIDES {
        v = stride(con, ids, ws, pool, v);
        if v.at(span, d) {
            return v;
        }
    }
    v
}

// A last entry equal to the first is dropped when the list has more than one. Gives the list's end.
fn trim(ws: &mut [u16], pool: Pool, start: usize, end: usize) -> usize
    requires { (pool.at ≤ last_place) × (start < end) × (pool.at + end ≤ length ws.old) }
    ensures { Trimmed pool.at ws.old start end ws.new result }
{
    if end - start < 2 {
        return end;
    }
    let last = end - 1;
    if ws[pool.at + start] != ws[pool.at + last] {
        return end;
    }
    ws[pool.at + last] = 0;
    last
}

// Where a contour's list ends, and whether its walk used up its strides without coming back.
#[derive(Clone, Copy)]
pub struct Contour {
    pub end: usize,
    pub cut: bool,
}

// The contour of the span's region, from its solid edge in direction d, is listed in the pool from start on.
pub fn walk_contour(
    con: &[u8],
    ids: &[u16],
    ws: &mut [u16],
    pool: Pool,
    span: SpanIx,
    d: usize,
    start: usize,
) -> Contour
    requires { Start pool con.now ids.now span.0 start ws.old × (d < 4) }
    ensures ws_after { let net = net_at pool.table ids.now ws.old in
        let list = contour net ids.now span.0 d in
        ws.new ≡ pooled ws.old pool.at (4 * length ids.now) start list }
    ensures end_value { let net = net_at pool.table ids.now ws.old in
        result.end ≡ start + length (contour net ids.now span.0 d) }
    ensures cut_value { let net = net_at pool.table ids.now ws.old in
        result.cut ≡ cut_short net ids.now span.0 d }
{
    let v = walk(con, ids, ws, pool, span, d, start);
    let back = v.at(span, d);
    Contour {
        end: trim(ws, pool, start, v.end),
        cut: !back,
    }
}
