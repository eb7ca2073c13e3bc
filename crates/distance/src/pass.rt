// The start and the two passes: each span takes the least of itself and of what its neighbours on two sides hold, plus 2, or plus 3 at a corner.
ghost use Rattle.std.specs.Prelude.{◌≡◌, true, ◌+◌, ◌*◌, ◌-◌, ◌<◌, ◌≤◌, min, length, get_or};
ghost use Rattle.rules.specs.Distance as rules;
ghost use Rattle.field.specs.Lent.{Reached, Stands, cons_at};
ghost use Rattle.rules.specs.Rows.{over_cell, from_start, pass1_row, pass2_row};
ghost use Rattle.distance.specs.Value.{run_end, least, least_from, ringed, Goes, Passing, PassedTo, LowBefore, Low, Room};
ghost use Rattle.distance.specs.Walk.{columns_up, columns_down, spans_up, high_to, cells_of};
ghost use Rattle.distance.specs.Value as value;
ghost use Rattle.field.specs.Seen.{seen};

use crate::start::{FARTHEST, start_span, surrounded};
use field::block::{block_of, is_empty};
use field::lent::{Heightfield, codes_are_bytes};
use field::place::{NO_LAYER, Place, SpanIx, connections, follow};

// The least of best and the value of span t plus n.
fn lower(raw: &[u16], t: usize, n: u16, best: u16) -> u16
    requires { (t < length raw.now) × (get_or raw.now t 0 ≤ 510) × (n ≤ 3) }
    ensures { result ≡ min best (get_or raw.now t 0 + n) }
{
    let v = raw[t] + n;
    if best <= v {
        return best;
    }
    v
}

// The least of best, neighbour d plus 2, and its neighbour e plus 3, of the span at place p, whose connections are cons; neighbour d is there.
// It comes last: of all that a span reads, neighbour d may be the one that was written just before.
fn beside(
    field: &Heightfield,
    raw: &[u16],
    cons: [u8; 4],
    p: Place,
    d: usize,
    e: usize,
    best: u16,
) -> u16
    requires place { let F = seen field.now in
        Reached F × Stands F p.cell p.span.0 × (cons ≡ cons_at F.con p.span.0) × Room F raw.now p.span.0 d e }
    requires sides { (d < 4) × (e < 4) × (get_or cons d 0 ≡ 255 → ⊥) }
    ensures { let F = seen field.now in
        result ≡ min best (value.side F raw.now p.span.0 d e) }
{
    let q = follow(field.w, field.index, cons, p.cell, d);
    let t = q.span;
    let next = connections(field.con, t);
    if next[e] == NO_LAYER {
        return lower(raw, t.0, 2, best);
    }
    let k = follow(field.w, field.index, next, q.cell, e);
    let b = lower(raw, k.span.0, 3, best);
    lower(raw, t.0, 2, b)
}

// The same where neighbour d may be missing. Pass 1 does without the test here, since it has asked all four at once.
fn side(
    field: &Heightfield,
    raw: &[u16],
    cons: [u8; 4],
    p: Place,
    d: usize,
    e: usize,
    best: u16,
) -> u16
    requires place { let F = seen field.now in
        Reached F × Stands F p.cell p.span.0 × (cons ≡ cons_at F.con p.span.0) × Room F raw.now p.span.0 d e }
    requires sides { (d < 4) × (e < 4) }
    ensures { let F = seen field.now in
        result ≡ min best (value.side F raw.now p.span.0 d e) }
{
    if cons[d] == NO_LAYER {
        return best;
    }
    beside(field, raw, cons, p, d, e, best)
}

// What pass 2 gives the span at place p. The neighbour in the span's own row comes last, see beside.
fn least_at(field: &Heightfield, raw: &[u16], p: Place) -> u16
    requires { let F = seen field.now in
        Reached F × Stands F p.cell p.span.0 × Room F raw.now p.span.0 2 1 × Room F raw.now p.span.0 1 0 }
    ensures { let F = seen field.now in
        result ≡ least F 2 1 1 0 p.span.0 raw.now }
{
    let own = raw[p.span.0];
    let cons = connections(field.con, p.span);
    let best = side(field, raw, cons, p, 1, 0, own);
    side(field, raw, cons, p, 2, 1, best)
}

// A value of at most this can't become less, since at least 2 is added to each other.
const SETTLED: u16 = 2;

// The same, where the value is not settled yet.
fn lowered(field: &Heightfield, raw: &[u16], p: Place) -> u16
    requires { let F = seen field.now in
        Reached F × Stands F p.cell p.span.0 × Room F raw.now p.span.0 2 1 × Room F raw.now p.span.0 1 0 }
    ensures { let F = seen field.now in
        result ≡ least F 2 1 1 0 p.span.0 raw.now }
{
    let own = raw[p.span.0];
    if own <= SETTLED {
        return own;
    }
    least_at(field, raw, p)
}

// What pass 1 gives the span at place p, which has four neighbours: one that starts above 0 starts above all that its neighbours make of it.
fn from_inside(field: &Heightfield, raw: &[u16], p: Place) -> u16
    requires place { let F = seen field.now in
        Reached F × Stands F p.cell p.span.0 × Room F raw.now p.span.0 0 3 × Room F raw.now p.span.0 3 2 }
    requires span_value { ringed (cons_at field.now.con.now p.span.0) ≡ true }
    ensures { let F = seen field.now in
        result ≡ least_from F (rules.start_at F p.span.0) 0 3 3 2 p.span.0 raw.now }
{
    let cons = connections(field.con, p.span);
    if start_span(field, cons, p) == 0 {
        return 0;
    }
    let best = beside(field, raw, cons, p, 3, 2, FARTHEST);
    beside(field, raw, cons, p, 0, 3, best)
}

// The same for any span: one that lacks a neighbour starts at 0.
fn from_start(field: &Heightfield, raw: &[u16], p: Place) -> u16
    requires { let F = seen field.now in
        Reached F × Stands F p.cell p.span.0 × Room F raw.now p.span.0 0 3 × Room F raw.now p.span.0 3 2 }
    ensures { let F = seen field.now in
        result ≡ least_from F (rules.start_at F p.span.0) 0 3 3 2 p.span.0 raw.now }
{
    codes_are_bytes(field.area);
    let cons = connections(field.con, p.span);
    if !surrounded(cons) {
        return 0;
    }
    from_inside(field, raw, p)
}

// The start and pass 1 over the spans of the cell in column x of row y.
fn pass1_cell(field: &Heightfield, raw: &mut [u16], x: usize, y: usize)
    requires { let F = seen field.now in
        Reached F × (x < F.w) × (y < F.h) × Passing F y x raw.old }
    ensures { let F = seen field.now in
        (raw.new ≡ over_cell F (from_start F) (F.w * y + x) raw.old) × Passing F y (x + 1) raw.new }
{
    codes_are_bytes(field.area);
    let c = field.w * y + x;
    let i = field.index[c] as usize;
    let k = field.count[c] as usize;
    for j in 0..k {
        let s = i + j;
        let p = Place {
            cell: c,
            span: SpanIx(s),
        };
        raw[s] = from_start(field, raw, p);
    }
}

// The same over the k columns from x on.
fn pass1_columns(field: &Heightfield, raw: &mut [u16], x: usize, k: usize, y: usize)
    requires { let F = seen field.now in
        Reached F × (x + k ≤ F.w) × (y < F.h) × Passing F y x raw.old }
    ensures { let F = seen field.now in
        (raw.new ≡ columns_up F (from_start F) y x k raw.old) × Passing F y (x + k) raw.new }
{
    for j in 0..k {
        pass1_cell(field, raw, x + j, y);
    }
}

// The same, a block without spans at once.
fn pass1_block(field: &Heightfield, raw: &mut [u16], x: usize, k: usize, y: usize)
    requires { let F = seen field.now in
        Reached F × (x + k ≤ F.w) × (y < F.h) × Passing F y x raw.old }
    ensures { let F = seen field.now in
        (raw.new ≡ columns_up F (from_start F) y x k raw.old) × Passing F y (x + k) raw.new }
{
    if is_empty(field.count, field.w * y + x, k) {
        return;
    }
    pass1_columns(field, raw, x, k, y);
}

// The start and pass 1 over row y, columns upward, block by block, so that the loop strides: what row y and the rows after it held is not looked at.
pub fn pass1_row(field: &Heightfield, raw: &mut [u16], y: usize)
    requires { let F = seen field.now in
        Reached F × (y < F.h) × LowBefore F (F.w * y) raw.old }
    ensures { let F = seen field.now in
        (raw.new ≡ pass1_row F y raw.old) × LowBefore F (F.w * (y + 1)) raw.new }
{
    let mut x: usize = 0;
    while x < field.w {
        let k = block_of(field.w - x);
        pass1_block(field, raw, x, k, y);
        x += k;
    }
}

// 0 for each span from s on that lacks a neighbour, up to the first that has four, which is given, or to the end.
fn edges(field: &Heightfield, raw: &mut [u16], s: usize) -> Option<usize>
    requires { let F = seen field.now in
        Reached F × (s ≤ length F.area) × PassedTo F s raw.old }
    ensures { let F = seen field.now in
        let at = run_end (length F.area) result in
        (raw.new ≡ spans_up (from_start F) s (at - s) raw.old) × PassedTo F at raw.new × (s ≤ at) × Goes (length F.area) F.con result }
{
    codes_are_bytes(field.area);
    for k in s..field.area.len() {
        let cons = connections(field.con, SpanIx(k));
        if surrounded(cons) {
            return Some(k);
        }
        raw[k] = 0;
    }
    None
}

// The start and pass 1 over all spans; cells has the cell of each. Spans that lack a neighbour have a loop of their own. As that stands within it, the
// loop here is compiled so that the lesser of two values is chosen and not jumped to: where a cell has many layers, no processor foresees which is less.
pub fn pass1(field: &Heightfield, raw: &mut [u16], cells: &[u16])
    requires { let F = seen field.now in
        Reached F × (length raw.old ≡ length F.area) × (cells.now ≡ cells_of F) }
    ensures { let F = seen field.now in
        (raw.new ≡ rules.pass1 F (rules.start F)) × Low F raw.new }
{
    // A copy of its own, so that the compiler keeps it in registers.
    let field = &{ *field };
    codes_are_bytes(field.area);
    let mut next = edges(field, raw, 0);
    while let Some(s) = next {
        let p = Place {
            cell: cells[s] as usize,
            span: SpanIx(s),
        };
        raw[s] = from_inside(field, raw, p);
        next = edges(field, raw, s + 1);
    }
}

// Pass 2 over the spans of cell c, layers upward.
fn pass2_cell(field: &Heightfield, raw: &mut [u16], c: usize)
    requires { let F = seen field.now in
        Reached F × (c < length F.count) × Low F raw.old }
    ensures { let F = seen field.now in
        (raw.new ≡ over_cell F (rules.lower F 2 1 1 0) c raw.old) × Low F raw.new }
{
    let i = field.index[c] as usize;
    let k = field.count[c] as usize;
    for j in 0..k {
        let s = i + j;
        let p = Place {
            cell: c,
            span: SpanIx(s),
        };
        raw[s] = lowered(field, raw, p);
    }
}

// The same over the k columns from x on, downward.
fn pass2_columns(field: &Heightfield, raw: &mut [u16], x: usize, k: usize, y: usize)
    requires { let F = seen field.now in
        Reached F × (x + k ≤ F.w) × (y < F.h) × Low F raw.old }
    ensures { let F = seen field.now in
        (raw.new ≡ columns_down F (rules.lower F 2 1 1 0) y x k raw.old) × Low F raw.new }
{
    let first = field.w * y + x;
    for j in (0..k).rev() {
        pass2_cell(field, raw, first + j);
    }
}

// The same, a block without spans at once.
fn pass2_block(field: &Heightfield, raw: &mut [u16], x: usize, k: usize, y: usize)
    requires { let F = seen field.now in
        Reached F × (x + k ≤ F.w) × (y < F.h) × Low F raw.old }
    ensures { let F = seen field.now in
        (raw.new ≡ columns_down F (rules.lower F 2 1 1 0) y x k raw.old) × Low F raw.new }
{
    if is_empty(field.count, field.w * y + x, k) {
        return;
    }
    pass2_columns(field, raw, x, k, y);
}

// Pass 2 over row y, columns downward, block by block: the loop strides.
pub fn pass2_row(field: &Heightfield, raw: &mut [u16], y: usize)
    requires { let F = seen field.now in
        Reached F × (y < F.h) × Low F raw.old }
    ensures { let F = seen field.now in
        (raw.new ≡ pass2_row F y raw.old) × Low F raw.new }
{
    let mut x = field.w;
    while 0 < x {
        let k = block_of(x);
        x -= k;
        pass2_block(field, raw, x, k, y);
    }
}

// As many of the first s values as there are up to the last above 2: those after it can't become less.
fn unsettled(raw: &[u16], s: usize) -> usize
    requires { s ≤ length raw.now }
    ensures { result ≡ high_to raw.now s }
{
    for k in (0..s).rev() {
        if SETTLED < raw[k] {
            return k + 1;
        }
    }
    0
}

// Pass 2 over all spans from the last to the first; cells has the cell of each. A cell's layers do not read each other, so their order is free.
// Those that can't become less have a loop of their own, as in pass 1, and the loop here jumps over them.
pub fn pass2(field: &Heightfield, raw: &mut [u16], cells: &[u16])
    requires { let F = seen field.now in
        Reached F × Low F raw.old × (cells.now ≡ cells_of F) }
    ensures { let F = seen field.now in
        raw.new ≡ rules.pass2 F raw.old }
{
    // A copy of its own, so that the compiler keeps it in registers.
    let field = &{ *field };
    let mut s = field.area.len();
    while 0 < s {
        s -= 1;
        if raw[s] <= SETTLED {
            s = unsettled(raw, s);
            continue;
        }
        let p = Place {
            cell: cells[s] as usize,
            span: SpanIx(s),
        };
        raw[s] = least_at(field, raw, p);
    }
}
