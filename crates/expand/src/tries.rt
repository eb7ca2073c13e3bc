// Tries: a span whose flag is up looks. If it finds an id, the change is noted past the others, and its flag falls.
ghost use Rattle.std.specs.Prelude.{◌≡◌, false, ◌+◌, ◌*◌, ◌<◌, ◌≤◌, length, get_or};
ghost use Rattle.rules.specs.Field.{none};
ghost use Rattle.rules.specs.Net.{near};
ghost use Rattle.net.specs.Table.{net_at, last_place, Closed};
ghost use Rattle.expand.specs.Layout.{noted, Sizes, Entries};
ghost use Rattle.expand.specs.Front.{Board, Moved, Tried, Sides, Beside, Spans, Entered};

use crate::look::takes;
use field::place::{NO_SPAN, SpanIx};
use net::{Sections, neighbour};
use region::RegionId;

// How many changes are noted, and whether a sum exceeded what a source distance can be. Past the flag the struct is filled up: bytes that no field
// has are copied with a struct too, by way of memory, and these copies took more than half of the time of an expansion (docs/PERFORMANCE.md).
#[derive(Clone, Copy)]
pub struct Tries {
    pub noted: usize,
    pub strays: bool,
    pub fill1: u8,
    pub fill2: u16,
    pub fill4: u32,
}

// The flag at i falls, and the change of span s is noted at c.
fn note(ws: &mut [u16], i: usize, c: usize, s: u16, id: u16, far: u16)
    requires { (i < length ws.old) × (c + 2 < length ws.old) × (i ≤ last_place) × (c ≤ last_place) }
    ensures { ws.new ≡ noted i c s id far ws.old }
{
    ws[i] = 0;
    ws[c] = s;
    ws[c + 1] = id;
    ws[c + 2] = far;
}

// A span is tried, after the tries t.
fn try_span(area: &[u8], ids: &[u16], ws: &mut [u16], at: Sections, span: SpanIx, t: Tries) -> Tries
    requires closed { Closed (net_at at.table area.now ws.old) × (at.stack ≡ at.changes + 3 * length area.now) }
    requires board { Board (length area.now) at.changes at.table t.noted ids.now ws.old × (span.0 < length area.now) }
    ensures fact { let ws₀ = ws.old in
        Moved area.now at.changes at.table ids.now ws₀ t.noted t.strays ws.new result.noted result.strays }
    ensures tried { Tried area.now at.changes at.table ids.now ws.old ws.new result.strays span.0 }
{
    let x = span.0;
    let i = at.stack + x;
    if ws[i] == 0 {
        return t;
    }
    let f = takes(area, ids, ws, at.table, span, t.strays);
    if f.id == RegionId::NONE.0 {
        return Tries {
            strays: f.strays,
            ..t
        };
    }
    note(ws, i, at.changes + 3 * t.noted, x as u16, f.id, f.far);
    Tries {
        noted: t.noted + 1,
        strays: f.strays,
        ..t
    }
}

// The neighbour of a span in direction d is tried.
fn try_side(
    area: &[u8],
    ids: &[u16],
    ws: &mut [u16],
    at: Sections,
    span: SpanIx,
    d: usize,
    t: Tries,
) -> Tries
    requires closed { Closed (net_at at.table area.now ws.old) × (at.stack ≡ at.changes + 3 * length area.now) }
    requires board { Board (length area.now) at.changes at.table t.noted ids.now ws.old × (span.0 < length area.now) × (d < 4) }
    ensures fact { let ws₀ = ws.old in
        Moved area.now at.changes at.table ids.now ws₀ t.noted t.strays ws.new result.noted result.strays }
    ensures fact_2 { let side = near (net_at at.table area.now ws.old) span.0 d in
        Tried area.now at.changes at.table ids.now ws.old ws.new result.strays side }
{
    let side = neighbour(ws, at.table, span, d);
    if side.0 == NO_SPAN {
        return t;
    }
    try_span(area, ids, ws, at, side, t)
}

// All four neighbours of a span.
fn try_around(
    area: &[u8],
    ids: &[u16],
    ws: &mut [u16],
    at: Sections,
    span: SpanIx,
    t: Tries,
) -> Tries
    requires closed { Closed (net_at at.table area.now ws.old) × (at.stack ≡ at.changes + 3 * length area.now) }
    requires board { Board (length area.now) at.changes at.table t.noted ids.now ws.old × (span.0 < length area.now) }
    ensures fact { let ws₀ = ws.old in
        Moved area.now at.changes at.table ids.now ws₀ t.noted t.strays ws.new result.noted result.strays }
    ensures sides { Sides area.now at.changes at.table ids.now ws.old ws.new result.strays span.0 4 }
{
    let mut r = t;
    for d in 0..4 {
        r = try_side(area, ids, ws, at, span, d, r);
    }
    r
}

// The neighbours of the changes lo .. hi, which are the last noted; strays is what the tries before gave.
pub(crate) fn try_beside(
    area: &[u8],
    ids: &[u16],
    ws: &mut [u16],
    at: Sections,
    lo: usize,
    hi: usize,
    strays: bool,
) -> Tries
    requires closed { Closed (net_at at.table area.now ws.old) × (at.stack ≡ at.changes + 3 * length area.now) }
    requires board { Board (length area.now) at.changes at.table hi ids.now ws.old × Spans (length area.now) at.changes lo hi ws.old }
    ensures fact { let ws₀ = ws.old in
        Moved area.now at.changes at.table ids.now ws₀ hi strays ws.new result.noted result.strays }
    ensures beside { Beside area.now at.changes at.table ids.now ws.old ws.new result.strays lo hi }
{
    let mut t = Tries {
        noted: hi,
        strays,
        fill1: 0,
        fill2: 0,
        fill4: 0,
    };
    for i in lo..hi {
        let s = ws[at.changes + 3 * i] as usize;
        t = try_around(area, ids, ws, at, SpanIx(s), t);
    }
    t
}

// The entry at i is tried, unless it is used.
fn try_entry(area: &[u8], ids: &[u16], ws: &mut [u16], at: Sections, i: usize, t: Tries) -> Tries
    requires closed { Closed (net_at at.table area.now ws.old) × (at.stack ≡ at.changes + 3 * length area.now) }
    requires board { Board (length area.now) at.changes at.table t.noted ids.now ws.old × (i < length ws.old) × (i ≤ last_place) }
    requires span { (get_or ws.old i 0 ≡ none → ⊥) → get_or ws.old i 0 < length area.now }
    ensures fact { let ws₀ = ws.old in
        Moved area.now at.changes at.table ids.now ws₀ t.noted t.strays ws.new result.noted result.strays }
    ensures fact_2 { let entry = get_or ws.old i 0 in
        Tried area.now at.changes at.table ids.now ws.old ws.new result.strays entry }
{
    let s = ws[i] as usize;
    if s == NO_SPAN {
        return t;
    }
    try_span(area, ids, ws, at, SpanIx(s), t)
}

// All entries, `fill` of them from `from` on.
pub(crate) fn try_all(
    area: &[u8],
    ids: &[u16],
    ws: &mut [u16],
    at: Sections,
    from: usize,
    fill: usize,
) -> Tries
    requires closed { Closed (net_at at.table area.now ws.old) × (at.stack ≡ at.changes + 3 * length area.now) }
    requires board { Board (length area.now) at.changes at.table 0 ids.now ws.old × Entries (length area.now) from fill ws.old }
    requires sizes { Sizes (length area.now) from at.changes at.table ids.now ws.old }
    ensures fact { let ws₀ = ws.old in
        Moved area.now at.changes at.table ids.now ws₀ 0 false ws.new result.noted result.strays }
    ensures fact_2 { let ws₀ = ws.old in
        Entered area.now from at.changes at.table ids.now ws₀ ws.new result.strays fill }
{
    let mut t = Tries {
        noted: 0,
        strays: false,
        fill1: 0,
        fill2: 0,
        fill4: 0,
    };
    for j in 0..fill {
        t = try_entry(area, ids, ws, at, from + j, t);
    }
    t
}
