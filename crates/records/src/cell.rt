// The other spans of a cell.
ghost use Rattle.std.specs.Prelude.{◌≡◌, true, false, ◌+◌, ◌≤◌, ◌<◌, length, get_or, take, ltb};
ghost use Rattle.rules.specs.Base.{◌or◌, when◌then◌else◌};
ghost use Rattle.rules.specs.Field.{none};
ghost use Rattle.rules.specs.Records.{once, once_all};
ghost use Rattle.rules.specs.Refusals.{most_spans};
ghost use Rattle.records.specs.Cell.{twin, twins, others_from, join_one, Lies, Alike, Found, JoinedOne};
ghost use Rattle.records.specs.Cell.{JoinedAll, Within, Roomy, Near, Unchanged, Prior, as_many_from, Some, LooksTo};

use field::place::{Layer, NO_SPAN, SpanIx};
use region::RegionId;
use table::place;

// The spans of a cell: size of them, from `from` on. Two numbers of one size: bytes that no field has would be copied with each cell (docs/PERFORMANCE.md).
#[derive(Clone, Copy)]
pub struct Spans {
    pub from: usize,
    pub size: usize,
}

impl Spans {
    // The span in a layer of the cell.
    pub(crate) fn at(self, layer: Layer) -> SpanIx
        requires { self.from + layer.0 < most_spans }
        ensures { result.0 ≡ self.from + layer.0 }
    {
        SpanIx(self.from + layer.0 as usize)
    }
}

// Have the spans of two cells with as many the same ids, layer by layer? A no decides only how fast.
fn alike(ids: &[u16], last: Spans, cell: Spans) -> bool
    requires { (length ids.now ≤ most_spans) × Lies ids.now last × Lies ids.now cell × (0 < cell.size) × (last.size ≡ cell.size) }
    ensures { result ≡ true → Alike ids.now last cell }
{
    let n = cell.size;
    let a = last.from;
    let b = cell.from;
    &ids[b..b + n] == &ids[a..a + n]
}

// The last cell with several spans, and where the one begins from which the records of this one's have something; NO_SPAN where that is none. A cell that
// begins where this one does has as many spans as this one: it is this one, and they have all. One number and no Option, whose tag is handed to each span
// of a cell too (docs/DECISIONS.md).
#[derive(Clone, Copy)]
pub struct Looked {
    pub last: Spans,
    pub prior: usize,
}

// The records of the last cell's spans have what these take from theirs; so have others with the same ids, layer by layer; and a span alone in its cell
// takes nothing. Of a cell with as many spans they have what the layers with the same ids take from each other.
pub(crate) fn look_back(ids: &[u16], last: Spans, cell: Spans) -> Looked
    requires { (length ids.now ≤ most_spans) × Lies ids.now last × Lies ids.now cell }
    ensures { (result.last ≡ (when ltb 1 cell.size then cell else last)) × LooksTo ids.now last cell result.prior }
{
    if cell.size < 2 {
        return Looked {
            last,
            prior: cell.from,
        };
    }
    if last.size != cell.size {
        return Looked {
            last: cell,
            prior: NO_SPAN,
        };
    }
    if alike(ids, last, cell) {
        return Looked {
            last: cell,
            prior: cell.from,
        };
    }
    Looked {
        last: cell,
        prior: last.from,
    }
}

// Met before, or other is another span and has the id.
fn met(ids: &[u16], other: SpanIx, span: SpanIx, own: u16, before: bool) -> bool
    requires { other.0 < length ids.now }
    ensures { result ≡ (before or twin ids.now other.0 span.0 own) }
{
    (other.0 != span.0 && own == ids[other.0]) || before
}

// Of a floor list: its length, and the place after that of the id that joined last, where the next one is looked for first. By value, as the room is lent
// apart (fixed memory).
#[derive(Clone, Copy)]
pub struct Listed {
    pub len: usize,
    pub next: usize,
}

// A place of r among the first n, or n where it is none of them, as `place` gives it (an Option is no plainer: the caller's one test stays). The guess
// decides only how fast, never whether r is found: the spans of a region mostly have the same regions above and below them, in the same order, so r is
// often right after the id found before.
fn find(part: &[u16], n: usize, r: u16, guess: usize) -> usize
    requires { n ≤ length part.now }
    ensures { Found part.now n r result }
{
    if guess < n && r == part[guess] {
        return guess;
    }
    place(&part[..n], r)
}

// r joins the list once.
fn add_unique_floor_region(part: &mut [u16], l: Listed, r: u16) -> Listed
    requires { l.len < length part.old }
    ensures { JoinedOne (once (take l.len part.old) r) l.len part.new result.len }
{
    let len = l.len;
    let p = find(part, len, r, l.next);
    if p < len {
        return Listed { len, next: p + 1 };
    }
    part[len] = r;
    Listed {
        len: len + 1,
        next: len + 1,
    }
}

// The id of other joins, if that is another span and the id is not 0 and not flagged.
fn join_one(ids: &[u16], part: &mut [u16], span: SpanIx, other: SpanIx, l: Listed) -> Listed
    requires other_in_bounds { other.0 < length ids.now }
    requires len_in_bounds { l.len ≤ length part.old }
    requires len_in_bounds_2 { (other.0 ≡ span.0 → ⊥) → l.len < length part.old }
    ensures fact { let joined = join_one ids.now span.0 other.0 (take l.len part.old) in
        JoinedOne joined l.len part.new result.len }
    ensures len_value { other.0 ≡ span.0 → result.len ≡ l.len }
{
    if other.0 == span.0 {
        return l;
    }
    let r = ids[other.0];
    if r == RegionId::NONE.0 || RegionId(r).is_border() {
        return l;
    }
    add_unique_floor_region(part, l, r)
}

// Has the prior cell, if there is one, the span's id in its layer? A no decides only how fast.
fn is_near(ids: &[u16], span: SpanIx, cell: Spans, prior: usize) -> bool
    requires { (length ids.now ≤ most_spans) × Within ids.now span.0 cell × (Some prior → Lies ids.now (as_many_from prior cell)) }
    ensures { result ≡ true → Some prior × Near ids.now span.0 cell (as_many_from prior cell) }
{
    prior != NO_SPAN && ids[prior + (span.0 - cell.from)] == ids[span.0]
}

// As join_one; but of a span near the prior cell's, a layer that has the id that it had there is passed over: the list has that id already, or it is none
// that joins.
fn join_changed(
    ids: &[u16],
    part: &mut [u16],
    span: SpanIx,
    other: SpanIx,
    before: usize,
    near: bool,
    l: Listed,
) -> Listed
    requires other_in_bounds { other.0 < length ids.now }
    requires len_in_bounds { l.len ≤ length part.old }
    requires len_in_bounds_2 { (other.0 ≡ span.0 → ⊥) → l.len < length part.old }
    requires unchanged { near ≡ true → Unchanged ids.now (take l.len part.old) span.0 other.0 before }
    ensures fact { let joined = join_one ids.now span.0 other.0 (take l.len part.old) in
        JoinedOne joined l.len part.new result.len }
    ensures len_value { other.0 ≡ span.0 → result.len ≡ l.len }
{
    if near && ids[other.0] == ids[before] {
        return l;
    }
    join_one(ids, part, span, other, l)
}

// What a span takes from its cell: the length of its record's floor list, and whether another span has its id.
#[derive(Clone, Copy)]
pub struct Taken {
    pub len: usize,
    pub twin: bool,
}

// The ids of the cell's other spans join the list of the first len; on the same walk the span's own id is looked for. What the list has from the prior
// cell is not looked for again.
pub(crate) fn join(
    ids: &[u16],
    part: &mut [u16],
    span: SpanIx,
    cell: Spans,
    prior: usize,
    len: usize,
) -> Taken
    requires roomy { Roomy ids.now part.old span.0 cell.from cell.size len }
    requires lies { Some prior → Lies ids.now (as_many_from prior cell) }
    requires prior { (Some prior → Prior ids.now (take len part.old) span.0 cell (as_many_from prior cell)) × (prior ≤ none) }
    ensures fact { let others = others_from ids.now span.0 cell.size cell.from in
        JoinedAll (once_all (take len part.old) others) len part.new result.len }
    ensures twin_value { let own = get_or ids.now span.0 0 in
        result.twin ≡ twins ids.now span.0 own cell.size cell.from }
{
    let s = span.0;
    let own = ids[s];
    let near = is_near(ids, span, cell, prior);
    let mut l = Listed { len, next: 0 };
    let mut twin = false;
    for j in 0..cell.size {
        let other = cell.at(Layer(j as u8));
        twin = met(ids, other, span, own, twin);
        l = join_changed(ids, part, span, other, prior + j, near, l);
    }
    Taken { len: l.len, twin }
}
