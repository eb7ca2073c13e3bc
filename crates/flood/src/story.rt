// What growth does to one span, noted as it goes: "Why has this span no room?"
ghost use Rattle.std.specs.Prelude.{◌≡◌, true, ◌<◌, length};
ghost use Rattle.rules.specs.Growth.{objects};
ghost use Rattle.rules.specs.Reasons.{begins, objector, objecting, visit_tells};
ghost use Rattle.net.specs.Table.{net_at, AtSpan};
ghost use Rattle.flood.specs.Looks.{seed_of};
ghost use Rattle.flood.specs.Stack.{marks_at};
ghost use Rattle.flood.specs.Stories.{story_of};

use crate::look::{Seed, View, other, sees};
use field::place::{NO_SPAN, SpanIx};
use net::neighbour;

// The span that is watched; the span whose id it took at an expansion, NOBODY until then; the id of the last flood that gave it back, 0 until then, and
// the objecting span. Four numbers of 16 bits, since it goes through every flood: so it is one register, which an Option for each would not be.
#[derive(Clone, Copy)]
pub struct Story {
    pub span: u16,
    pub from: u16,
    pub gave: u16,
    pub objecting: u16,
}

// No span: NO_SPAN in 16 bits.
pub const NOBODY: u16 = 65535;

// The story of a span before growth; of NOBODY, for a build that watches none.
pub fn begins(span: u16) -> Story
    ensures { story_of result ≡ begins span }
{
    Story {
        span,
        from: NOBODY,
        gave: 0,
        objecting: 0,
    }
}

// The span that makes the objection in direction d: the neighbour, or else its corner.
fn objector(
    area: &[u8],
    ids: &[u16],
    ws: &[u16],
    table: usize,
    cons: [u8; 4],
    span: SpanIx,
    d: usize,
    seed: Seed,
) -> u16
    requires { AtSpan table area.now ws.now cons span.0 × (length ids.now ≡ length area.now) × (d < 4) }
    ensures { let net = net_at table area.now ws.now in
        let marks = marks_at (length area.now) ids.now ws.now in
        result ≡ objector net marks (seed_of seed) span.0 d }
{
    let t = neighbour(ws, table, span, d).0;
    if t == NO_SPAN {
        return NOBODY;
    }
    if other(ids[t], seed.id) {
        return t as u16;
    }
    neighbour(ws, table, SpanIx(t), (d + 1) % 4).0 as u16
}

// The first in the order of looking.
fn objecting(
    area: &[u8],
    ids: &[u16],
    ws: &[u16],
    table: usize,
    cons: [u8; 4],
    span: SpanIx,
    seed: Seed,
) -> u16
    requires { AtSpan table area.now ws.now cons span.0 × (length ids.now ≡ length area.now) × (seed.area < 256) }
    ensures { let net = net_at table area.now ws.now in
        let marks = marks_at (length area.now) ids.now ws.now in
        result ≡ objecting net marks (seed_of seed) span.0 }
{
    for d in 0..3 {
        if let View::Objection = sees(area, ids, ws, table, cons, span, d, seed) {
            return objector(area, ids, ws, table, cons, span, d, seed);
        }
    }
    objector(area, ids, ws, table, cons, span, 3, seed)
}

// A span that objects is given back: the flood's id and the objecting span are noted if it is the watched one.
pub(crate) fn give_back(
    area: &[u8],
    ids: &[u16],
    ws: &[u16],
    table: usize,
    cons: [u8; 4],
    span: SpanIx,
    seed: Seed,
    story: Story,
) -> Story
    requires at_span { AtSpan table area.now ws.now cons span.0 × (length ids.now ≡ length area.now) × (seed.area < 256) }
    requires span_value { let net = net_at table area.now ws.now in
        let marks = marks_at (length area.now) ids.now ws.now in
        objects net marks (seed_of seed) span.0 ≡ true }
    ensures { let net = net_at table area.now ws.now in
        let marks = marks_at (length area.now) ids.now ws.now in
        story_of result ≡ visit_tells net marks (seed_of seed) span.0 (story_of story) }
{
    if span.0 != story.span as usize {
        return story;
    }
    Story {
        gave: seed.id,
        objecting: objecting(area, ids, ws, table, cons, span, seed),
        ..story
    }
}
