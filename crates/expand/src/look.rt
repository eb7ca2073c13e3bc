// What an entry takes: the first same-area neighbour with the least source distance plus 2, among nonzero unflagged ids.
ghost use Rattle.std.specs.Prelude.{◌≡◌, ◌+◌, ◌<◌, ◌≤◌, length, get_or};
ghost use Rattle.rules.specs.Base.{◌or◌};
ghost use Rattle.rules.specs.Growth.{look, takes, exceeds, strays};
ghost use Rattle.rules.specs.Reasons.{gives};
ghost use Rattle.rules.specs.Field.{none};
ghost use Rattle.rules.specs.Refusals.{most_spans};
ghost use Rattle.net.specs.Table.{net_at};
ghost use Rattle.flood.specs.Stack.{marks_at};
ghost use Rattle.expand.specs.Layout.{taken_of, offers, Sight};
ghost use Rattle.expand.specs.Told.{source_at};

use field::place::{NO_SPAN, SpanIx};
use net::neighbour;
use region::RegionId;

// An id, NONE until one is found, and the source distance that goes with it; and whether a sum exceeded what a source distance can be. Filled up, as
// `Tries` is; an Option would have bytes that no field has.
#[derive(Clone, Copy)]
pub struct Taken {
    pub id: u16,
    pub far: u16,
    pub strays: bool,
    pub fill1: u8,
}

// Farther than any sum that is found.
const FARTHEST: u16 = 65535;

// The greatest source distance that can be farther by 2.
const MOST_SOURCE: u16 = 65533;

// Is it a span of the area own, with an id that is no border's?
fn offers(area: &[u8], ids: &[u16], span: SpanIx, own: u8) -> bool
    requires area_len_bound { (length area.now ≤ most_spans) × ((span.0 ≡ none → ⊥) → span.0 < length area.now) }
    requires ids_len { (length ids.now ≡ length area.now) × (own < 256) }
    ensures { result ≡ offers area.now ids.now own span.0 }
{
    let a = span.0;
    if a == NO_SPAN || area[a] != own {
        return false;
    }
    let id = RegionId(ids[a]);
    id.0 != RegionId::NONE.0 && !id.is_border()
}

// An entry of the area own looks in direction d, having found t.
fn look(
    area: &[u8],
    ids: &[u16],
    ws: &[u16],
    table: usize,
    span: SpanIx,
    own: u8,
    d: usize,
    t: Taken,
) -> Taken
    requires sight { Sight table area.now ids.now ws.now span.0 × (d < 4) × (own ≡ get_or area.now span.0 0) × (own < 256) }
    requires far_bound { t.far ≤ 65535 }
    ensures { let net = net_at table area.now ws.now in
        let marks = marks_at (length area.now) ids.now ws.now in
        (taken_of result ≡ look net marks span.0 d (taken_of t)) × (result.strays ≡ t.strays or exceeds net marks span.0 d) }
{
    let a = neighbour(ws, table, span, d);
    if !offers(area, ids, a, own) {
        return t;
    }
    let f = ws[a.0];
    if MOST_SOURCE < f {
        return Taken { strays: true, ..t };
    }
    let far = f + 2;
    if far < t.far {
        return Taken {
            id: ids[a.0],
            far,
            ..t
        };
    }
    t
}

// What entry span takes: all four directions, in order; strayed is what the looks before it gave.
pub(crate) fn takes(
    area: &[u8],
    ids: &[u16],
    ws: &[u16],
    table: usize,
    span: SpanIx,
    strayed: bool,
) -> Taken
    requires { Sight table area.now ids.now ws.now span.0 }
    ensures { let net = net_at table area.now ws.now in
        let marks = marks_at (length area.now) ids.now ws.now in
        (taken_of result ≡ takes net marks span.0) × (result.strays ≡ strayed or strays net marks span.0) }
{
    let own = area[span.0];
    let mut t = Taken {
        id: RegionId::NONE.0,
        far: FARTHEST,
        strays: strayed,
        fill1: 0,
    };
    for d in 0..4 {
        t = look(area, ids, ws, table, span, own, d, t);
    }
    t
}

// Has the neighbour in direction d, of an entry of the area own, an id to give, and the sum far?
fn gives(
    area: &[u8],
    ids: &[u16],
    ws: &[u16],
    table: usize,
    span: SpanIx,
    own: u8,
    d: usize,
    far: usize,
) -> bool
    requires { Sight table area.now ids.now ws.now span.0 × (d < 4) × (own ≡ get_or area.now span.0 0) × (own < 256) }
    ensures { let net = net_at table area.now ws.now in
        let marks = marks_at (length area.now) ids.now ws.now in
        result ≡ gives net marks span.0 far d }
{
    let a = neighbour(ws, table, span, d);
    offers(area, ids, a, own) && ws[a.0] as usize + 2 == far
}

// The first neighbour of entry span with the sum far.
pub(crate) fn source(
    area: &[u8],
    ids: &[u16],
    ws: &[u16],
    table: usize,
    span: SpanIx,
    far: usize,
) -> usize
    requires { Sight table area.now ids.now ws.now span.0 }
    ensures { let net = net_at table area.now ws.now in
        let marks = marks_at (length area.now) ids.now ws.now in
        result ≡ source_at net marks span.0 far }
{
    let own = area[span.0];
    for d in 0..3 {
        if gives(area, ids, ws, table, span, own, d, far) {
            return neighbour(ws, table, span, d).0;
        }
    }
    neighbour(ws, table, span, 3).0
}
