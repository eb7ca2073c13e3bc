// The objection test.
ghost use Rattle.std.specs.Prelude.{◌≡◌, ◌<◌, ◌≤◌, length};
ghost use Rattle.rules.specs.Field.{none};
ghost use Rattle.rules.specs.Growth.{other, sees, objects};
ghost use Rattle.rules.specs.Refusals.{most_spans};
ghost use Rattle.net.specs.Table.{net_at, AtSpan};
ghost use Rattle.flood.specs.Looks.{seed_of, view_number, bears};
ghost use Rattle.flood.specs.Stack.{marks_at};

use field::place::{NO_LAYER, NO_SPAN, SpanIx};
use net::neighbour;
use region::RegionId;

// What a flood has from its seed.
#[derive(Clone, Copy)]
pub struct Seed {
    pub area: u8,
    pub id: u16,
    pub limit: u16,
}

// What a span sees in one direction: nothing, the end of the looking, or an objection.
#[derive(Clone, Copy)]
pub(crate) enum View {
    Nothing,
    TheEnd,
    Objection,
}

// Another nonzero id?
pub(crate) fn other(region: u16, id: u16) -> bool
    ensures { result ≡ other id region }
{
    region != RegionId::NONE.0 && region != id
}

// Has the span, if it is one, the seed's area and another nonzero id?
fn bears(area: &[u8], ids: &[u16], span: SpanIx, seed: Seed) -> bool
    requires area_len_bound { (length area.now ≤ most_spans) × ((span.0 ≡ none → ⊥) → span.0 < length area.now) }
    requires ids_len { (length ids.now ≡ length area.now) × (seed.area < 256) }
    ensures { result ≡ bears area.now ids.now (seed_of seed) span.0 }
{
    let u = span.0;
    u != NO_SPAN && area[u] == seed.area && other(ids[u], seed.id)
}

// What a span that has the connections cons sees in direction d.
pub(crate) fn sees(
    area: &[u8],
    ids: &[u16],
    ws: &[u16],
    table: usize,
    cons: [u8; 4],
    span: SpanIx,
    d: usize,
    seed: Seed,
) -> View
    requires { AtSpan table area.now ws.now cons span.0 × (length ids.now ≡ length area.now) × (d < 4) × (seed.area < 256) }
    ensures { let net = net_at table area.now ws.now in
        let marks = marks_at (length area.now) ids.now ws.now in
        view_number result ≡ sees net marks (seed_of seed) span.0 d }
{
    if cons[d] == NO_LAYER {
        return View::Nothing;
    }
    let t = neighbour(ws, table, span, d).0;
    if area[t] != seed.area {
        return View::Nothing;
    }
    let region = ids[t];
    if RegionId(region).is_border() {
        return View::TheEnd;
    }
    if other(region, seed.id) {
        return View::Objection;
    }
    let corner = neighbour(ws, table, SpanIx(t), (d + 1) % 4);
    if bears(area, ids, corner, seed) {
        return View::Objection;
    }
    View::Nothing
}

// Does a span that has the connections cons object to the seed's id?
pub(crate) fn objects(
    area: &[u8],
    ids: &[u16],
    ws: &[u16],
    table: usize,
    cons: [u8; 4],
    span: SpanIx,
    seed: Seed,
) -> bool
    requires { AtSpan table area.now ws.now cons span.0 × (length ids.now ≡ length area.now) × (seed.area < 256) }
    ensures { let net = net_at table area.now ws.now in
        let marks = marks_at (length area.now) ids.now ws.now in
        result ≡ objects net marks (seed_of seed) span.0 }
{
    for d in 0..4 {
        match sees(area, ids, ws, table, cons, span, d, seed) {
            View::Nothing => {}
            View::TheEnd => return false,
            View::Objection => return true,
        }
    }
    false
}
