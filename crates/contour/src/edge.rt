// Solid edges. No area is read here, so in promises the ids stand where a net has its areas.
ghost use Rattle.std.specs.Prelude.{◌≡◌, ◌<◌};
ghost use Rattle.rules.specs.Contour.{across, solid, first_solid};
ghost use Rattle.net.specs.Table.{net_at, AtSpan};
ghost use Rattle.contour.specs.Ways.{edge_of};

use field::place::{NO_LAYER, SpanIx};
use net::neighbour;
use region::RegionId;

// The id across the edge in direction d of a span that has the connections cons; none if there is no span.
pub(crate) fn across(
    ids: &[u16],
    ws: &[u16],
    table: usize,
    cons: [u8; 4],
    span: SpanIx,
    d: usize,
) -> u16
    requires { AtSpan table ids.now ws.now cons span.0 × (d < 4) }
    ensures { let net = net_at table ids.now ws.now in
        result ≡ across net ids.now span.0 d }
{
    if cons[d] == NO_LAYER {
        return RegionId::NONE.0;
    }
    let t = neighbour(ws, table, span, d);
    ids[t.0]
}

// An edge is solid where the id across it differs from the span's own.
pub(crate) fn is_solid_edge(
    ids: &[u16],
    ws: &[u16],
    table: usize,
    cons: [u8; 4],
    span: SpanIx,
    d: usize,
) -> bool
    requires { AtSpan table ids.now ws.now cons span.0 × (d < 4) }
    ensures { let net = net_at table ids.now ws.now in
        result ≡ solid net ids.now span.0 d }
{
    across(ids, ws, table, cons, span, d) != ids[span.0]
}

// The first solid direction of four, or none.
pub fn first_solid(
    ids: &[u16],
    ws: &[u16],
    table: usize,
    cons: [u8; 4],
    span: SpanIx,
) -> Option<usize>
    requires { AtSpan table ids.now ws.now cons span.0 }
    ensures { let net = net_at table ids.now ws.now in
        result ≡ edge_of (first_solid net ids.now span.0) }
{
    // The form that document 01 asks for here: a loop that yields the direction by `break`.
    let mut d: usize = 0;
    let found = loop {
        if d == 4 {
            break None;
        }
        if is_solid_edge(ids, ws, table, cons, span, d) {
            break Some(d);
        }
        d += 1;
    };
    found
}
