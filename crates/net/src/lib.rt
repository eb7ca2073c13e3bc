// The net of a field in the workspace: four neighbours a span, from the table's place on.

#![tactic(auto)]

pub mod fill;

ghost use Rattle.std.specs.Prelude.{◌≡◌, ◌+◌, ◌*◌, ◌<◌, ◌≤◌, length, get_or};
ghost use Rattle.net.specs.Table.{last_place};

use field::place::SpanIx;

// Where the sections begin that flood and expansion share in the workspace: the changes of an expansion, three numbers each; the flood's stack, which
// is where an expansion has its flags; the table of neighbours. Source distances begin at 0.
#[derive(Clone, Copy)]
pub struct Sections {
    pub changes: usize,
    pub stack: usize,
    pub table: usize,
}

// The neighbour of a span in direction d; NO_SPAN where it has none.
pub fn neighbour(ws: &[u16], table: usize, span: SpanIx, d: usize) -> SpanIx
    requires { (table ≤ last_place) × (span.0 < 65536) × (d < 4) × (table + (4 * span.0 + d) < length ws.now) }
    ensures { result.0 ≡ get_or ws.now (table + (4 * span.0 + d)) 0 }
{
    SpanIx(ws[table + (4 * span.0 + d)] as usize)
}
