// The table filled from a field, by one walk over its cells, block by block.
ghost use Rattle.std.specs.Prelude.{◌≡◌, ◌+◌, ◌*◌, ◌<◌, ◌≤◌, length, get_or};
ghost use Rattle.rules.specs.Net.{net_of};
ghost use Rattle.field.specs.Lent.{lent, Reached, Stands, SomeLeaf};
ghost use Rattle.space.specs.Space.{Frame};
ghost use Rattle.net.specs.Table.{net_at, last_place};
ghost use Rattle.net.specs.Fill.{lead_at, filled_at, filled, filled_cells};
ghost use Rattle.field.specs.Seen.{seen};

use field::block::{block_of, is_empty};
use field::lent::Heightfield;
use field::place::{NO_LAYER, SpanIx, connections, follow};

// What the table has where a span has no neighbour: NO_SPAN in 16 bits.
const NO_NEIGHBOUR: u16 = 65535;

// Where the connection in direction d leads, of a span in cell c that has the connections cons.
fn lead(w: usize, index: &[u32], cons: [u8; 4], c: usize, d: usize) -> u16
    requires { SomeLeaf w index.now cons c × (d < 4) }
    ensures { result ≡ lead_at w index.now cons c d }
{
    if cons[d] == NO_LAYER {
        return NO_NEIGHBOUR;
    }
    follow(w, index, cons, c, d).span.0 as u16
}

// The four neighbours of span s, which stands in cell c.
fn fill_span(field: &Heightfield, ws: &mut [u16], table: usize, c: usize, s: usize)
    requires reached { Reached (seen field.now) × (table ≤ last_place) }
    requires stands { let F = seen field.now in
        Stands F c s × (table + 4 * length F.area ≤ length ws.old) }
    ensures { let F = seen field.now in
        ws.new ≡ filled_at F table s ws.old }
{
    let cons = connections(field.con, SpanIx(s));
    let place = table + 4 * s;
    ws[place] = lead(field.w, field.index, cons, c, 0);
    ws[place + 1] = lead(field.w, field.index, cons, c, 1);
    ws[place + 2] = lead(field.w, field.index, cons, c, 2);
    ws[place + 3] = lead(field.w, field.index, cons, c, 3);
}

// Those of all spans in cell c.
fn fill_cell(field: &Heightfield, ws: &mut [u16], table: usize, c: usize)
    requires reached { Reached (seen field.now) × (table ≤ last_place) }
    requires c_bound { let F = seen field.now in
        (c < F.w * F.h) × (table + 4 * length F.area ≤ length ws.old) }
    ensures { let F = seen field.now in
        ws.new ≡ filled F table (get_or F.index c 0) (get_or F.count c 0) ws.old }
{
    let first = field.index[c] as usize;
    let spans = field.count[c] as usize;
    for j in 0..spans {
        fill_span(field, ws, table, c, first + j);
    }
}

// Those of the k cells from c on.
fn fill_cells(field: &Heightfield, ws: &mut [u16], table: usize, c: usize, k: usize)
    requires reached { Reached (seen field.now) × (table ≤ last_place) }
    requires k_bound { let F = seen field.now in
        (c + k ≤ F.w * F.h) × (table + 4 * length F.area ≤ length ws.old) }
    ensures { let F = seen field.now in
        ws.new ≡ filled_cells F table c k ws.old }
{
    for j in 0..k {
        fill_cell(field, ws, table, c + j);
    }
}

// The same, a block without spans at once.
fn fill_block(field: &Heightfield, ws: &mut [u16], table: usize, c: usize, k: usize)
    requires reached { Reached (seen field.now) × (table ≤ last_place) }
    requires k_bound { let F = seen field.now in
        (c + k ≤ F.w * F.h) × (table + 4 * length F.area ≤ length ws.old) }
    ensures { let F = seen field.now in
        ws.new ≡ filled_cells F table c k ws.old }
{
    if is_empty(field.count, c, k) {
        return;
    }
    fill_cells(field, ws, table, c, k);
}

// The neighbours of every span, from the table's place on.
pub fn fill_neighbours(field: &Heightfield, ws: &mut [u16], table: usize)
    requires reached { Reached (seen field.now) }
    requires table_le_last_place { (table ≤ last_place) × (table + 4 * length field.now.area.now ≤ length ws.old) }
    ensures ws_after { let F = seen field.now in
        net_at table F.area ws.new ≡ net_of F }
    ensures frame { Frame table (table + 4 * length field.now.area.now) ws.old ws.new }
{
    let cells = field.w * field.h;
    let mut c: usize = 0;
    while c < cells {
        let k = block_of(cells - c);
        fill_block(field, ws, table, c, k);
        c += k;
    }
}
