// The rooms of spans that have no id yet, over the table of neighbours. The spans that wait stand in a stack from the workspace's first number on.
ghost use Rattle.std.specs.Prelude.{◌≡◌, ◌<◌, ◌≤◌, length, get_or, drop};
ghost use Rattle.rules.specs.Base.{upto};
ghost use Rattle.rules.specs.Plain.{Rooms, joins, room_from, begins};
ghost use Rattle.net.specs.Table.{net_at};
ghost use Rattle.plain.specs.Stack.{Held, Filling, Waits, fill_at, rooms_at};

use field::place::{NO_SPAN, SpanIx};
use net::neighbour;

// What all spans of a room have.
#[derive(Clone, Copy)]
pub struct Room {
    pub area: u8,
    pub id: u16,
}

// The neighbour of a span in direction d gets the room's id and waits, if it has the area and no id yet. Gives how many wait.
fn join_one(
    area: &[u8],
    ids: &mut [u16],
    ws: &mut [u16],
    table: usize,
    span: SpanIx,
    d: usize,
    room: Room,
    top: usize,
) -> usize
    requires held { Held table area.now ws.old × (span.0 < length area.now) × (d < 4) × (room.area < 256) }
    requires filling { Filling (length area.now) (fill_at ids.old ws.old top) × (0 < room.id) }
    ensures result_after { fill_at ids.new ws.new result
        ≡ joins (net_at table area.now ws.old) room.area room.id span.0 d
        (fill_at ids.old ws.old top) }
    ensures ws_unchanged { drop (length area.now) ws.new ≡ drop (length area.now) ws.old }
{
    let t = neighbour(ws, table, span, d).0;
    if t == NO_SPAN {
        return top;
    }
    if area[t] != room.area {
        return top;
    }
    if ids[t] != 0 {
        return top;
    }
    ids[t] = room.id;
    ws[top] = t as u16;
    top + 1
}

// All four neighbours, in direction order.
fn join_all(
    area: &[u8],
    ids: &mut [u16],
    ws: &mut [u16],
    table: usize,
    span: SpanIx,
    room: Room,
    top: usize,
) -> usize
    requires held { Held table area.now ws.old × (span.0 < length area.now) × (room.area < 256) }
    requires filling { Filling (length area.now) (fill_at ids.old ws.old top) × (0 < room.id) }
    ensures result_after { fill_at ids.new ws.new result
        ≡ upto 4 (joins (net_at table area.now ws.old) room.area room.id span.0)
        (fill_at ids.old ws.old top) }
    ensures ws_unchanged { drop (length area.now) ws.new ≡ drop (length area.now) ws.old }
{
    let mut h = top;
    for d in 0..4 {
        h = join_one(area, ids, ws, table, span, d, room, h);
    }
    h
}

// The room of a span that has no id yet.
fn fill_room(area: &[u8], ids: &mut [u16], ws: &mut [u16], table: usize, from: SpanIx, id: u16)
    requires { Held table area.now ws.old × Waits (length area.now) ids.old from.0 × (0 < id) }
    ensures ids_after { ids.new
        ≡ (room_from (net_at table area.now ws.old) id ids.old from.0).ids }
    ensures ws_unchanged { drop (length area.now) ws.new ≡ drop (length area.now) ws.old }
{
    let s = from.0;
    let room = Room { area: area[s], id };
    ids[s] = id;
    ws[0] = s as u16;
    // A stack: it runs until no span waits.
    let mut top: usize = 1;
    while 0 < top {
        let c = ws[top - 1] as usize;
        top = join_all(area, ids, ws, table, SpanIx(c), room, top - 1);
    }
}

// Span s begins a room, with the next number, if it is walkable and has no id yet. Gives how many rooms there are.
fn begin_room(
    area: &[u8],
    ids: &mut [u16],
    ws: &mut [u16],
    table: usize,
    s: usize,
    most: u16,
) -> u16
    requires { Held table area.now ws.old × (length ids.old ≡ length area.now) × (s < length area.now) × (most ≤ s) }
    ensures result_after { rooms_at ids.new result
        ≡ begins (net_at table area.now ws.old) s (rooms_at ids.old most) }
    ensures ws_unchanged { drop (length area.now) ws.new ≡ drop (length area.now) ws.old }
{
    if area[s] == 0 {
        return most;
    }
    if ids[s] != 0 {
        return most;
    }
    fill_room(area, ids, ws, table, SpanIx(s), most + 1);
    most + 1
}

// The rooms of all spans that have no id yet, in scan order. Gives how many there are.
pub(crate) fn number_rooms(area: &[u8], ids: &mut [u16], ws: &mut [u16], table: usize) -> u16
    requires { Held table area.now ws.old × (length ids.old ≡ length area.now) }
    ensures result_after { rooms_at ids.new result
        ≡ upto (length area.now) (begins (net_at table area.now ws.old)) (rooms_at ids.old 0) }
    ensures ws_unchanged { drop (length area.now) ws.new ≡ drop (length area.now) ws.old }
{
    let mut most: u16 = 0;
    for s in 0..area.len() {
        most = begin_room(area, ids, ws, table, s, most);
    }
    most
}
