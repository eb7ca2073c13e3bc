// Plain rooms, as C and Rust call them.
ghost use Rattle.std.specs.Prelude.{◌≡◌};
ghost use Rattle.rules.specs.Plain.{rooms_outcome};
ghost use Rattle.field.specs.Lent.{lent};
ghost use Rattle.plain.specs.Answer.{rooms_refused_by, rooms_most_in};
ghost use Rattle.gussetraft.specs.PlainRooms.{GivesRooms, LeavesPlainRooms};

use crate::lend;
use checker::Refusal;
use plain::build_rooms;

// The answer of the entry: 0 or the refusal number, and max_region.
#[repr(C)]
#[derive(Clone, Copy)]
pub struct Rooms {
    pub refusal: u16,
    pub max_region: u16,
}

fn rooms_numbers(a: Result<u16, Refusal>) -> Rooms
    ensures { (result.refusal ≡ rooms_refused_by a) × (result.max_region ≡ rooms_most_in a) }
{
    match a {
        Err(r) => Rooms {
            refusal: r.number(),
            max_region: 0,
        },
        Ok(m) => Rooms {
            refusal: 0,
            max_region: m,
        },
    }
}

#[unsafe(no_mangle)]
pub extern "C" fn gussetraft_build_rooms(
    w: u16,
    h: u16,
    index: &[u32],
    count: &[u8],
    area: &[u8],
    con: &[u8],
    border_size: u16,
    workspace: &mut [u16],
    ids: &mut [u16],
) -> Rooms
    ensures fact { let F = lent w h index.now count.now area.now con.now in
        let o = rooms_outcome F border_size workspace.old ids.old in
        GivesRooms o result workspace.new ids.new }
    ensures rooms { let F = lent w h index.now count.now area.now con.now in
        LeavesPlainRooms F border_size result ids.new }
{
    let field = lend(w, h, index, count, area, con);
    rooms_numbers(build_rooms(&field, border_size, workspace, ids))
}
