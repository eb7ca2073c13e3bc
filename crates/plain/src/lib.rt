// Plain rooms: one id for each set of walkable spans of one area that connections join, numbered in scan order of the first span.

#![tactic(auto)]

mod fill;

ghost use Rattle.std.specs.Prelude.{◌≡◌, [], ◌∷◌, ◌+◌, ◌≤◌, length, replicate};
ghost use Rattle.rules.specs.Plain.{rooms_refusal, rooms_outcome};
ghost use Rattle.space.specs.Space.{sec};
ghost use Rattle.field.specs.Lent.{lent};
ghost use Rattle.checker.specs.Answer.{verdict_number};
ghost use Rattle.plain.specs.Stages.{Admitted, Finds};
ghost use Rattle.plain.specs.Answer.{outcome, GivesPlainRooms};
ghost use Rattle.field.specs.Seen.{seen};

use crate::fill::number_rooms;
use checker::{Refusal, check};
use field::lent::{Heightfield, codes_are_bytes};
use net::fill::fill_neighbours;
use paint::paint_border;
use space::{clear, copy, copy_part};

// Ids of rooms are below the flag.
const MOST_ROOMS: u16 = 32767;

// The first of refusals 1 to 7 that applies; work and own are the lengths of the workspace and of the list of ids.
fn check_rooms(field: &Heightfield, work: usize, own: usize) -> Result<(), Refusal>
    ensures { let F = seen field.now in
        verdict_number result ≡ rooms_refusal F (own ∷ []) work }
{
    check(field, own, own)?;
    if work < 128 * field.area.len() + 4096 {
        return Err(Refusal::TooShort);
    }
    Ok(())
}

// The ids that stand in the workspace from kept on are put back.
fn put_back(ws: &[u16], kept: usize, ids: &mut [u16])
    requires { kept + length ids.old ≤ length ws.now }
    ensures { ids.new ≡ sec kept (length ids.old) ws.now }
{
    let end = kept + ids.len();
    copy(&ws[kept..end], ids);
}

// The rooms of a field that is not refused; gives how many there are. In the workspace the spans that wait come first, then the caller's ids,
// which are put back where there are too many rooms, then the table of neighbours.
fn find_rooms(field: &Heightfield, border_size: u16, ws: &mut [u16], ids: &mut [u16]) -> u16
    requires { Admitted (seen field.now) ws.old ids.old }
    ensures { let F = seen field.now in
        Finds F border_size ids.old result ids.new }
{
    let n = field.area.len();
    let table = 2 * n;
    copy_part(ids, ws, n);
    clear(ids);
    paint_border(
        field.w,
        field.h,
        field.index,
        field.count,
        field.area,
        ids,
        border_size,
    );
    fill_neighbours(field, ws, table);
    let most = number_rooms(field.area, ids, ws, table);
    if MOST_ROOMS < most {
        put_back(ws, n, ids);
    }
    most
}

// Ids of the rooms of any lists: a field that is refused leaves ids and workspace as they were.
pub fn build_rooms(
    field: &Heightfield,
    border_size: u16,
    workspace: &mut [u16],
    ids: &mut [u16],
) -> Result<u16, Refusal>
    ensures ids_after { let F = seen field.now in
        outcome result workspace.new ids.new ≡ rooms_outcome F border_size workspace.old ids.old }
    ensures rooms { let F = seen field.now in
        GivesPlainRooms F border_size result ids.new }
{
    codes_are_bytes(field.area);
    check_rooms(field, workspace.len(), ids.len())?;
    let most = find_rooms(field, border_size, workspace, ids);
    clear(workspace);
    if MOST_ROOMS < most {
        return Err(Refusal::NoIds);
    }
    Ok(most)
}
