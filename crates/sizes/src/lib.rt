// Floor sizes in metres: the record of one id of a finished result.

#![tactic(auto)]

pub mod into;
pub mod metres;
pub mod walk;

ghost use Rattle.std.specs.Prelude.{◌≡◌, ◌≤◌, length};
ghost use Rattle.rules.specs.Base.{◌or◌, any};
ghost use Rattle.rules.specs.Sizes.{shown, too_great, wrong_scale, wrong_ids, extent_of, measure_outcome};
ghost use Rattle.field.specs.Lent.{lent, Celled};
ghost use Rattle.sizes.specs.Walk.{extent_at};
ghost use Rattle.sizes.specs.Answer.{size_number, outcome};
ghost use Rattle.field.specs.Seen.{seen};

use crate::metres::{Room, measured};
use crate::walk::{Extent, no_extent, walk_cells};
use checker::{Refusal, check};
use field::lent::Heightfield;
use region::RegionId;

// Why there is no record: one of refusals 1 to 6; 9, a scale of 0 or above 256; 10, a wrong list of ids.
#[derive(Clone, Copy)]
pub enum SizeRefusal {
    Field(Refusal),
    WrongScale,
    WrongIds,
}

impl From<Refusal> for SizeRefusal {
    ghost use Rattle.sizes.specs.declared.SizeRefusal.TheVariants.{Field};

    ghost from_gives = { λ r e. e ≡ Field r };

    fn from(r: Refusal) -> SizeRefusal {
        SizeRefusal::Field(r)
    }
}

impl SizeRefusal {
    // The number that C gets.
    pub fn number(self) -> u16
        ensures { result ≡ size_number self }
    {
        match self {
            SizeRefusal::Field(r) => r.number(),
            SizeRefusal::WrongScale => 9,
            SizeRefusal::WrongIds => 10,
        }
    }
}

// The most sixty-fourths of a metre that a cell's side has.
const GREATEST_SCALE: u16 = 256;

// Refusal 9.
fn wrong_scale(k: u16) -> bool
    ensures { result ≡ wrong_scale k }
{
    if k == 0 {
        return true;
    }
    GREATEST_SCALE < k
}

// An unflagged id above max_region.
fn too_great(max_region: u16, r: u16) -> bool
    ensures { result ≡ too_great max_region r }
{
    if RegionId::BORDER_REGION.0 <= r {
        return false;
    }
    max_region < r
}

// Found before, or this one is too great.
fn or_too_great(found: bool, max_region: u16, r: u16) -> bool
    ensures { result ≡ (found or too_great max_region r) }
{
    found | too_great(max_region, r)
}

// Is one of the ids?
fn any_too_great(ids: &[u16], max_region: u16) -> bool
    ensures { result ≡ any (too_great max_region) ids.now }
{
    let mut found = false;
    for i in 0..ids.len() {
        found = or_too_great(found, max_region, ids[i]);
    }
    found
}

// Refusal 10, of n spans.
fn wrong_ids(n: usize, ids: &[u16], max_region: u16) -> bool
    ensures { result ≡ wrong_ids n ids.now max_region }
{
    if ids.len() != n {
        return true;
    }
    any_too_great(ids, max_region)
}

// An id that has a record of its own: from 1 to max_region, and not flagged.
fn is_shown(max_region: u16, id: u16) -> bool
    ensures { result ≡ shown max_region id }
{
    if id == 0 {
        return false;
    }
    if max_region < id {
        return false;
    }
    if RegionId::BORDER_REGION.0 <= id {
        return false;
    }
    true
}

// The extent of an id; of one that has no record, nothing.
fn extent_of(field: &Heightfield, ids: &[u16], max_region: u16, id: u16) -> Extent
    requires { let F = seen field.now in
        Celled F × (length ids.now ≡ length F.area) }
    ensures { let F = seen field.now in
        (extent_at result ≡ extent_of F ids.now max_region id) × (result.count ≤ 65000) }
{
    if is_shown(max_region, id) {
        return walk_cells(field, ids, id);
    }
    no_extent()
}

// The record of an id, with cells of side k/64 metre, of any lists.
pub fn measure_room(
    field: &Heightfield,
    ids: &[u16],
    max_region: u16,
    k: u16,
    id: u16,
) -> Result<Room, SizeRefusal>
    ensures { let F = seen field.now in
        outcome result ≡ measure_outcome F ids.now max_region k id }
{
    let n = field.area.len();
    check(field, n, n)?;
    if wrong_scale(k) {
        return Err(SizeRefusal::WrongScale);
    }
    if wrong_ids(n, ids, max_region) {
        return Err(SizeRefusal::WrongIds);
    }
    let e = extent_of(field, ids, max_region, id);
    Ok(measured(e, k))
}
