// The two forms of the numbers that the region entry gives.
ghost use Rattle.std.specs.Prelude.{◌≡◌, map, ◌-◌};
ghost use Rattle.rules.specs.Growth.{first_id};
ghost use Rattle.rooms.specs.Dense.{lower, shifted};
ghost use Rattle.watershed.specs.Form.{form_of};

use numbering::Regions;
use region::RegionId;

// Dense: the ids in use are 1 to max_region. Compared: as the Rust numbers them, which counts records without spans, too.
#[derive(Clone, Copy)]
pub enum Form {
    Dense,
    Compared,
}

// The first id that a flood gives; with a border, 1 to 4 are its strips.
const FIRST: u16 = 1;

const FIRST_PAST_BORDER: u16 = 5;

pub(crate) fn first_id(border_size: u16) -> u16
    ensures { result ≡ first_id border_size }
{
    if border_size == 0 {
        return FIRST;
    }
    FIRST_PAST_BORDER
}

// An id less d; a flagged one stays.
pub(crate) fn lower(r: u16, d: u16) -> u16
    ensures { result ≡ lower d r }
{
    if RegionId::BORDER_REGION.0 <= r {
        return r;
    }
    r.saturating_sub(d)
}

// All ids; less 0 they are as they were, and none is read.
fn lower_ids(ids: &mut [u16], d: u16)
    ensures { ids.new ≡ map (lower d) ids.old }
{
    if d == 0 {
        return;
    }
    for r in ids.iter_mut() {
        *r = lower(*r, d);
    }
}

// Numbers of the compared form, in the form that is asked for. The ids in use are those from the first on, all up to the last but one number
// given, so the dense form is the compared one less what comes before.
pub(crate) fn give_form(form: Form, border_size: u16, ids: &mut [u16], r: Regions) -> Regions
    ensures { record { ids = ids.new; most = result.max_region; over = result.overlaps; cut = result.cut }
        ≡ shifted (form_of form) (first_id border_size)
        (record { ids = ids.old; most = r.max_region; over = r.overlaps; cut = r.cut }) }
{
    let first = first_id(border_size);
    match form {
        Form::Compared => r,
        Form::Dense => {
            lower_ids(ids, first - 1);
            Regions {
                max_region: r.max_region.saturating_sub(first),
                ..r
            }
        }
    }
}
