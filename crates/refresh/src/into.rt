// The refresh with its numbers in a lent list, as C gets them: eight numbers are more than every machine returns by value in the same way.
ghost use Rattle.std.specs.Prelude.{◌≡◌, [], length};
ghost use Rattle.refresh.specs.Answer.{rect, refresh_refused_by, refresh_given};
ghost use Rattle.refresh.specs.Into.{numbers_of, GivesInto};
ghost use Rattle.field.specs.Seen.{seen};

use crate::{RefreshRefusal, Refreshed, refresh_distance_field};
use checker::wrong_length;
use field::lent::Heightfield;

// How many numbers an answer has.
const NUMBERS: usize = 8;

// The numbers of an answer; the refusal's is given too.
fn put(to: &mut [u16], r: Result<Refreshed, RefreshRefusal>) -> u16
    requires { length to.old ≡ 8 }
    ensures { (result ≡ refresh_refused_by r) × (to.new ≡ numbers_of (refresh_given r [] [] [])) }
{
    match r {
        Ok(v) => {
            to.copy_from_slice(&[
                0,
                v.max_distance,
                v.pass1_first,
                v.pass1_last,
                v.pass2_first,
                v.pass2_last,
                v.blur_first,
                v.blur_last,
            ]);
            0
        }
        Err(e) => {
            let k = e.number();
            to.copy_from_slice(&[k, 0, 0, 0, 0, 0, 0, 0]);
            k
        }
    }
}

// As `refresh_distance_field`, with the answer's numbers in a list of eight.
pub fn refresh_into(
    field: &Heightfield,
    x0: u16,
    z0: u16,
    x1: u16,
    z1: u16,
    pass1: &mut [u16],
    raw: &mut [u16],
    blurred: &mut [u16],
    answer: &mut [u16],
) -> u16
    ensures { let F = seen field.now in
        GivesInto F (rect x0 z0 x1 z1) pass1.old raw.old blurred.old answer.old
        result pass1.new raw.new blurred.new answer.new }
{
    if answer.len() != NUMBERS {
        return wrong_length(field);
    }
    let r = refresh_distance_field(field, x0, z0, x1, z1, pass1, raw, blurred);
    put(answer, r)
}
