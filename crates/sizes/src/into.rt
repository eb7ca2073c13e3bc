// The record with its values in two lent lists, as C gets them: it is more than every machine returns by value in the same way.
ghost use Rattle.std.specs.Prelude.{◌≡◌, [], ◌∷◌, length};
ghost use Rattle.rules.specs.Sizes.{zero64};
ghost use Rattle.field.specs.Lent.{lent};
ghost use Rattle.sizes.specs.Answer.{room_of, measure_refused_by, room_in, outcome};
ghost use Rattle.sizes.specs.Into.{sizes_of, numbers_of, GivesInto};
ghost use Rattle.field.specs.Seen.{seen};

use crate::metres::Room;
use crate::{SizeRefusal, measure_room};
use checker::wrong_length;
use field::lent::Heightfield;

// How many sizes a record has, and how many numbers beside them.
const SIZES: usize = 5;

const NUMBERS: usize = 3;

fn no_size() -> f64
    ensures { result ≡ zero64 }
{
    0.0
}

fn write_sizes(to: &mut [f64], a: f64, b: f64, c: f64, d: f64, e: f64)
    requires { length to.old ≡ 5 }
    ensures { to.new ≡ a ∷ b ∷ c ∷ d ∷ e ∷ [] }
{
    to[0] = a;
    to[1] = b;
    to[2] = c;
    to[3] = d;
    to[4] = e;
}

fn write_numbers(to: &mut [u16], a: u16, b: u16, c: u16)
    requires { length to.old ≡ 3 }
    ensures { to.new ≡ a ∷ b ∷ c ∷ [] }
{
    to[0] = a;
    to[1] = b;
    to[2] = c;
}

// A refusal, and zeros beside it.
fn put_refused(sizes: &mut [f64], numbers: &mut [u16], k: u16)
    requires { (length sizes.old ≡ 5) × (length numbers.old ≡ 3) }
    ensures { (sizes.new ≡ zero64 ∷ zero64 ∷ zero64 ∷ zero64 ∷ zero64 ∷ [])
        × (numbers.new ≡ k ∷ 0 ∷ 0 ∷ []) }
{
    let z = no_size();
    write_sizes(sizes, z, z, z, z, z);
    write_numbers(numbers, k, 0, 0);
}

// A record.
fn put_room(sizes: &mut [f64], numbers: &mut [u16], m: Room)
    requires { (length sizes.old ≡ 5) × (length numbers.old ≡ 3) }
    ensures { (sizes.new ≡ sizes_of (room_of m)) × (numbers.new ≡ 0 ∷ m.area ∷ m.count ∷ []) }
{
    let s = m.size;
    write_sizes(sizes, s.floor, s.x_least, s.x_past, s.z_least, s.z_past);
    write_numbers(numbers, 0, m.area as u16, m.count);
}

// The values of an answer; the refusal is given too.
fn put(sizes: &mut [f64], numbers: &mut [u16], r: Result<Room, SizeRefusal>) -> u16
    requires { (length sizes.old ≡ 5) × (length numbers.old ≡ 3) }
    ensures { (result ≡ measure_refused_by r) × (sizes.new ≡ sizes_of (room_in r)) × (numbers.new ≡ numbers_of (outcome r)) }
{
    match r {
        Err(e) => {
            let k = e.number();
            put_refused(sizes, numbers, k);
            k
        }
        Ok(m) => {
            put_room(sizes, numbers, m);
            0
        }
    }
}

// As `measure_room`, with the sizes in a list of five and the numbers beside them in a list of three.
pub fn measure_into(
    field: &Heightfield,
    ids: &[u16],
    max_region: u16,
    k: u16,
    id: u16,
    sizes: &mut [f64],
    numbers: &mut [u16],
) -> u16
    ensures { let F = seen field.now in
        GivesInto F ids.now max_region k id sizes.old numbers.old
        result sizes.new numbers.new }
{
    if sizes.len() != SIZES {
        return wrong_length(field);
    }
    if numbers.len() != NUMBERS {
        return wrong_length(field);
    }
    let r = measure_room(field, ids, max_region, k, id);
    put(sizes, numbers, r)
}
