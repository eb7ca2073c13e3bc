// The conversions with the answer's numbers in a lent list, as C gets them: 16 bytes are more than every machine returns by value in the same way.
ghost use Rattle.std.specs.Prelude.{◌≡◌, [], ◌∷◌, length};
ghost use Rattle.rules.specs.Stored.{pack_outcome, unpack_outcome, id_at, id_whole};
ghost use Rattle.stored.specs.Answer.{stored_number, stored_refused_by, bytes_in};
ghost use Rattle.stored.specs.Into.{leaves, stored_into, id_numbers, leaves_id, id_into};
ghost use Rattle.stored.specs.Ids.{id_outcome};

use crate::id::{IdAnswer, id_at, id_at_whole};
use crate::{StoredRefusal, pack, unpack};

// How many numbers an answer has.
const NUMBERS: usize = 2;

// The refusal of a list of another length.
const WRONG_LENGTH: u32 = 3;

// Document 02's number of a refusal.
fn stored_number(r: StoredRefusal) -> u32
    ensures { result ≡ stored_number r }
{
    match r {
        StoredRefusal::Malformed => 22,
        StoredRefusal::NotLongest => 23,
        StoredRefusal::NoRoom => 24,
        StoredRefusal::WrongNumber => 25,
    }
}

// The numbers of an answer; the refusal's is given too.
fn put_answer(to: &mut [u64], r: Result<u64, StoredRefusal>) -> u32
    requires { length to.old ≡ 2 }
    ensures { (result ≡ stored_refused_by r) × (to.new ≡ stored_refused_by r ∷ bytes_in r ∷ []) }
{
    let (refusal, bytes) = match r {
        Err(x) => (stored_number(x), 0),
        Ok(bytes) => (0, bytes),
    };
    to.copy_from_slice(&[refusal as u64, bytes]);
    refusal
}

// As `pack`, with the answer's numbers in a list of two.
pub fn pack_into(old: &[u8], out: &mut [u8], answer: &mut [u64]) -> u32
    ensures { leaves result out.new answer.new
        ≡ stored_into (pack_outcome old.now out.old) out.old answer.old }
{
    if answer.len() != NUMBERS {
        return WRONG_LENGTH;
    }
    put_answer(answer, pack(old, out))
}

// As `unpack`, with the answer's numbers in a list of two.
pub fn unpack_into(new: &[u8], out: &mut [u8], answer: &mut [u64]) -> u32
    ensures { leaves result out.new answer.new
        ≡ stored_into (unpack_outcome new.now out.old) out.old answer.old }
{
    if answer.len() != NUMBERS {
        return WRONG_LENGTH;
    }
    put_answer(answer, unpack(new, out))
}

// How many numbers an answer of one span's id has.
const ID_NUMBERS: usize = 3;

// The refusal's number where the file has no such span.
const BEYOND: u32 = 26;

// The numbers of an answer; the refusal's is given too.
fn put_id(to: &mut [u32], r: IdAnswer) -> u32
    requires { length to.old ≡ 3 }
    ensures { (result ≡ (id_outcome r).refused) × (to.new ≡ id_numbers (id_outcome r)) }
{
    let (refusal, id) = match r.id {
        Err(x) => (stored_number(x), 0),
        Ok(None) => (BEYOND, 0),
        Ok(Some(id)) => (0, id),
    };
    to.copy_from_slice(&[refusal, id as u32, r.stretch]);
    refusal
}

// As `id_at`, with the answer's numbers in a list of three.
pub fn id_at_into(file: &[u8], span: u32, answer: &mut [u32]) -> u32
    ensures { leaves_id result answer.new ≡ id_into (id_at file.now span) answer.old }
{
    if answer.len() != ID_NUMBERS {
        return WRONG_LENGTH;
    }
    put_id(answer, id_at(file, span))
}

// As `id_at_whole`, with the answer's numbers in a list of three.
pub fn id_at_whole_into(file: &[u8], span: u32, answer: &mut [u32]) -> u32
    ensures { leaves_id result answer.new ≡ id_into (id_whole file.now span) answer.old }
{
    if answer.len() != ID_NUMBERS {
        return WRONG_LENGTH;
    }
    put_id(answer, id_at_whole(file, span))
}
