// Stored results: the conversion of a file of one record a span into one of runs, and back. Each way checks the whole file, then the room, then writes.

#![tactic(auto)]

mod bytes;
pub mod id;
pub mod ids;
pub mod into;
mod old;
mod runs;

ghost use Rattle.std.specs.Prelude.{◌≡◌};
ghost use Rattle.rules.specs.Stored.{pack_outcome, unpack_outcome};
ghost use Rattle.stored.specs.Answer.{outcome, CheckedAs};

use crate::old::{marks_fit, old_fine, pack_fits, write_runs};
use crate::runs::{longest_runs, new_fine, numbers_right, unpack_fits, write_spans};

// The refusals of a stored result, 22 to 25.
#[derive(Clone, Copy)]
pub enum StoredRefusal {
    Malformed,
    NotLongest,
    NoRoom,
    WrongNumber,
}

// Old to new: any input. Gives how many bytes were written.
pub fn pack(old: &[u8], out: &mut [u8]) -> Result<u64, StoredRefusal>
    ensures { outcome result out.new ≡ pack_outcome old.now out.old }
{
    if !old_fine(old) {
        return Err(StoredRefusal::Malformed);
    }
    if !marks_fit(old) {
        return Err(StoredRefusal::Malformed);
    }
    if !pack_fits(old, out.len()) {
        return Err(StoredRefusal::NoRoom);
    }
    Ok(write_runs(old, out) as u64)
}

// Refusals 22, 23 and 25 of a file of the new form, each asked over the whole file.
pub(crate) fn check(new: &[u8]) -> Result<(), StoredRefusal>
    ensures { CheckedAs new.now result }
{
    if !new_fine(new) {
        return Err(StoredRefusal::Malformed);
    }
    if !longest_runs(new) {
        return Err(StoredRefusal::NotLongest);
    }
    if !numbers_right(new) {
        return Err(StoredRefusal::WrongNumber);
    }
    Ok(())
}

// New to old: any input. Gives how many bytes were written.
pub fn unpack(new: &[u8], out: &mut [u8]) -> Result<u64, StoredRefusal>
    ensures { outcome result out.new ≡ unpack_outcome new.now out.old }
{
    check(new)?;
    if !unpack_fits(new, out.len()) {
        return Err(StoredRefusal::NoRoom);
    }
    Ok(write_spans(new, out) as u64)
}
