// The old form of a result, from its ids.
ghost use Rattle.std.specs.Prelude.{◌≤◌, length};
ghost use Rattle.rules.specs.Stored.{old_bytes};
ghost use Rattle.file.specs.Written.{Wrote};

use crate::bytes::END;
use crate::runs::put_span;
use file::put::put;

// Gives how many bytes were written: 3 a span and 1.
pub fn old_form(ids: &[u16], out: &mut [u8]) -> usize
    requires { length (old_bytes ids.now) ≤ length out.old }
    ensures { Wrote out.old 0 (old_bytes ids.now) result out.new }
{
    let mut at = 0;
    for id in ids {
        at = put_span(out, at, *id);
    }
    put(out, at, END)
}
