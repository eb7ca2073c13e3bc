// Bytes written from a place on. Each function gives the place after what it wrote.
// List and place are no struct, since the crates above write by `put` in this form.
ghost use Rattle.std.specs.Prelude.{◌≡◌, [], ◌∷◌};
ghost use Rattle.rules.specs.Listing.{decimal};
ghost use Rattle.file.specs.Written.{Room, Wrote};
ghost use Rattle.file.specs.Shown.{named};

// One byte.
pub fn put(out: &mut [u8], at: usize, b: u8) -> usize
    requires { Room out.old at (b ∷ []) }
    ensures { Wrote out.old at (b ∷ []) result out.new }
{
    out[at] = b;
    at + 1
}

// A text.
pub(crate) fn put_all(out: &mut [u8], at: usize, text: &[u8]) -> usize
    requires { Room out.old at text.now }
    ensures { Wrote out.old at text.now result out.new }
{
    let end = at + text.len();
    out[at..end].copy_from_slice(text);
    end
}

// A number in decimal.
pub(crate) fn put_decimal(out: &mut [u8], at: usize, v: u16) -> usize
    requires { Room out.old at (decimal v) }
    ensures { Wrote out.old at (decimal v) result out.new }
{
    let last = b'0' + (v % 10) as u8;
    if v < 10 {
        return put(out, at, last);
    }
    let next = put_decimal(out, at, v / 10);
    put(out, next, last)
}

// A name and a number.
pub(crate) fn put_named(out: &mut [u8], at: usize, name: &[u8], v: u16) -> usize
    requires { Room out.old at (named name.now v) }
    ensures { Wrote out.old at (named name.now v) result out.new }
{
    let next = put_all(out, at, name);
    put_decimal(out, next, v)
}
