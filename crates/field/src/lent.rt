// A compact heightfield, as a caller lends it.

ghost use Rattle.std.specs.Prelude.{ℕ, ◌<◌, get_or};

// Width and height in cells; of each cell the index of its first span and the count of its spans; of each span its area and four connections.
#[derive(Clone, Copy)]
pub struct Heightfield<'a> {
    pub w: usize,
    pub h: usize,
    pub index: &'a [u32],
    pub count: &'a [u8],
    pub area: &'a [u8],
    pub con: &'a [u8],
}

// An area code is a byte. It does nothing: a proof does not see it of a list within a struct, and asks here.
pub fn codes_are_bytes(area: &[u8])
    ensures { (i : ℕ) → get_or area.now i 0 < 256 }
{}
