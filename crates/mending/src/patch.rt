// The changes of a mended field, made in the bytes of its file.
ghost use Rattle.std.specs.Prelude.{◌≡◌, ◌+◌, ◌*◌, ◌≤◌, ◌<◌, length};
ghost use Rattle.rules.specs.Field.{cell_of};
ghost use Rattle.mending.specs.Patch.{layer_of, byte_mended, bytes_mended};

use field::place::NO_LAYER;

// Where a span is: its cell, and its layer there.
#[derive(Clone, Copy)]
pub struct Spot {
    pub cell: usize,
    pub layer: usize,
}

// The place of span s.
pub(crate) fn spot_of(count: &[u8], s: usize) -> Spot
    ensures { (result.cell ≡ cell_of count.now s) × (result.layer ≡ layer_of count.now s)
        × (result.cell ≤ length count.now) }
{
    let mut left = s;
    for (cell, &k) in count.iter().enumerate() {
        let k = k as usize;
        if left < k {
            return Spot { cell, layer: left };
        }
        left -= k;
    }
    Spot {
        cell: count.len(),
        layer: left,
    }
}

// Change number k of the list.
fn mend_byte(bytes: &mut [u8], count: &[u8], changes: &[u16], k: usize)
    requires { (3 * k + 1 < length changes.now) × (length changes.now ≤ 2400) × (length count.now ≤ 1024) }
    ensures { bytes.new ≡ byte_mended count.now changes.now k bytes.old }
{
    let s = changes[3 * k] as usize;
    let d = changes[3 * k + 1] as usize;
    let at = 11 + 2 * (spot_of(count, s).cell + 1) + 6 * s + 2 + d;
    if at < bytes.len() {
        bytes[at] = NO_LAYER;
    }
}

// The first `made` of them.
pub(crate) fn mend_bytes(bytes: &mut [u8], count: &[u8], changes: &[u16], made: usize)
    requires { (3 * made ≤ length changes.now) × (length changes.now ≤ 2400) × (length count.now ≤ 1024) }
    ensures { bytes.new ≡ bytes_mended count.now changes.now made bytes.old }
{
    for k in 0..made {
        mend_byte(bytes, count, changes, k);
    }
}
