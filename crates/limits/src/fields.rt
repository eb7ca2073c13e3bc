// Lists that the calls lend.
ghost use Rattle.std.specs.Prelude.{◌≤◌, length};

use field::lent::Heightfield;

// A field that is lent these lists.
pub(crate) fn lent<'a>(
    w: usize,
    h: usize,
    index: &'a [u32],
    count: &'a [u8],
    area: &'a [u8],
    con: &'a [u8],
) -> Heightfield<'a> {
    Heightfield {
        w,
        h,
        index,
        count,
        area,
        con,
    }
}

// A field of 3 by 3 cells that is.
pub(crate) fn lent_3_by_3<'a>(
    index: &'a [u32],
    count: &'a [u8],
    area: &'a [u8],
    con: &'a [u8],
) -> Heightfield<'a> {
    lent(3, 3, index, count, area, con)
}

// 3 by 3 cells with a span each, all connected.
pub const INDEX: [u32; 9] = [0, 1, 2, 3, 4, 5, 6, 7, 8];

pub const COUNT: [u8; 9] = [1; 9];

pub const CON: [u8; 36] = [
    255, 0, 0, 255, 0, 0, 0, 255, 0, 0, 255, 255, 255, 0, 0, 0, 0, 0, 0, 0, 0, 0, 255, 0, 255, 255,
    0, 0, 0, 255, 0, 0, 0, 255, 255, 0,
];

pub const AREAS: [u8; 9] = [1, 1, 2, 1, 1, 2, 1, 1, 2];

// 4 by 3 cells with up to three layers, one span not walkable.
pub const LAYERS_INDEX: [u32; 12] = [0, 2, 3, 6, 7, 9, 11, 12, 14, 15, 17, 19];

pub const LAYERS_COUNT: [u8; 12] = [2, 1, 3, 1, 2, 2, 1, 2, 1, 2, 2, 1];

pub const LAYERS_AREA: [u8; 20] = [1, 1, 1, 1, 1, 0, 1, 1, 1, 1, 1, 1, 1, 1, 1, 1, 1, 1, 1, 1];

pub const LAYERS_CON: [u8; 80] = [
    255, 0, 0, 255, 255, 1, 255, 255, 0, 0, 0, 255, 0, 0, 0, 255, 255, 255, 255, 255, 255, 255,
    255, 255, 0, 0, 255, 255, 255, 0, 0, 0, 255, 255, 1, 1, 0, 0, 0, 0, 1, 1, 255, 255, 0, 0, 0, 0,
    0, 0, 255, 0, 255, 255, 255, 255, 255, 255, 0, 0, 0, 255, 0, 0, 255, 255, 1, 1, 0, 255, 0, 0,
    1, 255, 255, 255, 0, 255, 255, 0,
];

// 0, 2, 4, ..
pub(crate) fn count_in_twos(l: &mut [u32])
    requires { length l.old ≤ 65536 }
{
    for (i, x) in l.iter_mut().enumerate() {
        *x = 2 * i as u32;
    }
}
