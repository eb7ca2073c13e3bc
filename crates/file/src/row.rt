// Rows of the listing.
ghost use Rattle.std.specs.Prelude.{◌+◌, ◌*◌, ◌≤◌, ◌<◌, length, get_or};
ghost use Rattle.rules.specs.Listing.{cell_text, row_text, rows_text};
ghost use Rattle.file.specs.Written.{Room, Wrote};
ghost use Rattle.file.specs.Shown.{leader, layers_text, shown, Filled};

use crate::put::{put, put_decimal};

// The byte between two texts, before text j: before all but the first.
fn put_between(out: &mut [u8], at: usize, between: u8, j: usize) -> usize
    requires { Room out.old at (leader between j) }
    ensures { Wrote out.old at (leader between j) result out.new }
{
    if j == 0 { at } else { put(out, at, between) }
}

// "Layers in a cell are joined by `/`". Its loop and that of a row are no function with a closure: that would be longer than both.
fn put_layers(out: &mut [u8], at: usize, layers: &[u16]) -> usize
    requires { Room out.old at (layers_text layers.now 0 (length layers.now)) }
    ensures { Wrote out.old at (layers_text layers.now 0 (length layers.now)) result out.new }
{
    let mut next = at;
    for (j, &id) in layers.iter().enumerate() {
        next = put_between(out, next, b'/', j);
        next = put_decimal(out, next, id);
    }
    next
}

// What a listing shows: for each of w·h cells the place of its first id and how many it has.
#[derive(Clone, Copy)]
pub(crate) struct Grid<'a> {
    pub(crate) w: usize,
    pub(crate) h: usize,
    pub(crate) index: &'a [u32],
    pub(crate) count: &'a [u8],
    pub(crate) ids: &'a [u16],
    ghost filled: { Filled (w * h) index.now count.now ids.now },
}

impl Grid<'_> {
    // "an empty cell is `-`": cell c.
    fn put_cell(&self, out: &mut [u8], at: usize, c: usize) -> usize
        requires room { Room out.old at (cell_text self.now.ids.now (get_or self.now.index.now c 0) (get_or self.now.count.now c 0)) }
        requires c_in_bounds { c < self.now.w * self.now.h }
        ensures { Wrote out.old at (cell_text self.now.ids.now (get_or self.now.index.now c 0) (get_or self.now.count.now c 0)) result out.new }
    {
        let i = self.index[c] as usize;
        let k = self.count[c] as usize;
        if k == 0 {
            return put(out, at, b'-');
        }
        put_layers(out, at, &self.ids[i..i + k])
    }

    // "a row is a line, empty if w is 0": row z.
    fn put_row(&self, out: &mut [u8], at: usize, z: usize) -> usize
        requires room { Room out.old at (row_text (shown self.now.w self.now.h self.now.index.now self.now.count.now) self.now.ids.now z) }
        requires z_in_bounds { z < self.now.h }
        ensures { let F = shown self.now.w self.now.h self.now.index.now self.now.count.now in
            Wrote out.old at (row_text F self.now.ids.now z) result out.new }
    {
        let mut next = at;
        for x in 0..self.w {
            next = put_between(out, next, b' ', x);
            next = self.put_cell(out, next, z * self.w + x);
        }
        put(out, next, b'\n')
    }

    // All rows.
    pub(crate) fn put_rows(&self, out: &mut [u8], at: usize) -> usize
        requires { Room out.old at (rows_text (shown self.now.w self.now.h self.now.index.now self.now.count.now) self.now.ids.now self.now.h 0) }
        ensures { let F = shown self.now.w self.now.h self.now.index.now self.now.count.now in
            Wrote out.old at (rows_text F self.now.ids.now self.now.h 0) result out.new }
    {
        let mut next = at;
        for z in 0..self.h {
            next = self.put_row(out, next, z);
        }
        next
    }
}
