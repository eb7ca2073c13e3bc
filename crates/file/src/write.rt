// What the program prints, from the first byte of a lent list on. Each function gives how many bytes there are.
ghost use Rattle.std.specs.Prelude.{◌≤◌, length};
ghost use Rattle.rules.specs.Listing.{listing, refused_line};
ghost use Rattle.file.specs.Written.{Room, Wrote};
ghost use Rattle.file.specs.Shown.{heading, shown, numbered, Listable, Prints};

use crate::put::{put, put_named};
use crate::row::Grid;

// "A refused run prints the one line `refused` and its number."
pub fn write_refused(out: &mut [u8], n: u16) -> usize
    requires { 4096 ≤ length out.old }
    ensures { Prints out.old (refused_line n) result out.new }
{
    let next = put_named(out, 0, b"refused ", n);
    put(out, next, b'\n')
}

// The first line.
fn put_heading(out: &mut [u8], most: u16, region: u16, over: u16, cut: u16) -> usize
    requires { Room out.old 0 (heading most region over cut) }
    ensures { Wrote out.old 0 (heading most region over cut) result out.new }
{
    let a = put_named(out, 0, b"max_distance ", most);
    let b = put_named(out, a, b" max_region ", region);
    let c = put_named(out, b, b" overlaps ", over);
    let d = put_named(out, c, b" cut ", cut);
    put(out, d, b'\n')
}

// The first line, then the rows.
pub fn write_listing(
    w: usize,
    h: usize,
    index: &[u32],
    count: &[u8],
    ids: &[u16],
    max_distance: u16,
    max_region: u16,
    overlaps: u16,
    cut: u16,
    out: &mut [u8],
) -> usize
    requires { Listable w h index.now count.now ids.now out.old }
    ensures { let F = shown w h index.now count.now in
        Prints out.old (listing F max_distance (numbered max_region overlaps cut ids.now)) result out.new }
{
    let next = put_heading(out, max_distance, max_region, overlaps, cut);
    let grid = Grid {
        w,
        h,
        index,
        count,
        ids,
    };
    grid.put_rows(out, next)
}
