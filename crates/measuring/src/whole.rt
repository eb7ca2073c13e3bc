// From a file's bytes to the table of its rooms: both entries, and then one record after the other.
ghost use Rattle.std.specs.Prelude.{◌≤◌, length, Ok};
ghost use Rattle.file.specs.Reads.{Few, Lists};

use crate::print::print_room;
use field::lent::Heightfield;
use file::read::{Header, read_file};
use sizes::measure_room;
use std::io::Result;
use watershed::{build_distance_field, build_regions};

// Ids 1 to most, up to one that is refused.
fn print_rooms(rt: &impl Print, field: &Heightfield, ids: &[u16], most: u16, k: u16) -> Result<()> {
    for id in 1..=most {
        match measure_room(field, ids, most, k, id) {
            Ok(room) => print_room(rt, id, room)?,
            Err(r) => return println!(rt; "refused {}", r.number()),
        }
    }
    Ok(())
}

fn print_regions(
    rt: &impl Print,
    field: &Heightfield,
    head: Header,
    k: u16,
    dist: &[u16],
    max_distance: u16,
    workspace: &mut [u16],
    ids: &mut [u16],
) -> Result<()> {
    match build_regions(
        field,
        dist,
        max_distance,
        head.border,
        head.least,
        head.merge,
        workspace,
        ids,
    ) {
        Ok(r) => print_rooms(rt, field, ids, r.max_region, k),
        Err(r) => println!(rt; "refused {}", r.number()),
    }
}

fn print_field(
    rt: &impl Print,
    field: &Heightfield,
    head: Header,
    k: u16,
    raw: &mut [u16],
    blurred: &mut [u16],
    workspace: &mut [u16],
    ids: &mut [u16],
) -> Result<()> {
    match build_distance_field(field, raw, blurred) {
        Ok(m) => print_regions(rt, field, head, k, blurred, m, workspace, ids),
        Err(r) => println!(rt; "refused {}", r.number()),
    }
}

// The field that the lists hold at their beginning: the header's cells, and n spans.
fn print_first(
    rt: &impl Print,
    head: Header,
    n: usize,
    k: u16,
    index: &[u32],
    count: &[u8],
    area: &[u8],
    con: &[u8],
) -> Result<()>
    requires { Lists index.now count.now area.now con.now × Few (Ok (head, n)) }
{
    let w = head.w as usize;
    let h = head.h as usize;
    let field = Heightfield {
        w,
        h,
        index: &index[..w * h],
        count: &count[..w * h],
        area: &area[..n],
        con: &con[..4 * n],
    };
    let mut raw = [0u16; 200];
    let mut blurred = [0u16; 200];
    let mut workspace = [0u16; 29696];
    let mut ids = [0u16; 200];
    print_field(
        rt,
        &field,
        head,
        k,
        &mut raw[..n],
        &mut blurred[..n],
        &mut workspace,
        &mut ids[..n],
    )
}

// What is printed for a file.
pub(crate) fn print_file(rt: &impl Print, bytes: &[u8], k: u16) -> Result<()> {
    let mut index = [0u32; 1024];
    let mut count = [0u8; 1024];
    let mut area = [0u8; 200];
    let mut con = [0u8; 800];
    match read_file(bytes, &mut index, &mut count, &mut area, &mut con) {
        Err(r) => println!(rt; "refused {}", r.number()),
        Ok((head, n)) => print_first(rt, head, n, k, &index, &count, &area, &con),
    }
}
