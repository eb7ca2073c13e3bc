// From a field file's bytes to its stored result: both entries, the ids in the old form, and runs.
ghost use Rattle.std.specs.Prelude.{◌≤◌, length, Ok};
ghost use Rattle.file.specs.Reads.{Few, Lists};

use field::lent::Heightfield;
use file::read::{Header, read_file};
use std::io::Result;
use stored::ids::old_form;
use stored::pack;
use watershed::{build_distance_field, build_regions};

// The first n bytes, of which there are as many.
fn print_some(rt: &impl Print, bytes: &[u8], n: usize) -> Result<()> {
    match bytes.get(..n) {
        Some(part) => rt.write_all(part),
        None => Ok(()),
    }
}

// The runs of at most 200 ids: there is room for 6 bytes a span and 1, the most that they take.
fn print_runs(rt: &impl Print, old: &[u8]) -> Result<()> {
    let mut out = [0u8; 1201];
    match pack(old, &mut out) {
        Ok(n) => print_some(rt, &out, n as usize),
        Err(_) => Ok(()),
    }
}

// There is room for 3 bytes a span and 1.
fn print_stored(rt: &impl Print, ids: &[u16]) -> Result<()>
    requires { length ids.now ≤ 200 }
{
    let mut old = [0u8; 601];
    let end = old_form(ids, &mut old);
    match old.get(..end) {
        Some(part) => print_runs(rt, part),
        None => Ok(()),
    }
}

fn print_regions(
    rt: &impl Print,
    field: &Heightfield,
    head: Header,
    dist: &[u16],
    max_distance: u16,
    workspace: &mut [u16],
    ids: &mut [u16],
) -> Result<()>
    requires { length ids.old ≤ 200 }
{
    match build_regions(
        field,
        dist,
        max_distance,
        head.border,
        head.least,
        head.merge,
        workspace,
        ids,
    ) {
        Ok(_) => print_stored(rt, ids),
        Err(r) => println!(rt; "refused {}", r.number()),
    }
}

fn print_field(
    rt: &impl Print,
    field: &Heightfield,
    head: Header,
    raw: &mut [u16],
    blurred: &mut [u16],
    workspace: &mut [u16],
    ids: &mut [u16],
) -> Result<()>
    requires { length ids.old ≤ 200 }
{
    match build_distance_field(field, raw, blurred) {
        Ok(m) => print_regions(rt, field, head, blurred, m, workspace, ids),
        Err(r) => println!(rt; "refused {}", r.number()),
    }
}

// The field that the lists hold at their beginning: the header's cells, and n spans.
fn print_first(
    rt: &impl Print,
    head: Header,
    n: usize,
    index: &[u32],
    count: &[u8],
    area: &[u8],
    con: &[u8],
) -> Result<()>
    requires { Lists index.now count.now area.now con.now × Few (Ok (head, n)) }
{
    let w = head.w as usize;
    let h = head.h as usize;
    let field = Heightfield {
        w,
        h,
        index: &index[..w * h],
        count: &count[..w * h],
        area: &area[..n],
        con: &con[..4 * n],
    };
    let mut raw = [0u16; 200];
    let mut blurred = [0u16; 200];
    let mut workspace = [0u16; 29696];
    let mut ids = [0u16; 200];
    print_field(
        rt,
        &field,
        head,
        &mut raw[..n],
        &mut blurred[..n],
        &mut workspace,
        &mut ids[..n],
    )
}

// What is printed for a field file.
pub(crate) fn print_file(rt: &impl Print, bytes: &[u8]) -> Result<()> {
    let mut index = [0u32; 1024];
    let mut count = [0u8; 1024];
    let mut area = [0u8; 200];
    let mut con = [0u8; 800];
    match read_file(bytes, &mut index, &mut count, &mut area, &mut con) {
        Err(r) => println!(rt; "refused {}", r.number()),
        Ok((head, n)) => print_first(rt, head, n, &index, &count, &area, &con),
    }
}
