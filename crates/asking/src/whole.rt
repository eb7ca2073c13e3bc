// From a file's bytes to what is told of a span: the distances, and then the build that is explained.
ghost use Rattle.std.specs.Prelude.{◌≤◌, length, Ok};
ghost use Rattle.file.specs.Reads.{Few, Lists};

use crate::place::{Asked, Missing, find};
use crate::print::{print_number, print_told, print_two};
use field::lent::Heightfield;
use file::read::{Header, read_file};
use std::io::Result;
use watershed::{build_distance_field, explain_span};

fn tell_span(
    rt: &impl Print,
    field: &Heightfield,
    head: Header,
    span: u32,
    dist: &[u16],
    max_distance: u16,
    workspace: &mut [u16],
    trail: &mut [u16],
) -> Result<()> {
    let e = explain_span(
        field,
        dist,
        max_distance,
        head.border,
        head.least,
        head.merge,
        workspace,
        span,
        trail,
    );
    if e.refusal != 0 {
        return println!(rt; "refused {}", e.refusal);
    }
    print_told(rt, field, e, trail)
}

fn tell_field(
    rt: &impl Print,
    field: &Heightfield,
    head: Header,
    asked: Asked,
    raw: &mut [u16],
    blurred: &mut [u16],
    workspace: &mut [u16],
    trail: &mut [u16],
) -> Result<()>
    requires { (field.now.w ≤ 65535) × (field.now.h ≤ 65535) }
{
    let most = match build_distance_field(field, raw, blurred) {
        Ok(m) => m,
        Err(r) => return println!(rt; "refused {}", r.number()),
    };
    match find(asked, field) {
        Ok(span) => tell_span(rt, field, head, span, blurred, most, workspace, trail),
        Err(Missing::NoCell) => print_two(rt, "no_cell", field.w, field.h),
        Err(Missing::NoLayer(layers)) => print_number(rt, "no_layer", layers as u16),
    }
}

// The field that the lists hold at their beginning: the header's cells, and n spans.
fn tell_first(
    rt: &impl Print,
    head: Header,
    n: usize,
    asked: Asked,
    index: &[u32],
    count: &[u8],
    area: &[u8],
    con: &[u8],
) -> Result<()>
    requires { Lists index.now count.now area.now con.now × Few (Ok (head, n)) }
{
    let w = head.w as usize;
    let h = head.h as usize;
    let field = Heightfield {
        w,
        h,
        index: &index[..w * h],
        count: &count[..w * h],
        area: &area[..n],
        con: &con[..4 * n],
    };
    let mut raw = [0u16; 200];
    let mut blurred = [0u16; 200];
    let mut workspace = [0u16; 29696];
    let mut trail = [0u16; 200];
    tell_field(
        rt,
        &field,
        head,
        asked,
        &mut raw[..n],
        &mut blurred[..n],
        &mut workspace,
        &mut trail[..n],
    )
}

// What is told for a file.
pub(crate) fn tell_file(rt: &impl Print, bytes: &[u8], asked: Asked) -> Result<()> {
    let mut index = [0u32; 1024];
    let mut count = [0u8; 1024];
    let mut area = [0u8; 200];
    let mut con = [0u8; 800];
    match read_file(bytes, &mut index, &mut count, &mut area, &mut con) {
        Err(r) => println!(rt; "refused {}", r.number()),
        Ok((head, n)) => tell_first(rt, head, n, asked, &index, &count, &area, &con),
    }
}
