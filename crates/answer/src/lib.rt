// From the bytes of a field file to the bytes that are printed for it.

#![tactic(auto)]

ghost use Rattle.std.specs.Prelude.{◌*◌, ◌≤◌, length, Ok};
ghost use Rattle.rules.specs.Listing.{ran, printed};
ghost use Rattle.field.specs.Seen.{seen};
ghost use Rattle.file.specs.Reads.{Few, Lists, first, sizes_of};
ghost use Rattle.file.specs.Shown.{Prints};
ghost use Rattle.answer.specs.Answers.{Buffers, Fitting, Own, second};

use field::lent::Heightfield;
use file::read::{Header, read_file};
use file::write::{write_listing, write_refused};
use watershed::{build_distance_field, build_regions};

// The region entry, and its answer printed.
fn print_regions(
    field: &Heightfield,
    head: Header,
    dist: &[u16],
    max_distance: u16,
    workspace: &mut [u16],
    ids: &mut [u16],
    out: &mut [u8],
) -> usize
    requires { Fitting field.now.w field.now.h field.now.area.now ids.old out.old }
    ensures { let text = second (seen field.now) dist.now max_distance (sizes_of head) workspace.old ids.old in
        Prints out.old text result out.new }
{
    match build_regions(
        field,
        dist,
        max_distance,
        head.border,
        head.least,
        head.merge,
        workspace,
        ids,
    ) {
        Err(r) => write_refused(out, r.number()),
        Ok(r) => write_listing(
            field.w,
            field.h,
            field.index,
            field.count,
            ids,
            max_distance,
            r.max_region,
            r.overlaps,
            r.cut,
            out,
        ),
    }
}

// "It runs both entries and prints."
fn print_field(
    field: &Heightfield,
    head: Header,
    raw: &mut [u16],
    blurred: &mut [u16],
    workspace: &mut [u16],
    ids: &mut [u16],
    out: &mut [u8],
) -> usize
    requires fitting { Fitting field.now.w field.now.h field.now.area.now ids.old out.old }
    requires own { Own field.now.area.now raw.old blurred.old workspace.old }
    ensures { Prints out.old (ran (record { field = seen field.now; sizes = sizes_of head })) result out.new }
{
    match build_distance_field(field, raw, blurred) {
        Err(r) => write_refused(out, r.number()),
        Ok(m) => print_regions(field, head, blurred, m, workspace, ids, out),
    }
}

// What the region entry's workspace holds at least: so many numbers a span, and so many beside.
const WORKSPACE_A_SPAN: usize = 128;

const WORKSPACE_BESIDE: usize = 4096;

// The field that the lists hold at their beginning: the header's cells, and n spans.
fn print_first(
    head: Header,
    n: usize,
    index: &[u32],
    count: &[u8],
    area: &[u8],
    con: &[u8],
    raw: &mut [u16],
    blurred: &mut [u16],
    workspace: &mut [u16],
    ids: &mut [u16],
    out: &mut [u8],
) -> usize
    requires { Lists index.now count.now area.now con.now × Buffers raw.old blurred.old workspace.old ids.old out.old
        × Few (Ok (head, n)) }
    ensures { let F = first head.w head.h (head.w * head.h) n index.now count.now
        area.now con.now in
        Prints out.old (ran (record { field = F; sizes = sizes_of head })) result out.new }
{
    let w = head.w as usize;
    let h = head.h as usize;
    let field = Heightfield {
        w,
        h,
        index: &index[..w * h],
        count: &count[..w * h],
        area: &area[..n],
        con: &con[..4 * n],
    };
    print_field(
        &field,
        head,
        &mut raw[..n],
        &mut blurred[..n],
        &mut workspace[..WORKSPACE_A_SPAN * n + WORKSPACE_BESIDE],
        &mut ids[..n],
        out,
    )
}

// What is printed for a file, from the beginning of out on; gives its length. The other lists are room for the field and for the entries.
fn answer(
    bytes: &[u8],
    index: &mut [u32],
    count: &mut [u8],
    area: &mut [u8],
    con: &mut [u8],
    raw: &mut [u16],
    blurred: &mut [u16],
    workspace: &mut [u16],
    ids: &mut [u16],
    out: &mut [u8],
) -> usize
    requires { Lists index.old count.old area.old con.old × Buffers raw.old blurred.old workspace.old ids.old out.old }
    ensures { Prints out.old (printed bytes.now) result out.new }
{
    match read_file(bytes, index, count, area, con) {
        Err(r) => write_refused(out, r.number()),
        Ok((head, n)) => {
            print_first(
                head, n, index, count, area, con, raw, blurred, workspace, ids, out,
            )
        }
    }
}

// The same, with room of its own for everything but out.
pub fn reply(bytes: &[u8], out: &mut [u8]) -> usize
    requires { 4096 ≤ length out.old }
    ensures prints { Prints out.old (printed bytes.now) result out.new }
    ensures upper_bound { result ≤ length out.new }
{
    let mut index = [0u32; 1024];
    let mut count = [0u8; 1024];
    let mut area = [0u8; 200];
    let mut con = [0u8; 800];
    let mut raw = [0u16; 200];
    let mut blurred = [0u16; 200];
    let mut workspace = [0u16; 29696];
    let mut ids = [0u16; 200];
    answer(
        bytes,
        &mut index,
        &mut count,
        &mut area,
        &mut con,
        &mut raw,
        &mut blurred,
        &mut workspace,
        &mut ids,
        out,
    )
}
