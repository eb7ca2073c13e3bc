// A file mended: read, its field mended, and the changes made in its bytes.
ghost use Rattle.std.specs.Prelude.{◌≡◌, ◌*◌, ◌≤◌, length, Ok};
ghost use Rattle.field.specs.Lent.{lent};
ghost use Rattle.file.specs.Reads.{Few, Lists, first};
ghost use Rattle.mending.specs.Patch.{field_mended, mended_file, filed, filed_number, Placed};

use crate::patch::mend_bytes;
use file::read::{FileRefusal, Header, read_file};
use mend::{MendRefusal, mend};

// Why a file is not mended: it is no field's, or its field is refused.
#[derive(Clone, Copy)]
pub enum FiledRefusal {
    File(FileRefusal),
    Field(MendRefusal),
}

impl FiledRefusal {
    // The number that is printed.
    pub fn number(self) -> u16
        ensures { result ≡ filed_number self }
    {
        match self {
            FiledRefusal::File(r) => r.number(),
            FiledRefusal::Field(r) => r.number(),
        }
    }
}

// A mended file: its width, and how many changes were made.
#[derive(Clone, Copy)]
pub struct Mended {
    pub width: usize,
    pub changes: usize,
}

// A field, and its file.
fn mend_field(
    w: u16,
    h: u16,
    bytes: &mut [u8],
    index: &[u32],
    count: &[u8],
    area: &[u8],
    con: &mut [u8],
    changes: &mut [u16],
) -> Result<Mended, FiledRefusal>
    requires { (length count.now ≤ 1024) × (length changes.old ≤ 2400) }
    ensures bytes_after { let F = lent w h index.now count.now area.now con.old in
        filed result bytes.new ≡ field_mended F changes.old bytes.old }
    ensures placed { Placed result changes.new }
{
    // No `?`: the proof of its way out did not close.
    match mend(w, h, index, count, area, con, changes) {
        Ok(made) => {
            let k = made as usize;
            mend_bytes(bytes, count, changes, k);
            Ok(Mended {
                width: w as usize,
                changes: k,
            })
        }
        Err(r) => Err(FiledRefusal::Field(r)),
    }
}

// The field that the lists hold at their beginning: the header's cells, and n spans.
fn mend_first(
    head: Header,
    n: usize,
    bytes: &mut [u8],
    index: &[u32],
    count: &[u8],
    area: &[u8],
    con: &mut [u8],
    changes: &mut [u16],
) -> Result<Mended, FiledRefusal>
    requires { Lists index.now count.now area.now con.old × Few (Ok (head, n)) × (length changes.old ≤ 2400) }
    ensures bytes_after { let c = head.w * head.h in
        let F = first head.w head.h c n index.now count.now area.now con.old in
        filed result bytes.new ≡ field_mended F changes.old bytes.old }
    ensures placed { Placed result changes.new }
{
    let cells = head.w as usize * head.h as usize;
    mend_field(
        head.w,
        head.h,
        bytes,
        &index[..cells],
        &count[..cells],
        &area[..n],
        &mut con[..4 * n],
        changes,
    )
}

// Any bytes. The lists are room for the field and for the changes.
pub(crate) fn mend_file(
    bytes: &mut [u8],
    index: &mut [u32],
    count: &mut [u8],
    area: &mut [u8],
    con: &mut [u8],
    changes: &mut [u16],
) -> Result<Mended, FiledRefusal>
    requires { Lists index.old count.old area.old con.old × (length changes.old ≤ 2400) }
    ensures bytes_after { filed result bytes.new ≡ mended_file bytes.old changes.old }
    ensures placed { Placed result changes.new }
{
    match read_file(bytes, index, count, area, con) {
        Err(r) => Err(FiledRefusal::File(r)),
        Ok((head, n)) => mend_first(head, n, bytes, index, count, area, con, changes),
    }
}
