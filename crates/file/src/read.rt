// Reading a field file: the loader, given the whole file as one piece.
ghost use Rattle.std.specs.Prelude.{◌≡◌};
ghost use Rattle.rules.specs.Load.{read_file_at};
ghost use Rattle.file.specs.Reads.{file_number, Lists, Reads, Whole, Short, header, reading_in, place_in, place_by};

use load::bytes::feed;
use load::{Loader, load_begin, load_end};

// Document 01's refusals of a file, with its numbers.
#[derive(Clone, Copy)]
pub enum FileRefusal {
    Malformed = 20,
    TooLarge = 21,
}

impl FileRefusal {
    // Document 01's number.
    pub fn number(self) -> u16
        ensures { result ≡ file_number self }
    {
        self as u16
    }
}

// The numbers of a file's header.
#[derive(Clone, Copy)]
pub struct Header {
    pub w: u16,
    pub h: u16,
    pub border: u16,
    pub least: u16,
    pub merge: u16,
}

// The most cells and spans of a file's field.
const MOST_CELLS: u32 = 1024;

const MOST_SPANS: u32 = 200;

// A whole file loaded, and its end declared.
fn load_whole(
    bytes: &[u8],
    index: &mut [u32],
    count: &mut [u8],
    area: &mut [u8],
    con: &mut [u8],
) -> Loader
    ensures { Whole bytes.now index.old count.old area.old con.old
        result index.new count.new area.new con.new }
{
    let l = feed(
        load_begin(MOST_CELLS, MOST_SPANS),
        bytes,
        index,
        count,
        area,
        con,
    );
    load_end(l)
}

// The header of a loader that was not refused. No `From`, since it asks that the numbers are short.
fn header_of(l: Loader) -> Header
    requires { Short l }
    ensures { result ≡ header l }
{
    Header {
        w: l.w as u16,
        h: l.h as u16,
        border: l.border as u16,
        least: l.least as u16,
        merge: l.merge as u16,
    }
}

// What a loader's numbers say of its file: 0 and 21 are numbers there, since a loader is the C interface's.
fn reading(l: Loader) -> Result<(Header, usize), FileRefusal>
    requires { l.refusal ≡ 0 → Short l }
    ensures { result ≡ reading_in l }
{
    match l.refusal {
        0 => Ok((header_of(l), l.spans as usize)),
        21 => Err(FileRefusal::TooLarge),
        _ => Err(FileRefusal::Malformed),
    }
}

// A file's field into the lent lists: its header and the number of its spans.
pub fn read_file(
    bytes: &[u8],
    index: &mut [u32],
    count: &mut [u8],
    area: &mut [u8],
    con: &mut [u8],
) -> Result<(Header, usize), FileRefusal>
    requires { Lists index.old count.old area.old con.old }
    ensures { Reads bytes.now index.old count.old area.old con.old
        result index.new count.new area.new con.new }
{
    reading(load_whole(bytes, index, count, area, con))
}

fn place_in(l: Loader) -> Option<u32>
    ensures { result ≡ place_in l }
{
    if l.refusal == 0 {
        None
    } else {
        Some(l.position)
    }
}

// The place where a file is refused, if it is.
pub fn place(bytes: &[u8]) -> Option<u32>
    ensures { result ≡ place_by (read_file_at 1024 200 bytes.now) }
{
    let mut index = [0u32; 1024];
    let mut count = [0u8; 1024];
    let mut area = [0u8; 200];
    let mut con = [0u8; 800];
    let l = load_whole(bytes, &mut index, &mut count, &mut area, &mut con);
    place_in(l)
}
