// Records of a stored result: their kinds and lengths, and numbers of two bytes.
ghost use Rattle.std.specs.Prelude.{◌≡◌, ◌+◌, ◌<◌, length};
ghost use Rattle.rules.specs.File.{word};
ghost use Rattle.rules.specs.Stored.{two, mark_record};
ghost use Rattle.file.specs.Written.{Room, Wrote};
ghost use Rattle.stored.specs.Parts.{five};

use file::put::put;

// The kinds of records: a span, a run, the number of spans after a stretch, the end.
pub(crate) const SPAN: u8 = 5;

pub(crate) const MARK: u8 = 7;

pub(crate) const RUN: u8 = 6;

pub(crate) const END: u8 = 4;

// The lengths of a span's record, and of a run's, which is that of a number of spans too.
pub(crate) const SPAN_BYTES: usize = 3;

pub(crate) const RUN_BYTES: usize = 5;

// The most spans of a run.
pub(crate) const MOST_LONG: u16 = 65535;

// The runs of a stretch, and the greatest number of spans that its record holds.
pub(crate) const STRETCH: usize = 64;

pub(crate) const MOST_MARKED: usize = 4294967295;

// The number at place i.
pub(crate) fn word(bytes: &[u8], i: usize) -> u16
    requires { i + 1 < length bytes.now }
    ensures { result ≡ word bytes.now i }
{
    u16::from_le_bytes([bytes[i], bytes[i + 1]])
}

// A number's two bytes.
pub(crate) fn put_word(out: &mut [u8], at: usize, v: u16) -> usize
    requires { Room out.old at (two v) }
    ensures { Wrote out.old at (two v) result out.new }
{
    let next = put(out, at, (v % 256) as u8);
    put(out, next, (v / 256) as u8)
}

// A record of five bytes: its kind and two numbers.
pub(crate) fn put_five(out: &mut [u8], at: usize, kind: u8, x: u16, y: u16) -> usize
    requires { Room out.old at (five kind x y) }
    ensures { Wrote out.old at (five kind x y) result out.new }
{
    let first = put(out, at, kind);
    let second = put_word(out, first, x);
    put_word(out, second, y)
}

// The record of a number of spans.
pub(crate) fn put_mark(out: &mut [u8], at: usize, spans: usize) -> usize
    requires { Room out.old at (mark_record spans) }
    ensures { Wrote out.old at (mark_record spans) result out.new }
{
    put_five(
        out,
        at,
        MARK,
        (spans % 65536) as u16,
        (spans / 65536 % 65536) as u16,
    )
}
