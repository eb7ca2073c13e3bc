// The new form, runs, and the spans that are made of it.
ghost use Rattle.std.specs.Prelude.{◌≡◌, true, ◌+◌, ◌*◌, ◌<◌, ◌≤◌, ◌%◌, length, replicate, leb};
ghost use Rattle.rules.specs.Stored.{span_record, new_fine, new_runs, right_numbers, longest, unpacked};
ghost use Rattle.file.specs.Written.{Room, Wrote};
ghost use Rattle.stored.specs.Parts.{may_follow, span_records};
ghost use Rattle.stored.specs.Ids.{is_run};
ghost use Rattle.stored.specs.Records.{record_fine, runs_after, spans_after, long_word, number_right, record_follows, number_after, spans_bytes, record_spans};

use crate::bytes::{
    END, MARK, MOST_LONG, MOST_MARKED, RUN, RUN_BYTES, SPAN, SPAN_BYTES, STRETCH, put_word, word,
};
use file::put::put;

// The record at place i is that of a run.
pub(crate) fn is_run(file: &[u8], i: usize) -> bool
    requires { i + 4 < length file.now }
    ensures { result ≡ is_run file.now i }
{
    file[i] == RUN && 0 < word(file, i + 3)
}

// The record at place i is the one that is due after t runs of a stretch: after 64 the number of spans, which then fits, otherwise a run.
fn record_fine(new: &[u8], i: usize, t: usize, spans: usize) -> bool
    requires { i + 4 < length new.now }
    ensures { result ≡ record_fine new.now i t spans }
{
    if t == STRETCH {
        new[i] == MARK && spans <= MOST_MARKED
    } else {
        is_run(new, i)
    }
}

// The runs of the stretch after the record that is due.
pub(crate) fn runs_after(t: usize) -> usize
    requires { t ≤ 64 }
    ensures { result ≡ runs_after t }
{
    if t == STRETCH { 0 } else { t + 1 }
}

// The spans after the record at place i.
pub(crate) fn spans_after(new: &[u8], i: usize, t: usize, spans: usize) -> usize
    requires { (i + 4 < length new.now) × (spans < 4299161600) }
    ensures { (result ≡ spans_after new.now i t spans) × (result ≤ spans + 65535) }
{
    if t == STRETCH {
        spans
    } else {
        spans + word(new, i + 3) as usize
    }
}

// The file is one of the new form, whatever its runs and its numbers of spans.
pub(crate) fn new_fine(new: &[u8]) -> bool
    ensures { result ≡ new_fine new.now }
{
    if new.len() % RUN_BYTES != 1 {
        return false;
    }
    let m = new.len() / RUN_BYTES;
    let mut t: usize = 0;
    let mut spans: usize = 0;
    for j in 0..m {
        if !record_fine(new, RUN_BYTES * j, t, spans) {
            return false;
        }
        spans = spans_after(new, RUN_BYTES * j, t, spans);
        t = runs_after(t);
    }
    t != STRETCH && new[RUN_BYTES * m] == END
}

// The number of four bytes at place i.
pub(crate) fn long_word(bytes: &[u8], i: usize) -> usize
    requires { i + 3 < length bytes.now }
    ensures { (result ≡ long_word bytes.now i) × (result ≤ 4294967295) }
{
    let low = word(bytes, i) as usize;
    let high = word(bytes, i + 2) as usize;
    low + 65536 * high
}

// The number of spans in the record at place i is right, if one is due.
fn number_right(new: &[u8], i: usize, t: usize, spans: usize) -> bool
    requires { i + 4 < length new.now }
    ensures { result ≡ number_right new.now i t spans }
{
    t != STRETCH || long_word(new, i + 1) == spans
}

// Every number of spans is right.
pub(crate) fn numbers_right(new: &[u8]) -> bool
    requires { new_fine new.now ≡ true }
    ensures { result ≡ right_numbers new.now }
{
    let m = new.len() / RUN_BYTES;
    let mut t: usize = 0;
    let mut spans: usize = 0;
    for j in 0..m {
        if !number_right(new, RUN_BYTES * j, t, spans) {
            return false;
        }
        spans = spans_after(new, RUN_BYTES * j, t, spans);
        t = runs_after(t);
    }
    true
}

// A run of id y may follow one of id x and length k.
fn may_follow(x: u16, k: u16, y: u16) -> bool
    ensures { result ≡ may_follow x k y }
{
    x != y || k == MOST_LONG
}

// The record at place i may follow a run of id x and length k: a number of spans always.
fn record_follows(new: &[u8], i: usize, t: usize, x: u16, k: u16) -> bool
    requires { i + 4 < length new.now }
    ensures { result ≡ record_follows new.now i t x k }
{
    t == STRETCH || may_follow(x, k, word(new, i + 1))
}

// A number of the run at place i, or that of the run before it where the number of spans is due.
fn number_after(new: &[u8], i: usize, t: usize, before: u16) -> u16
    requires { i + 1 < length new.now }
    ensures { result ≡ number_after new.now i t before }
{
    if t == STRETCH { before } else { word(new, i) }
}

// The runs are the longest. Any run may follow one of the greatest length, so the first does too.
pub(crate) fn longest_runs(new: &[u8]) -> bool
    requires { new_fine new.now ≡ true }
    ensures { result ≡ longest (new_runs new.now) }
{
    let m = new.len() / RUN_BYTES;
    let mut id: u16 = 0;
    let mut long = MOST_LONG;
    let mut t: usize = 0;
    for j in 0..m {
        if !record_follows(new, RUN_BYTES * j, t, id, long) {
            return false;
        }
        id = number_after(new, RUN_BYTES * j + 1, t, id);
        long = number_after(new, RUN_BYTES * j + 3, t, long);
        t = runs_after(t);
    }
    true
}

// The bytes of the spans of the record at place i.
fn spans_bytes(new: &[u8], i: usize, t: usize) -> usize
    requires { i + 4 < length new.now }
    ensures { result ≡ spans_bytes new.now i t }
{
    if t == STRETCH {
        0
    } else {
        SPAN_BYTES * word(new, i + 3) as usize
    }
}

// The old form takes at most so many bytes.
pub(crate) fn unpack_fits(new: &[u8], room: usize) -> bool
    requires { new_fine new.now ≡ true }
    ensures { result ≡ leb (length (unpacked new.now)) room }
{
    let m = new.len() / RUN_BYTES;
    let mut left = room;
    let mut t: usize = 0;
    for j in 0..m {
        let taken = spans_bytes(new, RUN_BYTES * j, t);
        if left < taken {
            return false;
        }
        left -= taken;
        t = runs_after(t);
    }
    0 < left
}

// The record of a span.
pub(crate) fn put_span(out: &mut [u8], at: usize, x: u16) -> usize
    requires { Room out.old at (span_record x) }
    ensures { Wrote out.old at (span_record x) result out.new }
{
    let id = put(out, at, SPAN);
    put_word(out, id, x)
}

// The records of k spans of id x.
fn put_spans(out: &mut [u8], at: usize, x: u16, k: u16) -> usize
    requires { Room out.old at (span_records (replicate k x)) }
    ensures { Wrote out.old at (span_records (replicate k x)) result out.new }
{
    let mut next = at;
    for _ in 0..k {
        next = put_span(out, next, x);
    }
    next
}

// The records of the spans of the record at place i: none where the number of spans is due.
fn put_record_spans(new: &[u8], i: usize, t: usize, out: &mut [u8], at: usize) -> usize
    requires { (i + 4 < length new.now) × Room out.old at (record_spans new.now i t) }
    ensures { Wrote out.old at (record_spans new.now i t) result out.new }
{
    if t == STRETCH {
        at
    } else {
        put_spans(out, at, word(new, i + 1), word(new, i + 3))
    }
}

// The old form.
pub(crate) fn write_spans(new: &[u8], out: &mut [u8]) -> usize
    requires { (new_fine new.now ≡ true) × (length (unpacked new.now) ≤ length out.old) }
    ensures { Wrote out.old 0 (unpacked new.now) result out.new }
{
    let m = new.len() / RUN_BYTES;
    let mut at = 0;
    let mut t: usize = 0;
    for j in 0..m {
        at = put_record_spans(new, RUN_BYTES * j, t, out, at);
        t = runs_after(t);
    }
    put(out, at, END)
}
