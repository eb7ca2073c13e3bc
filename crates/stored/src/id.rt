// One span's id from a stored result: by a full read, and by way of the kind 7 records.
ghost use Rattle.std.specs.Prelude.{◌≡◌, true, ◌+◌, ◌*◌, ◌<◌, ◌≤◌, ◌/◌, ◌%◌, length, drop};
ghost use Rattle.rules.specs.Stored.{new_fine, new_runs, marks_in, mark_at, chosen, spans_before, within, id_at, id_whole, seek};
ghost use Rattle.stored.specs.Ids.{id_outcome, found_outcome, holds, stretch_after};

use crate::bytes::{END, MOST_MARKED, RUN_BYTES, STRETCH, word};
use crate::runs::{is_run, long_word, runs_after, spans_after};
use crate::{StoredRefusal, check};

// The bytes of a stretch with its kind 7 record, the place of the number in it, and its records.
const STRETCH_BYTES: usize = 325;

const NUMBER_PLACE: usize = 321;

const STRETCH_RECORDS: usize = 65;

// The span's id, none where the spans end before it, or a refusal; and the stretch that was read.
#[derive(Clone, Copy)]
pub struct IdAnswer {
    pub id: Result<Option<u16>, StoredRefusal>,
    pub stretch: u32,
}

// The record at place i, after t runs of a stretch and so many spans, is the run that holds the span.
fn run_holds(file: &[u8], i: usize, t: usize, spans: usize, span: usize) -> bool
    requires { (i + 4 < length file.now) × (spans < 4299161600) }
    ensures { result ≡ holds file.now i t spans span }
{
    t != STRETCH && span < spans + word(file, i + 3) as usize
}

// The stretches before the record after the one that is due after t runs.
fn stretch_after(t: usize, p: u32) -> u32
    requires { t ≡ 64 → p < 4294967295 }
    ensures { result ≡ stretch_after t p }
{
    if t == STRETCH { p + 1 } else { p }
}

// The run that holds the span, among all.
fn find_whole(file: &[u8], span: usize) -> IdAnswer
    requires { new_fine file.now ≡ true }
    ensures { id_outcome result ≡ seek 0 0 0 (new_runs file.now) span }
{
    let m = file.len() / RUN_BYTES;
    let mut t: usize = 0;
    let mut p: u32 = 0;
    let mut spans: usize = 0;
    for j in 0..m {
        if run_holds(file, RUN_BYTES * j, t, spans, span) {
            return IdAnswer {
                id: Ok(Some(word(file, RUN_BYTES * j + 1))),
                stretch: p,
            };
        }
        p = stretch_after(t, p);
        spans = spans_after(file, RUN_BYTES * j, t, spans);
        t = runs_after(t);
    }
    IdAnswer {
        id: Ok(None),
        stretch: p,
    }
}

// The full reader: any input.
pub fn id_at_whole(file: &[u8], span: u32) -> IdAnswer
    ensures { id_outcome result ≡ id_whole file.now span }
{
    match check(file) {
        Err(r) => IdAnswer {
            id: Err(r),
            stretch: 0,
        },
        Ok(()) => find_whole(file, span as usize),
    }
}

// The number in the kind 7 record of stretch k.
fn mark_at(file: &[u8], k: usize) -> usize
    requires { k < length file.now / 325 }
    ensures { (result ≡ mark_at file.now k) × (result ≤ 4294967295) }
{
    long_word(file, STRETCH_BYTES * k + NUMBER_PLACE)
}

// How many kind 7 records a file of this length has.
fn marks_in(file: &[u8]) -> usize
    ensures { (result ≡ marks_in file.now) × (result ≤ length file.now / 325) × (result ≤ 4294967295) }
{
    MOST_MARKED.min(file.len() / STRETCH_BYTES)
}

// The stretch that is read, by halving: the loop jumps.
fn choose(file: &[u8], span: usize) -> usize
    ensures { (result ≡ chosen file.now span) × (result ≤ length file.now / 325) × (result ≤ 4294967295) }
{
    let mut lo: usize = 0;
    let mut hi = marks_in(file);
    while lo < hi {
        let mid = (lo + hi) / 2;
        if mark_at(file, mid) <= span {
            lo = mid + 1;
        } else {
            hi = mid;
        }
    }
    lo
}

// The spans before stretch p.
fn spans_before(file: &[u8], p: usize) -> usize
    requires { p ≤ length file.now / 325 }
    ensures { (result ≡ spans_before file.now p) × (result ≤ 4294967295) }
{
    if p == 0 { 0 } else { mark_at(file, p - 1) }
}

// Stretch p, so many spans being before it.
fn read_stretch(
    file: &[u8],
    p: usize,
    before: usize,
    span: usize,
) -> Result<Option<u16>, StoredRefusal>
    requires { (length file.now % 5 ≡ 1) × (p ≤ length file.now / 325) × (p ≤ 4294967295) × (before ≤ 4294967295) }
    ensures { found_outcome result p ≡ within p 64 (drop (325 * p) file.now) before span }
{
    let m = file.len() / RUN_BYTES;
    let first = STRETCH_RECORDS * p;
    let mut spans = before;
    for j in first..first + STRETCH {
        if j == m {
            // The end record, or a malformed file.
            if file[RUN_BYTES * j] == END {
                return Ok(None);
            }
            return Err(StoredRefusal::Malformed);
        }
        if !is_run(file, RUN_BYTES * j) {
            return Err(StoredRefusal::Malformed);
        }
        if run_holds(file, RUN_BYTES * j, 0, spans, span) {
            return Ok(Some(word(file, RUN_BYTES * j + 1)));
        }
        spans = spans_after(file, RUN_BYTES * j, 0, spans);
    }
    Err(StoredRefusal::WrongNumber)
}

// By way of the kind 7 records and one stretch: any input.
#[tactic(auto, using(crate::proofs::Halving::id_read))]
pub fn id_at(file: &[u8], span: u32) -> IdAnswer
    ensures { id_outcome result ≡ id_at file.now span }
{
    if file.len() % RUN_BYTES != 1 {
        return IdAnswer {
            id: Err(StoredRefusal::Malformed),
            stretch: 0,
        };
    }
    let p = choose(file, span as usize);
    let before = spans_before(file, p);
    let id = read_stretch(file, p, before, span as usize);
    IdAnswer {
        id,
        stretch: p as u32,
    }
}
