// The old form, one record a span, and the runs that are made of it.
ghost use Rattle.std.specs.Prelude.{◌≡◌, true, ◌+◌, ◌*◌, ◌<◌, ◌≤◌, ◌%◌, length, leb};
ghost use Rattle.rules.specs.File.{word};
ghost use Rattle.rules.specs.Stored.{joins, old_fine, old_ids, runs_of, marks_fit, packed};
ghost use Rattle.file.specs.Written.{Room, Wrote};
ghost use Rattle.stored.specs.Parts.{grown, turned, run_bytes, ended_bytes, run_then, ended, mark_fits, end_fits};

use crate::bytes::{
    END, MOST_LONG, MOST_MARKED, RUN, RUN_BYTES, SPAN, SPAN_BYTES, STRETCH, put_five, put_mark,
    word,
};
use file::put::put;

// The file is one of the old form.
pub(crate) fn old_fine(old: &[u8]) -> bool
    ensures { result ≡ old_fine old.now }
{
    if old.len() % SPAN_BYTES != 1 {
        return false;
    }
    let n = old.len() / SPAN_BYTES;
    for i in 0..n {
        if old[SPAN_BYTES * i] != SPAN {
            return false;
        }
    }
    old[SPAN_BYTES * n] == END
}

// The run that the spans so far end in: its id, its length so far, and the runs of its stretch before it.
#[derive(Clone, Copy)]
struct Run {
    id: u16,
    long: u16,
    before: usize,
    ghost in_stretch: { before < 64 },
}

// A span of this id lengthens the run.
fn joins(run: Run, id: u16) -> bool
    ensures { result ≡ joins run.id run.long id }
{
    run.id == id && run.long < MOST_LONG
}

// The run that a span of this id is in, after the run.
fn run_after(run: Run, id: u16) -> Run
    ensures { (result.id ≡ id) × (result.long ≡ grown run.id run.long id) × (result.before ≡ turned run.id run.long id run.before) }
{
    if joins(run, id) {
        Run {
            id,
            long: run.long + 1,
            before: run.before,
        }
    } else {
        Run {
            id,
            long: 1,
            before: (run.before + 1) % STRETCH,
        }
    }
}

// The bytes of the run: where it is the last of its stretch, of the number of spans too.
fn run_bytes(run: Run) -> usize
    ensures { result ≡ run_bytes run.before }
{
    if run.before + 1 == STRETCH {
        RUN_BYTES + RUN_BYTES
    } else {
        RUN_BYTES
    }
}

// Those that the run takes before a span of this id: none if the run goes on.
fn ended_bytes(run: Run, id: u16) -> usize
    ensures { result ≡ ended_bytes run.id run.long id run.before }
{
    if joins(run, id) { 0 } else { run_bytes(run) }
}

// The record of a run that ends after so many spans, and where it is the last of its stretch, of the number of spans.
fn put_run(out: &mut [u8], at: usize, run: Run, spans: usize) -> usize
    requires { Room out.old at (run_then run.id run.long run.before spans) }
    ensures { Wrote out.old at (run_then run.id run.long run.before spans) result out.new }
{
    let next = put_five(out, at, RUN, run.id, run.long);
    if run.before + 1 == STRETCH {
        put_mark(out, next, spans)
    } else {
        next
    }
}

// The same, where a span of this id ends it.
fn put_ended(out: &mut [u8], at: usize, run: Run, id: u16, spans: usize) -> usize
    requires { Room out.old at (ended run.id run.long id run.before spans) }
    ensures { Wrote out.old at (ended run.id run.long id run.before spans) result out.new }
{
    if joins(run, id) {
        at
    } else {
        put_run(out, at, run, spans)
    }
}

// The number of spans fits its record, if one stands after this run.
fn mark_fits(run: Run, spans: usize) -> bool
    ensures { result ≡ mark_fits run.before spans }
{
    run.before + 1 != STRETCH || spans <= MOST_MARKED
}

// The same, where a span of this id ends the run.
fn end_fits(run: Run, id: u16, spans: usize) -> bool
    ensures { result ≡ end_fits run.id run.long id run.before spans }
{
    joins(run, id) || mark_fits(run, spans)
}

// The run of the first span, of a file with a span.
fn first_run(old: &[u8]) -> Run
    requires { 3 < length old.now }
    ensures { (result.id ≡ word old.now 1) × (result.long ≡ 1) × (result.before ≡ 0) }
{
    Run {
        id: word(old, 1),
        long: 1,
        before: 0,
    }
}

// Every number of spans of the new form fits its record: of a file with a span.
fn some_marks_fit(old: &[u8]) -> bool
    requires { (length old.now % 3 ≡ 1) × (3 < length old.now) }
    ensures { result ≡ marks_fit 0 0 (runs_of (old_ids old.now)) }
{
    let n = old.len() / SPAN_BYTES;
    let mut run = first_run(old);
    for i in 1..n {
        let id = word(old, SPAN_BYTES * i + 1);
        if !end_fits(run, id, i) {
            return false;
        }
        run = run_after(run, id);
    }
    mark_fits(run, n)
}

// Every number of spans of the new form fits its record: with no more spans than that, each does.
pub(crate) fn marks_fit(old: &[u8]) -> bool
    requires { old_fine old.now ≡ true }
    ensures { result ≡ marks_fit 0 0 (runs_of (old_ids old.now)) }
{
    old.len() / SPAN_BYTES <= MOST_MARKED || some_marks_fit(old)
}

// The new form of a file with a span takes at most so many bytes.
fn runs_fit(old: &[u8], room: usize) -> bool
    requires { (length old.now % 3 ≡ 1) × (3 < length old.now) }
    ensures { result ≡ leb (length (packed old.now)) room }
{
    let n = old.len() / SPAN_BYTES;
    let mut left = room;
    let mut run = first_run(old);
    for i in 1..n {
        let id = word(old, SPAN_BYTES * i + 1);
        let taken = ended_bytes(run, id);
        if left < taken {
            return false;
        }
        left -= taken;
        run = run_after(run, id);
    }
    run_bytes(run) < left
}

// The new form takes at most so many bytes.
pub(crate) fn pack_fits(old: &[u8], room: usize) -> bool
    requires { old_fine old.now ≡ true }
    ensures { result ≡ leb (length (packed old.now)) room }
{
    if old.len() == 1 {
        0 < room
    } else {
        runs_fit(old, room)
    }
}

// The runs of a file with a span.
fn write_some(old: &[u8], out: &mut [u8]) -> usize
    requires { (length old.now % 3 ≡ 1) × (3 < length old.now) × Room out.old 0 (packed old.now) }
    ensures { Wrote out.old 0 (packed old.now) result out.new }
{
    let n = old.len() / SPAN_BYTES;
    let mut at = 0;
    let mut run = first_run(old);
    for i in 1..n {
        let id = word(old, SPAN_BYTES * i + 1);
        at = put_ended(out, at, run, id, i);
        run = run_after(run, id);
    }
    let last = put_run(out, at, run, n);
    put(out, last, END)
}

// The new form.
pub(crate) fn write_runs(old: &[u8], out: &mut [u8]) -> usize
    requires { (old_fine old.now ≡ true) × (length (packed old.now) ≤ length out.old) }
    ensures { Wrote out.old 0 (packed old.now) result out.new }
{
    if old.len() == 1 {
        put(out, 0, END)
    } else {
        write_some(old, out)
    }
}
