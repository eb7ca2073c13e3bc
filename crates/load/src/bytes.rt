// One byte more, by the record under way.
ghost use Rattle.std.specs.Prelude.{◌≡◌, List, ℕ, ◌*◌, ◌<◌, set};
ghost use Rattle.rules.specs.Load.{refusing, onward, counted, wanted, kind_byte, number_with, sized, headed, header_byte, cell_on, cell_byte};
ghost use Rattle.rules.specs.Load.{span_on, span_byte, taken, byte_in, feed};
ghost use Rattle.load.specs.Numbers.{loader_of, loading, ended_by, number_of};

use crate::Loader;

// The refusals of a file, with their numbers.
#[derive(Clone, Copy, PartialEq, Eq)]
enum Refusal {
    Malformed = 20,
    TooLarge = 21,
}

// The kinds of record. They are numbers, since a caller in C hands in a loader of any numbers, and what is none of these is refused.
const NONE: u32 = 0;

const HEADER: u32 = 1;

const CELL: u32 = 2;

const SPAN: u32 = 3;

const END: u32 = 4;

// "numbers little-endian": a number of the header whose bytes are i and i + 1 of the body.
fn number_with(i: u32, got: u32, old: u32, b: u8) -> u32
    requires { i < 10 }
    ensures { result ≡ number_with i got old b }
{
    if got == i {
        b as u32
    } else if got == i + 1 {
        old % 256 + 256 * (b as u32)
    } else {
        old
    }
}

// A store past the list's end writes nothing.
fn put<T: Copy>(list: &mut [T], i: usize, v: T)
    ensures { list.new ≡ set list.old i v }
{
    if i < list.len() {
        list[i] = v;
    }
}

impl Loader {
    fn refusing(self, refusal: Refusal, position: u32) -> Loader
        ensures { loader_of result ≡ refusing (number_of refusal) position (loader_of self) }
    {
        Loader {
            refusal: refusal as u32,
            position,
            ..self
        }
    }

    // A byte more was received: the record under way, where it began, and the bytes of its body so far.
    fn onward(self, kind: u32, start: u32, got: u32) -> Loader
        ensures { loader_of result ≡ onward kind start got (loader_of self) }
    {
        Loader {
            kind,
            start,
            got,
            received: self.received.saturating_add(1),
            ..self
        }
    }

    fn counted(self, cells: u32, spans: u32, due: u32) -> Loader
        ensures { loader_of result ≡ counted cells spans due (loader_of self) }
    {
        Loader {
            cells,
            spans,
            due,
            ..self
        }
    }

    // How many cells the header says: w·h.
    fn grid(self) -> usize
        ensures { result ≡ self.w * self.h }
    {
        self.w as usize * self.h as usize
    }

    // The kind that is in place.
    fn wanted(self) -> u32
        ensures { result ≡ wanted (loader_of self) }
    {
        if self.received == 0 {
            HEADER
        } else if 0 < self.due {
            SPAN
        } else if (self.cells as usize) < self.grid() {
            CELL
        } else {
            END
        }
    }

    // "unknown kind, record out of place".
    fn kind_byte(self, b: u8) -> Loader
        ensures { loader_of result ≡ kind_byte (loader_of self) b }
    {
        let kind = b as u32;
        if kind == self.wanted() {
            self.onward(kind, self.received, 0)
        } else {
            self.refusing(Refusal::Malformed, self.received)
        }
    }

    fn sized(self, b: u8) -> Loader
        ensures { loader_of result ≡ sized (loader_of self) b }
    {
        Loader {
            w: number_with(0, self.got, self.w, b),
            h: number_with(2, self.got, self.h, b),
            border: number_with(4, self.got, self.border, b),
            least: number_with(6, self.got, self.least, b),
            merge: number_with(8, self.got, self.merge, b),
            ..self
        }
    }

    // "over 1,024 cells (at the header)": the limit is the loader's.
    fn headed(self) -> Loader
        ensures { loader_of result ≡ headed (loader_of self) }
    {
        if (self.most_cells as usize) < self.grid() {
            self.refusing(Refusal::TooLarge, self.start)
        } else {
            self.onward(NONE, self.start, 0)
        }
    }

    fn header_byte(self, b: u8) -> Loader
        ensures { loader_of result ≡ header_byte (loader_of self) b }
    {
        let m = self.sized(b);
        if self.got < 9 {
            m.onward(HEADER, self.start, self.got + 1)
        } else {
            m.headed()
        }
    }

    fn cell_on(self, b: u8) -> Loader
        ensures { loader_of result ≡ cell_on (loader_of self) b }
    {
        let m = self.counted(self.cells.saturating_add(1), self.spans, b as u32);
        m.onward(NONE, self.start, 0)
    }

    // "200 spans (at the cell that passes it)": the limit is the loader's.
    fn cell_byte(self, b: u8, index: &mut [u32], count: &mut [u8]) -> Loader
        ensures { (area con : List ℕ) → loading result index.new count.new area con
            ≡ cell_byte (loading self index.old count.old area con) b }
    {
        if (self.most_spans as usize) < self.spans as usize + b as usize {
            return self.refusing(Refusal::TooLarge, self.start);
        }
        put(index, self.cells as usize, self.spans);
        put(count, self.cells as usize, b);
        self.cell_on(b)
    }

    fn span_on(self) -> Loader
        ensures { loader_of result ≡ span_on (loader_of self) }
    {
        if self.got < 4 {
            return self.onward(SPAN, self.start, self.got + 1);
        }
        let m = self.counted(
            self.cells,
            self.spans.saturating_add(1),
            self.due.saturating_sub(1),
        );
        m.onward(NONE, self.start, 0)
    }

    // The span's area, or one of its connections.
    fn span_byte(self, b: u8, area: &mut [u8], con: &mut [u8]) -> Loader
        ensures { (index count : List ℕ) → loading result index count area.new con.new
            ≡ span_byte (loading self index count area.old con.old) b }
    {
        if self.got == 0 {
            put(area, self.spans as usize, b);
        } else {
            put(con, 4 * self.spans as usize + (self.got as usize - 1), b);
        }
        self.span_on()
    }

    // A byte, by the record under way. The four lists come one by one, as the public calls lend them: a struct of them would only be taken apart here.
    fn taken(
        self,
        b: u8,
        index: &mut [u32],
        count: &mut [u8],
        area: &mut [u8],
        con: &mut [u8],
    ) -> Loader
        ensures { loading result index.new count.new area.new con.new
            ≡ taken (loading self index.old count.old area.old con.old) b }
    {
        match self.kind {
            NONE => self.kind_byte(b),
            HEADER => self.header_byte(b),
            CELL => self.cell_byte(b, index, count),
            SPAN => self.span_byte(b, area, con),
            _ => self.refusing(Refusal::Malformed, self.received),
        }
    }

    // "After a refusal or a declared end every further call .. changes nothing."
    fn byte_in(
        self,
        b: u8,
        index: &mut [u32],
        count: &mut [u8],
        area: &mut [u8],
        con: &mut [u8],
    ) -> Loader
        ensures { loading result index.new count.new area.new con.new
            ≡ byte_in (loading self index.old count.old area.old con.old) b }
    {
        if self.is_going() {
            self.taken(b, index, count, area, con)
        } else {
            self
        }
    }

    // The end, of a loader that is going: it has read the end record, or the file is cut short.
    pub(crate) fn ended(self) -> Loader
        ensures { loader_of result ≡ ended_by (loader_of self) }
    {
        if self.kind == END {
            Loader { ended: 1, ..self }
        } else {
            self.refusing(Refusal::Malformed, self.received)
        }
    }
}

// A piece, whatever the lists' lengths.
pub fn feed(
    l: Loader,
    piece: &[u8],
    index: &mut [u32],
    count: &mut [u8],
    area: &mut [u8],
    con: &mut [u8],
) -> Loader
    ensures { loading result index.new count.new area.new con.new
        ≡ feed piece.now (loading l index.old count.old area.old con.old) }
{
    let mut m = l;
    for &b in piece {
        m = m.byte_in(b, index, count, area, con);
    }
    m
}
