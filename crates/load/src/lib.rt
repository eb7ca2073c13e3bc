// Loading a field file in pieces (document 02, A2): a loader is handed from call to call, beside the lent lists of the field.

#![tactic(auto)]

pub mod bytes;
pub mod into;

ghost use Rattle.std.specs.Prelude.{◌≡◌};
ghost use Rattle.rules.specs.Load.{going, roomy, load_begin, load_end, load_piece, piece_refusal};
ghost use Rattle.load.specs.Numbers.{loader_of, loading, piece_refused_by, loader_after};

use crate::bytes::feed;

// The numbers of a loader: the limits of refusal 21; the kind of the record under way (0: none), the bytes of its body so far and the place of its kind
// byte; the bytes received; the header's numbers; the cells and spans so far and the spans of the last cell that are still to come; the refusal and its
// position; and whether the end was declared. All are numbers, kind and end too: a caller in C hands in any (`load::into`), and each is promised to stay.
#[derive(Clone, Copy, Default)]
pub struct Loader {
    pub most_cells: u32,
    pub most_spans: u32,
    pub kind: u32,
    pub got: u32,
    pub start: u32,
    pub received: u32,
    pub w: u32,
    pub h: u32,
    pub border: u32,
    pub least: u32,
    pub merge: u32,
    pub cells: u32,
    pub spans: u32,
    pub due: u32,
    pub refusal: u32,
    pub position: u32,
    pub ended: u32,
}

// A lent list is too short for a field within the loader's limits; nothing changed.
#[derive(Clone, Copy, PartialEq, Eq)]
pub struct TooShort;

// A loader before the first byte, for a field of at most so many cells and spans.
pub fn load_begin(most_cells: u32, most_spans: u32) -> Loader
    ensures { loader_of result ≡ load_begin most_cells most_spans }
{
    Loader {
        most_cells,
        most_spans,
        ..Loader::default()
    }
}

impl Loader {
    // Neither refused nor ended.
    pub fn is_going(self) -> bool
        ensures { result ≡ going (loader_of self) }
    {
        self.refusal == 0 && self.ended == 0
    }

    // Lists that take a field within the limits.
    fn is_roomy(self, index: &[u32], count: &[u8], area: &[u8], con: &[u8]) -> bool
        ensures { result ≡ roomy (loading self index.now count.now area.now con.now) }
    {
        let cells = self.most_cells as usize;
        let spans = self.most_spans as usize;
        cells <= index.len()
            && cells <= count.len()
            && spans <= area.len()
            && 4 * spans <= con.len()
    }
}

// The next piece of the file. The call itself is refused where a list is too short and the loader is going; another refusal is the file's, and the loader's.
pub fn load_piece(
    l: Loader,
    piece: &[u8],
    index: &mut [u32],
    count: &mut [u8],
    area: &mut [u8],
    con: &mut [u8],
) -> Result<Loader, TooShort>
    ensures { let x = loading l index.old count.old area.old con.old in
        let x' = loading (loader_after l result) index.new count.new area.new con.new in
        (piece_refused_by result ≡ piece_refusal x) × (x' ≡ load_piece piece.now x) }
{
    if l.is_going() && !l.is_roomy(index, count, area, con) {
        return Err(TooShort);
    }
    Ok(feed(l, piece, index, count, area, con))
}

// The end of the file.
pub fn load_end(l: Loader) -> Loader
    ensures { loader_of result ≡ load_end (loader_of l) }
{
    if l.is_going() { l.ended() } else { l }
}
