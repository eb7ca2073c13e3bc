// The calls with the loader's numbers in a lent list, as C has them: they are more than every machine passes by value in the same way.
ghost use Rattle.std.specs.Prelude.{◌≡◌, ◌+◌, ◌<◌, length, set};
ghost use Rattle.rules.specs.Load.{load_begin};
ghost use Rattle.load.specs.Numbers.{loader_of};
ghost use Rattle.load.specs.Into.{numbers_of, loader_in, position_of, Given, GivenPiece, begin_outcome, piece_outcome, end_outcome};
ghost use Rattle.load.specs.Calls.{AllBytes, Limits};

use crate::{Loader, TooShort, load_begin, load_end, load_piece};

// What a call gives: 0 or the number of the refusal, and its position, 0 where there is none.
#[repr(C)]
#[derive(Clone, Copy)]
pub struct LoadAnswer {
    pub refusal: u32,
    pub position: u32,
}

// How many numbers a loader has.
const NUMBERS: usize = 17;

// The call itself is refused: a list is too short, or the loader's is not of 17 numbers.
const WRONG_LENGTH: LoadAnswer = LoadAnswer {
    refusal: 3,
    position: 0,
};

// By their places, as C has them: a conversion from an array would ask a copy of the list first.
fn read(numbers: &[u32]) -> Loader
    requires { length numbers.now ≡ 17 }
    ensures { loader_of result ≡ loader_in numbers.now }
{
    Loader {
        most_cells: numbers[0],
        most_spans: numbers[1],
        kind: numbers[2],
        got: numbers[3],
        start: numbers[4],
        received: numbers[5],
        w: numbers[6],
        h: numbers[7],
        border: numbers[8],
        least: numbers[9],
        merge: numbers[10],
        cells: numbers[11],
        spans: numbers[12],
        due: numbers[13],
        refusal: numbers[14],
        position: numbers[15],
        ended: numbers[16],
    }
}

fn write(l: Loader, to: &mut [u32])
    requires { length to.old ≡ 17 }
    ensures { to.new ≡ numbers_of (loader_of l) }
{
    to.copy_from_slice(&[
        l.most_cells,
        l.most_spans,
        l.kind,
        l.got,
        l.start,
        l.received,
        l.w,
        l.h,
        l.border,
        l.least,
        l.merge,
        l.cells,
        l.spans,
        l.due,
        l.refusal,
        l.position,
        l.ended,
    ]);
}

// The loader written, and what it says of its file.
fn put(l: Loader, to: &mut [u32]) -> LoadAnswer
    requires { length to.old ≡ 17 }
    ensures refusal_value { (result.refusal ≡ l.refusal) × (result.position ≡ position_of (loader_of l)) }
    ensures to_after { to.new ≡ numbers_of (loader_of l) }
{
    write(l, to);
    LoadAnswer {
        refusal: l.refusal,
        position: if l.refusal == 0 { 0 } else { l.position },
    }
}

// As `load_begin`.
pub fn load_begin_into(most_cells: u32, most_spans: u32, loader: &mut [u32]) -> LoadAnswer
    ensures given { Given (begin_outcome most_cells most_spans loader.old) result loader.new }
    ensures limits { Limits most_cells most_spans }
{
    if loader.len() != NUMBERS {
        return WRONG_LENGTH;
    }
    put(load_begin(most_cells, most_spans), loader)
}

// As `load_piece`.
pub fn load_piece_into(
    piece: &[u8],
    index: &mut [u32],
    count: &mut [u8],
    area: &mut [u8],
    con: &mut [u8],
    loader: &mut [u32],
) -> LoadAnswer
    ensures fact { let o = piece_outcome piece.now loader.old index.old count.old
        area.old con.old in
        GivenPiece o result loader.new index.new count.new area.new con.new }
    ensures bytes { AllBytes piece.now }
{
    if loader.len() != NUMBERS {
        return WRONG_LENGTH;
    }
    match load_piece(read(loader), piece, index, count, area, con) {
        Ok(l) => put(l, loader),
        Err(TooShort) => WRONG_LENGTH,
    }
}

// As `load_end`.
pub fn load_end_into(loader: &mut [u32]) -> LoadAnswer
    ensures { Given (end_outcome loader.old) result loader.new }
{
    if loader.len() != NUMBERS {
        return WRONG_LENGTH;
    }
    put(load_end(read(loader)), loader)
}
