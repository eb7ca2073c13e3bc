// Loading in pieces: the loader's numbers are in a lent list, since they are more than every machine passes by value in the same way.
ghost use Rattle.load.specs.Into.{Given, GivenPiece, begin_outcome, piece_outcome, end_outcome};
ghost use Rattle.load.specs.Calls.{AllBytes, Limits};

use load::into::{LoadAnswer, load_begin_into, load_end_into, load_piece_into};

#[unsafe(no_mangle)]
pub extern "C" fn gussetraft_load_begin_into(
    most_cells: u32,
    most_spans: u32,
    loader: &mut [u32],
) -> LoadAnswer
    ensures given { Given (begin_outcome most_cells most_spans loader.old) result loader.new }
    ensures limits { Limits most_cells most_spans }
{
    load_begin_into(most_cells, most_spans, loader)
}

#[unsafe(no_mangle)]
pub extern "C" fn gussetraft_load_piece_into(
    piece: &[u8],
    index: &mut [u32],
    count: &mut [u8],
    area: &mut [u8],
    con: &mut [u8],
    loader: &mut [u32],
) -> LoadAnswer
    ensures fact { let o = piece_outcome piece.now loader.old index.old count.old
        area.old con.old in
        GivenPiece o result loader.new index.new count.new area.new con.new }
    ensures bytes { AllBytes piece.now }
{
    load_piece_into(piece, index, count, area, con, loader)
}

#[unsafe(no_mangle)]
pub extern "C" fn gussetraft_load_end_into(loader: &mut [u32]) -> LoadAnswer
    ensures { Given (end_outcome loader.old) result loader.new }
{
    load_end_into(loader)
}
