// A record as a line of a table. The values are exact: metres have six places, square metres twelve.
use sizes::metres::Room;
use std::io::Result;
use std::num::{nearest_u64_to_f64, saturating_f64_to_u64};

// The parts of a metre and of a square metre that are printed.
const PARTS: f64 = 1000000.0;

const SQUARE_PARTS: f64 = 1000000000000.0;

// The whole part, and the rest as so many parts.
fn split(x: f64, parts: f64) -> (u64, u64) {
    let whole = saturating_f64_to_u64(x);
    let rest = (x - nearest_u64_to_f64(whole)) * parts;
    (whole, saturating_f64_to_u64(rest))
}

fn print_metres(rt: &impl Print, x: f64) -> Result<()> {
    let (whole, rest) = split(x, PARTS);
    print!(rt; " {whole}.{rest:06}")
}

fn print_square_metres(rt: &impl Print, x: f64) -> Result<()> {
    let (whole, rest) = split(x, SQUARE_PARTS);
    print!(rt; " {whole}.{rest:012}")
}

pub(crate) fn print_room(rt: &impl Print, id: u16, m: Room) -> Result<()> {
    let Room { size, area, count } = m;
    print!(rt; "{id} {area} {count}")?;
    print_square_metres(rt, size.floor)?;
    for edge in [size.x_least, size.x_past, size.z_least, size.z_past] {
        print_metres(rt, edge)?;
    }
    println!(rt; "")
}
