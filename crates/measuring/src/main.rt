// Reads a field file from standard input and prints a table of its rooms in metres, a line each: id, area code, span count, floor size, and the left,
// right, low and high edge; or `refused` and the number. The one argument is the scale k: a cell's side is k/64 metre.
// On standard error it tells where a file is refused 20 or 21: `position` and the place, counted from 0.
// The first 4,096 bytes are enough: `first_bytes_decide` and `first_bytes_place` (crates/file/proofs/FirstBytes.antt).

#![tactic(auto)]

mod print;
mod whole;

ghost use Rattle.std.specs.Prelude.{◌≤◌};

use crate::whole::print_file;
use console::{arg, arg_count, buffer, fail, number, read_first};
use file::read::place;
use std::io::{Read, Result};
use std::rt::Env;

// A read that fails is told.
fn print_input(rt: &(impl Print + Eprint + Alloc), from: &mut impl Read, k: u16) -> Result<()> {
    let mut bytes = buffer();
    match read_first(from, &mut bytes) {
        Ok(n) => {
            print_file(rt, &bytes[..n], k)?;
            match place(&bytes[..n]) {
                Some(p) => eprintln!(rt; "position {p}"),
                None => Ok(()),
            }
        }
        Err(e) => fail(rt, "standard input", &e),
    }
}

fn main(rt: HostRuntime) -> Result<()> {
    if arg_count(&rt, 3) != 2 {
        return eprintln!(rt; "usage: measuring K <FILE");
    }
    let mut text = buffer();
    match arg(&rt, 1, &mut text) {
        // No scale is 0.
        Ok(n) => print_input(
            &rt,
            &mut rt.stdin(),
            number(&text[..n], 999).unwrap_or(0) as u16,
        ),
        Err(e) => fail(&rt, "the scale", &e),
    }
}
