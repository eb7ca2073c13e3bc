// Reads a field file from standard input and tells why a span of it has its room, or none. The three arguments are the span's column, row and layer.
// A line has a word and its numbers; spans are told by column, row and layer. Or `refused` and the number; or `no_cell` with the field's width and
// height, or `no_layer` with the number of the cell's layers.
// On standard error it tells where a file is refused 20 or 21: `position` and the place, counted from 0.
// The first 4,096 bytes are enough: `first_bytes_decide` and `first_bytes_place` (crates/file/proofs/FirstBytes.antt).

#![tactic(auto)]

mod place;
mod print;
mod whole;

ghost use Rattle.std.specs.Prelude.{◌≤◌};

use crate::place::Asked;
use crate::whole::tell_file;
use console::{arg, arg_count, buffer, fail, number, read_first};
use file::read::place;
use std::io::{Read, Result};
use std::rt::Env;

// A read that fails is told.
fn tell_input(
    rt: &(impl Print + Eprint + Alloc),
    from: &mut impl Read,
    asked: Asked,
) -> Result<()> {
    let mut bytes = buffer();
    match read_first(from, &mut bytes) {
        Ok(n) => {
            tell_file(rt, &bytes[..n], asked)?;
            match place(&bytes[..n]) {
                Some(p) => eprintln!(rt; "position {p}"),
                None => Ok(()),
            }
        }
        Err(e) => fail(rt, "standard input", &e),
    }
}

// Argument k as a number of at most five places.
fn argument(rt: &impl Env, k: usize) -> Option<u32> {
    let mut text = buffer();
    let n = arg(rt, k, &mut text).ok()?;
    number(&text[..n], 99999)
}

fn main(rt: HostRuntime) -> Result<()> {
    if arg_count(&rt, 5) != 4 {
        return eprintln!(rt; "usage: asking X Z LAYER <FILE");
    }
    let asked = Asked {
        x: argument(&rt, 1),
        z: argument(&rt, 2),
        layer: argument(&rt, 3),
    };
    tell_input(&rt, &mut rt.stdin(), asked)
}
