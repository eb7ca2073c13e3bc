// Stores results, and reads them. Without an argument: reads a field file from standard input and prints its ids as a stored result of runs. With one,
// a span's number: reads a stored result from standard input and prints that span's id. Or `refused` and the number, from either.
// On standard error it tells where a field file is refused 20 or 21: `position` and the place, counted from 0.
// Of a field file the first 4,096 bytes are enough: `first_bytes_decide` and `first_bytes_place` (crates/file/proofs/FirstBytes.antt).

#![tactic(auto)]

mod read;
mod whole;

ghost use Rattle.std.specs.Prelude.{◌≤◌};

use crate::read::{print_id, span};
use crate::whole::print_file;
use console::{arg, arg_count, buffer, fail, read_first};
use file::read::place;
use std::io::{Read, Result};
use std::rt::Env;

// A read that fails is told.
fn store_input(rt: &(impl Print + Eprint + Alloc), from: &mut impl Read) -> Result<()> {
    let mut bytes = buffer();
    match read_first(from, &mut bytes) {
        Ok(n) => {
            print_file(rt, &bytes[..n])?;
            match place(&bytes[..n]) {
                Some(p) => eprintln!(rt; "position {p}"),
                None => Ok(()),
            }
        }
        Err(e) => fail(rt, "standard input", &e),
    }
}

fn read_input(rt: &(impl Env + Print + Eprint + Alloc), from: &mut impl Read) -> Result<()> {
    let mut text = buffer();
    match arg(rt, 1, &mut text) {
        Ok(n) => print_id(rt, from, span(&text[..n])),
        Err(e) => fail(rt, "the span", &e),
    }
}

fn main(rt: HostRuntime) -> Result<()> {
    match arg_count(&rt, 3) {
        1 => store_input(&rt, &mut rt.stdin()),
        2 => read_input(&rt, &mut rt.stdin()),
        _ => eprintln!(rt; "usage: storing <FIELD, or storing SPAN <RESULT"),
    }
}
