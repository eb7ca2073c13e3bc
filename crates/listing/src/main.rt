// Reads a field file, standard input or the file that the one argument names, and prints its listing, or `refused` and the number. On standard error it
// tells where a file is refused 20 or 21: `position` and the place, counted from 0.
// The first 4,096 bytes are enough: `first_bytes_decide` and `first_bytes_place` (crates/file/proofs/FirstBytes.antt).

#![tactic(auto)]

use answer::reply;
use console::{arg_count, arg_text, buffer, fail, read_first};
use file::read::place;
use std::fs;
use std::io::{Read, Result};
use std::rt::{Env, Files};

fn print_reply(rt: &impl Print, bytes: &[u8]) -> Result<()> {
    let mut out = [0u8; 4096];
    let n = reply(bytes, &mut out);
    rt.write_all(&out[..n])
}

// A read that fails is told, by name.
fn print_file(rt: &(impl Print + Eprint + Alloc), from: &mut impl Read, name: &str) -> Result<()> {
    let mut bytes = buffer();
    match read_first(from, &mut bytes) {
        Ok(n) => {
            print_reply(rt, &bytes[..n])?;
            match place(&bytes[..n]) {
                Some(p) => eprintln!(rt; "position {p}"),
                None => Ok(()),
            }
        }
        Err(e) => fail(rt, name, &e),
    }
}

fn print_at(rt: &(impl Files + Print + Eprint + Alloc), path: &str) -> Result<()> {
    match fs::open(rt, path) {
        Ok(mut file) => print_file(rt, &mut file, path),
        Err(e) => fail(rt, path, &e),
    }
}

fn print_named(rt: &(impl Env + Files + Print + Eprint + Alloc)) -> Result<()> {
    let mut path = buffer();
    match arg_text(rt, 1, &mut path) {
        Ok(name) => print_at(rt, name),
        Err(e) => fail(rt, "the file's name", &e),
    }
}

fn main(rt: HostRuntime) -> Result<()> {
    match arg_count(&rt, 3) {
        0 | 1 => print_file(&rt, &mut rt.stdin(), "standard input"),
        2 => print_named(&rt),
        _ => eprintln!(rt; "usage: listing [FILE]"),
    }
}
