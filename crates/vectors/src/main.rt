// Reads field files one after the other from standard input, each after its length (4 bytes, little-endian, at most 4,096), and prints what is
// printed for each. Its `stdin` and `stdout` are the stored vectors with the oracle's answers.

#![tactic(auto)]

use answer::reply;
use console::read_full;
use std::io::{Read, Result};

fn print_reply(rt: &impl Print, bytes: &[u8]) -> Result<()> {
    let mut out = [0u8; 4096];
    let n = reply(bytes, &mut out);
    rt.write_all(&out[..n])
}

// The next file, as long as bytes. Gives whether it was there.
fn print_next(rt: &(impl Print + Eprint), from: &mut impl Read, bytes: &mut [u8]) -> Result<bool> {
    let got = read_full(from, bytes)?;
    if got != bytes.len() {
        eprintln!(rt; "vectors: cut short")?;
        return Ok(false);
    }
    print_reply(rt, bytes)?;
    Ok(true)
}

fn replay_next(rt: &(impl Print + Eprint), from: &mut impl Read, n: usize) -> Result<bool> {
    let mut bytes = [0u8; 4096];
    if bytes.len() < n {
        eprintln!(rt; "vectors: a file of more than 4,096 bytes")?;
        return Ok(false);
    }
    print_next(rt, from, &mut bytes[..n])
}

fn replay_one(rt: &(impl Print + Eprint), from: &mut impl Read) -> Result<bool> {
    let mut head = [0u8; 4];
    let got = read_full(from, &mut head)?;
    if got == 0 {
        return Ok(false);
    }
    if got != 4 {
        eprintln!(rt; "vectors: cut short")?;
        return Ok(false);
    }
    replay_next(rt, from, u32::from_le_bytes(head) as usize)
}

// A proved loop has to end, and nothing says that the input does: so its turns are counted down, from a number that no run uses up.
fn replay_all(rt: &(impl Print + Eprint), from: &mut impl Read) -> Result<()> {
    let mut turns = u64::MAX;
    while turns > 0 && replay_one(rt, from)? {
        turns -= 1;
    }
    Ok(())
}

fn main(rt: HostRuntime) -> Result<()> {
    replay_all(&rt, &mut rt.stdin())
}
