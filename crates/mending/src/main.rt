// Reads a field file from standard input and prints it with its connections mended, or `refused` and the number. On standard error it tells each change
// in a line of five numbers: column, row, layer, direction, old layer; or where a file is refused 20 or 21: `position` and the place, counted from 0.
// The first 4,096 bytes are enough: a file that is not refused is shorter (`first_bytes_decide` and `first_bytes_place` in crates/file/proofs/FirstBytes.antt).

#![tactic(auto)]

mod patch;
mod whole;

ghost use Rattle.std.specs.Prelude.{◌+◌, ◌*◌, ◌≤◌, ◌<◌, length};

use crate::patch::{Spot, spot_of};
use crate::whole::mend_file;
use console::{buffer, fail, read_first};
use file::read::place;
use std::io::Result;

// Change number k.
fn tell_change(rt: &impl Eprint, w: usize, count: &[u8], changes: &[u16], k: usize) -> Result<()>
    requires { (3 * k + 2 < length changes.now) × (length changes.now ≤ 2400) }
{
    let Spot { cell, layer } = spot_of(count, changes[3 * k] as usize);
    if w == 0 {
        return Ok(());
    }
    let x = cell % w;
    let z = cell / w;
    let d = changes[3 * k + 1];
    let old = changes[3 * k + 2];
    eprintln!(rt; "{x} {z} {layer} {d} {old}")
}

// The first `made` of them.
fn tell_changes(
    rt: &impl Eprint,
    w: usize,
    count: &[u8],
    changes: &[u16],
    made: usize,
) -> Result<()>
    requires { (3 * made ≤ length changes.now) × (length changes.now ≤ 2400) }
{
    for k in 0..made {
        tell_change(rt, w, count, changes, k)?;
    }
    Ok(())
}

fn print_mended(rt: &(impl Print + Eprint), bytes: &mut [u8]) -> Result<()> {
    let mut index = [0u32; 1024];
    let mut count = [0u8; 1024];
    let mut area = [0u8; 200];
    let mut con = [0u8; 800];
    let mut changes = [0u16; 2400];
    match mend_file(
        bytes,
        &mut index,
        &mut count,
        &mut area,
        &mut con,
        &mut changes,
    ) {
        Err(r) => {
            println!(rt; "refused {}", r.number())?;
            match place(bytes) {
                Some(p) => eprintln!(rt; "position {p}"),
                None => Ok(()),
            }
        }
        Ok(m) => {
            rt.write_all(bytes)?;
            tell_changes(rt, m.width, &count, &changes, m.changes)
        }
    }
}

// A read that fails is told.
fn main(rt: HostRuntime) -> Result<()> {
    let mut bytes = buffer();
    match read_first(&mut rt.stdin(), &mut bytes) {
        Ok(n) => print_mended(&rt, &mut bytes[..n]),
        Err(e) => fail(&rt, "the field file", &e),
    }
}
