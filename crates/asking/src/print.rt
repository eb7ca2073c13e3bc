// What was told of a span, a word and its numbers a line.
use crate::place::spot_of;
use field::lent::Heightfield;
use std::io::Result;
use watershed::Explanation;

// The reason that has a span whose id was taken.
const EXPANDED: u16 = 6;

pub(crate) fn print_number(rt: &impl Print, word: &str, v: u16) -> Result<()> {
    println!(rt; "{word} {v}")
}

pub(crate) fn print_two(rt: &impl Print, word: &str, a: usize, b: usize) -> Result<()> {
    println!(rt; "{word} {a} {b}")
}

// Column, row and layer of a span.
fn print_spot(rt: &impl Print, word: &str, field: &Heightfield, s: u16) -> Result<()> {
    let at = spot_of(field.count, s as usize);
    if field.w == 0 {
        return Ok(());
    }
    let x = at.cell % field.w;
    let z = at.cell / field.w;
    let layer = at.layer;
    println!(rt; "{word} {x} {z} {layer}")
}

// The first so many numbers of the list.
fn print_trail(rt: &impl Print, trail: &[u16], long: u16) -> Result<()> {
    print!(rt; "trail")?;
    for id in trail.iter().take(long as usize) {
        print!(rt; " {id}")?;
    }
    println!(rt; "")
}

// The numbers that each reason has or lacks: where it lacks them they are 0.
fn print_reason(rt: &impl Print, e: Explanation, trail: &[u16]) -> Result<()> {
    print_number(rt, "reason", e.reason)?;
    print_number(rt, "strip", e.strip)?;
    print_number(rt, "group_count", e.group_count)?;
    print_number(rt, "least_area", e.least_area)?;
    print_number(rt, "grown_id", e.grown_id)?;
    print_trail(rt, trail, e.trail_length)?;
    print_number(rt, "number", e.number)?;
    print_number(rt, "gave_back_id", e.gave_back_id)
}

pub(crate) fn print_told(
    rt: &impl Print,
    field: &Heightfield,
    e: Explanation,
    trail: &[u16],
) -> Result<()> {
    print_reason(rt, e, trail)?;
    if e.reason == EXPANDED {
        print_spot(rt, "from_span", field, e.from_span)?;
    }
    if e.gave_back_id != 0 {
        print_spot(rt, "objecting_span", field, e.objecting_span)?;
    }
    Ok(())
}
