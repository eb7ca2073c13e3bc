// The two entries on sample fields and at their limits. What it prints is held against what the oracle gives for the same calls
// (oracle/oracle/src/bin/limits.rs).

#![tactic(auto)]

mod fields;
mod regions;
mod show;

use fields::{
    AREAS, CON, COUNT, INDEX, LAYERS_AREA, LAYERS_CON, LAYERS_COUNT, LAYERS_INDEX, count_in_twos,
    lent, lent_3_by_3,
};
use regions::{distances, regions};
use show::run;
use std::io::Result;

fn samples(rt: &impl Print) -> Result<()> {
    run(
        rt,
        "open 3 by 3",
        &lent_3_by_3(&INDEX, &COUNT, &[1; 9], &CON),
        9,
        9,
    )?;
    run(
        rt,
        "area 0",
        &lent_3_by_3(&INDEX, &COUNT, &[0; 9], &CON),
        9,
        9,
    )?;
    run(
        rt,
        "two areas",
        &lent_3_by_3(&INDEX, &COUNT, &AREAS, &CON),
        9,
        9,
    )?;
    run(rt, "no cells", &lent(0, 0, &[], &[], &[], &[]), 0, 0)?;
    run(
        rt,
        "layers",
        &lent(
            4,
            3,
            &LAYERS_INDEX,
            &LAYERS_COUNT,
            &LAYERS_AREA,
            &LAYERS_CON,
        ),
        20,
        20,
    )
}

// Refusal 1: empty cells, 256 and 257 wide, and high.
fn sides(rt: &impl Print) -> Result<()> {
    run(
        rt,
        "w 256",
        &lent(256, 1, &[0; 256], &[0; 256], &[], &[]),
        0,
        0,
    )?;
    run(
        rt,
        "w 257",
        &lent(257, 1, &[0; 257], &[0; 257], &[], &[]),
        0,
        0,
    )?;
    run(
        rt,
        "h 256",
        &lent(1, 256, &[0; 256], &[0; 256], &[], &[]),
        0,
        0,
    )?;
    run(
        rt,
        "h 257",
        &lent(1, 257, &[0; 257], &[0; 257], &[], &[]),
        0,
        0,
    )
}

// Refusal 2: 250 by 130 cells of two spans each.
fn spans(rt: &impl Print) -> Result<()> {
    let mut index = [0u32; 32500];
    count_in_twos(&mut index);
    run(
        rt,
        "n 65,000",
        &lent(250, 130, &index, &[2; 32500], &[1; 65000], &[255; 260000]),
        65000,
        65000,
    )?;
    run(
        rt,
        "n 65,001",
        &lent(250, 130, &index, &[2; 32500], &[1; 65001], &[255; 260004]),
        65001,
        65001,
    )
}

// Refusal 3: each list one short and one long.
fn short_lists(rt: &impl Print) -> Result<()> {
    let index = INDEX;
    let count = COUNT;
    let con = CON;
    run(
        rt,
        "index short",
        &lent_3_by_3(&index[..8], &COUNT, &[1; 9], &CON),
        9,
        9,
    )?;
    run(
        rt,
        "count short",
        &lent_3_by_3(&INDEX, &count[..8], &[1; 9], &CON),
        9,
        9,
    )?;
    run(
        rt,
        "con short",
        &lent_3_by_3(&INDEX, &COUNT, &[1; 9], &con[..35]),
        9,
        9,
    )?;
    run(
        rt,
        "raw short",
        &lent_3_by_3(&INDEX, &COUNT, &[1; 9], &CON),
        8,
        9,
    )?;
    run(
        rt,
        "blurred short",
        &lent_3_by_3(&INDEX, &COUNT, &[1; 9], &CON),
        9,
        8,
    )
}

fn long_lists(rt: &impl Print) -> Result<()> {
    run(
        rt,
        "index long",
        &lent_3_by_3(&[0; 10], &COUNT, &[1; 9], &CON),
        9,
        9,
    )?;
    run(
        rt,
        "count long",
        &lent_3_by_3(&INDEX, &[1; 10], &[1; 9], &CON),
        9,
        9,
    )?;
    run(
        rt,
        "con long",
        &lent_3_by_3(&INDEX, &COUNT, &[1; 9], &[255; 37]),
        9,
        9,
    )?;
    run(
        rt,
        "raw long",
        &lent_3_by_3(&INDEX, &COUNT, &[1; 9], &CON),
        10,
        9,
    )?;
    run(
        rt,
        "blurred long",
        &lent_3_by_3(&INDEX, &COUNT, &[1; 9], &CON),
        9,
        10,
    )
}

// Refusal 4: a cell of 63 and of 64 spans, an index off by one, counts that sum to one more.
fn cells(rt: &impl Print) -> Result<()> {
    run(
        rt,
        "count 63",
        &lent(1, 1, &[0], &[63], &[1; 63], &[255; 252]),
        63,
        63,
    )?;
    run(
        rt,
        "count 64",
        &lent(1, 1, &[0], &[64], &[1; 64], &[255; 256]),
        64,
        64,
    )?;
    let mut index = INDEX;
    index[4] = 5;
    run(
        rt,
        "index off by one",
        &lent_3_by_3(&index, &COUNT, &[1; 9], &CON),
        9,
        9,
    )?;
    let mut count = COUNT;
    count[8] = 2;
    run(
        rt,
        "counts sum to 10",
        &lent_3_by_3(&INDEX, &count, &[1; 9], &CON),
        9,
        9,
    )
}

// Refusals 5 and 6: off the grid, to a layer that is not there, not answered.
fn connections(rt: &impl Print) -> Result<()> {
    let mut off = CON;
    off[0] = 0;
    run(
        rt,
        "off the grid",
        &lent_3_by_3(&INDEX, &COUNT, &[1; 9], &off),
        9,
        9,
    )?;
    let mut missing = CON;
    missing[2] = 1;
    run(
        rt,
        "missing layer",
        &lent_3_by_3(&INDEX, &COUNT, &[1; 9], &missing),
        9,
        9,
    )?;
    let mut one_way = CON;
    one_way[2] = 255;
    run(
        rt,
        "one way",
        &lent_3_by_3(&INDEX, &COUNT, &[1; 9], &one_way),
        9,
        9,
    )
}

fn main(rt: HostRuntime) -> Result<()> {
    samples(&rt)?;
    sides(&rt)?;
    spans(&rt)?;
    short_lists(&rt)?;
    long_lists(&rt)?;
    cells(&rt)?;
    connections(&rt)?;
    regions(&rt)?;
    distances(&rt)
}
