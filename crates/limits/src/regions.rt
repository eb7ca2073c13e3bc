// The region entry on the open field of 3 by 3, at the limits that are its own: workspace and distances.
use crate::fields::{CON, COUNT, INDEX, lent_3_by_3};
use crate::show::list;
use checker::Refusal;
use numbering::Regions;
use std::io;
use watershed::build_regions;

// A line for the answer: refused and its number, or max_region, the overlap count and the number of records cut short.
fn answer(rt: &impl Print, r: Result<Regions, Refusal>) -> io::Result<()> {
    match r {
        Ok(
            Regions {
                max_region,
                overlaps,
                cut,
            },
        ) => println!(rt; "max_region {max_region} overlaps {overlaps} cut {cut}"),
        Err(r) => {
            let n = r.number();
            println!(rt; "refused {n}")
        }
    }
}

// A call, its answer, and the two lists after it.
fn call(
    rt: &impl Print,
    dist: &[u16],
    most: u16,
    border: u16,
    least: u16,
    workspace: &mut [u16],
    ids: &mut [u16],
) -> io::Result<()> {
    let field = lent_3_by_3(&INDEX, &COUNT, &[1; 9], &CON);
    let r = build_regions(&field, dist, most, border, least, 0, workspace, ids);
    answer(rt, r)?;
    list(rt, "ids", ids)?;
    list(rt, "workspace", workspace)
}

// A call that is lent the first m numbers of ws.
fn lend(
    rt: &impl Print,
    dist: &[u16],
    most: u16,
    border: u16,
    least: u16,
    ws: &mut [u16],
    m: usize,
    ids: &mut [u16],
) -> io::Result<()> {
    if ws.len() < m {
        return Ok(());
    }
    call(rt, dist, most, border, least, &mut ws[..m], ids)
}

// A call that is lent a workspace of so many 7s, at most 5,300, and nine 7s for the ids.
fn run(
    rt: &impl Print,
    name: &str,
    dist: &[u16],
    most: u16,
    border: u16,
    least: u16,
    work: usize,
) -> io::Result<()> {
    print!(rt; "{name}: ")?;
    let mut ws = [7u16; 5300];
    let mut ids = [7u16; 9];
    lend(rt, dist, most, border, least, &mut ws, work, &mut ids)
}

pub(crate) fn regions(rt: &impl Print) -> io::Result<()> {
    run(rt, "regions", &[0, 0, 0, 0, 2, 0, 0, 0, 0], 2, 0, 0, 5248)?;
    run(rt, "border 1", &[0, 0, 0, 0, 2, 0, 0, 0, 0], 2, 1, 0, 5248)?;
    run(
        rt,
        "least area 9",
        &[0, 0, 0, 0, 2, 0, 0, 0, 0],
        2,
        0,
        9,
        5248,
    )?;
    run(
        rt,
        "least area 10",
        &[0, 0, 0, 0, 2, 0, 0, 0, 0],
        2,
        0,
        10,
        5248,
    )?;
    run(
        rt,
        "workspace longer",
        &[0, 0, 0, 0, 2, 0, 0, 0, 0],
        2,
        0,
        0,
        5300,
    )?;
    run(
        rt,
        "workspace one short",
        &[0, 0, 0, 0, 2, 0, 0, 0, 0],
        2,
        0,
        0,
        5247,
    )
}

pub(crate) fn distances(rt: &impl Print) -> io::Result<()> {
    run(
        rt,
        "max_distance 510",
        &[0, 0, 0, 0, 510, 0, 0, 0, 0],
        510,
        0,
        0,
        5248,
    )?;
    run(
        rt,
        "max_distance 511",
        &[0, 0, 0, 0, 2, 0, 0, 0, 0],
        511,
        0,
        0,
        5248,
    )?;
    run(
        rt,
        "distance above",
        &[0, 0, 0, 0, 3, 0, 0, 0, 0],
        2,
        0,
        0,
        5248,
    )?;
    run(
        rt,
        "7 before 8",
        &[0, 0, 0, 0, 3, 0, 0, 0, 0],
        2,
        0,
        0,
        5247,
    )?;
    run(
        rt,
        "distances short",
        &[0, 0, 0, 0, 3, 0, 0, 0],
        2,
        0,
        0,
        5247,
    )
}
