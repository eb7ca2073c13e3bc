// The flood over its stack.
ghost use Rattle.std.specs.Prelude.{◌≡◌, [], ◌+◌, ◌-◌, ◌<◌, ◌≤◌, length, get_or, set, drop};
ghost use Rattle.rules.specs.Base.{upto};
ghost use Rattle.rules.specs.Growth.{pushed, visit, flood};
ghost use Rattle.rules.specs.Reasons.{visit_tells, flood_tells};
ghost use Rattle.space.specs.Space.{tally};
ghost use Rattle.net.specs.Table.{net_at, Lent, AtSpan};
ghost use Rattle.flood.specs.Looks.{seed_of};
ghost use Rattle.flood.specs.Stack.{marks_at, flow_at, Placed, Flooding, Blank, Kept, Pushed, Begins};
ghost use Rattle.flood.specs.Stories.{story_of};

use crate::look::{Seed, objects};
use crate::story::{Story, give_back};
use field::place::{NO_LAYER, SpanIx, connections};
use net::{Sections, neighbour};
use std::mem;

// The stack's height, and how many spans count.
#[derive(Clone, Copy)]
pub struct Height {
    pub top: usize,
    pub count: usize,
}

// The neighbour in direction d, of a span that has the connections cons, gets the id and is pushed, if it has the area and id 0 and is deep enough.
fn push_one(
    area: &[u8],
    dist: &[u16],
    ids: &mut [u16],
    ws: &mut [u16],
    at: Sections,
    cons: [u8; 4],
    span: SpanIx,
    d: usize,
    seed: Seed,
    height: Height,
) -> Height
    requires at_span { AtSpan at.table area.now ws.old cons span.0 × Placed (length area.now) at dist.now ids.old }
    requires d_bound { (d < 4) × (0 < seed.id) × (seed.area < 256) × (height.top ≤ tally seed.id ids.old) }
    ensures result_after { let n = length area.now in
        let net = net_at at.table area.now ws.old in
        let before = flow_at n at.stack ids.old ws.old height in
        flow_at n at.stack ids.new ws.new result ≡ pushed net dist.now (seed_of seed) span.0 d before }
    ensures fact { let n = length area.now in
        Pushed n at.stack seed.id height.top ws.old result.top ids.new ws.new }
{
    if cons[d] == NO_LAYER {
        return height;
    }
    let t = neighbour(ws, at.table, span, d).0;
    if area[t] != seed.area || ids[t] != 0 || dist[t] < seed.limit {
        return height;
    }
    ids[t] = seed.id;
    ws[t] = 0;
    ws[at.stack + height.top] = t as u16;
    Height {
        top: height.top + 1,
        ..height
    }
}

// All four neighbours, in direction order.
fn push_all(
    area: &[u8],
    dist: &[u16],
    ids: &mut [u16],
    ws: &mut [u16],
    at: Sections,
    cons: [u8; 4],
    span: SpanIx,
    seed: Seed,
    height: Height,
) -> Height
    requires at_span { AtSpan at.table area.now ws.old cons span.0 × Placed (length area.now) at dist.now ids.old }
    requires id_nonzero { (0 < seed.id) × (seed.area < 256) × (height.top ≤ tally seed.id ids.old) }
    ensures result_after { let n = length area.now in
        let net = net_at at.table area.now ws.old in
        let before = flow_at n at.stack ids.old ws.old height in
        flow_at n at.stack ids.new ws.new result ≡ upto 4 (pushed net dist.now (seed_of seed) span.0) before }
    ensures fact { let n = length area.now in
        Pushed n at.stack seed.id height.top ws.old result.top ids.new ws.new }
{
    let mut h = height;
    for d in 0..4 {
        h = push_one(area, dist, ids, ws, at, cons, span, d, seed, h);
    }
    h
}

// Entry i of the workspace, which is zeroed.
fn pop(ws: &mut [u16], i: usize) -> usize
    requires { i < length ws.old }
    ensures { (result ≡ get_or ws.old i 0) × (ws.new ≡ set ws.old i 0) }
{
    mem::take(&mut ws[i]) as usize
}

// The stack after a visit, and the story of the watched span.
#[derive(Clone, Copy)]
pub struct Visited {
    pub height: Height,
    pub story: Story,
}

// Pops a span and visits it; its place on the stack is zeroed. Tells what it did to the watched span.
fn visit(
    area: &[u8],
    con: &[u8],
    dist: &[u16],
    ids: &mut [u16],
    ws: &mut [u16],
    at: Sections,
    seed: Seed,
    height: Height,
    story: Story,
) -> Visited
    requires lent { Lent at.table area.now con.now ws.old × Placed (length area.now) at dist.now ids.old }
    requires flooding { Flooding (length area.now) at.stack seed.id ids.old ws.old height × (0 < height.top) }
    requires id_nonzero { (0 < seed.id) × (seed.area < 256) }
    ensures height_after { let n = length area.now in
        let net = net_at at.table area.now ws.old in
        let popped = get_or ws.old (at.stack + (height.top - 1)) 0 in
        let rest = flow_at n at.stack ids.old ws.old (record { top = height.top - 1; count = height.count }) in
        flow_at n at.stack ids.new ws.new result.height ≡ visit net dist.now (seed_of seed) popped rest }
    ensures fact { let n = length area.now in
        Kept n at.stack ws.old ws.new × Blank n at.stack result.height.top ws.new }
    ensures story_value { let net = net_at at.table area.now ws.old in
        let marks = marks_at (length area.now) ids.old ws.old in
        let popped = get_or ws.old (at.stack + (height.top - 1)) 0 in
        story_of result.story ≡ visit_tells net marks (seed_of seed) popped (story_of story) }
{
    let top = height.top - 1;
    let s = pop(ws, at.stack + top);
    let cons = connections(con, SpanIx(s));
    if objects(area, ids, ws, at.table, cons, SpanIx(s), seed) {
        let told = give_back(area, ids, ws, at.table, cons, SpanIx(s), seed, story);
        ids[s] = 0;
        return Visited {
            height: Height { top, ..height },
            story: told,
        };
    }
    let counted = Height {
        top,
        count: height.count + 1,
    };
    Visited {
        height: push_all(area, dist, ids, ws, at, cons, SpanIx(s), seed, counted),
        story,
    }
}

// How many spans count, and the story of the watched span.
#[derive(Clone, Copy)]
pub struct Flooded {
    pub count: usize,
    pub story: Story,
}

// Floods from a span with the id. Gives how many spans count, and what it did to the watched span.
pub fn flood_region(
    area: &[u8],
    con: &[u8],
    dist: &[u16],
    ids: &mut [u16],
    ws: &mut [u16],
    at: Sections,
    from: SpanIx,
    level: u16,
    id: u16,
    story: Story,
) -> Flooded
    requires lent { Lent at.table area.now con.now ws.old × Placed (length area.now) at dist.now ids.old }
    requires begins { Begins id from.0 ids.old × Blank (length area.now) at.stack 0 ws.old }
    ensures count_after { let n = length area.now in
        let net = net_at at.table area.now ws.old in
        record { todo = []; marks = marks_at n ids.new ws.new; count = result.count }
        ≡ flood net dist.now level id (marks_at n ids.old ws.old) from.0 }
    ensures fact { let n = length area.now in
        (drop n ws.new ≡ drop n ws.old) × (tally id ids.new ≡ result.count) }
    ensures story_value { let net = net_at at.table area.now ws.old in
        let before = marks_at (length area.now) ids.old ws.old in
        story_of result.story ≡ flood_tells net dist.now level id before from.0 (story_of story) }
{
    let s = from.0;
    let stack = at.stack;
    let seed = Seed {
        area: area[s],
        id,
        limit: level.saturating_sub(2),
    };
    ids[s] = id;
    ws[s] = 0;
    ws[stack] = s as u16;
    let mut height = Height { top: 1, count: 0 };
    let mut told = story;
    // A stack that each visit changes: no range fits.
    while 0 < height.top {
        let v = visit(area, con, dist, ids, ws, at, seed, height, told);
        height = v.height;
        told = v.story;
    }
    Flooded {
        count: height.count,
        story: told,
    }
}
