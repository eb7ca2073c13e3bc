// The loop over turns: flood and expansion rule 2.
ghost use Rattle.std.specs.Prelude.{◌≡◌, [], ◌+◌, ◌*◌, ◌<◌, ◌≤◌, length, get_or};
ghost use Rattle.rules.specs.Refusals.{most_spans};
ghost use Rattle.rules.specs.Reasons.{turns_tell};
ghost use Rattle.net.specs.Table.{net_at};
ghost use Rattle.flood.specs.Stories.{story_of};
ghost use Rattle.growth.specs.Stops.{stop_of, next_of, story_in, turn_next, fills_in, number_in, turn_story};
ghost use Rattle.growth.specs.Turns.{SectionsFor, Left, Loaded, Between, Turned, TurnTold, begun, AllTurns};

use crate::floods::flood_all;
use expand::Stack;
use expand::expand::expand_regions;
use flood::story::Story;
use levels::{LevelStacks, append_stacks, sort_cells_by_level};
use net::Sections;
use region::RegionId;

// The stacks of the turn after l's: at turn number 0 all is sorted anew; at another, what remains of the stack before is appended to this turn's.
fn load(
    area: &[u8],
    dist: &[u16],
    ids: &[u16],
    ws: &mut [u16],
    at: Sections,
    l: LevelStacks,
    level: u16,
) -> LevelStacks
    requires area_len_bound { (length area.now ≤ most_spans) × (length dist.now ≡ length area.now) × (length ids.now ≡ length area.now) }
    requires sections_for { SectionsFor (length area.now) at × (at.table ≤ length ws.old) × (l.turn < 8)
        × Left (length area.now) l.fills l.turn ws.old }
    ensures { let fills = l.fills in let j = l.turn in
        Loaded area.now dist.now ids.now level fills j ws.old result.fills result.turn ws.new }
{
    let n = area.len();
    let end = at.changes;
    let j = (l.turn + 1) % 8;
    if j == 0 {
        return sort_cells_by_level(area, dist, ids, &mut ws[n..end], level);
    }
    append_stacks(ids, &mut ws[n..end], l, j)
}

// The stack of l's turn, with n places for each of the eight from n on.
fn turn_stack(n: usize, l: LevelStacks) -> Stack
    requires { (n ≤ most_spans) × (l.turn < 8) × (length l.fills ≡ 8) }
    ensures { (result.at ≡ n + l.turn * n) × (result.fill ≡ get_or l.fills l.turn 0) }
{
    let t = l.turn;
    Stack {
        at: n + t * n,
        fill: l.fills[t] as usize,
    }
}

// What growth comes to: the next id, and the story of the watched span.
#[derive(Clone, Copy)]
pub struct Growth {
    pub next: u16,
    pub story: Story,
}

// What stops it.
#[derive(Clone, Copy)]
pub enum Stop {
    // A successful flood would make the next id a flagged one.
    NoIds,
    // A sum that expansion computes would exceed what a source distance can be.
    NoSum,
}

// The stacks after a turn, the next id, and the story of the watched span.
#[derive(Clone, Copy)]
pub struct TurnResult {
    pub stacks: LevelStacks,
    pub next: u16,
    pub story: Story,
}

// One turn at a level: rules 2 to 4.
fn turn(
    area: &[u8],
    con: &[u8],
    dist: &[u16],
    ids: &mut [u16],
    ws: &mut [u16],
    at: Sections,
    l: LevelStacks,
    level: u16,
    next: u16,
    story: Story,
) -> Result<TurnResult, Stop>
    requires { Between area.now con.now at next l.fills l.turn ids.old ws.old × (length dist.now ≡ length area.now) }
    ensures fact { let ids₀ = ids.old in let ws₀ = ws.old in
        Turned area.now con.now dist.now at next l.fills l.turn level ids₀ ws₀
        (turn_next result) (stop_of result) (fills_in result) (number_in result) ids.new ws.new }
    ensures fact_2 { let ids₀ = ids.old in let ws₀ = ws.old in
        TurnTold area.now dist.now at.table next l.fills l.turn level ids₀ ws₀
        (stop_of result) (story_of story) (turn_story (story_of story) result) }
{
    let stacks = load(area, dist, ids, ws, at, l, level);
    let stack = turn_stack(area.len(), stacks);
    let e = expand_regions(area, ids, ws, at, stack, level, story);
    if e.strays {
        return Err(Stop::NoSum);
    }
    let expanded = e.story;
    let f = flood_all(area, con, dist, ids, ws, at, stack, level, next, expanded);
    if f.next == RegionId::BORDER_REGION.0 {
        return Err(Stop::NoIds);
    }
    let told = f.story;
    Ok(TurnResult {
        stacks,
        next: f.next,
        story: told,
    })
}

// All turns, `count` of them, each two levels below the one before: rule 2.
pub(crate) fn turns(
    area: &[u8],
    con: &[u8],
    dist: &[u16],
    ids: &mut [u16],
    ws: &mut [u16],
    at: Sections,
    count: u16,
    next: u16,
    story: Story,
) -> Result<Growth, Stop>
    requires between { Between area.now con.now at next [] 7 ids.old ws.old × (length dist.now ≡ length area.now) }
    requires count_bound { 2 * count ≤ 65536 }
    ensures fact { let ids₀ = ids.old in let ws₀ = ws.old in
        AllTurns area.now dist.now at.table count next ids₀ ws₀ (next_of result) (stop_of result) ids.new ws.new }
    ensures story_value { let net = net_at at.table area.now ws.old in
        let start = begun (length area.now) ids.old ws.old next in
        stop_of result ≡ 0 → story_in (story_of story) result ≡ turns_tell net dist.now (2 * count) count start (story_of story) }
{
    let mut l = LevelStacks {
        fills: [0; 8],
        turn: 7,
    };
    let mut id = next;
    let mut told = story;
    for left in (0..count).rev() {
        let t = turn(area, con, dist, ids, ws, at, l, 2 * left, id, told)?;
        l = t.stacks;
        id = t.next;
        told = t.story;
    }
    Ok(Growth {
        next: id,
        story: told,
    })
}
