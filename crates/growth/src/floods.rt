// Rule 4 over the entries of a stack.
ghost use Rattle.std.specs.Prelude.{◌≡◌, ◌+◌, ◌<◌, ◌≤◌, length, drop};
ghost use Rattle.rules.specs.Field.{none};
ghost use Rattle.rules.specs.Reasons.{floods_tell};
ghost use Rattle.space.specs.Space.{sec};
ghost use Rattle.net.specs.Table.{net_at, Lent};
ghost use Rattle.flood.specs.Stack.{marks_at, Placed, Blank};
ghost use Rattle.flood.specs.Stories.{story_of};
ghost use Rattle.growth.specs.Floods.{flood_one, one_tells, IdsBelowNext, FloodedFrom, EntriesAt};

use expand::Stack;
use field::place::{NO_SPAN, SpanIx};
use flood::flow::flood_region;
use flood::story::Story;
use net::Sections;
use region::RegionId;

// The next id, and the story of the watched span.
#[derive(Clone, Copy)]
pub struct Floods {
    pub next: u16,
    pub story: Story,
}

// Floods from an entry, if it is unused and has no id. Gives the next id: only success advances it.
fn flood_one(
    area: &[u8],
    con: &[u8],
    dist: &[u16],
    ids: &mut [u16],
    ws: &mut [u16],
    at: Sections,
    entry: usize,
    level: u16,
    next: u16,
    story: Story,
) -> Floods
    requires lent { Lent at.table area.now con.now ws.old × Placed (length area.now) at dist.now ids.old }
    requires blank { Blank (length area.now) at.stack 0 ws.old × IdsBelowNext (length area.now) next ids.old }
    requires span { (entry ≡ none → ⊥) → entry < length area.now }
    ensures next_after { let n = length area.now in
        let net = net_at at.table area.now ws.old in
        record { marks = marks_at n ids.new ws.new; next = result.next }
        ≡ flood_one net dist.now level entry (marks_at n ids.old ws.old) next }
    ensures fact { let n = length area.now in
        (drop n ws.new ≡ drop n ws.old) × (result.next ≤ 0x8000)
        × (result.next < 0x8000 → IdsBelowNext n result.next ids.new) }
    ensures story_value { let net = net_at at.table area.now ws.old in
        let before = marks_at (length area.now) ids.old ws.old in
        story_of result.story ≡ one_tells net dist.now level entry before next (story_of story) }
{
    if entry == NO_SPAN {
        return Floods { next, story };
    }
    if ids[entry] != RegionId::NONE.0 {
        return Floods { next, story };
    }
    let f = flood_region(
        area,
        con,
        dist,
        ids,
        ws,
        at,
        SpanIx(entry),
        level,
        next,
        story,
    );
    let told = f.story;
    if f.count == 0 {
        return Floods { next, story: told };
    }
    Floods {
        next: next + 1,
        story: told,
    }
}

// Floods from each entry of a stack, in order. Gives the next id, which is the border's flag where ids run out.
pub(crate) fn flood_all(
    area: &[u8],
    con: &[u8],
    dist: &[u16],
    ids: &mut [u16],
    ws: &mut [u16],
    at: Sections,
    stack: Stack,
    level: u16,
    next: u16,
    story: Story,
) -> Floods
    requires lent { Lent at.table area.now con.now ws.old × Placed (length area.now) at dist.now ids.old }
    requires blank { Blank (length area.now) at.stack 0 ws.old × IdsBelowNext (length area.now) next ids.old }
    requires entries_at { EntriesAt (length area.now) stack.at stack.fill ws.old }
    ensures fact { let n = length area.now in
        let net = net_at at.table area.now ws.old in
        let entries = sec stack.at stack.fill ws.old in
        FloodedFrom net dist.now level entries n next ids.old ws.old result.next ids.new ws.new }
    ensures story_value { let net = net_at at.table area.now ws.old in
        let before = marks_at (length area.now) ids.old ws.old in
        let entries = sec stack.at stack.fill ws.old in
        (result.next ≡ 0x8000 → ⊥) → story_of result.story ≡ floods_tell net dist.now level entries before next (story_of story) }
{
    let mut f = Floods { next, story };
    for j in 0..stack.fill {
        let entry = ws[stack.at + j] as usize;
        let told = f.story;
        f = flood_one(area, con, dist, ids, ws, at, entry, level, f.next, told);
        if f.next == RegionId::BORDER_REGION.0 {
            return f;
        }
    }
    f
}
