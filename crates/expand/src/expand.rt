// The expansion of a stack at a level, and of all that is left at the end.
ghost use Rattle.std.specs.Prelude.{◌≡◌, ◌+◌, ◌*◌, ◌<◌, ◌≤◌, length, drop};
ghost use Rattle.rules.specs.Growth.{expand, expand_strays, blank};
ghost use Rattle.rules.specs.Reasons.{expand_tells};
ghost use Rattle.rules.specs.Refusals.{most_spans};
ghost use Rattle.space.specs.Space.{sec};
ghost use Rattle.net.specs.Table.{net_at, Mutual};
ghost use Rattle.flood.specs.Stack.{marks_at};
ghost use Rattle.flood.specs.Stories.{story_of};
ghost use Rattle.expand.specs.Layout.{most_at, push_at, fill_at, Past, Entries, Kept, Given, Filling, Last};
ghost use Rattle.expand.specs.Front.{Settled};

use crate::Stack;
use crate::flags::{enter_all, leave_all};
use crate::round::rounds;
use flood::story::Story;
use net::Sections;
use space::clear_part;

// How many rounds an expansion has at a level above 0.
const ROUNDS: usize = 8;

// "at a level above 0, so does the eighth round"
fn most_rounds(level: u16, fill: usize) -> usize
    requires { fill ≤ most_spans }
    ensures { result ≡ most_at level fill }
{
    if level == 0 { fill + 1 } else { ROUNDS }
}

// After the rounds, with k changes noted: flags and changes are zeroed, and entries that have an id now are marked used.
fn settle(ids: &[u16], ws: &mut [u16], at: Sections, stack: Stack, k: usize)
    requires { let n = length ids.now in
        (at.stack ≡ at.changes + 3 * n) × (stack.at + n ≤ at.changes) × (k ≤ n)
        × Past n stack.at (at.stack + n) ws.old × Entries n stack.at stack.fill ws.old }
    ensures { let n = length ids.now in
        Settled n stack.at at.changes stack.fill k ids.now ws.old ws.new }
{
    leave_all(ids, ws, at.stack, stack);
    clear_part(ws, at.changes, at.changes + 3 * k);
}

// Whether a sum exceeded what a source distance can be, and the story of the watched span.
#[derive(Clone, Copy)]
pub struct Expanded {
    pub strays: bool,
    pub story: Story,
}

// Expands the stack at a level. Tells whether a sum exceeded what a source distance can be, and what it did to the watched span.
pub fn expand_regions(
    area: &[u8],
    ids: &mut [u16],
    ws: &mut [u16],
    at: Sections,
    stack: Stack,
    level: u16,
    story: Story,
) -> Expanded
    requires fact { Mutual (net_at at.table area.now ws.old) × (at.stack ≡ at.changes + 3 * length area.now) }
    requires given { Given (length area.now) stack.at at.changes at.table stack.fill ids.old ws.old }
    ensures ws_after { let n = length area.now in
        let net = net_at at.table area.now ws.old in
        let before = marks_at n ids.old ws.old in
        record { marks = marks_at n ids.new ws.new; stack = sec stack.at stack.fill ws.new }
        ≡ expand net level before (sec stack.at stack.fill ws.old) }
    ensures strays_value { let net = net_at at.table area.now ws.old in
        let before = marks_at (length area.now) ids.old ws.old in
        result.strays ≡ expand_strays net level before (sec stack.at stack.fill ws.old) }
    ensures kept { Kept (length area.now) stack.at stack.fill ws.old ws.new }
    ensures given_2 { Given (length area.now) stack.at at.changes at.table stack.fill ids.new ws.new }
    ensures story_value { let net = net_at at.table area.now ws.old in
        let before = marks_at (length area.now) ids.old ws.old in
        story_of result.story ≡ expand_tells net level before (sec stack.at stack.fill ws.old) (story_of story) }
{
    enter_all(ids, ws, at.stack, stack);
    let most = most_rounds(level, stack.fill);
    let t = rounds(area, ids, ws, at, stack, most, story);
    settle(ids, ws, at, stack, t.noted);
    Expanded {
        strays: t.strays,
        story: t.story,
    }
}

// Span s is stacked, with fill spans on the stack at n, if it is walkable and has id 0. Gives the stack's new fill.
fn fill_one(area: &[u8], ids: &[u16], ws: &mut [u16], s: usize, fill: usize) -> usize
    requires area_len_bound { (length area.now ≤ most_spans) × (length ids.now ≡ length area.now) × (2 * length area.now ≤ length ws.old) }
    requires s_in_bounds { (s < length area.now) × (fill ≤ s) }
    ensures ws_after { ws.new ≡ push_at area.now ids.now s (length area.now + fill) ws.old }
    ensures value { result ≡ fill_at area.now ids.now s fill }
{
    if area[s] == 0 || ids[s] != 0 {
        return fill;
    }
    ws[area.len() + fill] = s as u16;
    fill + 1
}

// "all walkable spans of id 0", in scan order, which is that of their numbers. Gives the stack's fill.
fn fill_stack(area: &[u8], ids: &[u16], ws: &mut [u16]) -> usize
    requires { (length area.now ≤ most_spans) × (length ids.now ≡ length area.now) × (2 * length area.now ≤ length ws.old) }
    ensures { let n = length area.now in
        Filling n area.now ids.now ws.old ws.new n result }
{
    let mut fill: usize = 0;
    for s in 0..area.len() {
        fill = fill_one(area, ids, ws, s, fill);
    }
    fill
}

// Expands all walkable spans of id 0 at level 0, with no limit of rounds; their stack is past the source distances. Tells whether a sum exceeded
// what a source distance can be, and what it did to the watched span.
pub fn expand_last(
    area: &[u8],
    ids: &mut [u16],
    ws: &mut [u16],
    at: Sections,
    story: Story,
) -> Expanded
    requires fact { Mutual (net_at at.table area.now ws.old) × (at.stack ≡ at.changes + 3 * length area.now) }
    requires last { Last (length area.now) at.changes at.table ids.old ws.old }
    ensures ws_after { let n = length area.now in
        let net = net_at at.table area.now ws.old in
        let before = marks_at n ids.old ws.old in
        marks_at n ids.new ws.new ≡ (expand net 0 before (blank area.now ids.old)).marks }
    ensures strays_value { let net = net_at at.table area.now ws.old in
        let before = marks_at (length area.now) ids.old ws.old in
        result.strays ≡ expand_strays net 0 before (blank area.now ids.old) }
    ensures ws_unchanged { drop (length area.now) ws.new ≡ drop (length area.now) ws.old }
    ensures story_value { let net = net_at at.table area.now ws.old in
        let before = marks_at (length area.now) ids.old ws.old in
        story_of result.story ≡ expand_tells net 0 before (blank area.now ids.old) (story_of story) }
{
    let n = area.len();
    let fill = fill_stack(area, ids, ws);
    let r = expand_regions(area, ids, ws, at, Stack { at: n, fill }, 0, story);
    clear_part(ws, n, n + fill);
    r
}
