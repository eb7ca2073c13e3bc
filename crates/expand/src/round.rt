// Rounds: the changes of one are written together at its end, and the next tries the neighbours of what they changed.
ghost use Rattle.std.specs.Prelude.{◌≡◌, ◌+◌, ◌*◌, ◌<◌, ◌≤◌, length, get_or, set};
ghost use Rattle.rules.specs.Reasons.{rounds_tell};
ghost use Rattle.net.specs.Table.{net_at, last_place, Mutual};
ghost use Rattle.flood.specs.Stories.{story_of};
ghost use Rattle.expand.specs.Layout.{Past};
ghost use Rattle.expand.specs.Front.{front_of, Spans, Writing, Lit, Gone};

use crate::Stack;
use crate::story::tell_round;
use crate::tries::{try_all, try_beside};
use flood::story::Story;
use net::Sections;

// Makes the change at c.
fn write_one(ids: &mut [u16], ws: &mut [u16], c: usize)
    requires { (c + 2 < length ws.old) × (c ≤ last_place) × (get_or ws.old c 0 < length ids.old) × (length ids.old ≤ length ws.old) }
    ensures ids_after { ids.new ≡ set ids.old (get_or ws.old c 0) (get_or ws.old (c + 1) 0) }
    ensures ws_after { ws.new ≡ set ws.old (get_or ws.old c 0) (get_or ws.old (c + 2) 0) }
{
    let s = ws[c] as usize;
    ids[s] = ws[c + 1];
    ws[s] = ws[c + 2];
}

// The changes lo .. hi, in order; changes begin at `changes`.
fn write_all(ids: &mut [u16], ws: &mut [u16], changes: usize, lo: usize, hi: usize)
    requires past { Past (length ids.old) changes (changes + 3 * length ids.old) ws.old × (hi ≤ length ids.old) }
    requires spans { Spans (length ids.old) changes lo hi ws.old }
    ensures { let n = length ids.old in
        Writing n changes lo hi ids.old ws.old ids.new ws.new hi }
{
    for i in lo..hi {
        write_one(ids, ws, changes + 3 * i);
    }
}

// How many changes are noted, whether a sum exceeded what a source distance can be, and the story of the watched span.
#[derive(Clone, Copy)]
pub struct Spread {
    pub noted: usize,
    pub strays: bool,
    pub story: Story,
}

// At most that many rounds; one in which nothing changed is the last.
pub(crate) fn rounds(
    area: &[u8],
    ids: &mut [u16],
    ws: &mut [u16],
    at: Sections,
    stack: Stack,
    most: usize,
    story: Story,
) -> Spread
    requires fact { Mutual (net_at at.table area.now ws.old) × (at.stack ≡ at.changes + 3 * length area.now) × (0 < most) }
    requires lit { Lit (length area.now) stack.at at.changes at.table stack.fill ids.old ws.old }
    ensures fact_2 { let e = at.changes in let b = at.table in
        Gone area.now stack.at e b stack.fill most ids.old ws.old ids.new ws.new
        result.noted result.strays }
    ensures story_value { let net = net_at at.table area.now ws.old in
        let front = front_of (length area.now) stack.at stack.fill ids.old ws.old in
        story_of result.story ≡ rounds_tell net most front (story_of story) }
{
    let from = stack.at;
    let fill = stack.fill;
    let mut lo: usize = 0;
    let mut t = try_all(area, ids, ws, at, from, fill);
    let mut left = most;
    let mut told = story;
    // Each turn goes through what the one before noted: no range fits.
    while lo < t.noted {
        let hi = t.noted;
        told = tell_round(area, ids, ws, at, lo, hi, told);
        write_all(ids, ws, at.changes, lo, hi);
        if left == 1 {
            return Spread {
                noted: hi,
                strays: t.strays,
                story: told,
            };
        }
        t = try_beside(area, ids, ws, at, lo, hi, t.strays);
        lo = hi;
        left -= 1;
    }
    Spread {
        noted: t.noted,
        strays: t.strays,
        story: told,
    }
}
