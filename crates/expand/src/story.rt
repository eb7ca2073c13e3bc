// What a round does to the watched span.
ghost use Rattle.std.specs.Prelude.{◌+◌, ◌*◌, ◌<◌, ◌≤◌, length};
ghost use Rattle.rules.specs.Refusals.{most_spans};
ghost use Rattle.net.specs.Table.{net_at, last_place, Closed};
ghost use Rattle.flood.specs.Stack.{marks_at};
ghost use Rattle.flood.specs.Stories.{story_of};
ghost use Rattle.expand.specs.Front.{Board, Spans};
ghost use Rattle.expand.specs.Told.{Sought, RoundTold};

use crate::look::source;
use field::place::SpanIx;
use flood::story::{NOBODY, Story};
use net::Sections;

// Which of the changes lo .. hi is span s's.
fn queued(ws: &[u16], changes: usize, lo: usize, hi: usize, s: usize) -> Option<usize>
    requires { (lo ≤ hi) × (hi ≤ most_spans) × (changes ≤ last_place) × (changes + 3 * hi ≤ length ws.now) }
    ensures { Sought ws.now changes lo hi s result }
{
    (lo..hi).find(|&i| ws[changes + 3 * i] as usize == s)
}

// The changes lo .. hi are those of the round: the watched span takes an id if it stands among them.
pub(crate) fn tell_round(
    area: &[u8],
    ids: &[u16],
    ws: &[u16],
    at: Sections,
    lo: usize,
    hi: usize,
    story: Story,
) -> Story
    requires closed { Closed (net_at at.table area.now ws.now) × Board (length area.now) at.changes at.table hi ids.now ws.now }
    requires spans { Spans (length area.now) at.changes lo hi ws.now }
    ensures { let net = net_at at.table area.now ws.now in
        let marks = marks_at (length area.now) ids.now ws.now in
        RoundTold net marks ws.now at.changes lo hi (story_of story) (story_of result) }
{
    if story.span == NOBODY {
        return story;
    }
    let s = story.span as usize;
    let Some(i) = queued(ws, at.changes, lo, hi, s) else {
        return story;
    };
    let far = ws[at.changes + 3 * i + 2] as usize;
    Story {
        from: source(area, ids, ws, at.table, SpanIx(s), far) as u16,
        ..story
    }
}
