// "The trail of merges from the flood's id to the last", from the merges as they were noted.

#![tactic(auto)]

ghost use Rattle.std.specs.Prelude.{◌≡◌, ◌++◌, ◌+◌, ◌*◌, ◌≤◌, length, take, drop};
ghost use Rattle.rules.specs.Reasons.{trail};
ghost use Rattle.trail.specs.Noted.{mergings_from};
ghost use Rattle.trail.specs.Steps.{Follows, Followed};

// What an id has become so far, and the place past the ids that it was before.
#[derive(Clone, Copy)]
pub struct Step {
    pub id: u16,
    pub place: usize,
}

// The merge noted at b: if it absorbs the id, that is written at place k, and the trail goes on with the id that absorbed it.
fn follow_one(ws: &[u16], b: usize, s: Step, list: &mut [u16]) -> Step
    requires { Follows ws.now b 1 s.id s.place list.old }
    ensures { Followed ws.now b 1 s.id s.place list.old result.id result.place list.new }
{
    if ws[b] != s.id {
        return s;
    }
    list[s.place] = s.id;
    Step {
        id: ws[b + 1],
        place: s.place + 1,
    }
}

// The `left` merges noted from b on: the first half of them, and then the others. So no more calls wait at once than `left` can be halved.
fn follow(ws: &[u16], b: usize, left: usize, s: Step, list: &mut [u16]) -> Step
    requires { Follows ws.now b left s.id s.place list.old }
    ensures { Followed ws.now b left s.id s.place list.old result.id result.place list.new }
{
    if left == 0 {
        return s;
    }
    if left == 1 {
        return follow_one(ws, b, s, list);
    }
    let half = left / 2;
    let t = follow(ws, b, half, s, list);
    follow(ws, b + 2 * half, left - half, t, list)
}

// The trail of an id is written to the list from place k on; the merges are noted from b on, two numbers each. Gives the place past the trail.
pub fn write_trail(
    ws: &[u16],
    b: usize,
    merges: usize,
    id: u16,
    list: &mut [u16],
    k: usize,
) -> usize
    requires { (b + 2 * merges ≤ length ws.now) × (k + length (trail (mergings_from ws.now b merges) id) ≤ length list.old) }
    ensures value { result ≡ k + length (trail (mergings_from ws.now b merges) id) }
    ensures list_after { list.new ≡ take k list.old
        ++ (trail (mergings_from ws.now b merges) id ++ drop result list.old) }
{
    let last = follow(ws, b, merges, Step { id, place: k }, list);
    let end = last.place;
    list[end] = last.id;
    end + 1
}
