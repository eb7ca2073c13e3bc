// Merges noted in their order: "the trail of merges from the flood's id to the last". The records lie before `end` in the workspace, what is noted
// from there on, two numbers a merge: the id that was absorbed, and the one that absorbed it. Where there is no room past the records nothing is noted.
ghost use Rattle.std.specs.Prelude.{◌≡◌, ◌+◌, ◌*◌, ◌≤◌, ◌<◌, length, take, set};
ghost use Rattle.table.specs.View.{recs_of};
ghost use Rattle.pool.specs.Alike.{Joined};
ghost use Rattle.pool.specs.Forms.{PoolIn, LaidIn};
ghost use Rattle.pool.proofs.MergeLaws.{owners};
ghost use Rattle.merge.specs.Rounds.{first_half};
ghost use Rattle.merge.specs.Told.{NotedOne, NotedRound, NotedAll};

use crate::merge::{Round, first_half, merge_one};
use pool::Half;

// A round under way, and how many merges there were.
#[derive(Clone, Copy)]
pub struct Noted {
    pub round: Round,
    pub count: usize,
}

// A merge is noted after the first `count`, if there is room.
fn note_merge(ws: &mut [u16], end: usize, count: usize, old: u16, new: u16)
    requires { (end ≤ length ws.old) × (count < 65536) }
    ensures noted { end + 2 * count + 1 < length ws.old → ws.new ≡ set (set ws.old (end + 2 * count) old) (end + 2 * count + 1) new }
    ensures full { length ws.old ≤ end + 2 * count + 1 → ws.new ≡ ws.old }
{
    if ws.len() - end <= 2 * count + 1 {
        return;
    }
    ws[end + 2 * count] = old;
    ws[end + 2 * count + 1] = new;
}

// Record i of a round; if it merges, that is noted.
fn merge_one_noted(ws: &mut [u16], end: usize, m: usize, area: u16, i: usize, noted: Noted) -> Noted
    requires m_in_bounds { (end ≤ length ws.old) × PoolIn m noted.round.half (take end ws.old)
        × LaidIn m noted.round.half (take end ws.old) }
    requires joined { Joined (recs_of (take end ws.old) m) × (i < m) × (noted.round.merges < 65536)
        × (noted.count + owners m (recs_of (take end ws.old) m) ≤ m) }
    ensures { NotedOne area i m end ws.old noted ws.new result }
{
    let old = ws[i];
    let round = merge_one(&mut ws[..end], m, area, i, noted.round);
    if round.merges == noted.round.merges {
        return Noted {
            round,
            count: noted.count,
        };
    }
    let new = ws[i];
    note_merge(ws, end, noted.count, old, new);
    Noted {
        round,
        count: noted.count + 1,
    }
}

// A round: all records, in order.
fn merge_round(ws: &mut [u16], end: usize, m: usize, area: u16, half: Half, count: usize) -> Noted
    requires m_in_bounds { (end ≤ length ws.old) × PoolIn m half (take end ws.old) × LaidIn m half (take end ws.old) }
    requires joined { Joined (recs_of (take end ws.old) m) × (count + owners m (recs_of (take end ws.old) m) ≤ m) }
    ensures { NotedRound area m m half.size end ws.old count ws.new result }
{
    let mut noted = Noted {
        round: Round { half, merges: 0 },
        count,
    };
    for i in 0..m {
        noted = merge_one_noted(ws, end, m, area, i, noted);
    }
    noted
}

// Rounds until one merges nothing. Gives how many merges there were.
pub(crate) fn merge_all(ws: &mut [u16], end: usize, m: usize, n: usize, area: u16) -> usize
    requires { (end ≤ length ws.old) × PoolIn m (first_half m n) (take end ws.old)
        × LaidIn m (first_half m n) (take end ws.old) × Joined (recs_of (take end ws.old) m) }
    ensures { NotedAll area m end ws.old ws.new result }
{
    let mut half = first_half(m, n);
    let mut count = 0;
    loop {
        let noted = merge_round(ws, end, m, area, half, count);
        let round = noted.round;
        if round.merges == 0 {
            return noted.count;
        }
        half = round.half;
        count = noted.count;
    }
}
