// The merge: a record, a round, all rounds.
ghost use Rattle.std.specs.Prelude.{◌≡◌, ◌+◌, ◌≤◌, ◌<◌, false, length, get_or, eqb, MatchOption};
ghost use Rattle.rules.specs.Records.{has};
ghost use Rattle.rules.specs.Base.{any};
ghost use Rattle.rules.specs.Merge.{place};
ghost use Rattle.table.specs.Map.{wide_end, floors_from};
ghost use Rattle.table.specs.View.{recs_of, list_in, record_at, RecordsIn};
ghost use Rattle.pool.specs.Alike.{Reps};
ghost use Rattle.pool.specs.Fixed.{may_merge, try_merge, merge_one_f};
ghost use Rattle.pool.specs.Forms.{PoolIn, LaidIn};
ghost use Rattle.merge.specs.Rounds.{round_at, first_half};

use crate::pick::pick;
use pool::{Half, Pair, merge_regions};
use table::map::{HALF, LISTS, OVERLAPS, POOL, RECORD_ROOM};
use table::{holds, list_of, place};

// Where the lists are, and how many merges there were in the round.
#[derive(Clone, Copy)]
pub struct Round {
    pub half: Half,
    pub merges: usize,
}

// Does the list hold 0?
fn is_region_connected_to_border(l: &[u16]) -> bool
    ensures { result ≡ any (eqb 0) l.now }
{
    holds(l, 0)
}

// May record i be merged at all?
fn may_merge(ws: &[u16], m: usize, area: u16, i: usize) -> bool
    requires { RecordsIn m ws.now × (i < m) }
    ensures { result ≡ may_merge area (record_at ws.now m i) }
{
    ws[i] != 0
        && ws[OVERLAPS * m + i] == 0
        && ws[m + i] != 0
        && (ws[m + i] <= area || !is_region_connected_to_border(list_of(ws, m, LISTS * m, i)))
}

// Where record i first lists r.
fn place_of(ws: &[u16], m: usize, i: usize, r: u16) -> Option<usize>
    requires { RecordsIn m ws.now × (i < m) }
    ensures { let list = list_in ws.now m i in
        MatchOption result (has list r ≡ false) (λ k. (k ≡ place list r) × (k < length list)) }
{
    let l = list_of(ws, m, LISTS * m, i);
    let k = place(l, r);
    if k == l.len() { None } else { Some(k) }
}

// The neighbour n absorbs record i, if each lists the other.
fn try_merge(ws: &mut [u16], m: usize, i: usize, n: usize, round: Round) -> Round
    requires pool_in { PoolIn m round.half ws.old × LaidIn m round.half ws.old × (round.merges < 65536) }
    requires i_lt_m { (i < m) × (n < m) × (i ≡ n → ⊥) }
    requires fact { (get_or ws.old i 0 ≡ 0 → ⊥) × (get_or ws.old n 0 ≡ 0 → ⊥) × (get_or ws.old i 0 ≡ n → ⊥) }
    ensures merges_after { round_at m ws.new result.merges ≡ try_merge i n (round_at m ws.old round.merges) }
    ensures pool_in_2 { PoolIn m result.half ws.new × LaidIn m result.half ws.new × (result.merges ≤ round.merges + 1)
        × (result.half.size ≡ round.half.size) }
{
    let Some(entry) = place_of(ws, m, n, ws[i]) else {
        return round;
    };
    let Some(back) = place_of(ws, m, i, ws[n]) else {
        return round;
    };
    let pair = Pair {
        absorber: n,
        entry,
        absorbed: i,
        back,
    };
    Round {
        half: merge_regions(ws, m, pair, round.half),
        merges: round.merges + 1,
    }
}

// Record i of a round.
pub(crate) fn merge_one(ws: &mut [u16], m: usize, area: u16, i: usize, round: Round) -> Round
    requires pool_in { PoolIn m round.half ws.old × LaidIn m round.half ws.old × (round.merges < 65536) }
    requires reps { Reps (recs_of ws.old m) × (i < m) }
    ensures merges_after { round_at m ws.new result.merges ≡ merge_one_f area i (round_at m ws.old round.merges) }
    ensures pool_in_2 { PoolIn m result.half ws.new × LaidIn m result.half ws.new × (result.merges ≤ round.merges + 1)
        × (result.half.size ≡ round.half.size) }
{
    if !may_merge(ws, m, area, i) {
        return round;
    }
    let id = pick(ws, m, i).id;
    if id == ws[i] {
        return round;
    }
    try_merge(ws, m, i, id as usize, round)
}

// Before the first merge: the lists are in the first half, and all of it counts as used, since nothing is known of how they lie there.
pub(crate) fn first_half(m: usize, n: usize) -> Half
    requires { floors_from m n < wide_end }
    ensures { result ≡ first_half m n }
{
    let first = POOL * m;
    let size = HALF * n;
    Half {
        now: first,
        other: first + size,
        size,
        top: first + size,
        links: first + RECORD_ROOM * n,
    }
}
