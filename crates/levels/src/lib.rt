// The eight level stacks: flood and expansion rule 2.

#![tactic(auto)]

ghost use Rattle.std.specs.Prelude.{◌≡◌, [], ◌∷◌, ◌+◌, ◌-◌, ◌*◌, ◌/◌, ◌<◌, ◌≤◌, length, get_or, replicate, eqb, leb};
ghost use Rattle.rules.specs.Base.{◌and◌, ◌or◌};
ghost use Rattle.rules.specs.Growth.{sorted, remains};
ghost use Rattle.levels.specs.Levels.{stack_count, last_stack, block_size, levels_at, Fills, StackPart, SortLists, Entry};
ghost use Rattle.levels.specs.Levels.{appended, Stacked, sorted_to, any_open, Kept, Moved};

const STACKS: usize = 8;

// The number of the last stack.
const LAST: u16 = 7;

// So many spans are asked at a time whether there is one to sort.
const BLOCK: usize = 16;

// An entry that is used.
const USED: u16 = 65535;

// The fill of each stack, beside the turn's number. Stack k lies at k * n .. (k + 1) * n of the part that is lent for the stacks.
#[derive(Clone, Copy)]
pub struct LevelStacks {
    pub fills: [u16; STACKS],
    pub turn: usize,
}

// One more entry on stack k. The fills are lent, and not handed on with a struct: a copy of all eight would have to wait for the one that was written.
fn push_level(stacks: &mut [u16], n: usize, fills: &mut [u16], k: usize, x: u16)
    requires { StackPart n stacks.old × Fills n fills.old × (k < stack_count) × (get_or fills.old k 0 < n) }
    ensures { let before = levels_at stacks.old n fills.old in
        Moved n stacks.old fills.old stacks.new fills.new (appended k (x ∷ []) before) }
{
    let f = fills[k];
    stacks[k * n + f as usize] = x;
    fills[k] = f + 1;
}

// "the stack numbered (level/2 − distance/2, not below 0, both halves rounded down)"
fn stack_of(level: u16, distance: u16) -> usize
    ensures { result ≡ level / 2 - distance / 2 }
{
    (level / 2).saturating_sub(distance / 2) as usize
}

// Span i goes to its stack.
fn sort_one(
    area: &[u8],
    dist: &[u16],
    ids: &[u16],
    stacks: &mut [u16],
    fills: &mut [u16],
    level: u16,
    i: usize,
)
    requires sort_lists { SortLists area.now dist.now ids.now stacks.old × Fills (length area.now) fills.old × (i < length area.now) }
    requires fills_value { levels_at stacks.old (length area.now) fills.old ≡ sorted_to area.now dist.now ids.now level i }
    ensures { let after = sorted_to area.now dist.now ids.now level (i + 1) in
        let n = length area.now in
        Moved n stacks.old fills.old stacks.new fills.new after }
{
    if ids[i] != 0 {
        return;
    }
    let k = stack_of(level, dist[i]);
    if STACKS <= k {
        return;
    }
    if area[i] == 0 {
        return;
    }
    push_level(stacks, area.len(), fills, k, i as u16);
}

// The spans from i up to e go to their stacks.
fn sort_some(
    area: &[u8],
    dist: &[u16],
    ids: &[u16],
    stacks: &mut [u16],
    fills: &mut [u16],
    level: u16,
    i: usize,
    e: usize,
)
    requires sort_lists { SortLists area.now dist.now ids.now stacks.old × Fills (length area.now) fills.old
        × (i ≤ e) × (e ≤ length area.now) }
    requires fills_value { levels_at stacks.old (length area.now) fills.old ≡ sorted_to area.now dist.now ids.now level i }
    ensures { let after = sorted_to area.now dist.now ids.now level e in
        let n = length area.now in
        Moved n stacks.old fills.old stacks.new fills.new after }
{
    for k in i..e {
        sort_one(area, dist, ids, stacks, fills, level, k);
    }
}

// The least distance whose stack is one of the eight.
fn least(level: u16) -> u16
    ensures { result ≡ 2 * (level / 2 - last_stack) }
{
    2 * (level / 2).saturating_sub(LAST)
}

// Found before, or a span of that id and distance may go to a stack. No branch, so that the compiler can take many at once.
fn or_open(found: bool, id: u16, d: u16, from: u16) -> bool
    ensures { result ≡ ((eqb id 0 and leb from d) or found) }
{
    ((id == 0) & (from <= d)) | found
}

// Has one of these spans id 0, and a distance of at least `from`? The loop goes on past the first, for the same reason.
fn any_open(dist: &[u16], ids: &[u16], from: u16) -> bool
    requires { length ids.now ≡ length dist.now }
    ensures { result ≡ any_open dist.now ids.now from (length dist.now) }
{
    let mut found = false;
    for i in 0..dist.len() {
        found = or_open(found, ids[i], dist[i], from);
    }
    found
}

// The block of spans from i on goes to their stacks. Most blocks have none to sort, and are passed over.
fn sort_block(
    area: &[u8],
    dist: &[u16],
    ids: &[u16],
    stacks: &mut [u16],
    fills: &mut [u16],
    level: u16,
    from: u16,
    i: usize,
)
    requires sort_lists { SortLists area.now dist.now ids.now stacks.old × Fills (length area.now) fills.old
        × (i + block_size ≤ length area.now) }
    requires fills_value { levels_at stacks.old (length area.now) fills.old ≡ sorted_to area.now dist.now ids.now level i }
    requires from_value { from ≡ 2 * (level / 2 - last_stack) }
    ensures { let after = sorted_to area.now dist.now ids.now level (i + block_size) in
        let n = length area.now in
        Moved n stacks.old fills.old stacks.new fills.new after }
{
    if any_open(&dist[i..i + BLOCK], &ids[i..i + BLOCK], from) {
        sort_some(area, dist, ids, stacks, fills, level, i, i + BLOCK);
    }
}

// "At turn 0 all stacks are emptied and every walkable span of id 0 goes, in scan order, to the stack .. if below 8."
// The scan order of spans is that of their numbers.
pub fn sort_cells_by_level(
    area: &[u8],
    dist: &[u16],
    ids: &[u16],
    stacks: &mut [u16],
    level: u16,
) -> LevelStacks
    requires { SortLists area.now dist.now ids.now stacks.old }
    ensures fills_after { let n = length area.now in
        levels_at stacks.new n result.fills ≡ sorted area.now dist.now ids.now level }
    ensures kept { Kept (length area.now) stacks.old (replicate stack_count 0) stacks.new result.fills }
    ensures fact { let n = length area.now in
        Stacked n (levels_at stacks.new n result.fills) 0 }
    ensures turn_value { result.turn ≡ 0 }
{
    let mut fills = [0u16; STACKS];
    let from = least(level);
    let n = area.len();
    // Counted by hand: it goes by blocks, and tells where the last whole one ends.
    let mut i = 0;
    while BLOCK <= n - i {
        sort_block(area, dist, ids, stacks, &mut fills, level, from, i);
        i += BLOCK;
    }
    sort_some(area, dist, ids, stacks, &mut fills, level, i, n);
    LevelStacks { fills, turn: 0 }
}

// Entry i of the stack before goes on stack j, if it remains.
fn append_one(ids: &[u16], stacks: &mut [u16], fills: &mut [u16], j: usize, i: usize)
    requires stack_part { StackPart (length ids.now) stacks.old × Fills (length ids.now) fills.old × (0 < j) × (j < stack_count) }
    requires j_in_bounds { (get_or fills.old j 0 < length ids.now) × (i < length ids.now) }
    requires entry { Entry (length ids.now) (get_or stacks.old ((j - 1) * length ids.now + i) 0) }
    ensures { let n = length ids.now in
        let one = get_or stacks.old ((j - 1) * n + i) 0 ∷ [] in
        let before = levels_at stacks.old n fills.old in
        let after = appended j (remains ids.now one) before in
        Moved n stacks.old fills.old stacks.new fills.new after }
{
    let n = ids.len();
    let e = stacks[(j - 1) * n + i];
    if e == USED {
        return;
    }
    if ids[e as usize] != 0 {
        return;
    }
    push_level(stacks, n, fills, j, e);
}

// "At other turns, what remains of the stack before is appended to this turn's."
pub fn append_stacks(ids: &[u16], stacks: &mut [u16], l: LevelStacks, j: usize) -> LevelStacks
    requires stack_part { StackPart (length ids.now) stacks.old × Fills (length ids.now) l.fills × (0 < j) × (j < stack_count) }
    requires stacked { Stacked (length ids.now) (levels_at stacks.old (length ids.now) l.fills) (j - 1) }
    ensures fills_after { let n = length ids.now in
        let before = levels_at stacks.old n l.fills in
        levels_at stacks.new n result.fills ≡ appended j (remains ids.now (get_or before (j - 1) [])) before }
    ensures kept { Kept (length ids.now) stacks.old l.fills stacks.new result.fills }
    ensures fact { let n = length ids.now in
        Stacked n (levels_at stacks.new n result.fills) j }
    ensures turn_value { result.turn ≡ j }
{
    let src = j - 1;
    let count = l.fills[src] as usize;
    let mut fills = l.fills;
    for i in 0..count {
        append_one(ids, stacks, &mut fills, j, i);
    }
    LevelStacks { fills, turn: j }
}
