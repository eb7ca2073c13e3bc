// Neighbour lists: each is a part of the workspace, lent whole.
ghost use Rattle.std.specs.Prelude.{◌≡◌, ◌++◌, map, suc, ◌+◌, ◌≤◌, ◌<◌, length, take, drop, eqb};
ghost use Rattle.rules.specs.Base.{many, when◌then◌else◌};
ghost use Rattle.rules.specs.Contour.{trim};
ghost use Rattle.rules.specs.Merge.{tidy};
ghost use Rattle.laws.specs.Squeeze.{squeeze};
ghost use Rattle.pool.specs.Lists.{again, swap_one};

// Does entry i equal the next one?
fn again(l: &[u16], i: usize) -> bool
    requires { i < length l.now }
    ensures { result ≡ again l.now i }
{
    i + 1 < l.len() && l[i] == l[i + 1]
}

// Of each run of equal entries the last stays. Gives how many entries are left.
fn squeeze(l: &mut [u16]) -> usize
    ensures { (take result l.new ≡ squeeze l.old) × (result ≤ length l.old) }
{
    let mut w = 0;
    for i in 0..l.len() {
        if !again(l, i) {
            l[w] = l[i];
            w += 1;
        }
    }
    w
}

// Of the first k entries, without the last if it equals the first and is another.
fn trim(l: &[u16], k: usize) -> usize
    requires { k ≤ length l.now }
    ensures { (take result l.now ≡ trim (take k l.now)) × (result ≤ k) }
{
    if k > 1 && l[0] == l[k - 1] { k - 1 } else { k }
}

// Adjacent duplicates are removed; the last and the first are adjacent too. Gives how many entries are left.
pub(crate) fn remove_adjacent_neighbours(l: &mut [u16]) -> usize
    ensures { (take result l.new ≡ tidy l.old) × (result ≤ length l.old) }
{
    let k = squeeze(l);
    trim(l, k)
}

// How often r stands in the list.
pub fn many(l: &[u16], r: u16) -> usize
    ensures { result ≡ many (eqb r) l.now }
{
    l.iter().map(|x| (*x == r) as usize).sum()
}

// Every old becomes new.
pub(crate) fn swap(l: &mut [u16], old: u16, new: u16)
    ensures { l.new ≡ map (swap_one old new) l.old }
{
    for x in l.iter_mut() {
        *x = if *x == old { new } else { *x };
    }
}
