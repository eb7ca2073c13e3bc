// An id, or a number above a limit, looked for in a list.
ghost use Rattle.std.specs.Prelude.{◌≡◌, ◌+◌, ◌≤◌, length, drop, eqb, ltb};
ghost use Rattle.rules.specs.Base.{◌or◌, any};
ghost use Rattle.rules.specs.Merge.{place};
ghost use Rattle.rules.specs.Records.{has};

// Does the list hold r?
pub fn holds(l: &[u16], r: u16) -> bool
    ensures { result ≡ has l.now r }
{
    l.contains(&r)
}

// How many entries can be passed over, sixteen at a time, before the first r. The loop strides.
fn pass_over(l: &[u16], r: u16) -> usize
    ensures { (place l.now r ≡ result + place (drop result l.now) r) × (result ≤ length l.now) }
{
    let mut i = 0;
    while 16 <= l.len() - i {
        if holds(&l[i..i + 16], r) {
            return i;
        }
        i += 16;
    }
    i
}

// The place of the first entry r, or how many there are, entry by entry.
fn scan(l: &[u16], r: u16) -> usize
    ensures { (result ≡ place l.now r) × (result ≤ length l.now) }
{
    l.iter().position(|x| *x == r).unwrap_or(l.len())
}

// The place of the first entry r, or how many there are.
pub fn place(l: &[u16], r: u16) -> usize
    ensures { (result ≡ place l.now r) × (result ≤ length l.now) }
{
    let k = pass_over(l, r);
    k + scan(&l[k..], r)
}

// Is an entry above most?
pub fn any_above(l: &[u16], most: u16) -> bool
    ensures { result ≡ any (ltb most) l.now }
{
    l.iter().any(|x| most < *x)
}
