// How many connections there are in half of the directions: 0 and 1, or 2 and 3.
// Counted in bytes, part by part, so that sixteen are counted at once when compiled.
ghost use Rattle.std.specs.Prelude.{◌≡◌, ◌+◌, ◌*◌, ◌%◌, ◌<◌, ◌≤◌, length, eqb, ltb};
ghost use Rattle.rules.specs.Base.{when◌then◌else◌};
ghost use Rattle.rules.specs.Refusals.{most_spans};
ghost use Rattle.checker.specs.Links.{links_in};

use field::place::NO_LAYER;

// As many connections as are counted in a byte.
fn at_most(n: usize) -> u8
    ensures { result ≡ (when ltb n 224 then n else 224) }
{
    if n < 224 { n as u8 } else { 224 }
}

// Connection x counts a, none counts nothing.
fn counted(k: u8, x: u8, a: u8) -> u8
    requires { k + a < 256 }
    ensures { result ≡ (when eqb x 255 then k else k + a) }
{
    if x == NO_LAYER { k } else { k + a }
}

// How many of the m connections from b on, the first of a span, are in the half o. A weight, not a branch, tells the direction.
fn part(con: &[u8], b: usize, m: u8, o: u8) -> u8
    requires { (b % 4 ≡ 0) × (b + m ≤ length con.now) × (length con.now ≤ 4 * most_spans) × (m ≤ 224) × (o ≤ 2) }
    ensures { result ≡ links_in con.now o b m }
{
    let mut k: u8 = 0;
    for j in 0..m {
        k = counted(k, con[b + j as usize], (j + o) % 4 / 2);
    }
    k
}

// How many connections are in the half o: 2 for directions 0 and 1, 0 for directions 2 and 3. The loop strides, by a part.
pub(crate) fn links_in(con: &[u8], o: u8) -> usize
    requires { (length con.now % 4 ≡ 0) × (length con.now ≤ 4 * most_spans) × (o ≤ 2) }
    ensures { result ≡ links_in con.now o 0 (length con.now) }
{
    let mut k: usize = 0;
    let mut b: usize = 0;
    while b < con.len() {
        let m = at_most(con.len() - b);
        k += part(con, b, m, o) as usize;
        b += m as usize;
    }
    k
}
