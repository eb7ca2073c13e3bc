// A call of the entry, and what it gave.
use checker::Refusal;
use field::lent::Heightfield;
use std::io;
use watershed::build_distance_field;

// A line for the answer: refused and its number, or max_distance and its value.
fn answer(rt: &impl Print, r: Result<u16, Refusal>) -> io::Result<()> {
    match r {
        Ok(m) => println!(rt; "max_distance {m}"),
        Err(r) => {
            let n = r.number();
            println!(rt; "refused {n}")
        }
    }
}

// One number more of a list's digest.
fn mix(h: u64, v: u16) -> u64 {
    (h % 65521 * 31 + v as u64 + 1) % 65521
}

fn digest(l: &[u16]) -> u64 {
    l.iter().fold(0, |h, &v| mix(h, v))
}

fn numbers(rt: &impl Print, l: &[u16]) -> io::Result<()> {
    for v in l {
        print!(rt; " {v}")?;
    }
    Ok(())
}

// The numbers of a short list; of a long one its length and a digest.
pub(crate) fn list(rt: &impl Print, name: &str, l: &[u16]) -> io::Result<()> {
    print!(rt; "{name}")?;
    if 64 < l.len() {
        let length = l.len();
        let sum = digest(l);
        print!(rt; " length {length} digest {sum}")?;
    } else {
        numbers(rt, l)?;
    }
    println!(rt; "")
}

// A call, its answer, and the two lists after it.
fn call(
    rt: &impl Print,
    field: &Heightfield,
    raw: &mut [u16],
    blurred: &mut [u16],
) -> io::Result<()> {
    let r = build_distance_field(field, raw, blurred);
    answer(rt, r)?;
    list(rt, "raw", raw)?;
    list(rt, "blurred", blurred)
}

// A call that is lent the first m numbers of a and the first n of b.
fn lend(
    rt: &impl Print,
    field: &Heightfield,
    a: &mut [u16],
    b: &mut [u16],
    m: usize,
    n: usize,
) -> io::Result<()> {
    if a.len() < m || b.len() < n {
        return Ok(());
    }
    call(rt, field, &mut a[..m], &mut b[..n])
}

// A call that is lent lists of so many 7s for the distances, at most 65,001.
pub(crate) fn run(
    rt: &impl Print,
    name: &str,
    field: &Heightfield,
    raws: usize,
    blurs: usize,
) -> io::Result<()> {
    print!(rt; "{name}: ")?;
    let mut a = [7u16; 65001];
    let mut b = [7u16; 65001];
    lend(rt, field, &mut a, &mut b, raws, blurs)
}
