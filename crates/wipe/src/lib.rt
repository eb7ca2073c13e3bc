// "The workspace holds zeros after": most of it holds them before, and what is zero already is looked at and not written.

#![tactic(auto)]

ghost use Rattle.std.specs.Prelude.{◌≡◌, ◌≤◌, length, replicate};
ghost use Rattle.space.specs.Space.{Clear, Frame};

use space::clear;

// The bits of all entries together: 0 only where all are 0. No way out of the loop, so that the compiler can take many at once.
fn bits(l: &[u16]) -> u16
    ensures { result ≡ 0 → l.now ≡ replicate (length l.now) 0 }
{
    l.iter().fold(0, |all, x| all | *x)
}

// Zeros, where there are others.
fn wipe_block(l: &mut [u16])
    ensures { l.new ≡ replicate (length l.old) 0 }
{
    if bits(l) != 0 {
        clear(l);
    }
}

// So many numbers are looked at, and then zeroed together: a page of memory, as most systems have it.
const BLOCK: usize = 2048;

// Zeros everywhere. The loop strides by hand: of a slice's elements after `chunks_mut` the kit says nothing.
pub fn wipe(ws: &mut [u16])
    ensures { ws.new ≡ replicate (length ws.old) 0 }
{
    let mut i = 0;
    while BLOCK <= ws.len() - i {
        wipe_block(&mut ws[i..i + BLOCK]);
        i += BLOCK;
    }
    wipe_block(&mut ws[i..]);
}
