// Blocks of cells: where no span stands, one test passes all cells of a block.
ghost use Rattle.std.specs.Prelude.{◌≡◌, ◌+◌, ◌≤◌, min, length};
ghost use Rattle.field.specs.Blocks.{empty_block};

// The cells of a whole block.
pub const BLOCK: usize = 16;

// The cells of the next block, of n that are left.
pub fn block_of(n: usize) -> usize
    ensures { result ≡ min n 16 }
{
    n.min(BLOCK)
}

// The k cells from c on are a whole block, and no span stands in it.
pub fn is_empty(count: &[u8], c: usize, k: usize) -> bool
    requires { c + k ≤ length count.now }
    ensures { result ≡ empty_block count.now c k }
{
    if k != BLOCK {
        return false;
    }
    // No way out of the loop, so that sixteen counts are tested at once when compiled.
    let mut empty = true;
    for j in 0..BLOCK {
        empty &= count[c + j] == 0;
    }
    empty
}
