// Refusal 4: counts and indices.
ghost use Rattle.std.specs.Prelude.{◌≡◌, ◌≤◌, length, leb, eqb};
ghost use Rattle.rules.specs.Base.{◌and◌, ◌or◌};
ghost use Rattle.rules.specs.Refusals.{good_cells};

// The most spans that stand in one cell.
const MOST_LAYERS: usize = 63;

// A cell: its count is at most that, and a nonempty cell's index is the sum of the counts before it.
fn cell_ok(index: usize, count: usize, sum: usize) -> bool
    ensures { result ≡ (leb count 63 and (eqb count 0 or eqb index sum)) }
{
    count <= MOST_LAYERS && (count == 0 || index == sum)
}

// Every cell, and the counts sum to n.
pub(crate) fn cells_ok(index: &[u32], count: &[u8], n: usize) -> bool
    requires { (length count.now ≡ length index.now) × (length count.now ≤ 65536) }
    ensures { result ≡ good_cells index.now count.now 0 n }
{
    let mut sum: usize = 0;
    for i in 0..count.len() {
        let k = count[i] as usize;
        if !cell_ok(index[i] as usize, k, sum) {
            return false;
        }
        sum += k;
    }
    sum == n
}
