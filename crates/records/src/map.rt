// Sections of the map of the records in the workspace.
ghost use Rattle.std.specs.Prelude.{◌≡◌, ◌≤◌};
ghost use Rattle.rules.specs.Refusals.{most_spans};
ghost use Rattle.table.specs.Map.{floors_from, records_end, links_past};

use table::map::{HALF, POOL, RECORD_ROOM};

// What the pool's two halves take: numbers a span.
pub(crate) const HALVES: usize = 2 * HALF;

// Where the floors begin, past m records and the pool of n spans.
pub fn floors_from(m: usize, n: usize) -> usize
    requires { (m ≤ 65536) × (n ≤ most_spans) }
    ensures { result ≡ floors_from m n }
{
    POOL * m + HALVES * n
}

// Where the records end, m of them, of n spans.
pub fn records_end(m: usize, n: usize) -> usize
    requires { (m ≤ 65536) × (n ≤ most_spans) }
    ensures { result ≡ records_end m n }
{
    POOL * m + RECORD_ROOM * n
}

// Where the links of the lists' places end, which lie past the records: two numbers for each place of a half, and two for each record.
pub fn links_past(m: usize, n: usize) -> usize
    requires { (m ≤ 65536) × (n ≤ most_spans) }
    ensures { result ≡ links_past m n }
{
    records_end(m, n) + HALVES * n + 2 * m
}
