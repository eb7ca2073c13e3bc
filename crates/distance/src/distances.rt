// The raw distances: the start and the two passes. The second list is left with the cell of each span, which the passes read.
ghost use Rattle.std.specs.Prelude.{◌≡◌, length};
ghost use Rattle.rules.specs.Distance as rules;
ghost use Rattle.field.specs.Lent.{lent, Reached};
ghost use Rattle.distance.specs.Walk.{cells_of};
ghost use Rattle.field.specs.Seen.{seen};

use crate::cells::spread;
use crate::pass::{pass1, pass2};
use field::lent::Heightfield;

pub fn calculate_distance_field(field: &Heightfield, raw: &mut [u16], cells: &mut [u16])
    requires { let F = seen field.now in
        Reached F × (length raw.old ≡ length F.area) × (length cells.old ≡ length F.area) }
    ensures { let F = seen field.now in
        (raw.new ≡ rules.raw F) × (cells.new ≡ cells_of F) }
{
    spread(field, cells);
    pass1(field, raw, cells);
    pass2(field, raw, cells);
}
