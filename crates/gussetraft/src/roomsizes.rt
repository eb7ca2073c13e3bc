// Floor sizes, as C and Rust call them: a record is more than every machine returns by value in the same way, so it is written to two lists; the
// refusal is given too.
ghost use Rattle.field.specs.Lent.{lent};
ghost use Rattle.sizes.specs.Into.{GivesInto};

use crate::lend;
use sizes::into::measure_into;

#[unsafe(no_mangle)]
pub extern "C" fn gussetraft_measure_room_into(
    w: u16,
    h: u16,
    index: &[u32],
    count: &[u8],
    area: &[u8],
    con: &[u8],
    ids: &[u16],
    max_region: u16,
    k: u16,
    id: u16,
    sizes: &mut [f64],
    numbers: &mut [u16],
) -> u16
    ensures { let F = lent w h index.now count.now area.now con.now in
        GivesInto F ids.now max_region k id sizes.old numbers.old
        result sizes.new numbers.new }
{
    let field = lend(w, h, index, count, area, con);
    measure_into(&field, ids, max_region, k, id, sizes, numbers)
}
