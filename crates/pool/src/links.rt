// The places that name an id, linked.
ghost use Rattle.std.specs.Prelude.{◌-◌, ◌<◌};
ghost use Rattle.space.specs.Space.{Frame};
ghost use Rattle.pool.specs.Links.{held_from, links_end, Linked, LinkedOne};
ghost use Rattle.pool.specs.Forms.{LinkRoomIn};

use crate::Half;
use space::clear_part;
use table::{set_wide, wide};

// Place q of the half becomes the last of its id, linked to the one that was. A flagged id is no record's, so it has no places.
fn link_one(ws: &mut [u16], m: usize, half: Half, q: usize)
    requires { LinkRoomIn m half ws.old × (q < half.top - half.now) }
    ensures { LinkedOne m half.size half.now half.links q ws.old ws.new }
{
    let r = usize::from(ws[half.now + q]);
    if r < m {
        let last = half.links + 2 * half.size + r;
        let before = wide(ws, m, last);
        set_wide(ws, half.size, half.links + q, before);
        set_wide(ws, m, last, q + 1);
    }
}

// All places of the half up to its top.
pub(crate) fn link_all(ws: &mut [u16], m: usize, half: Half)
    requires { LinkRoomIn m half ws.old }
    ensures linked { Linked m half.size half.links (half.top - half.now) (held_from ws.old half.now) ws.new }
    ensures frame { Frame half.links (links_end m half.size half.links) ws.old ws.new }
{
    let lasts = half.links + 2 * half.size;
    clear_part(ws, lasts, lasts + 2 * m);
    for q in 0..half.top - half.now {
        link_one(ws, m, half, q);
    }
}
