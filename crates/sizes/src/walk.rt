// The spans of one id, cell by cell in scan order.
ghost use Rattle.std.specs.Prelude.{◌≡◌, ◌+◌, ◌*◌, ◌<◌, ◌≤◌, min, max, length};
ghost use Rattle.rules.specs.Base.{upto};
ghost use Rattle.rules.specs.Sizes.{nothing, added, extent};
ghost use Rattle.field.specs.Lent.{lent, Celled};
ghost use Rattle.sizes.specs.Walk.{extent_at, note_at};
ghost use Rattle.field.specs.Seen.{seen};

use field::lent::Heightfield;

// What is known of an id after some of its spans: its first span's area, and its edges in cells.
#[derive(Clone, Copy)]
pub struct Extent {
    pub count: u32,
    pub area: u8,
    pub x_least: u32,
    pub x_past: u32,
    pub z_least: u32,
    pub z_past: u32,
}

// Of no span.
pub fn no_extent() -> Extent
    ensures { extent_at result ≡ nothing }
{
    Extent {
        count: 0,
        area: 0,
        x_least: 0,
        x_past: 0,
        z_least: 0,
        z_past: 0,
    }
}

// A span of this area at (x, z) is added.
fn add(e: Extent, area: u8, x: u32, z: u32) -> Extent
    requires { (e.count < 65535) × (x < 65536) × (z < 65536) }
    ensures { extent_at result ≡ added area x z (extent_at e) }
{
    if e.count == 0 {
        return Extent {
            count: 1,
            area,
            x_least: x,
            x_past: x + 1,
            z_least: z,
            z_past: z + 1,
        };
    }
    Extent {
        count: e.count + 1,
        area: e.area,
        x_least: e.x_least.min(x),
        x_past: e.x_past.max(x + 1),
        z_least: e.z_least.min(z),
        z_past: e.z_past.max(z + 1),
    }
}

// Span s, which stands at (x, z), if it has the id.
fn note(area: &[u8], ids: &[u16], id: u16, s: usize, x: u32, z: u32, e: Extent) -> Extent
    requires s_in_bounds { (s < length area.now) × (length ids.now ≡ length area.now) × (s < 65535) }
    requires count_le_s { (e.count ≤ s) × (x < 65536) × (z < 65536) }
    ensures { extent_at result ≡ note_at area.now ids.now id x z s (extent_at e) }
{
    if ids[s] == id {
        return add(e, area[s], x, z);
    }
    e
}

// The spans of a cell at (x, z), from number first on.
fn walk_cell(
    area: &[u8],
    ids: &[u16],
    id: u16,
    first: usize,
    spans: usize,
    x: u32,
    z: u32,
    e: Extent,
) -> Extent
    requires spans_in_bounds { (first + spans ≤ length area.now) × (length ids.now ≡ length area.now) × (length area.now ≤ 65000) }
    requires count_le_first { (e.count ≤ first) × (x < 65536) × (z < 65536) }
    ensures { extent_at result ≡ upto spans (λ j. note_at area.now ids.now id x z (first + j)) (extent_at e) }
{
    let mut seen = e;
    for j in 0..spans {
        seen = note(area, ids, id, first + j, x, z, seen);
    }
    seen
}

// All spans of a field whose cells are in order.
pub fn walk_cells(field: &Heightfield, ids: &[u16], id: u16) -> Extent
    requires { let F = seen field.now in
        Celled F × (length ids.now ≡ length F.area) }
    ensures { let F = seen field.now in
        (extent_at result ≡ extent F ids.now id) × (result.count ≤ 65000) }
{
    let cells = field.w * field.h;
    let mut seen = no_extent();
    let mut first: usize = 0;
    for c in 0..cells {
        let spans = field.count[c] as usize;
        let x = (c % field.w) as u32;
        let z = (c / field.w) as u32;
        seen = walk_cell(field.area, ids, id, first, spans, x, z, seen);
        first += spans;
    }
    seen
}
