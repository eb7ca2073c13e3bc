// Cells and counts in metres: whole numbers cast to 64-bit floats, multiplied and divided by powers of two. Nothing is rounded (proofs/Exact.antt).
ghost use Rattle.std.specs.Prelude.{◌≡◌, ◌*◌, ◌≤◌};
ghost use Rattle.rules.specs.Sizes.{metres, sized};
ghost use Rattle.sizes.specs.Walk.{extent_at};
ghost use Rattle.sizes.specs.Answer.{room_of};

use crate::walk::Extent;

// Cells of side k/64 metre are so many to a metre's square.
const CELLS_IN_A_SQUARE: f64 = 4096.0;

const CELLS_IN_A_METRE: f64 = 64.0;

// The floor size in square metres, and the edges in metres.
#[derive(Clone, Copy)]
pub struct Size {
    pub floor: f64,
    pub x_least: f64,
    pub x_past: f64,
    pub z_least: f64,
    pub z_past: f64,
}

// The record of one id.
#[derive(Clone, Copy)]
pub struct Room {
    pub size: Size,
    pub area: u8,
    pub count: u16,
}

// "floor size is count·k·k/4096"
fn floor(count: u32, k: u16) -> f64
    requires { count ≤ 65535 }
    ensures { result ≡ metres (count * k * k) 4096 }
{
    let side = k as f64;
    count as f64 * side * side / CELLS_IN_A_SQUARE
}

// "an edge is a cell number times k/64"
fn edge(cells: u32, k: u16) -> f64
    ensures { result ≡ metres (cells * k) 64 }
{
    cells as f64 * k as f64 / CELLS_IN_A_METRE
}

// An extent with cells of side k/64 metre.
pub fn measured(e: Extent, k: u16) -> Room
    requires { e.count ≤ 65535 }
    ensures { room_of result ≡ sized k (extent_at e) }
{
    let size = Size {
        floor: floor(e.count, k),
        x_least: edge(e.x_least, k),
        x_past: edge(e.x_past, k),
        z_least: edge(e.z_least, k),
        z_past: edge(e.z_past, k),
    };
    Room {
        size,
        area: e.area,
        count: e.count as u16,
    }
}
