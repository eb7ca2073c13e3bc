// From a column, a row and a layer to a span's number, and back.
ghost use Rattle.std.specs.Prelude.{◌<◌, ◌≤◌, IfSome};

use field::lent::Heightfield;

// The column, row and layer asked for; none where the text was no number, or one above 99,999: no field has such a column, row or layer.
#[derive(Clone, Copy)]
pub struct Asked {
    pub x: Option<u32>,
    pub z: Option<u32>,
    pub layer: Option<u32>,
}

// Where a span is: its cell, and its layer there.
#[derive(Clone, Copy)]
pub struct Spot {
    pub cell: usize,
    pub layer: usize,
}

// Why there is no span at a place: no cell, or a cell with so many layers, none of them that one.
#[derive(Clone, Copy)]
pub enum Missing {
    NoCell,
    NoLayer(u8),
}

// The number asked for, where it is below a limit.
fn below(asked: Option<u32>, limit: usize) -> Option<usize>
    ensures { IfSome result (λ n. n < limit) }
{
    asked.map(|n| n as usize).filter(|&n| n < limit)
}

// The cell asked for, of a field as wide and high as a file can have it.
fn cell_of(asked: Asked, field: &Heightfield) -> Option<usize>
    requires { (field.now.w ≤ 65535) × (field.now.h ≤ 65535) }
{
    let x = below(asked.x, field.w)?;
    let z = below(asked.z, field.h)?;
    Some(x + z * field.w)
}

// The span asked for, of a field whose indices are right.
pub(crate) fn find(asked: Asked, field: &Heightfield) -> Result<u32, Missing>
    requires { (field.now.w ≤ 65535) × (field.now.h ≤ 65535) }
{
    let cell = cell_of(asked, field).ok_or(Missing::NoCell)?;
    let layers = *field.count.get(cell).ok_or(Missing::NoCell)?;
    let layer = below(asked.layer, layers as usize).ok_or(Missing::NoLayer(layers))?;
    let first = *field.index.get(cell).ok_or(Missing::NoCell)?;
    first.checked_add(layer as u32).ok_or(Missing::NoCell)
}

// The place of span s.
pub(crate) fn spot_of(count: &[u8], s: usize) -> Spot {
    let mut left = s;
    for (cell, &k) in count.iter().enumerate() {
        let k = k as usize;
        if left < k {
            return Spot { cell, layer: left };
        }
        left -= k;
    }
    Spot {
        cell: count.len(),
        layer: left,
    }
}
