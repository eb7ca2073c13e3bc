// Spans, layers and cells: where a connection leads.
ghost use Rattle.std.specs.Prelude.{◌≡◌, ℕ, ◌+◌, ◌*◌, ◌<◌, ◌≤◌, length, get_or};
ghost use Rattle.rules.specs.Field.{Field, cell_to, near};
ghost use Rattle.rules.specs.Field as rules;
ghost use Rattle.field.specs.Lent.{cons_at, Leaf, SomeLeaf};

// A span's number.
#[derive(Clone, Copy)]
pub struct SpanIx(pub usize);

// A span's layer within its cell: not a span's number.
#[derive(Clone, Copy)]
pub struct Layer(pub u8);

// A span and the cell that it stands in.
#[derive(Clone, Copy)]
pub struct Place {
    pub cell: usize,
    pub span: SpanIx,
}

// No span: a number past every list.
pub const NO_SPAN: usize = 65535;

// No layer.
pub const NO_LAYER: u8 = 255;

// The four connections of a span, as one value.
pub fn connections(con: &[u8], s: SpanIx) -> [u8; 4]
    requires { 4 * s.0 + 3 < length con.now }
    ensures { result ≡ cons_at con.now s.0 }
{
    let k = 4 * s.0;
    [con[k], con[k + 1], con[k + 2], con[k + 3]]
}

// The cell across from cell c in direction d, which is in the grid.
pub fn cell_across(w: usize, c: usize, d: usize) -> usize
    requires { (w ≤ 256) × (c < 65536) × (d < 4) × (d ≡ 0 → 1 ≤ c) × (d ≡ 3 → w ≤ c) }
    ensures { result ≡ cell_to w c d }
{
    match d {
        0 => c - 1,
        1 => c + w,
        2 => c + 1,
        _ => c - w,
    }
}

// The span in a layer of cell c. A loop over all layers of a cell counts on from the cell's first span instead, which costs less.
pub fn span_at(index: &[u32], c: usize, l: Layer) -> SpanIx
    requires { c < length index.now }
    ensures { result.0 ≡ get_or index.now c 0 + l.0 }
{
    SpanIx(index[c] as usize + l.0 as usize)
}

// Where the connection in direction d leads, which is not none, of a span in cell c that has the connections cons.
pub fn follow(w: usize, index: &[u32], cons: [u8; 4], c: usize, d: usize) -> Place
    requires { SomeLeaf w index.now cons c × (d < 4) × (get_or cons d 0 ≡ 255 → ⊥) }
    ensures { ((F : Field) (s : ℕ) → Leaf F w index.now cons c s → result.span.0 ≡ near F s d)
        × (result.cell ≡ cell_to w c d) × (result.span.0 ≡ 65535 → ⊥) }
{
    let cell = cell_across(w, c, d);
    let k = cons[d];
    let span = span_at(index, cell, Layer(k));
    Place { cell, span }
}
