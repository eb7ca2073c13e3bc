// The border's painting (flood and expansion rule 1).

#![tactic(auto)]

ghost use Rattle.std.specs.Prelude.{◌≡◌, ◌+◌, ◌*◌, ◌<◌, ◌≤◌, min, length, get_or, replicate};
ghost use Rattle.rules.specs.Field.{Field};
ghost use Rattle.rules.specs.Growth.{painted, first_id};
ghost use Rattle.paint.specs.Paint.{Plot, put_if, walk_in, span_is, in_cell, in_rect};

// Span i, if walkable.
fn paint_span(area: &[u8], ids: &mut [u16], i: usize, region: u16)
    requires { (i < length area.now) × (length ids.old ≡ length area.now) }
    ensures { ids.new ≡ put_if (walk_in area.now (span_is i)) region ids.old }
{
    if area[i] != 0 {
        ids[i] = region;
    }
}

// The walkable spans of cell c.
fn paint_cell(index: &[u32], count: &[u8], area: &[u8], ids: &mut [u16], c: usize, region: u16)
    requires { (c < length count.now) × (length ids.old ≡ length area.now) × Plot index.now count.now (length area.now) }
    ensures { ids.new ≡ put_if (walk_in area.now (in_cell count.now c)) region ids.old }
{
    let first = index[c] as usize;
    let last = first + count[c] as usize;
    for i in first..last {
        paint_span(area, ids, i, region);
    }
}

// The cells of row z with min_x ≤ x < max_x.
fn paint_row(
    w: usize,
    index: &[u32],
    count: &[u8],
    area: &[u8],
    ids: &mut [u16],
    min_x: usize,
    max_x: usize,
    z: usize,
    region: u16,
)
    requires { (min_x ≤ max_x) × (max_x ≤ w) × ((z + 1) * w ≤ length count.now)
        × (length ids.old ≡ length area.now) × Plot index.now count.now (length area.now) }
    ensures { let here = in_rect w count.now min_x max_x z (z + 1) in
        ids.new ≡ put_if (walk_in area.now here) region ids.old }
{
    for x in min_x..max_x {
        paint_cell(index, count, area, ids, z * w + x, region);
    }
}

// The walkable spans of the cells with min_x ≤ x < max_x and min_z ≤ z < max_z.
fn paint_rect_region(
    w: usize,
    index: &[u32],
    count: &[u8],
    area: &[u8],
    ids: &mut [u16],
    min_x: usize,
    max_x: usize,
    min_z: usize,
    max_z: usize,
    region: u16,
)
    requires { (min_x ≤ max_x) × (max_x ≤ w) × (min_z ≤ max_z) × (max_z * w ≤ length count.now)
        × (length ids.old ≡ length area.now) × Plot index.now count.now (length area.now) }
    ensures { let here = in_rect w count.now min_x max_x min_z max_z in
        ids.new ≡ put_if (walk_in area.now here) region ids.old }
{
    for z in min_z..max_z {
        paint_row(w, index, count, area, ids, min_x, max_x, z, region);
    }
}

// What the four strips are painted with: the flag of a border region plus the strip's number.
const LEFT: u16 = 0x8001;

const RIGHT: u16 = 0x8002;

const LOW: u16 = 0x8003;

const HIGH: u16 = 0x8004;

// The next id after these, and where there are none.
const NEXT_AFTER_PAINT: u16 = 5;

const NEXT_UNPAINTED: u16 = 1;

// "If border size is above 0, walkable spans are painted with 0x8000 plus 1 (left columns), 2 (right), 3 (low rows), 4 (high rows),
// later paint over earlier, each strip clipped to the field; next id is then 5." Returns the next id.
pub fn paint_border(
    w: usize,
    h: usize,
    index: &[u32],
    count: &[u8],
    area: &[u8],
    ids: &mut [u16],
    border_size: u16,
) -> u16
    requires { (length count.now ≡ w * h) × (length ids.old ≡ length area.now)
        × (ids.old ≡ replicate (length area.now) 0) × Plot index.now count.now (length area.now) }
    ensures ids_after { (F : Field) → F.w ≡ w → F.h ≡ h → F.count ≡ count.now → F.area ≡ area.now
        → ids.new ≡ (painted F border_size).ids }
    ensures value { result ≡ first_id border_size }
{
    if border_size == 0 {
        return NEXT_UNPAINTED;
    }
    let b = border_size as usize;
    let border_width = b.min(w);
    let border_height = b.min(h);
    let right = w - border_width;
    let high = h - border_height;
    paint_rect_region(w, index, count, area, ids, 0, border_width, 0, h, LEFT);
    paint_rect_region(w, index, count, area, ids, right, w, 0, h, RIGHT);
    paint_rect_region(w, index, count, area, ids, 0, w, 0, border_height, LOW);
    paint_rect_region(w, index, count, area, ids, 0, w, high, h, HIGH);
    NEXT_AFTER_PAINT
}
