// Growth whole: flood and expansion rules 1 to 5.
ghost use Rattle.std.specs.Prelude.{◌≡◌, [], ℕ, ◌*◌, ◌≤◌, length};
ghost use Rattle.rules.specs.Reasons.{begins, story};
ghost use Rattle.rules.specs.Refusals.{most_spans};
ghost use Rattle.field.specs.Lent.{lent};
ghost use Rattle.net.specs.Table.{net_at};
ghost use Rattle.flood.specs.Stories.{story_of};
ghost use Rattle.growth.specs.Stops.{stop_of, next_of, story_in};
ghost use Rattle.growth.specs.Turns.{SectionsFor, Between, begun};
ghost use Rattle.growth.specs.Grow.{turns_for, tells_of, Grew, Poised, Settled, Full, Whole};
ghost use Rattle.field.specs.Seen.{seen};

use crate::turns::{Growth, Stop, turns};
use expand::expand::expand_last;
use field::lent::Heightfield;
use flood::story::{Story, begins};
use net::Sections;
use net::fill::fill_neighbours;
use paint::paint_border;
use space::{clear, clear_part};

// What growth takes of the workspace before the table: numbers a span.
pub const GROWTH_ROOM: usize = 13;

// Where the sections begin, with n spans: past the source distances and the eight level stacks.
fn sections(n: usize, table: usize) -> Sections
    requires { (n ≤ most_spans) × (13 * n ≤ table) }
    ensures { SectionsFor n result × (result.table ≡ table) }
{
    Sections {
        changes: 9 * n,
        stack: 12 * n,
        table,
    }
}

// The turns from the highest level down, and the last expansion.
fn grow_painted(
    area: &[u8],
    con: &[u8],
    dist: &[u16],
    ids: &mut [u16],
    ws: &mut [u16],
    at: Sections,
    max_distance: u16,
    next: u16,
    story: Story,
) -> Result<Growth, Stop>
    requires { Between area.now con.now at next [] 7 ids.old ws.old × (length dist.now ≡ length area.now) }
    ensures fact { let ids₀ = ids.old in let ws₀ = ws.old in
        let area₀ = area.now in let dist₀ = dist.now in
        Grew area₀ dist₀ at.table max_distance next ids₀ ws₀ (next_of result) (stop_of result) ids.new ws.new }
    ensures story_value { let net = net_at at.table area.now ws.old in
        let start = begun (length area.now) ids.old ws.old next in
        let told = tells_of net area.now dist.now (turns_for max_distance) start (story_of story) in
        stop_of result ≡ 0 → story_in (story_of story) result ≡ told }
{
    let count = max_distance / 2 + max_distance % 2;
    let g = turns(area, con, dist, ids, ws, at, count, next, story)?;
    clear_part(ws, area.len(), at.changes);
    let turned = g.story;
    let e = expand_last(area, ids, ws, at, turned);
    if e.strays {
        return Err(Stop::NoSum);
    }
    let told = e.story;
    Ok(Growth {
        next: g.next,
        story: told,
    })
}

// What is handed on: where growth was stopped, ids and workspace as they were before it.
fn settle(ids: &mut [u16], ws: &mut [u16], g: Result<Growth, Stop>) -> Result<Growth, Stop>
    requires { 9 * length ids.old ≤ length ws.old }
    ensures { (s : ℕ) → let y = story_in (begins s) g in
        Settled s (next_of g) (stop_of g) y ids.old ws.old
        (next_of result) (stop_of result) (story_in (begins s) result) ids.new ws.new }
{
    let n = ids.len();
    match g {
        Ok(_) => clear_part(ws, 0, n),
        Err(_) => {
            clear(ids);
            clear_part(ws, 0, 9 * n);
        }
    }
    g
}

// From ids 0 to the grown ids, and the table of neighbours at its place; with the story of the watched span, if there is one (NOBODY where not).
pub fn grow(
    field: &Heightfield,
    dist: &[u16],
    ids: &mut [u16],
    ws: &mut [u16],
    table: usize,
    max_distance: u16,
    border_size: u16,
    watched: u16,
) -> Result<Growth, Stop>
    requires { let F = seen field.now in
        Poised F.w F.h F.index F.count F.area F.con table ids.old ws.old × (length dist.now ≡ length F.area) }
    ensures fact { let F = seen field.now in
        let ws₀ = ws.old in
        Full F dist.now max_distance border_size table ws₀ (next_of result) (stop_of result) ids.new ws.new }
    ensures story_value { let F = seen field.now in
        stop_of result ≡ 0 → story_in (begins watched) result ≡ story F dist.now max_distance border_size watched }
    ensures whole { let F = seen field.now in
        let ws₀ = ws.old in
        Whole F dist.now max_distance border_size table ws₀ (next_of result) (stop_of result) ids.new ws.new }
    ensures untold { (stop_of result ≡ 0 → ⊥) → story_in (begins watched) result ≡ begins watched }
{
    let n = field.area.len();
    let first = paint_border(
        field.w,
        field.h,
        field.index,
        field.count,
        field.area,
        ids,
        border_size,
    );
    fill_neighbours(field, ws, table);
    let g = grow_painted(
        field.area,
        field.con,
        dist,
        ids,
        ws,
        sections(n, table),
        max_distance,
        first,
        begins(watched),
    );
    settle(ids, ws, g)
}
