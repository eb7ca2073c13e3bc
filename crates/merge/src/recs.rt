// The records, read from the workspace.
ghost use Rattle.std.specs.Prelude.{◌≡◌, ◌<◌, length, get_or};
ghost use Rattle.rules.specs.Base.{any};
ghost use Rattle.table.specs.Map.{lists_at, floor_parts_at};
ghost use Rattle.table.specs.View.{view, Below, record_at, RecordsIn};
ghost use Rattle.pool.specs.Bearers.{Bearers, Borne};
ghost use Rattle.pool.specs.Fixed.{floor_is, floor_in, suits_f};

use pool::{many, next_of};
use table::list_of;
use table::map::{AREAS, FLOORS, LISTS};

// Does the list hold a record whose id is b?
fn any_floor(ws: &[u16], l: &[u16], b: u16) -> bool
    requires { Below (length ws.now) l.now }
    ensures { result ≡ any (floor_is ws.now b) l.now }
{
    // Not `any`: that each of these indices is in bounds would be a goal about the closure.
    for &f in l {
        if ws[f as usize] == b {
            return true;
        }
    }
    false
}

// Has some record of id a, which is the number of the first of them, a floor of id b?
fn floor_in(ws: &[u16], m: usize, a: u16, b: u16) -> bool
    requires { RecordsIn m ws.now × Bearers m ws.now × Borne m a ws.now }
    ensures { result ≡ floor_in ws.now (view ws.now m (lists_at m) (floor_parts_at m)) a b }
{
    // A walk: each record names the next that bears the id, and the last names 0.
    let mut y = a as usize;
    while y != 0 {
        if any_floor(ws, list_of(ws, m, FLOORS * m, y), b) {
            return true;
        }
        y = next_of(ws, m, y);
    }
    false
}

// The same area, listed at most once, and not a floor.
pub(crate) fn can_merge_with(ws: &[u16], m: usize, i: usize, j: usize) -> bool
    requires { RecordsIn m ws.now × Bearers m ws.now × (i < m) × (j < m) × (get_or ws.now i 0 ≡ 0 → ⊥) }
    ensures { let records = view ws.now m (lists_at m) (floor_parts_at m) in
        let own = record_at ws.now m i in
        let other = record_at ws.now m j in
        result ≡ suits_f records own other }
{
    ws[AREAS * m + i] == ws[AREAS * m + j]
        && many(list_of(ws, m, LISTS * m, i), ws[j]) <= 1
        && !floor_in(ws, m, ws[i], ws[j])
}
