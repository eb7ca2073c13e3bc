// The map of the records in the workspace: where columns and tables begin, so many numbers a record. The ids are the first column, the counts the second.
pub const AREAS: usize = 2;

pub const OVERLAPS: usize = 3;

pub const VISITED: usize = 4;

// Two columns to spare, zeros between the stages that use them.
pub const SPARE: usize = 5;

// The second of them, while records merge: the next record that bears the same id.
pub const NEXTS: usize = 6;

// The tables of the lists' parts, and of the floors' parts.
pub const LISTS: usize = 7;

pub const FLOORS: usize = 11;

// The marks `cut`.
pub const CUTS: usize = 15;

// The pool, past all columns.
pub const POOL: usize = 16;

// What a half of the pool takes: numbers a span.
pub const HALF: usize = 4;

// What the floors take, which lie after its two halves: numbers a span.
pub const FLOOR_ROOM: usize = 62;

// What pool and floors take: numbers a span.
pub const RECORD_ROOM: usize = 2 * HALF + FLOOR_ROOM;
