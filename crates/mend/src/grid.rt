// What a walk that writes connections is lent to read.

// The field but for its connections, which the walk writes.
#[derive(Clone, Copy)]
pub(crate) struct Grid<'a> {
    pub(crate) w: usize,
    pub(crate) h: usize,
    pub(crate) index: &'a [u32],
    pub(crate) count: &'a [u8],
    pub(crate) area: &'a [u8],
}
