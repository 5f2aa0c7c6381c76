use crate::kept_tables::KeptTables;

// A store and tables kept on top of it, in eight places of 2,048 bytes each. Nothing is allocated
// for them. It is neither `Copy` nor `Clone`.
#[derive(Drop)]
pub struct Shelf<S> {
    pub(crate) below: S,
    pub(crate) kept: KeptTables,
}

// The number of a shelf's table: a number from below, or the place of a kept table.
#[derive(Clone, Copy)]
pub enum ShelfNumber<N> {
    Below(N),
    Place(usize),
}
