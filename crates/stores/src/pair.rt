// Two stores held as one: the first's tables come first, and a table that both tell with the same
// columns has the rows of both. It is neither `Copy` nor `Clone`.
#[derive(Drop)]
pub struct Pair<A, B> {
    pub(crate) first: A,
    pub(crate) second: B,
}

// The number of a pair's table: that of the one store whose table it is, or those of both where it
// has the rows of both.
#[derive(Clone, Copy)]
pub enum PairNumber<M, N> {
    First(M),
    Second(N),
    Both(M, N),
}
