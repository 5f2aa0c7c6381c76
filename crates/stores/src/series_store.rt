ghost use Rattle.std.specs.Prelude.{◌≡◌, true};
ghost use Rattle.values.specs.Cells.{in_range};

use values::name::Name;

// A name and the numbers from the first to the last.
#[derive(Clone, Copy)]
pub struct Series {
    pub(crate) name: Name,
    pub(crate) first: i32,
    pub(crate) last: i32,
    ghost from: { in_range first ≡ true },
    ghost to: { in_range last ≡ true },
}

// A store that tells one table of consecutive integers, which are worked out and not held. It tells
// nothing until it is set. It is neither `Copy` nor `Clone`.
#[derive(Drop)]
pub struct SeriesStore {
    pub(crate) series: Option<Series>,
}

// The number of a series store's one table.
#[derive(Clone, Copy, Debug, PartialEq, Eq)]
pub struct OnlyTable;
