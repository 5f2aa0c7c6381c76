ghost use Rattle.std.specs.Prelude.{◌≤◌};

// Where a table lies in its batch: the offset of its command, how many columns it has, and how many
// rows. Columns and cells have fixed widths, so each is found from these three numbers.
#[derive(Clone, Copy)]
pub struct Layout {
    pub(crate) at: u32,
    pub(crate) width: u8,
    pub(crate) rows: u32,
}

// The tables of a batch, in its order: the first `count` layouts. They stand in an array, since a
// catalog allocates nothing and is copied, which no vector is.
#[derive(Clone, Copy)]
pub struct Catalog {
    pub(crate) tables: [Layout; 8],
    pub(crate) count: usize,
    ghost few: { count ≤ 8 },
}

// A batch is against the rules at this place.
#[derive(Clone, Copy, Debug, PartialEq, Eq)]
pub struct BatchFault {
    pub place: usize,
}
