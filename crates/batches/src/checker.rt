ghost use Rattle.std.specs.Prelude.{◌≤◌, length};
ghost use Rattle.batches.specs.Checking.{Placed, Placed-prop};

use crate::layout::Catalog;

// A table in progress: the offset of its command, its columns, its whole rows and the cells of the
// row in progress.
#[derive(Clone, Copy)]
pub(crate) struct Begun {
    pub(crate) at: usize,
    pub(crate) columns: usize,
    pub(crate) rows: usize,
    pub(crate) cells: usize,
}

// What the checker expects next: a table or the close, a column or a cell of a table, or a cell.
#[derive(Clone, Copy)]
pub(crate) enum Stage {
    Between,
    Columns(Begun),
    Cells(Begun),
}

// How far a batch has been checked: what is expected next, the position, and the whole tables.
#[derive(Clone, Copy)]
pub(crate) struct Progress {
    pub(crate) stage: Stage,
    pub(crate) pos: usize,
    pub(crate) catalog: Catalog,
}

// A batch that is not too long, and how far it has been checked.
#[derive(Clone, Copy)]
pub(crate) struct Checker<'a> {
    pub(crate) bytes: &'a [u8],
    pub(crate) progress: Progress,
    ghost short: { length bytes.now ≤ 16777216 },
    ghost placed: { Placed bytes.now progress } by { Placed-prop bytes.now progress },
}
