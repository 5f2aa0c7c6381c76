ghost use Rattle.std.specs.Prelude.{◌≡◌, ℕ, ◌+◌, ◌^◌, ◌<◌, ◌≤◌, List, [], length, take, MatchOption, slice_index};
ghost use Rattle.std.specs.Option.{option_map};
ghost use Rattle.std.specs.Bool.{then_some};
ghost use Rattle.std.specs.Str.{bytes_eq};
ghost use Rattle.batches.specs.Asked.{cell_asked, column_asked, count_asked, name_asked, width_asked};
ghost use Rattle.batches.specs.Columns.{heading_of};
ghost use Rattle.batches.specs.Layouts.{cell_offset, layout_of, place_of, slice_at, type_at, told_by};
ghost use Rattle.values.specs.Cells.{cell_of};
ghost use Rattle.values.specs.Codes.{decoded};
ghost use Rattle.values.specs.Named.{name_bytes};
ghost use Rattle.values.specs.Names.{lawful_name};

use crate::columns::Column;
use crate::command_bytes::{CELL_WIDTH, COLUMN_WIDTH, TABLE_WIDTH, TYPE_OFFSET};
use crate::layout::{Catalog, Layout};
use values::kinds::ColumnType;
use values::name::Name;
use values::naming::same;
use values::value::Value;

// The type of a column that has been checked, whose byte is 1, 2 or 3.
pub(crate) fn type_at(byte: u8) -> ColumnType
    ensures { result ≡ type_at byte }
{
    ColumnType::try_from(byte).unwrap_or(ColumnType::Text)
}

// The byte at a place, and zero past the end.
fn byte_at(bytes: &[u8], place: usize) -> u8
    ensures { result ≡ slice_index bytes.now place }
{
    bytes.get(place).copied().unwrap_or(0)
}

// The N bytes from an offset on; none where they run past the end.
fn bytes_at<const N: usize>(bytes: &[u8], offset: usize) -> Option<&[u8; N]>
    ensures { MatchOption result (length bytes.now < offset + N) (λ part. (offset + N ≤ length bytes.now) × (part.now ≡ slice_at bytes.now offset N)) }
{
    bytes.get(offset..)?.first_chunk::<N>()
}

// The name whose sixteen bytes stand at an offset: none where they are no lawful name, or run past
// the end.
#[tactic(auto, using(crate::proofs::Pieces::name_short))]
pub(crate) fn name_at(bytes: &[u8], offset: usize) -> Option<Name>
    ensures { option_map name_bytes result ≡ then_some (lawful_name (slice_at bytes.now offset 16)) (slice_at bytes.now offset 16) }
{
    Name::new(bytes_at::<16>(bytes, offset)?)
}

// The value whose seventeen bytes stand at an offset: none where they are no cell, or run past the
// end.
#[tactic(auto, using(crate::proofs::Pieces::cell_short))]
pub(crate) fn value_at(bytes: &[u8], offset: usize) -> Option<Value>
    ensures { option_map cell_of result ≡ decoded (slice_at bytes.now offset 17) }
{
    Value::read(bytes_at::<CELL_WIDTH>(bytes, offset)?)
}

impl Layout {
    // Whether the table has the name of these bytes. They are compared as they lie there: a name
    // would have to be read first, and seen to be lawful.
    #[tactic(auto, using(crate::proofs::Lookup::slice_short))]
    fn is_named(&self, bytes: &[u8], name: &[u8; 16]) -> bool
        ensures { result ≡ bytes_eq name.now (slice_at bytes.now (self.now.at + 1) 16) }
    {
        bytes_at::<16>(bytes, self.at as usize + 1).is_some_and(|own| same(name, own))
    }

    // Where a cell's command stands, behind the commands of its table and columns.
    fn cell_offset(self, row: usize, column: usize) -> usize
        requires { cell_offset self row column < 2 ^ 48 }
        ensures place { result ≡ cell_offset self row column }
        ensures bounded { result < 2 ^ 48 }
    {
        let width = usize::from(self.width);
        let first = self.at as usize + TABLE_WIDTH + COLUMN_WIDTH * width;
        first + CELL_WIDTH * (width * row + column)
    }
}

// The bytes come with each question: whoever holds them, in a vector or an array, holds the catalog
// beside them and asks one question at a time, and some questions need no bytes.
impl Catalog {
    // The catalog of a batch without tables.
    pub fn empty() -> Catalog
        ensures none { (bs : List ℕ) → told_by bs result ≡ [] }
        ensures count { result.count ≡ 0 }
    {
        let none = Layout {
            at: 0,
            width: 0,
            rows: 0,
        };
        Catalog {
            tables: [none; 8],
            count: 0,
        }
    }

    fn layouts(&self) -> &[Layout]
        ensures { result.now ≡ take self.now.count self.now.tables }
    {
        &self.tables[0..self.count]
    }

    // How many tables there are.
    pub fn len(&self) -> usize
        ensures { (bs : List ℕ) → result ≡ length (told_by bs self.now) }
    {
        self.layouts().len()
    }

    fn layout(&self, table: usize) -> Option<Layout>
        ensures { result ≡ layout_of self.now table }
    {
        self.layouts().get(table).copied()
    }

    // The name of a table; none where there is no such table, or its bytes are no lawful name.
    #[tactic(auto, using(crate::proofs::Asking::name_by))]
    pub fn name(&self, bytes: &[u8], table: usize) -> Option<Name>
        ensures { option_map name_bytes result ≡ name_asked (told_by bytes.now self.now) table }
    {
        let layout = self.layout(table)?;
        name_at(bytes, layout.at as usize + 1)
    }

    // How many columns a table has.
    #[tactic(auto, using(crate::proofs::Asking::width_by))]
    pub fn width(&self, table: usize) -> Option<usize>
        ensures { (bs : List ℕ) → result ≡ width_asked (told_by bs self.now) table }
    {
        let layout = self.layout(table)?;
        Some(usize::from(layout.width))
    }

    // How many rows a table has.
    #[tactic(auto, using(crate::proofs::Asking::count_by))]
    pub fn rows(&self, table: usize) -> Option<usize>
        ensures { (bs : List ℕ) → result ≡ count_asked (told_by bs self.now) table }
    {
        let layout = self.layout(table)?;
        Some(layout.rows as usize)
    }

    // A column of a table; none where there is no such column, or its name is not lawful.
    #[tactic(auto, using(crate::proofs::Asking::column_by, crate::proofs::Asking::column_past))]
    pub fn column(&self, bytes: &[u8], table: usize, i: usize) -> Option<Column>
        ensures { option_map heading_of result ≡ column_asked (told_by bytes.now self.now) table i }
    {
        let layout = self.layout(table)?;
        if i >= usize::from(layout.width) {
            return None;
        }
        let at = layout.at as usize + TABLE_WIDTH + COLUMN_WIDTH * i;
        let name = name_at(bytes, at + 1)?;
        let holds = type_at(byte_at(bytes, at + TYPE_OFFSET));
        Some(Column { name, holds })
    }

    // The cell of a table at a row and a column. Each has seventeen bytes, so it is found at once.
    #[tactic(auto, using(crate::proofs::Asking::cell_by_lem, crate::proofs::Asking::cell_past, crate::proofs::Asking::offset_below))]
    pub fn cell(&self, bytes: &[u8], table: usize, row: usize, column: usize) -> Option<Value>
        ensures { option_map cell_of result ≡ cell_asked (told_by bytes.now self.now) table row column }
    {
        let layout = self.layout(table)?;
        let width = usize::from(layout.width);
        if row >= layout.rows as usize || column >= width {
            return None;
        }
        let offset = layout.cell_offset(row, column);
        Some(value_at(bytes, offset).unwrap_or(Value::null()))
    }

    // The number of the first table with this name.
    pub fn find(&self, bytes: &[u8], name: Name) -> Option<usize>
        ensures { result ≡ place_of (name_bytes name) (told_by bytes.now self.now) }
    {
        let name = name.to_bytes();
        let mut layouts = self.layouts().iter();
        layouts.position(|layout| layout.is_named(bytes, &name))
    }
}
