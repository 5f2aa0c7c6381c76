use values::kinds::ColumnType;
use values::name::Name;

// A column of a table: its name, and what its cells hold besides nulls.
#[derive(Clone, Copy, PartialEq, Eq)]
pub struct Column {
    pub name: Name,
    pub holds: ColumnType,
}
