use crate::columns::Column;
use values::name::Name;
use values::value::Value;

// A table to be written: its cells stand row by row.
#[derive(Drop)]
pub struct TableData {
    pub name: Name,
    pub columns: Vec<Column>,
    pub cells: Vec<Value>,
}

// A batch that is being written, command by command.
#[derive(Drop)]
pub struct BatchWriter {
    pub(crate) bytes: Vec<u8>,
}
