// The bytes that begin a batch's commands, and how many bytes each command has with its operand.
pub(crate) const TABLE: u8 = 0x01;

pub(crate) const COLUMN: u8 = 0x02;

// The first of the cells' four commands, a null's, and the last, a text's.
pub(crate) const NULL: u8 = 0x10;

pub(crate) const TEXT: u8 = 0x13;

pub(crate) const END: u8 = 0x7f;

pub(crate) const TABLE_WIDTH: usize = 17;

pub(crate) const COLUMN_WIDTH: usize = 18;

pub(crate) const CELL_WIDTH: usize = 17;

// Where a column's command has its type's byte: behind its own byte and the name.
pub(crate) const TYPE_OFFSET: usize = 17;
