ghost use Rattle.std.specs.Prelude.{◌≡◌, ℕ, List, length};
ghost use Rattle.batches.specs.Commands.{cell_command, column_command, end_command, table_command};

use crate::columns::Column;
use crate::command_bytes::{
    CELL_WIDTH, COLUMN, COLUMN_WIDTH, END, TABLE, TABLE_WIDTH, TYPE_OFFSET,
};
use std::convert::AsSlice;
use values::name::Name;
use values::value::Value;

// What a batch is written of: a name begins a table, its columns and then its cells follow, row by
// row, and an end closes it.
pub trait Command: Copy {
    // How many bytes the command has.
    ghost width: { ℕ };

    type Bytes: AsSlice<u8> + Drop;

    // The command's bytes.
    ghost command: { Self → List ℕ };

    fn to_command(self) -> Self::Bytes
        ensures bytes { Self.Bytes.items result ≡ command self }
        ensures width { length (command self) ≡ width };
}

// The end of a table.
#[derive(Clone, Copy, Debug, PartialEq, Eq)]
pub struct End;

impl Command for Name {
    ghost width = { 17 };

    type Bytes = [u8; TABLE_WIDTH];

    ghost command = { table_command };

    fn to_command(self) -> [u8; TABLE_WIDTH] {
        let mut command = [TABLE; TABLE_WIDTH];
        command[1..].copy_from_slice(&self.to_bytes());
        command
    }
}

impl Command for Column {
    ghost width = { 18 };

    type Bytes = [u8; COLUMN_WIDTH];

    ghost command = { column_command };

    fn to_command(self) -> [u8; COLUMN_WIDTH] {
        let mut command = [COLUMN; COLUMN_WIDTH];
        command[1..TYPE_OFFSET].copy_from_slice(&self.name.to_bytes());
        command[TYPE_OFFSET] = u8::from(self.holds);
        command
    }
}

impl Command for Value {
    ghost width = { 17 };

    type Bytes = [u8; CELL_WIDTH];

    ghost command = { cell_command };

    fn to_command(self) -> [u8; CELL_WIDTH] {
        self.to_bytes()
    }
}

impl Command for End {
    ghost width = { 1 };

    type Bytes = [u8; 1];

    ghost command = { λ _. end_command };

    fn to_command(self) -> [u8; 1] {
        [END]
    }
}
