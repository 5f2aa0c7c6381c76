ghost use Rattle.std.specs.Prelude.{◌≡◌, [], ◌++◌, length, is_ok, IfOk, if◌then◌else◌, OnOk, ◌==◌, nat_eq};
ghost use Rattle.std.specs.List.{flat_map};
ghost use Rattle.batches.specs.Commands.{bytes_in, table_of, tables_of};
ghost use Rattle.batches.specs.Theorems.{WrittenLoads};
ghost use Rattle.batches.specs.Written.{table_bytes, written};

use crate::command::{Command, End};
use crate::writer::{BatchWriter, TableData};
use std::alloc::{AllocError, Global};
use std::convert::AsSlice;
use values::area::{WrongLength, write_over};

// Writes a command; nothing is written where the area has not just as many bytes as the command.
pub fn write<C: Command>(command: C, out: &mut [u8]) -> Result<(), WrongLength>
    ensures answer { is_ok result ≡ (length out.old == C.width) }
    ensures area { out.new ≡ (if nat_eq (length out.old) C.width then C.command command else out.old) }
{
    let command = command.to_command();
    write_over(command.as_slice(), out)
}

impl BatchWriter {
    pub fn new(heap: Global) -> BatchWriter
        ensures { bytes_in result ≡ [] }
    {
        BatchWriter {
            bytes: Vec::new(heap),
        }
    }

    // Writes a command behind those before it.
    pub fn put<C: Command>(&mut self, command: C) -> Result<(), AllocError>
        ensures { bytes_in self.new ≡ (if is_ok result then bytes_in self.old ++ C.command command else bytes_in self.old) }
    {
        let command = command.to_command();
        self.bytes.extend_from_slice(command.as_slice())
    }

    fn put_all<C: Command>(&mut self, commands: &[C]) -> Result<(), AllocError>
        ensures { OnOk result (bytes_in self.new ≡ bytes_in self.old ++ flat_map C.command commands.now) }
    {
        for command in commands {
            self.put(*command)?;
        }
        Ok(())
    }

    // Writes a whole table. With no columns there are no rows, so then no cell is written.
    fn whole_table(&mut self, table: &TableData) -> Result<(), AllocError>
        ensures { OnOk result (bytes_in self.new ≡ bytes_in self.old ++ table_bytes (table_of table.now)) }
    {
        self.put(table.name)?;
        self.put_all(&table.columns)?;
        if !table.columns.is_empty() {
            self.put_all(&table.cells)?;
        }
        self.put(End)
    }

    // The batch, as it has been written so far.
    #[tactic(auto, using(crate::proofs::WrittenBack::written_loads))]
    pub fn finish(self) -> Vec<u8>
        ensures bytes { result.items ≡ bytes_in self }
        ensures loads { WrittenLoads }
    {
        let BatchWriter { bytes } = self;
        bytes
    }
}

// The tables as a batch.
#[tactic(auto, using(crate::proofs::WrittenBack::written_loads))]
pub fn write_tables(heap: Global, tables: &[TableData]) -> Result<Vec<u8>, AllocError>
    ensures batch { IfOk result (λ v. v.items ≡ written (tables_of tables.now)) }
    ensures loads { WrittenLoads }
{
    let mut writer = BatchWriter::new(heap);
    for table in tables {
        writer.whole_table(table)?;
    }
    Ok(writer.finish())
}
