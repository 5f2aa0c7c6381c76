ghost use Rattle.std.specs.Prelude.{◌≡◌, ℕ, ◌<◌, List, length, slice_index};
ghost use Rattle.batches.specs.declared.checker.Stage.TheVariants.{Between, Columns};
ghost use Rattle.batches.specs.Checking.{CellByte, InTable, Placed, Stepped, come_to, reading_by, state_of};
ghost use Rattle.batches.specs.Reading.{close, reading, start};
ghost use Rattle.batches.specs.Theorems.{OneReading, ReadsExactly, RefusedThere, TablesDescribed};

use crate::checker::{Begun, Checker, Progress, Stage};
use crate::command_bytes::{
    CELL_WIDTH, COLUMN, COLUMN_WIDTH, END, NULL, TABLE, TABLE_WIDTH, TEXT, TYPE_OFFSET,
};
use crate::layout::{BatchFault, Catalog, Layout};
use crate::reads::{name_at, type_at, value_at};
use values::kinds::ColumnType;

// The most bytes that a batch may have.
pub const LONGEST: usize = 16_777_216;

impl Progress {
    fn start() -> Progress
        ensures { (bs : List ℕ) → Placed bs result × (state_of bs result ≡ start) × (result.pos ≡ 0) }
    {
        Progress {
            stage: Stage::Between,
            pos: 0,
            catalog: Catalog::empty(),
        }
    }

    // The tables, where the batch may close here.
    fn close(self) -> Result<Catalog, BatchFault>
        ensures { (bs : List ℕ) → reading_by bs result ≡ close (state_of bs self) self.pos }
    {
        match self.stage {
            Stage::Between => Ok(self.catalog),
            Stage::Columns(_) | Stage::Cells(_) => Err(BatchFault { place: self.pos }),
        }
    }
}

impl Checker<'_> {
    // An end of the table in progress: there are columns, and no row is begun.
    #[tactic(auto, using(crate::proofs::Ends::rows_few))]
    fn take_end(&mut self, table: Begun) -> Result<(), BatchFault>
        requires table { InTable table self.old.progress.stage }
        requires byte { slice_index self.old.bytes.now self.old.progress.pos ≡ 127 }
        ensures step { Stepped self.old.bytes.now self.old.progress (come_to self.new.progress result) }
        ensures bytes { self.new.bytes ≡ self.old.bytes }
    {
        let at = self.progress.pos;
        if table.columns == 0 || table.cells != 0 {
            return Err(BatchFault { place: at });
        }
        let mut catalog = self.progress.catalog;
        let count = catalog.count;
        catalog.tables[count] = Layout {
            at: table.at as u32,
            width: table.columns as u8,
            rows: table.rows as u32,
        };
        catalog.count = count + 1;
        self.progress = Progress {
            stage: Stage::Between,
            pos: at + 1,
            catalog,
        };
        Ok(())
    }

    // One column more: a lawful name and a type.
    fn take_column(&mut self, table: Begun) -> Result<(), BatchFault>
        requires stage { self.old.progress.stage ≡ Columns table }
        requires byte { slice_index self.old.bytes.now self.old.progress.pos ≡ 2 }
        ensures step { Stepped self.old.bytes.now self.old.progress (come_to self.new.progress result) }
        ensures bytes { self.new.bytes ≡ self.old.bytes }
    {
        let at = self.progress.pos;
        if table.columns >= 8 {
            return Err(BatchFault { place: at });
        }
        let len = self.bytes.len();
        if len - at < COLUMN_WIDTH {
            return Err(BatchFault { place: len });
        }
        let named = name_at(self.bytes, at + 1).is_some();
        if !named || ColumnType::try_from(self.bytes[at + TYPE_OFFSET]).is_err() {
            return Err(BatchFault { place: at });
        }
        self.progress = Progress {
            stage: Stage::Columns(Begun {
                columns: table.columns + 1,
                ..table
            }),
            pos: at + COLUMN_WIDTH,
            ..self.progress
        };
        Ok(())
    }

    // One cell more, null or of its column's type, which may fill its row.
    fn take_cell(&mut self, table: Begun) -> Result<(), BatchFault>
        requires table { InTable table self.old.progress.stage }
        requires byte { CellByte (slice_index self.old.bytes.now self.old.progress.pos) }
        ensures step { Stepped self.old.bytes.now self.old.progress (come_to self.new.progress result) }
        ensures bytes { self.new.bytes ≡ self.old.bytes }
    {
        let at = self.progress.pos;
        if table.cells >= table.columns {
            return Err(BatchFault { place: at });
        }
        let first = table.at + TABLE_WIDTH;
        let column = type_at(self.bytes[first + COLUMN_WIDTH * table.cells + TYPE_OFFSET]);
        if !column.accepts_command(self.bytes[at]) {
            return Err(BatchFault { place: at });
        }
        let len = self.bytes.len();
        if len - at < CELL_WIDTH {
            return Err(BatchFault { place: len });
        }
        if value_at(self.bytes, at).is_none() {
            return Err(BatchFault { place: at });
        }
        let table = if table.cells + 1 < table.columns {
            Begun {
                cells: table.cells + 1,
                ..table
            }
        } else {
            Begun {
                cells: 0,
                rows: table.rows + 1,
                ..table
            }
        };
        self.progress = Progress {
            stage: Stage::Cells(table),
            pos: at + CELL_WIDTH,
            ..self.progress
        };
        Ok(())
    }

    // A table's command: a lawful name that no table before it has.
    #[tactic(auto, using(crate::proofs::NewTables::ninth_table, crate::proofs::NewTables::table_cut, crate::proofs::Stages::byte_within))]
    fn take_table(&mut self) -> Result<(), BatchFault>
        requires stage { self.old.progress.stage ≡ Between }
        requires byte { slice_index self.old.bytes.now self.old.progress.pos ≡ 1 }
        ensures step { Stepped self.old.bytes.now self.old.progress (come_to self.new.progress result) }
        ensures bytes { self.new.bytes ≡ self.old.bytes }
    {
        let catalog = self.progress.catalog;
        let at = self.progress.pos;
        if catalog.count >= 8 {
            return Err(BatchFault { place: at });
        }
        let len = self.bytes.len();
        if len - at < TABLE_WIDTH {
            return Err(BatchFault { place: len });
        }
        let name = name_at(self.bytes, at + 1).ok_or(BatchFault { place: at })?;
        if catalog.find(self.bytes, name).is_some() {
            return Err(BatchFault { place: at });
        }
        self.progress = Progress {
            stage: Stage::Columns(Begun {
                at,
                columns: 0,
                rows: 0,
                cells: 0,
            }),
            pos: at + TABLE_WIDTH,
            catalog,
        };
        Ok(())
    }

    // Takes the command at the position, or refuses it at its place. The progress is changed in
    // place: it holds the whole catalog, which would be copied for each cell.
    #[tactic(auto, using(crate::proofs::OtherBytes::no_table))]
    fn step(&mut self) -> Result<(), BatchFault>
        requires within { self.old.progress.pos < length self.old.bytes.now }
        ensures step { Stepped self.old.bytes.now self.old.progress (come_to self.new.progress result) }
        ensures bytes { self.new.bytes ≡ self.old.bytes }
    {
        let place = self.progress.pos;
        // The project fixes this form: what may stand here is one match on the stage and the byte.
        match (self.progress.stage, self.bytes[place]) {
            (Stage::Between, TABLE) => self.take_table(),
            (Stage::Columns(table), COLUMN) => self.take_column(table),
            (Stage::Columns(table) | Stage::Cells(table), NULL..=TEXT) => self.take_cell(table),
            (Stage::Columns(table) | Stage::Cells(table), END) => self.take_end(table),
            _ => Err(BatchFault { place }),
        }
    }
}

// The tables of a batch, or the place at which it is refused.
pub fn check(bytes: &[u8]) -> Result<Catalog, BatchFault>
    ensures answer { reading_by bytes.now result ≡ reading bytes.now }
    ensures exactly { ReadsExactly }
    ensures one { OneReading }
    ensures refused { RefusedThere }
    ensures described { TablesDescribed }
{
    if bytes.len() > LONGEST {
        return Err(BatchFault { place: LONGEST });
    }
    let progress = Progress::start();
    let mut checker = Checker { bytes, progress };
    // Each command has a width of its own. An iterator over them would be no plainer: it would have
    // to carry this progress and the refusal.
    while checker.progress.pos < bytes.len() {
        checker.step()?;
    }
    checker.progress.close()
}
