ghost use Rattle.std.specs.Prelude.{◌≡◌, ◌<◌, [], pos, ◌+ℤ◌, Some, nat_le};
ghost use Rattle.batches.specs.Columns.{heading_of};
ghost use Rattle.std.specs.Option.{option_map};
ghost use Rattle.std.specs.Bool.{then_some};
ghost use Rattle.stores.specs.Meaning.{most_rows};
ghost use Rattle.stores.specs.Series.{Sets, how_many, series_heading, series_number, series_stands, series_told};
ghost use Rattle.values.specs.Cells.{Cell, cell_of};
ghost use Rattle.stores.specs.SeriesStoreTellsLemmas.{lawful_told, named_told, known_told, same_named};

use crate::faults::StoreFault;
use crate::rows::counted;
use crate::series_store::{OnlyTable, Series, SeriesStore};
use crate::store::{Listed, Store};
use batches::columns::Column;
use values::kinds::ColumnType;
use values::name::Name;
use values::value::Value;

// The one column of a series.
fn series_column() -> Option<Column>
    ensures { option_map heading_of result ≡ Some series_heading }
{
    let name = Name::new(b"n")?;
    Some(Column {
        name,
        holds: ColumnType::Integer,
    })
}

impl SeriesStore {
    // A store that tells nothing yet.
    #[tactic(auto, unfolding(crate::specs::Series::series_told))]
    pub fn new() -> SeriesStore
        ensures { series_told result ≡ [] }
    {
        SeriesStore { series: None }
    }

    // Tells the numbers from the first to the last under a name. A name that is not lawful is
    // refused, and changes nothing.
    #[tactic(auto, unfolding(crate::specs::Series::series_told))]
    pub fn set(&mut self, name: [u8; 16], first: i32, last: i32) -> Result<(), StoreFault>
        ensures { Sets name first last (series_told self.old) (series_told self.new) result }
    {
        let name = Name::new(&name).ok_or(StoreFault::Name)?;
        self.series = Some(Series { name, first, last });
        Ok(())
    }
}

impl Series {
    // How many numbers there are; none where they are more than a table's rows may be.
    fn count(self) -> Option<usize>
        ensures { result ≡ then_some (nat_le (how_many self.first self.last) most_rows) (how_many self.first self.last) }
    {
        if self.first > self.last {
            return Some(0);
        }
        let count = (self.last as i64 - self.first as i64 + 1) as usize;
        counted(count)
    }

    // The number in a row that there is.
    fn number_at(self, row: usize) -> Value
        requires { row < how_many self.first self.last }
        ensures { cell_of result ≡ Cell.integer (self.first +ℤ pos row) }
    {
        Value::integer((self.first as i64 + row as i64) as i32)
    }
}

impl Store for SeriesStore {
    type Number = OnlyTable;

    ghost told = { series_told };

    ghost number = { series_number };

    ghost stands = { series_stands };

    ghost lawful = { unfold series_told in λ s. lawful_told s.series };

    ghost named = { unfold series_told in λ s n. named_told s.series n };

    ghost known = { λ s n k p. known_told s.series n k p };

    ghost distinct = { λ s m n k p q. same_named s.series m n k p q };

    fn find(&self, name: Name) -> Option<OnlyTable> {
        let series = self.series?;
        (name == series.name).then_some(OnlyTable)
    }

    #[tactic(auto, unfolding(crate::specs::Meaning::column_of))]
    fn column(&self, _table: OnlyTable, i: usize) -> Option<Column> {
        let _series = self.series?;
        if i > 0 {
            return None;
        }
        series_column()
    }

    #[tactic(auto, using(crate::proofs::SeriesAsked::count_is), unfolding(crate::specs::Meaning::count_of))]
    fn count(&self, _table: OnlyTable) -> Option<usize> {
        let series = self.series?;
        series.count()
    }

    #[tactic(auto, using(crate::proofs::SeriesAsked::body_marked, crate::proofs::SeriesAsked::body_counted, crate::proofs::SeriesAsked::number_here, crate::proofs::SeriesAsked::number_past, crate::proofs::SeriesAsked::number_beside), unfolding(crate::specs::Meaning::value_of))]
    fn cell(&self, _table: OnlyTable, row: usize, column: usize) -> Option<Value> {
        let series = self.series?;
        let count = series.count()?;
        if row >= count || column > 0 {
            return None;
        }
        Some(series.number_at(row))
    }
}

impl Listed for SeriesStore {
    #[tactic(auto, unfolding(crate::specs::Meaning::name_told, crate::specs::Series::series_told))]
    fn name(&self, place: usize) -> Option<Name> {
        let series = self.series?;
        if place > 0 {
            return None;
        }
        Some(series.name)
    }
}
