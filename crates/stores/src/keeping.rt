ghost use Rattle.std.specs.Prelude.{◌≡◌, ◌<◌, take, Some, None, slice_set};
ghost use Rattle.std.specs.Option.{option_map};
ghost use Rattle.batches.specs.Columns.{heading_of};
ghost use Rattle.stores.specs.Kept.{kept_as};
ghost use Rattle.stores.specs.Meaning.{column_of, count_of, value_of};
ghost use Rattle.stores.specs.Placed.{holding_distinct, holding_known, holding_stands};
ghost use Rattle.stores.specs.Places.{in_places, lowest_free, place_holding, table_in};
ghost use Rattle.stores.specs.ShelfNumbers.{kept_lawful};
ghost use Rattle.stores.specs.Shelved.{all_free, holds_in};
ghost use Rattle.values.specs.Cells.{cell_of};

use crate::kept::KeptTable;
use crate::kept_tables::KeptTables;
use crate::store::Store;
use batches::columns::Column;
use values::name::Name;
use values::value::Value;

impl KeptTable {
    // The batch that the table lies in.
    fn batch(&self) -> &[u8]
        ensures { result.now ≡ take self.now.length self.now.bytes }
    {
        &self.bytes[0..self.length]
    }

    // These three are not shared with a batch store's. They are the same questions of a catalog, but
    // of bytes in an array: a type over both holders would have to carry the invariants of both, and
    // would be no plainer.
    #[tactic(auto, using(crate::proofs::KeptAsked::first_column), unfolding(crate::specs::Held::held_as))]
    fn column(&self, i: usize) -> Option<Column>
        ensures { option_map heading_of result ≡ column_of (Some (kept_as self.now).table) i }
    {
        self.catalog.column(self.batch(), 0, i)
    }

    #[tactic(auto, using(crate::proofs::KeptAsked::first_count), unfolding(crate::specs::Held::held_as))]
    fn count(&self) -> Option<usize>
        ensures { result ≡ count_of (Some (kept_as self.now).table) }
    {
        self.catalog.rows(0)
    }

    #[tactic(auto, using(crate::proofs::KeptAsked::first_cell), unfolding(crate::specs::Held::held_as))]
    fn cell(&self, row: usize, column: usize) -> Option<Value>
        ensures { option_map cell_of result ≡ value_of (Some (kept_as self.now).table) row column }
    {
        self.catalog.cell(self.batch(), 0, row, column)
    }
}

impl KeptTables {
    // Eight free places.
    pub(crate) fn new() -> KeptTables
        ensures { holds_in result ≡ all_free }
    {
        KeptTables { places: [None; 8] }
    }

    // Puts a table into a place. No place may hold a table of its name.
    #[tactic(auto, using(crate::proofs::KeptChanged::filled_apart, crate::proofs::KeptChanged::holding_set, crate::proofs::KeptChanged::still_eight))]
    pub(crate) fn put(&mut self, place: usize, table: KeptTable)
        requires { (place < 8) × (place_holding (holds_in self.old) (kept_as table).name ≡ None) }
        ensures { holds_in self.new ≡ slice_set (holds_in self.old) place (Some (kept_as table)) }
    {
        self.places[place] = Some(table);
    }

    // Frees a place.
    #[tactic(auto, using(crate::proofs::KeptChanged::freed_apart, crate::proofs::KeptChanged::holding_set, crate::proofs::KeptChanged::still_eight))]
    pub(crate) fn free(&mut self, place: usize)
        requires { place < 8 }
        ensures { holds_in self.new ≡ slice_set (holds_in self.old) place None }
    {
        self.places[place] = None;
    }

    // The lowest place that is free.
    pub(crate) fn free_place(&self) -> Option<usize>
        ensures { result ≡ lowest_free (holds_in self.now) }
    {
        self.places.iter().position(|place| place.is_none())
    }

    // The table in a place.
    fn table(&self, place: usize) -> Option<&KeptTable>
        ensures { option_map (λ t. (kept_as t.now).table) result ≡ table_in (holds_in self.now) place }
    {
        self.places.get(place)?.as_ref()
    }
}

// A kept table's number is its place.
impl Store for KeptTables {
    type Number = usize;

    ghost told = { λ s. in_places (holds_in s) };

    ghost number = { λ s n. place_holding (holds_in s) n };

    ghost stands = { λ s k. table_in (holds_in s) k };

    ghost lawful = { λ s. kept_lawful s.places s.apart };

    ghost named = { λ s n. holding_stands (holds_in s) n };

    ghost known = { λ s n k p. holding_known (holds_in s) n k p };

    ghost distinct = { λ s m n k p q. holding_distinct (holds_in s) m n k p q };

    fn find(&self, name: Name) -> Option<usize> {
        self.places
            .iter()
            .position(|place| matches!(place, Some(table) if name == table.name))
    }

    #[tactic(auto, unfolding(crate::specs::Meaning::column_of))]
    fn column(&self, table: usize, i: usize) -> Option<Column> {
        self.table(table)?.column(i)
    }

    #[tactic(auto, unfolding(crate::specs::Meaning::count_of))]
    fn count(&self, table: usize) -> Option<usize> {
        self.table(table)?.count()
    }

    #[tactic(auto, unfolding(crate::specs::Meaning::value_of))]
    fn cell(&self, table: usize, row: usize, column: usize) -> Option<Value> {
        self.table(table)?.cell(row, column)
    }
}
