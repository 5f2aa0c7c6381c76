ghost use Rattle.std.specs.Prelude.{◌≡◌, ℕ, true, List, is_some, Some, Option};
ghost use Rattle.std.specs.Option.{option_map};
ghost use Rattle.batches.specs.Asked.{chained};
ghost use Rattle.batches.specs.Columns.{heading_of};
ghost use Rattle.batches.specs.Tables.{Table, Told};
ghost use Rattle.stores.specs.Meaning.{Lawful, column_of, count_of, lookup, name_told, value_of};
ghost use Rattle.values.specs.Cells.{cell_of};
ghost use Rattle.values.specs.Named.{name_bytes};

use batches::columns::Column;
use values::name::Name;
use values::value::Value;

// What tells tables. Each store chooses what a table's number is; a number is found by the table's
// name, and the other questions take it. No question changes what is told.
pub trait Store {
    type Number: Copy;

    // The tables, under their names and in order.
    ghost told: { Self → Told };

    // The number of the table with a name.
    ghost number: { Self → List ℕ → Option Self.Number };

    // The table that a number stands for, if any.
    ghost stands: { Self → Self.Number → Option Table };

    fn find(&self, name: Name) -> Option<Self::Number>
        ensures { result ≡ number self.now (name_bytes name) };

    fn column(&self, table: Self::Number, i: usize) -> Option<Column>
        ensures { option_map heading_of result ≡ column_of (stands self.now table) i };

    fn count(&self, table: Self::Number) -> Option<usize>
        ensures { result ≡ count_of (stands self.now table) };

    fn cell(&self, table: Self::Number, row: usize, column: usize) -> Option<Value>
        ensures { option_map cell_of result ≡ value_of (stands self.now table) row column };

    ghost lawful: { (s : Self) → Lawful (told s) };

    ghost named: { (s : Self) (n : List ℕ) → chained (number s n) (stands s) ≡ lookup (told s) n };

    ghost known: { (s : Self) (n : List ℕ) (k : Self.Number) → number s n ≡ Some k → is_some (stands s k) ≡ true };

    ghost distinct: { (s : Self) (m n : List ℕ) (k : Self.Number) → number s m ≡ Some k → number s n ≡ Some k → m ≡ n };
}

// A store whose tables can be gone through in the order in which they are told.
pub trait Listed: Store {
    // The name of the table at a place in that order; none past the last.
    fn name(&self, place: usize) -> Option<Name>
        ensures { option_map name_bytes result ≡ name_told (Self.Store.told self.now) place };
}
