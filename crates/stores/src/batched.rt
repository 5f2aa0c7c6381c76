ghost use Rattle.std.specs.Prelude.{◌≡◌, []};
ghost use Rattle.stores.specs.Batched.{batch_number, batch_stands, batch_told};
ghost use Rattle.stores.specs.Refusals.{Loads};
ghost use Rattle.stores.specs.Tested.{lawful_from_test};
ghost use Rattle.stores.specs.Found.{place_stands, place_known, place_distinct};

use crate::batch_store::BatchStore;
use crate::faults::LoadError;
use crate::store::{Listed, Store};
use batches::checking::check;
use batches::columns::Column;
use batches::layout::Catalog;
use std::alloc::Global;
use values::name::Name;
use values::value::Value;

impl BatchStore {
    // A store that tells nothing yet.
    #[tactic(auto, unfolding(crate::specs::Batched::batch_told, crate::specs::Test::is_lawful))]
    pub fn new(heap: Global) -> BatchStore
        ensures { batch_told result ≡ [] }
    {
        let catalog = Catalog::empty();
        BatchStore {
            bytes: Vec::new(heap),
            catalog,
        }
    }

    // Tells the tables of the batch in place of what was told before. A batch that is refused, or
    // for which there is no memory, changes nothing.
    #[tactic(auto, unfolding(crate::specs::Batched::batch_told))]
    pub fn load(&mut self, heap: Global, batch: &[u8]) -> Result<(), LoadError>
        ensures { Loads batch.now (batch_told self.old) (batch_told self.new) result }
    {
        let catalog = check(batch)?;
        let bytes = Vec::from_slice(heap, batch)?;
        *self = BatchStore { bytes, catalog };
        Ok(())
    }
}

impl Store for BatchStore {
    type Number = usize;

    ghost told = { batch_told };

    ghost number = { batch_number };

    ghost stands = { batch_stands };

    ghost lawful = { unfold batch_told in λ s. lawful_from_test (batch_told s) s.lawful };

    ghost named = { λ s n. place_stands (batch_told s) n };

    ghost known = { λ s n k p. place_known (batch_told s) n k p };

    ghost distinct = { λ s m n k p q. place_distinct (batch_told s) m n k p q };

    #[tactic(auto, unfolding(crate::specs::Batched::batch_told))]
    fn find(&self, name: Name) -> Option<usize> {
        self.catalog.find(&self.bytes, name)
    }

    #[tactic(auto, using(crate::proofs::Asked::column_told), unfolding(crate::specs::Batched::batch_told))]
    fn column(&self, table: usize, i: usize) -> Option<Column> {
        self.catalog.column(&self.bytes, table, i)
    }

    #[tactic(auto, using(crate::proofs::Asked::count_asked_lem), unfolding(crate::specs::Batched::batch_told))]
    fn count(&self, table: usize) -> Option<usize> {
        self.catalog.rows(table)
    }

    #[tactic(auto, using(crate::proofs::Asked::cell_asked_lem), unfolding(crate::specs::Batched::batch_told))]
    fn cell(&self, table: usize, row: usize, column: usize) -> Option<Value> {
        self.catalog.cell(&self.bytes, table, row, column)
    }
}

impl Listed for BatchStore {
    #[tactic(auto, using(crate::proofs::Asked::name_asked_told), unfolding(crate::specs::Batched::batch_told))]
    fn name(&self, place: usize) -> Option<Name> {
        self.catalog.name(&self.bytes, place)
    }
}
