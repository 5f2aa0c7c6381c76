ghost use Rattle.std.specs.Prelude.{◌≡◌};
ghost use Rattle.batches.specs.Tables.{Distinct};
ghost use Rattle.stores.specs.Places.{in_places, place_holding};
ghost use Rattle.stores.specs.Refusals.{shelf_refusal};
ghost use Rattle.stores.specs.Shelved.{after_drop, after_keep, all_free, answered, dropping, holds_in, keep_on, refusal_of, shelf_number, shelf_stands, shelf_told};
ghost use Rattle.stores.specs.Shelving.{AllTold, DropFrees, DropVisible, KeepTells, KeepVisible};
ghost use Rattle.stores.specs.Placed.{lawful_new};
ghost use Rattle.stores.specs.ShelfNumbers.{each_held, shelf_named, shelf_known, shelf_distinct};

use crate::faults::ShelfFault;
use crate::kept::KeptTable;
use crate::kept_tables::KeptTables;
use crate::shelf::{Shelf, ShelfNumber};
use crate::store::Store;
use batches::columns::Column;
use values::name::Name;
use values::value::Value;

impl<S: Store> Store for Shelf<S> {
    type Number = ShelfNumber<S::Number>;

    ghost told = { λ s. shelf_told (S.Store.told s.below) (holds_in s.kept) };

    ghost number = { λ s n. shelf_number (S.Store.number s.below n) (place_holding (holds_in s.kept) n) };

    ghost stands = { λ s k. shelf_stands (S.Store.stands s.below) (holds_in s.kept) k };

    ghost lawful = { unfold shelf_told in λ s. lawful_new (S.Store.told s.below) (in_places (holds_in s.kept)) (S.Store.lawful s.below) (each_held s.kept.places) };

    ghost named = { λ s n. shelf_named (S.Store.stands s.below) (holds_in s.kept) (S.Store.told s.below) n (S.Store.number s.below n) (S.Store.named s.below n) (S.Store.known s.below n) };

    ghost known = { λ s n k p. shelf_known (S.Store.stands s.below) (holds_in s.kept) n (S.Store.number s.below n) k (S.Store.known s.below n) p };

    ghost distinct = { λ s m n k p q. shelf_distinct (S.Store.stands s.below) (holds_in s.kept) m n (S.Store.number s.below m) (S.Store.number s.below n) k (S.Store.distinct s.below m n) p q };

    fn find(&self, name: Name) -> Option<ShelfNumber<S::Number>> {
        if let Some(number) = self.below.find(name) {
            return Some(ShelfNumber::Below(number));
        }
        let place = self.kept.find(name)?;
        Some(ShelfNumber::Place(place))
    }

    fn column(&self, table: ShelfNumber<S::Number>, i: usize) -> Option<Column> {
        match table {
            ShelfNumber::Below(number) => self.below.column(number, i),
            ShelfNumber::Place(place) => self.kept.column(place, i),
        }
    }

    fn count(&self, table: ShelfNumber<S::Number>) -> Option<usize> {
        match table {
            ShelfNumber::Below(number) => self.below.count(number),
            ShelfNumber::Place(place) => self.kept.count(place),
        }
    }

    fn cell(&self, table: ShelfNumber<S::Number>, row: usize, column: usize) -> Option<Value> {
        match table {
            ShelfNumber::Below(number) => self.below.cell(number, row, column),
            ShelfNumber::Place(place) => self.kept.cell(place, row, column),
        }
    }
}

impl<S> Shelf<S> {
    // A shelf on a store, with all its places free.
    #[tactic(auto, using(crate::proofs::Shelving::all_told))]
    pub fn new(below: S) -> Shelf<S>
        ensures below { result.below ≡ below }
        ensures places { holds_in result.kept ≡ all_free }
        ensures all_told { AllTold }
    {
        let kept = KeptTables::new();
        Shelf { below, kept }
    }

    // Frees the place of a kept table. A name that is not kept is refused, and changes nothing.
    pub fn drop(&mut self, name: [u8; 16]) -> Result<(), ShelfFault>
        ensures answer { answered shelf_refusal result ≡ refusal_of (dropping (holds_in self.old.kept) name) }
        ensures places { holds_in self.new.kept ≡ after_drop (dropping (holds_in self.old.kept) name) (holds_in self.old.kept) }
        ensures below { self.new.below ≡ self.old.below }
        ensures apart { Distinct (in_places (holds_in self.new.kept)) }
        ensures frees { DropFrees }
        ensures visible { DropVisible }
    {
        let name = Name::new(&name).ok_or(ShelfFault::NameNotKept)?;
        let place = self.kept.find(name).ok_or(ShelfFault::NameNotKept)?;
        self.kept.free(place);
        Ok(())
    }
}

impl<S: Store> Shelf<S> {
    // Tells the one table of a batch under a name, from the lowest free place. What is refused
    // changes nothing.
    pub fn keep(&mut self, name: [u8; 16], batch: &[u8]) -> Result<(), ShelfFault>
        ensures answer { answered shelf_refusal result ≡ refusal_of (keep_on (S.Store.told self.old.below) (holds_in self.old.kept) name batch.now) }
        ensures places { holds_in self.new.kept ≡ after_keep (keep_on (S.Store.told self.old.below) (holds_in self.old.kept) name batch.now) (holds_in self.old.kept) }
        ensures below { self.new.below ≡ self.old.below }
        ensures apart { Distinct (in_places (holds_in self.new.kept)) }
        ensures tells { KeepTells }
        ensures visible { KeepVisible }
    {
        let table = KeptTable::new(name, batch)?;
        if self.find(table.name).is_some() {
            return Err(ShelfFault::NameTold);
        }
        let place = self.kept.free_place().ok_or(ShelfFault::NoPlaceFree)?;
        self.kept.put(place, table);
        Ok(())
    }
}
