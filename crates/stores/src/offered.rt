ghost use Rattle.std.specs.Prelude.{◌≡◌, ◌≤◌, length, take};
ghost use Rattle.batches.specs.Layouts.{told_by};
ghost use Rattle.batches.specs.Reading.{reading};
ghost use Rattle.stores.specs.Kept.{kept_as};
ghost use Rattle.stores.specs.Refusals.{shelf_refusal, store_refusal};
ghost use Rattle.stores.specs.Shelved.{name_offered, offered, outcome, table_offered};
ghost use Rattle.values.specs.Named.{name_bytes};

use crate::faults::{ShelfFault, StoreFault};
use crate::kept::KeptTable;
use batches::checking::check;
use batches::layout::Catalog;
use values::name::Name;

// The name in sixteen bytes.
fn lawful_name(bytes: [u8; 16]) -> Result<Name, StoreFault>
    ensures { outcome name_bytes store_refusal result ≡ name_offered bytes }
{
    Name::new(&bytes).ok_or(StoreFault::Name)
}

// Where the one table of a batch lies.
#[tactic(auto, using(crate::proofs::Offering::one_offered, crate::proofs::Offering::not_one, crate::proofs::Offering::unread, crate::proofs::Exits::carried))]
fn only_table(batch: &[u8]) -> Result<Catalog, StoreFault>
    ensures { outcome (told_by batch.now) store_refusal result ≡ table_offered (reading batch.now) }
{
    let catalog = check(batch)?;
    if catalog.len() != 1 {
        return Err(StoreFault::Batch { place: 0 });
    }
    Ok(catalog)
}

// The bytes of a place that begin with a batch.
fn area_with(batch: &[u8]) -> [u8; 2048]
    requires { length batch.now ≤ 2048 }
    ensures { take (length batch.now) result ≡ batch.now }
{
    let mut bytes = [0; 2048];
    bytes[0..batch.len()].copy_from_slice(batch);
    bytes
}

impl KeptTable {
    // The one table of a batch under a name.
    pub(crate) fn new(name: [u8; 16], batch: &[u8]) -> Result<KeptTable, ShelfFault>
        ensures { outcome kept_as shelf_refusal result ≡ offered name batch.now }
    {
        let name = lawful_name(name)?;
        if batch.len() > 2048 {
            return Err(ShelfFault::BatchTooLong);
        }
        let catalog = only_table(batch)?;
        let bytes = area_with(batch);
        Ok(KeptTable {
            name,
            length: batch.len(),
            bytes,
            catalog,
        })
    }
}
