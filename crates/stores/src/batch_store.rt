ghost use Rattle.std.specs.Prelude.{◌≡◌, true};
ghost use Rattle.batches.specs.Layouts.{told_by};
ghost use Rattle.stores.specs.Test.{is_lawful};

use batches::layout::Catalog;

// A store that holds the tables of the batch last loaded, and none before. It is neither `Copy` nor
// `Clone`.
#[derive(Drop)]
pub struct BatchStore {
    pub(crate) bytes: Vec<u8>,
    pub(crate) catalog: Catalog,
    ghost lawful: { is_lawful (told_by bytes.items catalog) ≡ true },
}
