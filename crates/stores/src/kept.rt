ghost use Rattle.std.specs.Prelude.{◌≡◌, ◌≤◌, true, [], ◌∷◌};
ghost use Rattle.stores.specs.Held.{held_as};
ghost use Rattle.stores.specs.Test.{is_lawful};

use batches::layout::Catalog;
use values::name::Name;

// A kept table: the first table of the batch in the first bytes of its area, told under a name of
// its own. The table is a `Copy` struct of fixed size: so the area is an array with a length beside
// it, and no vector.
#[derive(Clone, Copy)]
pub struct KeptTable {
    pub(crate) name: Name,
    pub(crate) length: usize,
    pub(crate) bytes: [u8; 2048],
    pub(crate) catalog: Catalog,
    ghost short: { length ≤ 2048 },
    ghost lawful: { is_lawful (held_as name length bytes catalog ∷ []) ≡ true },
}
