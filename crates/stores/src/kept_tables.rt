ghost use Rattle.std.specs.Prelude.{◌≡◌, true, length};
ghost use Rattle.stores.specs.Kept.{holding};
ghost use Rattle.stores.specs.Places.{in_places};
ghost use Rattle.stores.specs.Test.{test_distinct};

use crate::kept::KeptTable;

// Eight places, each of which is free or holds a kept table. No two hold tables of one name.
#[derive(Drop)]
pub struct KeptTables {
    pub(crate) places: [Option<KeptTable>; 8],
    ghost eight: { length places ≡ 8 },
    ghost apart: { test_distinct (in_places (holding places)) ≡ true },
}
