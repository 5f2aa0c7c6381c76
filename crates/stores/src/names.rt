ghost use Rattle.std.specs.Prelude.{◌≡◌};
ghost use Rattle.std.specs.Iterator.{YieldsFirstBy, item_count};
ghost use Rattle.stores.specs.Names.{names_in, names_left};
ghost use Rattle.values.specs.Named.{name_bytes};

use crate::store::Listed;
use values::name::Name;

// The names of a store's tables, in the order in which they are told.
#[derive(Drop)]
pub struct Names<'a, S> {
    pub(crate) store: &'a S,
    // The place of the next name; none behind the last place that there can be.
    pub(crate) place: Option<usize>,
}

impl<'a, S: Listed> Names<'a, S> {
    pub fn new(store: &'a S) -> Names<'a, S>
        ensures { names_left S.Store.told result ≡ names_in (S.Store.told store.now) }
    {
        Names {
            store,
            place: Some(0),
        }
    }
}

impl<'a, S: Listed> Iterator for Names<'a, S> {
    type Item = Name;

    ghost next_gives = { YieldsFirstBy name_bytes (names_left S.Store.told) };

    ghost remaining = { item_count (names_left S.Store.told) };

    fn next(&mut self) -> Option<Name> {
        let place = self.place?;
        self.place = place.checked_add(1);
        self.store.name(place)
    }
}
