ghost use Rattle.std.specs.Prelude.{◌≡◌, Some};
ghost use Rattle.stores.specs.Refusals.{Refusal, layer_named, layer_word, shelf_refusal, store_refusal};
ghost use Rattle.stores.specs.declared.faults.LoadError.TheVariants.{OutOfMemory, Refused};
ghost use Rattle.stores.specs.declared.faults.ShelfFault.TheVariants.{Store};
ghost use Rattle.stores.specs.declared.faults.StoreFault.TheVariants.{Batch};

use batches::layout::BatchFault;
use std::alloc::AllocError;
use std::fmt;

// The part of the program that refuses.
#[derive(Clone, Copy, Debug, PartialEq, Eq)]
pub enum Layer {
    Reader,
    Checker,
    Runner,
    Store,
    Shelf,
}

// The layer's word.
impl fmt::Display for Layer {
    ghost output = { λ layer. Some (layer_word layer) };

    fn fmt<W: fmt::Write>(&self, f: &mut fmt::Formatter<W>) -> fmt::Result {
        f.write_str(match self {
            Self::Reader => "reader",
            Self::Checker => "checker",
            Self::Runner => "runner",
            Self::Store => "store",
            Self::Shelf => "shelf",
        })
    }
}

// Why a store refuses what it is given.
#[derive(Clone, Copy, Debug, PartialEq, Eq)]
pub enum StoreFault {
    // The batch is against the rules, at this place.
    Batch { place: usize },
    // The name is not lawful.
    Name,
}

// Why a batch was not loaded.
#[derive(Clone, Copy, Debug, PartialEq, Eq)]
pub enum LoadError {
    Refused(StoreFault),
    OutOfMemory,
}

// Why a shelf refuses what it is given.
#[derive(Clone, Copy, Debug, PartialEq, Eq)]
pub enum ShelfFault {
    // The name or the batch is refused as by a store.
    Store(StoreFault),
    // The batch is longer than a place.
    BatchTooLong,
    // The name is already told, by the shelf or below it.
    NameTold,
    NoPlaceFree,
    NameNotKept,
}

// What says why something is refused: a fault of any layer.
pub trait Fault {
    // The refusal, whole.
    ghost refusal: { Self → Refusal };

    // The layer that refuses.
    fn layer(self) -> Layer
        ensures { layer_named result ≡ (refusal self).layer };

    // The number under which the refusal is known. The project fixes these numbers, and they are
    // what is printed (docs/REFUSALS.md).
    fn number(self) -> u32
        ensures { result ≡ (refusal self).code };

    // Where in what was given, and 0 where there is no such place.
    fn place(self) -> usize
        ensures { result ≡ (refusal self).place };
}

impl Fault for StoreFault {
    ghost refusal = { store_refusal };

    fn layer(self) -> Layer {
        Layer::Store
    }

    fn number(self) -> u32 {
        match self {
            StoreFault::Batch { place: _ } => 7,
            StoreFault::Name => 8,
        }
    }

    fn place(self) -> usize {
        match self {
            StoreFault::Batch { place } => place,
            StoreFault::Name => 0,
        }
    }
}

// A store's fault inside a shelf's keeps its layer, its number and its place.
impl Fault for ShelfFault {
    ghost refusal = { shelf_refusal };

    fn layer(self) -> Layer {
        match self {
            ShelfFault::Store(fault) => fault.layer(),
            ShelfFault::BatchTooLong
            | ShelfFault::NameTold
            | ShelfFault::NoPlaceFree
            | ShelfFault::NameNotKept => Layer::Shelf,
        }
    }

    fn number(self) -> u32 {
        match self {
            ShelfFault::Store(fault) => fault.number(),
            ShelfFault::BatchTooLong => 9,
            ShelfFault::NameTold => 22,
            ShelfFault::NoPlaceFree => 23,
            ShelfFault::NameNotKept => 24,
        }
    }

    fn place(self) -> usize {
        match self {
            ShelfFault::Store(fault) => fault.place(),
            ShelfFault::BatchTooLong
            | ShelfFault::NameTold
            | ShelfFault::NoPlaceFree
            | ShelfFault::NameNotKept => 0,
        }
    }
}

// A batch that is refused, at the place that its check gives.
impl From<BatchFault> for StoreFault {
    ghost from_gives = { λ f r. r ≡ Batch f.place };

    fn from(fault: BatchFault) -> StoreFault {
        StoreFault::Batch { place: fault.place }
    }
}

impl From<BatchFault> for LoadError {
    ghost from_gives = { λ f r. r ≡ Refused (Batch f.place) };

    fn from(fault: BatchFault) -> LoadError {
        LoadError::Refused(StoreFault::from(fault))
    }
}

impl From<AllocError> for LoadError {
    ghost from_gives = { λ _ r. r ≡ OutOfMemory };

    fn from(_error: AllocError) -> LoadError {
        LoadError::OutOfMemory
    }
}

// A store's fault inside a shelf's, whole.
impl From<StoreFault> for ShelfFault {
    ghost from_gives = { λ f r. r ≡ Store f };

    fn from(fault: StoreFault) -> ShelfFault {
        ShelfFault::Store(fault)
    }
}
