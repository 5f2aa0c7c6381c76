// What batches are put together from, and what is asked of them.
use batches::checking::check;
use batches::layout::Catalog;
use std::alloc::{AllocError, Global};
use std::process::Abort;
use std::test::Fail;

pub(crate) const TABLE: &[u8] = b"\x01t               ";

pub(crate) const INTEGERS: &[u8] = b"\x02n               \x01";

pub(crate) const REALS: &[u8] = b"\x02x               \x02";

pub(crate) const TEXTS: &[u8] = b"\x02s               \x03";

pub(crate) const SEVEN: &[u8] =
    b"\x11\x00\x00\x00\x07\x00\x00\x00\x00\x00\x00\x00\x00\x00\x00\x00\x00";

pub(crate) const WORD: &[u8] = b"\x13a word          ";

pub(crate) const END: &[u8] = b"\x7f";

// The pieces, one after another.
pub(crate) fn joined(heap: Global, pieces: &[&[u8]]) -> Result<Vec<u8>, AllocError> {
    pieces.concat(heap)
}

// The batch is lawful.
pub(crate) fn taken(bytes: &[u8]) -> Result<Catalog, Fail> {
    check(bytes).map_err(|fault| Fail::new(format_args!("refused at {}", fault.place)))
}

// The place at which the batch is refused.
pub(crate) fn place_refused(bytes: &[u8]) -> Result<usize, Fail> {
    let fault = check(bytes).err().ok_or("taken, not refused")?;
    Ok(fault.place)
}

// The batch is refused, at this place.
pub(crate) fn refused(rt: &impl Abort, bytes: &[u8], place: usize) -> Result<(), Fail> {
    assert_eq!(rt; place_refused(bytes)?, place);
    Ok(())
}

// The batch of these pieces is refused, at this place.
pub(crate) fn refused_pieces(
    rt: &impl Abort,
    heap: Global,
    pieces: &[&[u8]],
    place: usize,
) -> Result<(), Fail> {
    let bytes = joined(heap, pieces)?;
    refused(rt, &bytes, place)
}
