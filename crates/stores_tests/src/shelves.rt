// What a shelf tells, what it keeps where, and what it refuses.
use crate::pieces::*;
use batches::command::End;
use batches::writer::BatchWriter;
use std::alloc::{AllocError, Global};
use std::process::Abort;
use std::test::Fail;
use stores::faults::{Fault, Layer, ShelfFault};
use stores::pair::Pair;
use stores::series_store::SeriesStore;
use stores::shelf::{Shelf, ShelfNumber};
use stores::store::Store;
use values::kinds::ColumnType;
use values::name::Name;
use values::value::Value;

// The call is refused with this layer, number and place.
fn refused(
    rt: &impl Abort,
    answer: Result<(), ShelfFault>,
    layer: Layer,
    number: u32,
    place: usize,
) -> Result<(), Fail> {
    let Err(fault) = answer else {
        return Err(Fail::new("not refused"));
    };
    assert_eq!(rt; fault.layer(), layer);
    assert_eq!(rt; fault.number(), number);
    assert_eq!(rt; fault.place(), place);
    Ok(())
}

// The place that a table is kept in.
fn place_of(shelf: &Shelf<SeriesStore>, table: Name) -> Option<usize> {
    match shelf.find(table)? {
        ShelfNumber::Place(place) => Some(place),
        ShelfNumber::Below(_) => None,
    }
}

const NAMES: [[u8; 16]; 9] = [
    *b"a               ",
    *b"b               ",
    *b"c               ",
    *b"d               ",
    *b"e               ",
    *b"f               ",
    *b"g               ",
    *b"h               ",
    *b"i               ",
];

#[test]
fn eight_places_are_filled_and_a_middle_one_is_used_again(rt: HostRuntime) -> Result<(), Fail> {
    let heap = rt.alloc();
    let mut shelf = Shelf::new(series(1, 9)?);
    for (place, kept) in NAMES[..8].iter().enumerate() {
        let batch = sheets(heap, name(b"sheet")?, place as i32)?;
        shelf.keep(*kept, &batch)?;
        assert_eq!(rt; place_of(&shelf, name(kept)?), Some(place));
    }
    let batch = sheets(heap, name(b"sheet")?, 20)?;
    refused(&rt, shelf.keep(NAMES[8], &batch), Layer::Shelf, 23, 0)?;
    shelf.drop(NAMES[3])?;
    assert_eq!(rt; count_of(&shelf, name(&NAMES[3])?), None);
    shelf.keep(NAMES[8], &batch)?;
    assert_eq!(rt; place_of(&shelf, name(&NAMES[8])?), Some(3));
    assert_eq!(rt; count_of(&shelf, name(&NAMES[8])?), Some(20));
    for (place, kept) in NAMES[..8].iter().enumerate().skip(4) {
        assert_eq!(rt; place_of(&shelf, name(kept)?), Some(place));
        assert_eq!(rt; count_of(&shelf, name(kept)?), Some(place));
    }
    assert_eq!(rt; count_of(&shelf, name(b"numbers")?), Some(9));
    Ok(())
}

#[test]
fn the_lowest_free_place_is_taken(rt: HostRuntime) -> Result<(), Fail> {
    let heap = rt.alloc();
    let batch = sheets(heap, name(b"sheet")?, 1)?;
    let mut shelf = Shelf::new(series(1, 9)?);
    for kept in &NAMES[..4] {
        shelf.keep(*kept, &batch)?;
    }
    shelf.drop(NAMES[2])?;
    shelf.drop(NAMES[0])?;
    shelf.keep(NAMES[7], &batch)?;
    assert_eq!(rt; place_of(&shelf, name(&NAMES[7])?), Some(0));
    shelf.keep(NAMES[6], &batch)?;
    assert_eq!(rt; place_of(&shelf, name(&NAMES[6])?), Some(2));
    shelf.keep(NAMES[5], &batch)?;
    assert_eq!(rt; place_of(&shelf, name(&NAMES[5])?), Some(4));
    Ok(())
}

#[test]
fn a_name_is_told_once(rt: HostRuntime) -> Result<(), Fail> {
    let heap = rt.alloc();
    let batch = sheets(heap, name(b"sheet")?, 2)?;
    let mut shelf = Shelf::new(series(1, 9)?);
    refused(
        &rt,
        shelf.keep(*b"numbers         ", &batch),
        Layer::Shelf,
        22,
        0,
    )?;
    shelf.keep(NAMES[0], &batch)?;
    let other = sheets(heap, name(b"sheet")?, 3)?;
    refused(&rt, shelf.keep(NAMES[0], &other), Layer::Shelf, 22, 0)?;
    assert_eq!(rt; count_of(&shelf, name(&NAMES[0])?), Some(2));
    assert_eq!(rt; count_of(&shelf, name(b"numbers")?), Some(9));
    // The name inside the batch is not told.
    assert_eq!(rt; count_of(&shelf, name(b"sheet")?), None);
    Ok(())
}

#[test]
fn what_is_looked_for_first(rt: HostRuntime) -> Result<(), Fail> {
    let heap = rt.alloc();
    let mut shelf = Shelf::new(series(1, 9)?);
    let one = sheets(heap, name(b"sheet")?, 1)?;
    for kept in &NAMES[..8] {
        shelf.keep(*kept, &one)?;
    }
    let unlawful = *b"Sheet           ";
    let long = sheets(heap, name(b"sheet")?, 59)?;
    let short = b"\x01sheet           \x02";
    let two = two_tables(heap, name(b"alpha")?, name(b"beta")?)?;
    refused(&rt, shelf.keep(unlawful, &long), Layer::Store, 8, 0)?;
    refused(&rt, shelf.keep(unlawful, &one), Layer::Store, 8, 0)?;
    refused(&rt, shelf.keep(NAMES[0], &long), Layer::Shelf, 9, 0)?;
    refused(&rt, shelf.keep(NAMES[0], b"\xff"), Layer::Store, 7, 0)?;
    refused(&rt, shelf.keep(NAMES[0], short), Layer::Store, 7, 18)?;
    refused(&rt, shelf.keep(NAMES[0], b""), Layer::Store, 7, 0)?;
    refused(&rt, shelf.keep(NAMES[0], &two), Layer::Store, 7, 0)?;
    refused(&rt, shelf.keep(NAMES[0], &one), Layer::Shelf, 22, 0)?;
    refused(&rt, shelf.keep(NAMES[8], &one), Layer::Shelf, 23, 0)?;
    for kept in &NAMES[..8] {
        assert_eq!(rt; count_of(&shelf, name(kept)?), Some(1));
    }
    assert_eq!(rt; count_of(&shelf, name(&NAMES[8])?), None);
    Ok(())
}

#[test]
fn only_kept_names_are_dropped(rt: HostRuntime) -> Result<(), Fail> {
    let heap = rt.alloc();
    let batch = sheets(heap, name(b"sheet")?, 2)?;
    let mut shelf = Shelf::new(series(1, 9)?);
    shelf.keep(NAMES[0], &batch)?;
    refused(&rt, shelf.drop(NAMES[1]), Layer::Shelf, 24, 0)?;
    refused(&rt, shelf.drop(*b"numbers         "), Layer::Shelf, 24, 0)?;
    refused(&rt, shelf.drop(*b"Sheet           "), Layer::Shelf, 24, 0)?;
    assert_eq!(rt; count_of(&shelf, name(&NAMES[0])?), Some(2));
    shelf.drop(NAMES[0])?;
    assert_eq!(rt; count_of(&shelf, name(&NAMES[0])?), None);
    refused(&rt, shelf.drop(NAMES[0]), Layer::Shelf, 24, 0)?;
    assert_eq!(rt; count_of(&shelf, name(b"numbers")?), Some(9));
    Ok(())
}

// A table with seven columns and sixteen rows, which has 2,048 bytes.
fn full(heap: Global) -> Result<Vec<u8>, Fail> {
    let mut writer = BatchWriter::new(heap);
    writer.put(name(b"sheet")?)?;
    for bytes in &NAMES[..7] {
        writer.put(column(bytes, ColumnType::Integer)?)?;
    }
    for cell in 0..112 {
        writer.put(Value::integer(cell))?;
    }
    writer.put(End)?;
    Ok(writer.finish())
}

#[test]
fn a_place_holds_2048_bytes(rt: HostRuntime) -> Result<(), Fail> {
    let heap = rt.alloc();
    let mut batch = full(heap)?;
    assert_eq!(rt; batch.len(), 2048);
    let mut shelf = Shelf::new(series(1, 9)?);
    shelf.keep(NAMES[0], &batch)?;
    let table = name(&NAMES[0])?;
    assert_eq!(rt; count_of(&shelf, table), Some(16));
    same_value(&rt, cell_of(&shelf, table, 0, 0), Some(Value::integer(0)));
    same_value(
        &rt,
        cell_of(&shelf, table, 15, 6),
        Some(Value::integer(111)),
    );
    same_value(&rt, cell_of(&shelf, table, 16, 0), None);
    same_value(&rt, cell_of(&shelf, table, 0, 7), None);
    batch.push(1)?;
    refused(&rt, shelf.keep(NAMES[1], &batch), Layer::Shelf, 9, 0)
}

#[test]
fn numbers_that_no_name_has_stand_for_nothing(rt: HostRuntime) -> Result<(), Fail> {
    let heap = rt.alloc();
    let mut shelf = Shelf::new(series(1, 9)?);
    shelf.keep(NAMES[0], &sheets(heap, name(b"sheet")?, 2)?)?;
    for place in [1, 7, 8, 65_536, 0xffff_ffff_ffff_ffff] {
        assert_eq!(rt; shelf.count(ShelfNumber::Place(place)), None);
        assert!(rt; shelf.column(ShelfNumber::Place(place), 0).is_none());
        assert!(rt; shelf.cell(ShelfNumber::Place(place), 0, 0).is_none());
    }
    Ok(())
}

// Stores of any make can be piled up.
#[test]
fn a_pair_of_a_shelf_and_a_pair(rt: HostRuntime) -> Result<(), Fail> {
    let heap = rt.alloc();
    let mut shelf = Shelf::new(series(1, 9)?);
    shelf.keep(*b"sheet           ", &sheets(heap, name(b"sheet")?, 2)?)?;
    let first = loaded(heap, &sheets(heap, name(b"sheet")?, 3)?)?;
    let second = loaded(heap, &sheets(heap, name(b"sheet")?, 4)?)?;
    let pile = Pair::new(shelf, Pair::new(first, second));
    let sheet = name(b"sheet")?;
    assert_eq!(rt; count_of(&pile, sheet), Some(9));
    assert_eq!(rt; count_of(&pile, name(b"numbers")?), Some(9));
    same_value(&rt, cell_of(&pile, sheet, 1, 0), Some(Value::integer(1)));
    same_value(&rt, cell_of(&pile, sheet, 2, 0), Some(Value::integer(0)));
    same_value(&rt, cell_of(&pile, sheet, 4, 0), Some(Value::integer(2)));
    same_value(&rt, cell_of(&pile, sheet, 5, 0), Some(Value::integer(0)));
    same_value(&rt, cell_of(&pile, sheet, 8, 0), Some(Value::integer(3)));
    same_value(&rt, cell_of(&pile, sheet, 9, 0), None);
    Ok(())
}
