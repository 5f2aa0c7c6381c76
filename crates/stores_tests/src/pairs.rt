// What a pair of stores tells.
use crate::pieces::*;
use batches::columns::Column;
use batches::command::End;
use batches::writer::BatchWriter;
use std::alloc::{AllocError, Global};
use std::test::Fail;
use stores::batch_store::BatchStore;
use stores::names::Names;
use stores::pair::Pair;
use stores::store::{Listed, Store};
use values::kinds::ColumnType;
use values::value::Value;

// A store with one table `sheet` of two columns and one row, whose first cell is null.
fn sheet(heap: Global, first: Column, second: Column) -> Result<BatchStore, Fail> {
    let mut writer = BatchWriter::new(heap);
    writer.put(name(b"sheet")?)?;
    writer.put(first)?;
    writer.put(second)?;
    writer.put(Value::null())?;
    writer.put(Value::null())?;
    writer.put(End)?;
    loaded(heap, &writer.finish())
}

#[test]
fn a_pair_joins_tables_with_the_same_columns_only(rt: HostRuntime) -> Result<(), Fail> {
    let heap = rt.alloc();
    let seq = column(b"seq", ColumnType::Integer)?;
    let cand = column(b"cand", ColumnType::Text)?;
    let renamed = column(b"pupil", ColumnType::Text)?;
    let retyped = column(b"cand", ColumnType::Real)?;
    let cases = [
        (seq, cand, 2),
        (cand, seq, 1),
        (seq, renamed, 1),
        (seq, retyped, 1),
    ];
    for (first, second, rows) in cases {
        let one = sheet(heap, seq, cand)?;
        let other = sheet(heap, first, second)?;
        let pair = Pair::new(one, other);
        assert_eq!(rt; count_of(&pair, name(b"sheet")?), Some(rows));
    }
    Ok(())
}

#[test]
fn a_pair_has_the_rows_of_the_first_and_then_of_the_second(rt: HostRuntime) -> Result<(), Fail> {
    let cases = [
        (0, 999_998, 5, 5, Some(1_000_000)),
        (0, 999_998, 5, 6, None),
        (0, 999_999, 6, 5, Some(1_000_000)),
        (0, 1_000_000, 1, 2, None),
        (1, 2, 0, 1_000_000, None),
        (i32::MIN, i32::MAX, i32::MIN, i32::MAX, None),
    ];
    for (a, b, c, d, count) in cases {
        let pair = Pair::new(series(a, b)?, series(c, d)?);
        assert_eq!(rt; count_of(&pair, name(b"numbers")?), count);
    }
    let numbers = name(b"numbers")?;
    let pair = Pair::new(series(1, 65_536)?, series(1, 3)?);
    same_value(
        &rt,
        cell_of(&pair, numbers, 65_535, 0),
        Some(Value::integer(65_536)),
    );
    same_value(
        &rt,
        cell_of(&pair, numbers, 65_536, 0),
        Some(Value::integer(1)),
    );
    same_value(
        &rt,
        cell_of(&pair, numbers, 65_538, 0),
        Some(Value::integer(3)),
    );
    same_value(&rt, cell_of(&pair, numbers, 65_539, 0), None);
    let marked = Pair::new(series(0, 1_000_000)?, series(1, 3)?);
    same_value(&rt, cell_of(&marked, numbers, 0, 0), None);
    Ok(())
}

#[test]
fn a_pair_lists_the_first_and_then_what_only_the_second_tells(rt: HostRuntime) -> Result<(), Fail> {
    let heap = rt.alloc();
    let first = loaded(heap, &two_tables(heap, name(b"alpha")?, name(b"beta")?)?)?;
    let second = loaded(heap, &two_tables(heap, name(b"beta")?, name(b"gamma")?)?)?;
    let pair = Pair::new(first, second);
    let names = [
        (0, name(b"alpha")?),
        (1, name(b"beta")?),
        (2, name(b"gamma")?),
    ];
    for (place, wanted) in names {
        assert!(rt; pair.name(place) == Some(wanted));
        assert!(rt; Names::new(&pair).nth(place) == Some(wanted));
    }
    assert!(rt; pair.name(3).is_none());
    assert!(rt; Names::new(&pair).nth(3).is_none());
    Ok(())
}

// Any store can be one of a pair, a pair too.
#[test]
fn pairs_of_pairs_are_stores(rt: HostRuntime) -> Result<(), Fail> {
    let heap = rt.alloc();
    let first = loaded(heap, &sheets(heap, name(b"sheet")?, 2)?)?;
    let second = loaded(heap, &sheets(heap, name(b"sheet")?, 3)?)?;
    let pile = Pair::new(Pair::new(first, second), series(1, 9)?);
    assert_eq!(rt; count_of(&pile, name(b"sheet")?), Some(5));
    assert_eq!(rt; count_of(&pile, name(b"numbers")?), Some(9));
    assert_eq!(rt; count_of(&pile, name(b"sheets")?), None);
    let sheet = name(b"sheet")?;
    same_value(&rt, cell_of(&pile, sheet, 1, 0), Some(Value::integer(1)));
    same_value(&rt, cell_of(&pile, sheet, 2, 0), Some(Value::integer(0)));
    same_value(&rt, cell_of(&pile, sheet, 4, 0), Some(Value::integer(2)));
    Ok(())
}
