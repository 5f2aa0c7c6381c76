// What a series store tells.
use crate::pieces::*;
use std::test::Fail;
use stores::faults::StoreFault;
use stores::series_store::{OnlyTable, SeriesStore};
use stores::store::Store;
use values::kinds::ColumnType;
use values::name::Name;
use values::value::Value;

// The count of a series, and its first and last cells.
#[test]
fn a_series_is_worked_out(rt: HostRuntime) -> Result<(), Fail> {
    let cases = [
        (1, 3, Some(3)),
        (3, 1, Some(0)),
        (7, 7, Some(1)),
        (0, 999_999, Some(1_000_000)),
        (0, 1_000_000, None),
        (i32::MAX, i32::MAX, Some(1)),
        (i32::MIN, i32::MIN, Some(1)),
        (i32::MIN, i32::MAX, None),
    ];
    for (first, last, count) in cases {
        let store = series(first, last)?;
        assert_eq!(rt; store.count(OnlyTable), count);
    }
    let store = series(i32::MAX - 65_536, i32::MAX)?;
    same_value(
        &rt,
        store.cell(OnlyTable, 65_536, 0),
        Some(Value::integer(i32::MAX)),
    );
    same_value(&rt, store.cell(OnlyTable, 65_537, 0), None);
    same_value(&rt, store.cell(OnlyTable, 0, 1), None);
    let marked = series(i32::MIN, i32::MAX)?;
    same_value(&rt, marked.cell(OnlyTable, 0, 0), None);
    Ok(())
}

#[test]
fn a_series_tells_one_column_under_its_name(rt: HostRuntime) -> Result<(), Fail> {
    let mut store = SeriesStore::new();
    assert_eq!(rt; store.find(name(b"numbers")?), None);
    assert_eq!(rt;
        store.set(*b"Numbers         ", 1, 2),
        Err(StoreFault::Name)
    );
    assert_eq!(rt; store.find(name(b"numbers")?), None);
    store.set(*b"numbers         ", 1, 2)?;
    assert_eq!(rt;
        store.set(*b"select          ", 5, 5),
        Err(StoreFault::Name)
    );
    assert_eq!(rt; store.count(OnlyTable), Some(2));
    assert_eq!(rt; store.find(name(b"numbers")?), Some(OnlyTable));
    let only = column(b"n", ColumnType::Integer)?;
    assert!(rt; store.column(OnlyTable, 0) == Some(only));
    assert!(rt; store.column(OnlyTable, 1).is_none());
    Ok(())
}
