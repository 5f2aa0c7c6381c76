// What a batch store tells, and what a refused load leaves.
use crate::pieces::*;
use std::alloc::AllocError;
use std::test::Fail;
use stores::batch_store::BatchStore;
use stores::faults::{Fault, LoadError, StoreFault};
use stores::store::{Listed, Store};
use values::kinds::ColumnType;
use values::value::Value;

#[test]
fn an_empty_store_tells_nothing(rt: HostRuntime) -> Result<(), Fail> {
    let store = BatchStore::new(rt.alloc());
    assert_eq!(rt; store.find(name(b"sheet")?), None);
    assert!(rt; store.name(0).is_none());
    assert_eq!(rt; store.count(0), None);
    assert!(rt; store.column(0, 0).is_none());
    assert!(rt; store.cell(0, 0, 0).is_none());
    Ok(())
}

#[test]
fn answers_by_name_row_and_column(rt: HostRuntime) -> Result<(), Fail> {
    let store = loaded(rt.alloc(), &sheets(rt.alloc(), name(b"sheet")?, 3)?)?;
    assert_eq!(rt; store.find(name(b"sheet")?), Some(0));
    assert_eq!(rt; store.find(name(b"sheets")?), None);
    assert_eq!(rt; store.count(0), Some(3));
    assert_eq!(rt; store.count(1), None);
    let second = column(b"cand", ColumnType::Text)?;
    assert!(rt; store.column(0, 1) == Some(second));
    assert!(rt; store.column(0, 2).is_none());
    same_value(&rt, store.cell(0, 2, 0), Some(Value::integer(2)));
    same_value(&rt, store.cell(0, 2, 1), Some(Value::null()));
    same_value(&rt, store.cell(0, 3, 0), None);
    same_value(&rt, store.cell(0, 0, 2), None);
    Ok(())
}

#[test]
fn rows_past_65536_are_their_own(rt: HostRuntime) -> Result<(), Fail> {
    let store = loaded(rt.alloc(), &sheets(rt.alloc(), name(b"sheet")?, 65_538)?)?;
    assert_eq!(rt; store.count(0), Some(65_538));
    same_value(&rt, store.cell(0, 65_535, 0), Some(Value::integer(65_535)));
    same_value(&rt, store.cell(0, 65_536, 0), Some(Value::integer(65_536)));
    same_value(&rt, store.cell(0, 65_537, 0), Some(Value::integer(65_537)));
    same_value(&rt, store.cell(0, 65_538, 0), None);
    Ok(())
}

#[test]
fn a_refused_load_changes_nothing(rt: HostRuntime) -> Result<(), Fail> {
    let mut store = loaded(rt.alloc(), &sheets(rt.alloc(), name(b"sheet")?, 2)?)?;
    let refused = store.load(rt.alloc(), b"\x01sheet           \x7f");
    let fault = StoreFault::Batch { place: 17 };
    assert_eq!(rt; refused, Err(LoadError::Refused(fault)));
    assert_eq!(rt; fault.number(), 7);
    assert_eq!(rt; fault.place(), 17);
    assert_eq!(rt; store.count(0), Some(2));
    same_value(&rt, store.cell(0, 1, 0), Some(Value::integer(1)));
    Ok(())
}

#[test]
fn another_load_takes_the_place_of_the_first(rt: HostRuntime) -> Result<(), Fail> {
    let mut store = loaded(rt.alloc(), &sheets(rt.alloc(), name(b"first")?, 2)?)?;
    let second = sheets(rt.alloc(), name(b"second")?, 1)?;
    store.load(rt.alloc(), &second)?;
    assert_eq!(rt; store.find(name(b"first")?), None);
    assert_eq!(rt; store.find(name(b"second")?), Some(0));
    assert_eq!(rt; store.count(0), Some(1));
    store.load(rt.alloc(), b"")?;
    assert_eq!(rt; store.find(name(b"second")?), None);
    Ok(())
}
