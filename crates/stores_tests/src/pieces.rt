// What the tests of stores are made of.
use batches::columns::Column;
use batches::command::End;
use batches::writer::BatchWriter;
use std::alloc::{AllocError, Global};
use std::process::Abort;
use std::test::Fail;
use stores::batch_store::BatchStore;
use stores::series_store::SeriesStore;
use stores::store::Store;
use values::kinds::ColumnType;
use values::name::Name;
use values::value::Value;

pub(crate) fn name(bytes: &[u8]) -> Result<Name, Fail> {
    Name::new(bytes).ok_or_else(|| Fail::new("no lawful name"))
}

pub(crate) fn column(bytes: &[u8], holds: ColumnType) -> Result<Column, Fail> {
    let name = name(bytes)?;
    Ok(Column { name, holds })
}

// A table with the columns `seq` and `cand`, and rows numbered from 0.
pub(crate) fn sheets(heap: Global, table: Name, rows: i32) -> Result<Vec<u8>, Fail> {
    let mut writer = BatchWriter::new(heap);
    writer.put(table)?;
    writer.put(column(b"seq", ColumnType::Integer)?)?;
    writer.put(column(b"cand", ColumnType::Text)?)?;
    for row in 0..rows {
        writer.put(Value::integer(row))?;
        writer.put(Value::null())?;
    }
    writer.put(End)?;
    Ok(writer.finish())
}

pub(crate) fn written(value: Option<Value>) -> Option<[u8; 17]> {
    value.map(|value| value.to_bytes())
}

pub(crate) fn same_value(rt: &impl Abort, found: Option<Value>, wanted: Option<Value>) {
    assert_eq!(rt; written(found), written(wanted));
}

pub(crate) fn loaded(heap: Global, batch: &[u8]) -> Result<BatchStore, Fail> {
    let mut store = BatchStore::new(heap);
    store.load(heap, batch)?;
    Ok(store)
}

pub(crate) fn series(first: i32, last: i32) -> Result<SeriesStore, Fail> {
    let mut store = SeriesStore::new();
    store.set(*b"numbers         ", first, last)?;
    Ok(store)
}

// A batch of two tables, each with one integer column and no row.
pub(crate) fn two_tables(heap: Global, first: Name, second: Name) -> Result<Vec<u8>, Fail> {
    let mut writer = BatchWriter::new(heap);
    for table in [first, second] {
        writer.put(table)?;
        writer.put(column(b"seq", ColumnType::Integer)?)?;
        writer.put(End)?;
    }
    Ok(writer.finish())
}

pub(crate) fn count_of<S: Store>(store: &S, table: Name) -> Option<usize> {
    store.count(store.find(table)?)
}

pub(crate) fn cell_of<S: Store>(
    store: &S,
    table: Name,
    row: usize,
    column: usize,
) -> Option<Value> {
    store.cell(store.find(table)?, row, column)
}
