// What is written: the commands' bytes, and tables that read back.
use crate::pieces::*;
use batches::columns::Column;
use batches::command::{Command, End};
use batches::writer::{BatchWriter, TableData};
use batches::writing::{write, write_tables};
use std::alloc::{AllocError, Global};
use std::process::Abort;
use std::test::Fail;
use values::kinds::ColumnType;
use values::name::Name;
use values::value::Value;

// The command is written into an area of its own width, and nothing into any other.
fn in_an_area<C: Command>(
    rt: &impl Abort,
    command: C,
    width: usize,
    expected: &[u8; 19],
) -> Result<(), Fail> {
    let unwritten = [7; 19];
    for len in 0..20 {
        let mut area = [7; 19];
        assert_eq!(rt; write(command, &mut area[0..len]).is_ok(), len == width);
        assert_eq!(rt; area, if len == width { *expected } else { unwritten });
    }
    Ok(())
}

#[test]
fn commands_in_an_area(rt: HostRuntime) -> Result<(), Fail> {
    let name = Name::new(b"t").ok_or(())?;
    let holds = ColumnType::Text;
    let word = Value::text(b"a word").ok_or(())?;
    in_an_area(&rt, name, 17, b"\x01t               \x07\x07")?;
    in_an_area(
        &rt,
        Column { name, holds },
        18,
        b"\x02t               \x03\x07",
    )?;
    in_an_area(&rt, word, 17, b"\x13a word          \x07\x07")?;
    in_an_area(
        &rt,
        End,
        1,
        b"\x7f\x07\x07\x07\x07\x07\x07\x07\x07\x07\x07\x07\x07\x07\x07\x07\x07\x07\x07",
    )
}

#[test]
fn command_by_command(rt: HostRuntime) -> Result<(), Fail> {
    let mut writer = BatchWriter::new(rt.alloc());
    writer.put(Name::new(b"t").ok_or(())?)?;
    let name = Name::new(b"n").ok_or(())?;
    writer.put(Column {
        name,
        holds: ColumnType::Integer,
    })?;
    writer.put(Value::integer(7))?;
    writer.put(Value::null())?;
    writer.put(End)?;
    let bytes = writer.finish();
    let null = b"\x10\0\0\0\0\0\0\0\0\0\0\0\0\0\0\0\0";
    let expected = joined(rt.alloc(), &[TABLE, INTEGERS, SEVEN, null, END])?;
    assert!(rt; bytes == expected);
    assert_eq!(rt; taken(&bytes)?.rows(0), Some(2));
    Ok(())
}

fn written_both(heap: Global, first: TableData, second: TableData) -> Result<Vec<u8>, AllocError> {
    let mut tables = Vec::new(heap);
    tables.push(first)?;
    tables.push(second)?;
    write_tables(heap, &tables)
}

#[test]
fn whole_tables(rt: HostRuntime) -> Result<(), Fail> {
    let heap = rt.alloc();
    let s = Name::new(b"s").ok_or(())?;
    let n = Name::new(b"n").ok_or(())?;
    let text = Column {
        name: s,
        holds: ColumnType::Text,
    };
    let integer = Column {
        name: n,
        holds: ColumnType::Integer,
    };
    let word = Value::text(b"a word").ok_or(())?;
    let first = TableData {
        name: Name::new(b"t").ok_or(())?,
        columns: vec![in heap; text, integer]?,
        cells: vec![in heap; word, Value::integer(7)]?,
    };
    let second = TableData {
        name: Name::new(b"tt").ok_or(())?,
        columns: vec![in heap; integer]?,
        cells: Vec::new(heap),
    };
    let bytes = written_both(heap, first, second)?;
    let other = b"\x01tt              ";
    let expected = joined(
        heap,
        &[
            TABLE, TEXTS, INTEGERS, WORD, SEVEN, END, other, INTEGERS, END,
        ],
    )?;
    assert!(rt; bytes == expected);
    assert_eq!(rt; taken(&bytes)?.len(), 2);
    let none = Vec::new(heap);
    assert!(rt; write_tables(heap, &none)?.is_empty());
    Ok(())
}
