// Batches of many rows: each is written, checked and read back, and a line says what was found.
#![tactic(auto)]

use anyhow::anyhow;
use batches::checking::check;
use batches::columns::Column;
use batches::command::End;
use batches::writer::BatchWriter;
use std::alloc::{AllocError, Global};
use values::kinds::ColumnType;
use values::name::Name;
use values::value::Value;

// Writes a table whose columns hold integers. Its cells hold their own numbers, counted row by row:
// with one column, the numbers of the rows.
fn numbered(
    writer: &mut BatchWriter,
    name: Name,
    columns: i32,
    rows: i32,
) -> Result<(), AllocError> {
    let holds = ColumnType::Integer;
    writer.put(name)?;
    for _ in 0..columns {
        writer.put(Column { name, holds })?;
    }
    for number in 0..columns.wrapping_mul(rows) {
        writer.put(Value::integer(number))?;
    }
    writer.put(End)
}

fn lawful(bytes: &[u8]) -> anyhow::Result<Name> {
    Name::new(bytes).ok_or_else(|| anyhow!("no lawful name"))
}

fn one_table(heap: Global, columns: i32, rows: i32) -> anyhow::Result<Vec<u8>> {
    let mut writer = BatchWriter::new(heap);
    numbered(&mut writer, lawful(b"t")?, columns, rows)?;
    Ok(writer.finish())
}

// The number in an integer's cell; none for any other cell.
fn number_in(value: Option<Value>) -> Option<u32> {
    let [0x11, a, b, c, d, ..] = value?.to_bytes() else {
        return None;
    };
    Some(u32::from_be_bytes([a, b, c, d]))
}

// What is found in a batch: how many rows its first table has, and the numbers in the cells of some
// rows at the table's last column.
fn show(rt: &impl Print, bytes: &[u8]) -> anyhow::Result<()> {
    let len = bytes.len();
    let catalog = match check(bytes) {
        Ok(catalog) => catalog,
        Err(fault) => {
            let place = fault.place;
            println!(rt; "{len} bytes: refused at {place}")?;
            return Ok(());
        }
    };
    let tables = catalog.len();
    let rows = catalog.rows(0).unwrap_or(0);
    let width = catalog.width(0).unwrap_or(0);
    print!(rt; "{len} bytes: tables {tables}, columns {width}, rows {rows}; cells")?;
    let last = width.saturating_sub(1);
    for row in [
        0, 254, 255, 256, 65_534, 65_535, 65_536, 131_072, 986_875, 986_891,
    ] {
        if let Some(number) = number_in(catalog.cell(bytes, 0, row, last)) {
            print!(rt; " {row}={number}")?;
        }
    }
    let past = catalog.cell(bytes, 0, rows, last).is_some()
        || catalog.cell(bytes, 0, 0, width).is_some();
    println!(rt; "; past the ends {past}")?;
    Ok(())
}

fn row_counts(rt: &HostRuntime) -> anyhow::Result<()> {
    println!(rt; "one column, many rows")?;
    for rows in [0, 1, 255, 256, 65_535, 65_536, 65_537, 986_892, 986_893] {
        let bytes = one_table(rt.alloc(), 1, rows)?;
        show(rt, &bytes)?;
    }
    println!(rt; "more columns, many rows")?;
    for columns in [2, 8] {
        let bytes = one_table(rt.alloc(), columns, 65_537)?;
        show(rt, &bytes)?;
    }
    Ok(())
}

// The longest batch: a table of one column, and two tables of seven columns with no rows. One byte
// more is too much, whatever the bytes are.
fn longest(rt: &HostRuntime) -> anyhow::Result<()> {
    println!(rt; "the longest batch, and one byte more")?;
    let heap = rt.alloc();
    let mut writer = BatchWriter::new(heap);
    numbered(&mut writer, lawful(b"a")?, 1, 986_876)?;
    numbered(&mut writer, lawful(b"b")?, 7, 0)?;
    numbered(&mut writer, lawful(b"c")?, 7, 0)?;
    let mut bytes = writer.finish();
    show(rt, &bytes)?;
    bytes.push(0x01)?;
    show(rt, &bytes)?;
    let mut zeros = vec![in heap; 0; 16_777_216]?;
    show(rt, &zeros)?;
    zeros.push(0)?;
    show(rt, &zeros)
}

// A batch that goes on after its tables with one byte more, which no command is or which begins a
// table, and one that closes before its end.
fn far_places(rt: &HostRuntime) -> anyhow::Result<()> {
    println!(rt; "wrong and unfinished far from the start")?;
    let mut bytes = one_table(rt.alloc(), 1, 65_537)?;
    bytes.push(0x7e)?;
    show(rt, &bytes)?;
    let _ = bytes.pop();
    bytes.push(0x01)?;
    show(rt, &bytes)?;
    let _ = bytes.pop();
    let _ = bytes.pop();
    show(rt, &bytes)?;
    let _ = bytes.pop();
    show(rt, &bytes)
}

fn run(rt: &HostRuntime) -> anyhow::Result<()> {
    row_counts(rt)?;
    longest(rt)?;
    far_places(rt)
}

fn main(rt: HostRuntime) -> anyhow::Result<()> {
    run(&rt)
}
