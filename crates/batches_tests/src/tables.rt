// Tables, columns and ends: names, limits and what is read back of them.
use crate::pieces::*;
use batches::columns::Column;
use std::alloc::Global;
use std::test::Fail;
use values::kinds::ColumnType;
use values::name::Name;

// A batch of tables a, b, c and so on, each with one column and no rows.
fn small_tables(heap: Global, count: u8) -> Result<Vec<u8>, Fail> {
    let mut bytes = Vec::new(heap);
    for i in 0..count {
        let mut table = *b"\x01_               ";
        table[1] = b'a'.wrapping_add(i);
        bytes.extend_from_slice(&table)?;
        bytes.extend_from_slice(INTEGERS)?;
        bytes.extend_from_slice(END)?;
    }
    Ok(bytes)
}

#[test]
fn empty_batch(rt: HostRuntime) -> Result<(), Fail> {
    let catalog = taken(&[])?;
    assert_eq!(rt; catalog.len(), 0);
    assert_eq!(rt; catalog.rows(0), None);
    assert_eq!(rt; catalog.width(0), None);
    assert!(rt; catalog.name(&[], 0).is_none() && catalog.column(&[], 0, 0).is_none());
    assert!(rt; catalog.cell(&[], 0, 0, 0).is_none());
    Ok(())
}

#[test]
fn eight_tables_and_nine(rt: HostRuntime) -> Result<(), Fail> {
    let eight = small_tables(rt.alloc(), 8)?;
    let catalog = taken(&eight)?;
    assert_eq!(rt; catalog.len(), 8);
    let last = Name::new(b"h").ok_or(())?;
    assert_eq!(rt; catalog.find(&eight, last), Some(7));
    let none = Name::new(b"i").ok_or(())?;
    assert_eq!(rt; catalog.find(&eight, none), None);
    let name = catalog.name(&eight, 7).ok_or(())?;
    assert_eq!(rt; name.to_bytes(), *b"h               ");
    assert!(rt; catalog.name(&eight, 8).is_none());
    // A ninth is refused at its command, also where it is cut short.
    let nine = small_tables(rt.alloc(), 9)?;
    refused(&rt, &nine, 288)?;
    assert!(rt; nine.len() == 324);
    refused(&rt, &nine[0..289], 288)
}

#[test]
fn eight_columns_and_nine(rt: HostRuntime) -> Result<(), Fail> {
    let mut bytes = TABLE.to_vec(rt.alloc())?;
    for _ in 0..4 {
        bytes.extend_from_slice(REALS)?;
        bytes.extend_from_slice(TEXTS)?;
    }
    assert_eq!(rt; place_refused(&bytes)?, 161, "eight columns and no end");
    bytes.push(0x7f)?;
    let catalog = taken(&bytes)?;
    assert_eq!(rt; catalog.width(0), Some(8));
    assert_eq!(rt; catalog.rows(0), Some(0));
    for i in 0..8 {
        let Column { name, holds } = catalog.column(&bytes, 0, i).ok_or(())?;
        let expected = if i % 2 == 0 {
            (*b"x               ", ColumnType::Real)
        } else {
            (*b"s               ", ColumnType::Text)
        };
        assert_eq!(rt; (name.to_bytes(), holds), expected);
    }
    assert!(rt; catalog.column(&bytes, 0, 8).is_none() && catalog.column(&bytes, 1, 0).is_none());
    let _ = bytes.pop();
    bytes.extend_from_slice(INTEGERS)?;
    assert_eq!(rt; place_refused(&bytes)?, 161, "nine columns");
    assert!(rt; bytes.len() == 179);
    assert_eq!(rt;
        place_refused(&bytes[0..162])?,
        161,
        "a ninth column cut short"
    );
    Ok(())
}

#[test]
fn unlawful_names(rt: HostRuntime) -> Result<(), Fail> {
    let names = [
        b"                ",
        b"1a              ",
        b"_a              ",
        b"A               ",
        b"aB              ",
        b"a b             ",
        b" a              ",
        b"a-              ",
        b"a{              ",
        b"a`              ",
        b"a\0              ",
        b"aaaaaaaaaaaaaaa\x7f",
        b"select          ",
        b"from            ",
        b"where           ",
        b"union           ",
        b"intersection    ",
        b"and             ",
        b"or              ",
        b"not             ",
    ];
    for name in &names {
        let table = joined(rt.alloc(), &[b"\x01", *name])?;
        refused(&rt, &table, 0)?;
        let column = joined(rt.alloc(), &[TABLE, b"\x02", *name, b"\x01"])?;
        refused(&rt, &column, 17)?;
    }
    Ok(())
}

#[test]
fn lawful_names(rt: HostRuntime) -> Result<(), Fail> {
    let names = [
        b"a               ",
        b"z9_             ",
        b"abcdefghijklmnop",
        b"a______________0",
        b"selects         ",
        b"orb             ",
        b"no              ",
    ];
    for name in &names {
        let bytes = joined(rt.alloc(), &[b"\x01", *name, b"\x02", *name, b"\x03", END])?;
        let catalog = taken(&bytes)?;
        let named = catalog.name(&bytes, 0).ok_or(())?;
        assert_eq!(rt; named.to_bytes(), **name);
        let column = catalog.column(&bytes, 0, 0).ok_or(())?;
        assert_eq!(rt; column.name.to_bytes(), **name);
    }
    Ok(())
}

#[test]
fn column_types(rt: HostRuntime) -> Result<(), Fail> {
    for byte in 0..=255u8 {
        let bytes = joined(rt.alloc(), &[TABLE, b"\x02n               ", &[byte]])?;
        let is_type = byte == 1 || byte == 2 || byte == 3;
        // Lawful so far, and not finished; or wrong at the column.
        refused(&rt, &bytes, if is_type { 35 } else { 17 })?;
    }
    Ok(())
}

#[test]
fn repeated_names(rt: HostRuntime) -> Result<(), Fail> {
    let heap = rt.alloc();
    let other = b"\x01tt              ";
    refused_pieces(&rt, heap, &[TABLE, INTEGERS, END, TABLE], 36)?;
    refused_pieces(
        &rt,
        heap,
        &[
            TABLE, INTEGERS, END, other, TEXTS, END, TABLE, INTEGERS, END,
        ],
        72,
    )?;
    refused_pieces(
        &rt,
        heap,
        &[
            other, INTEGERS, END, TABLE, TEXTS, END, TABLE, INTEGERS, END,
        ],
        72,
    )?;
    // Columns of a table may share a name, and may have the table's.
    let bytes = joined(heap, &[b"\x01n               ", INTEGERS, INTEGERS, END])?;
    assert_eq!(rt; taken(&bytes)?.width(0), Some(2));
    Ok(())
}

#[test]
fn ends(rt: HostRuntime) -> Result<(), Fail> {
    let heap = rt.alloc();
    refused_pieces(&rt, heap, &[END], 0)?;
    refused_pieces(&rt, heap, &[TABLE, END], 17)?;
    refused_pieces(&rt, heap, &[TABLE, INTEGERS, END, END], 36)?;
    refused_pieces(&rt, heap, &[TABLE, INTEGERS, INTEGERS, SEVEN, END], 70)?;
    refused_pieces(
        &rt,
        heap,
        &[TABLE, INTEGERS, INTEGERS, SEVEN, SEVEN, SEVEN, END],
        104,
    )?;
    refused_pieces(&rt, heap, &[TABLE, INTEGERS, INTEGERS, SEVEN, TABLE], 70)?;
    refused_pieces(&rt, heap, &[TABLE, INTEGERS, SEVEN, INTEGERS], 52)?;
    refused_pieces(&rt, heap, &[TABLE, INTEGERS, TABLE], 35)?;
    refused_pieces(&rt, heap, &[TABLE, TABLE], 17)?;
    // Whole commands and no end: the batch closes inside a table.
    refused_pieces(&rt, heap, &[TABLE], 17)?;
    refused_pieces(&rt, heap, &[TABLE, INTEGERS], 35)?;
    refused_pieces(&rt, heap, &[TABLE, INTEGERS, SEVEN], 52)?;
    refused_pieces(&rt, heap, &[TABLE, INTEGERS, INTEGERS, SEVEN], 70)
}
