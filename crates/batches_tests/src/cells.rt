// Cells: their operands, their columns' types and what is read back of them.
use crate::pieces::*;
use std::alloc::Global;
use std::process::Abort;
use std::test::Fail;

// A batch of a table with one column of the type, and one cell; the cell's command is at 35.
fn one_cell(heap: Global, holds: u8, cell: &[u8]) -> Result<Vec<u8>, Fail> {
    let mut bytes = TABLE.to_vec(heap)?;
    bytes.extend_from_slice(b"\x02n               ")?;
    bytes.push(holds)?;
    bytes.extend_from_slice(cell)?;
    bytes.push(0x7f)?;
    Ok(bytes)
}

// The cell is taken, and what is read of it is written as the other cell.
fn read_as(rt: &impl Abort, bytes: &[u8], cell: &[u8; 17]) -> Result<(), Fail> {
    let catalog = taken(bytes)?;
    assert_eq!(rt; catalog.rows(0), Some(1));
    let value = catalog.cell(bytes, 0, 0, 0).ok_or(())?;
    assert_eq!(rt; value.to_bytes(), *cell);
    Ok(())
}

#[test]
fn filling(rt: HostRuntime) -> Result<(), Fail> {
    // How many bytes the value has, with the command's: what follows is filling.
    for (command, holds, first) in [(0x10u8, 3u8, 1usize), (0x11, 1, 5), (0x12, 2, 9)] {
        for i in first..17 {
            let mut cell = [0; 17];
            cell[0] = command;
            read_as(&rt, &one_cell(rt.alloc(), holds, &cell)?, &cell)?;
            cell[i] = 1;
            refused(&rt, &one_cell(rt.alloc(), holds, &cell)?, 35)?;
            cell[i] = 0x80;
            refused(&rt, &one_cell(rt.alloc(), holds, &cell)?, 35)?;
        }
    }
    Ok(())
}

#[test]
fn text_bytes(rt: HostRuntime) -> Result<(), Fail> {
    for i in 1..17 {
        for byte in [0u8, 31, 127, 128, 255] {
            let mut cell = *b"\x13sixteen bytes ok";
            cell[i] = byte;
            refused(&rt, &one_cell(rt.alloc(), 3, &cell)?, 35)?;
        }
        for byte in [32u8, 126] {
            let mut cell = *b"\x13sixteen bytes ok";
            cell[i] = byte;
            read_as(&rt, &one_cell(rt.alloc(), 3, &cell)?, &cell)?;
        }
    }
    Ok(())
}

fn real_cell(bits: u64) -> [u8; 17] {
    let [a, b, c, d, e, f, g, h] = bits.to_be_bytes();
    [0x12, a, b, c, d, e, f, g, h, 0, 0, 0, 0, 0, 0, 0, 0]
}

#[test]
fn reals(rt: HostRuntime) -> Result<(), Fail> {
    // Infinities and NaNs.
    for bits in [
        0x7ff0_0000_0000_0000u64,
        0xfff0_0000_0000_0000,
        0x7ff0_0000_0000_0001,
        0x7ff8_0000_0000_0000,
        0xfff8_0000_0000_0000,
        0xffff_ffff_ffff_ffff,
    ] {
        refused(&rt, &one_cell(rt.alloc(), 2, &real_cell(bits))?, 35)?;
    }
    // The least and the greatest sizes, with both signs; one; and zero.
    for bits in [
        0x0000_0000_0000_0001u64,
        0x8000_0000_0000_0001,
        0x0010_0000_0000_0000,
        0x7fef_ffff_ffff_ffff,
        0xffef_ffff_ffff_ffff,
        0x3ff0_0000_0000_0000,
        0,
    ] {
        read_as(
            &rt,
            &one_cell(rt.alloc(), 2, &real_cell(bits))?,
            &real_cell(bits),
        )?;
    }
    let negative_zero = real_cell(0x8000_0000_0000_0000);
    read_as(
        &rt,
        &one_cell(rt.alloc(), 2, &negative_zero)?,
        &real_cell(0),
    )
}

#[test]
fn integers(rt: HostRuntime) -> Result<(), Fail> {
    for operand in [
        [0, 0, 0, 0],
        [0, 0, 0, 1],
        [0x7f, 0xff, 0xff, 0xff],
        [0x80, 0, 0, 0],
        [0xff, 0xff, 0xff, 0xff],
    ] {
        let [a, b, c, d] = operand;
        let cell = [0x11, a, b, c, d, 0, 0, 0, 0, 0, 0, 0, 0, 0, 0, 0, 0];
        read_as(&rt, &one_cell(rt.alloc(), 1, &cell)?, &cell)?;
    }
    Ok(())
}

// Each lawful cell under each type: a null, and a cell of the column's own type, are taken.
#[test]
fn types_of_cells(rt: HostRuntime) -> Result<(), Fail> {
    for holds in 1..4u8 {
        for kind in 0..4u8 {
            let mut cell = if kind == 3 {
                *b"\x13                "
            } else {
                [0; 17]
            };
            cell[0] = 0x10 + kind;
            let bytes = one_cell(rt.alloc(), holds, &cell)?;
            if kind == 0 || kind == holds {
                read_as(&rt, &bytes, &cell)?;
            } else {
                refused(&rt, &bytes, 35)?;
            }
        }
    }
    Ok(())
}

// Rows of an integer and a text: each cell is held to its own column.
#[test]
fn rows_of_two(rt: HostRuntime) -> Result<(), Fail> {
    let heap = rt.alloc();
    refused_pieces(&rt, heap, &[TABLE, INTEGERS, TEXTS, WORD], 53)?;
    refused_pieces(&rt, heap, &[TABLE, INTEGERS, TEXTS, SEVEN, SEVEN], 70)?;
    refused_pieces(&rt, heap, &[TABLE, INTEGERS, TEXTS, SEVEN, WORD, WORD], 87)?;
    let bytes = joined(
        heap,
        &[TABLE, INTEGERS, TEXTS, SEVEN, WORD, SEVEN, WORD, END],
    )?;
    let catalog = taken(&bytes)?;
    assert_eq!(rt; catalog.rows(0), Some(2));
    let number = catalog.cell(&bytes, 0, 1, 0).ok_or(())?;
    assert!(rt; number.to_bytes().as_slice() == SEVEN);
    let word = catalog.cell(&bytes, 0, 1, 1).ok_or(())?;
    assert!(rt; word.to_bytes().as_slice() == WORD);
    assert!(rt; catalog.cell(&bytes, 0, 2, 0).is_none() && catalog.cell(&bytes, 0, 0, 2).is_none());
    Ok(())
}
