// Commands where they may stand and where they may not, whole and cut short.
use crate::pieces::*;
use std::alloc::Global;
use std::process::Abort;
use std::test::Fail;

// What may follow the bytes: each byte that is listed begins a command, and the batch is then
// unfinished. An end is whole. Any other byte is refused at its own place.
fn may_follow(
    rt: &impl Abort,
    heap: Global,
    before: &[&[u8]],
    listed: &[u8],
    may_end: bool,
) -> Result<(), Fail> {
    let mut bytes = joined(heap, before)?;
    let place = bytes.len();
    assert!(rt; place < 1000);
    for byte in 0..=255u8 {
        bytes.push(byte)?;
        if byte == 0x7f && may_end {
            let _ = taken(&bytes)?;
        } else if listed.contains(&byte) {
            assert_eq!(rt; place_refused(&bytes)?, place + 1, "byte {byte}");
        } else {
            assert_eq!(rt; place_refused(&bytes)?, place, "byte {byte}");
        }
        let _ = bytes.pop();
    }
    Ok(())
}

#[test]
fn bytes_that_may_follow(rt: HostRuntime) -> Result<(), Fail> {
    let heap = rt.alloc();
    may_follow(&rt, heap, &[], &[0x01], false)?;
    may_follow(&rt, heap, &[TABLE], &[0x02], false)?;
    may_follow(&rt, heap, &[TABLE, INTEGERS], &[0x02, 0x10, 0x11], true)?;
    may_follow(&rt, heap, &[TABLE, REALS], &[0x02, 0x10, 0x12], true)?;
    may_follow(&rt, heap, &[TABLE, TEXTS], &[0x02, 0x10, 0x13], true)?;
    may_follow(&rt, heap, &[TABLE, INTEGERS, SEVEN], &[0x10, 0x11], true)?;
    may_follow(
        &rt,
        heap,
        &[TABLE, TEXTS, INTEGERS, WORD],
        &[0x10, 0x11],
        false,
    )?;
    may_follow(&rt, heap, &[TABLE, INTEGERS, SEVEN, END], &[0x01], false)
}

// A command cut short at each length is judged by its byte alone, so its operand is of bytes that no
// operand may have. Where its byte may stand the place is the batch's length; else, and where the
// command is whole, it is the command's own.
fn cut_short(
    rt: &impl Abort,
    heap: Global,
    before: &[&[u8]],
    byte: u8,
    width: usize,
    may: bool,
) -> Result<(), Fail> {
    let mut bytes = joined(heap, before)?;
    let place = bytes.len();
    assert!(rt; place < 1000);
    bytes.push(byte)?;
    for given in 1..width {
        let len = bytes.len();
        let wanted = if may { len } else { place };
        assert_eq!(rt; place_refused(&bytes)?, wanted, "byte {byte}, {given}");
        bytes.push(0xff)?;
    }
    assert_eq!(rt; place_refused(&bytes)?, place, "byte {byte}, whole");
    Ok(())
}

#[test]
fn commands_cut_short(rt: HostRuntime) -> Result<(), Fail> {
    let heap = rt.alloc();
    // A table, where a table may stand and inside one.
    cut_short(&rt, heap, &[], 0x01, 17, true)?;
    cut_short(&rt, heap, &[TABLE, INTEGERS, SEVEN, END], 0x01, 17, true)?;
    cut_short(&rt, heap, &[TABLE], 0x01, 17, false)?;
    cut_short(&rt, heap, &[TABLE, INTEGERS], 0x01, 17, false)?;
    cut_short(&rt, heap, &[TABLE, INTEGERS, SEVEN], 0x01, 17, false)?;
    // A column, before the cells, behind them and outside a table.
    cut_short(&rt, heap, &[TABLE], 0x02, 18, true)?;
    cut_short(&rt, heap, &[TABLE, INTEGERS], 0x02, 18, true)?;
    cut_short(&rt, heap, &[TABLE, INTEGERS, SEVEN], 0x02, 18, false)?;
    cut_short(&rt, heap, &[], 0x02, 18, false)?;
    cut_short(&rt, heap, &[TABLE, INTEGERS, END], 0x02, 18, false)
}

#[test]
fn cells_cut_short(rt: HostRuntime) -> Result<(), Fail> {
    let heap = rt.alloc();
    for kind in 0..4u8 {
        let byte = 0x10 + kind;
        cut_short(&rt, heap, &[], byte, 17, false)?;
        cut_short(&rt, heap, &[TABLE], byte, 17, false)?;
        cut_short(
            &rt,
            heap,
            &[TABLE, INTEGERS],
            byte,
            17,
            kind == 0 || kind == 1,
        )?;
        cut_short(&rt, heap, &[TABLE, REALS], byte, 17, kind == 0 || kind == 2)?;
        cut_short(&rt, heap, &[TABLE, TEXTS], byte, 17, kind == 0 || kind == 3)?;
        cut_short(
            &rt,
            heap,
            &[TABLE, INTEGERS, SEVEN],
            byte,
            17,
            kind == 0 || kind == 1,
        )?;
        cut_short(
            &rt,
            heap,
            &[TABLE, TEXTS, REALS, WORD],
            byte,
            17,
            kind == 0 || kind == 2,
        )?;
    }
    Ok(())
}
