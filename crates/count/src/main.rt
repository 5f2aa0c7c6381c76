// Counts what a batch file holds, or what two hold as a pair: a line for each table, with its rows
// and columns, and a total. A file that is against the rules gives the one line of its refusal.
#![tactic(auto)]

use anyhow::anyhow;
use batches::checking::LONGEST;
use batches::columns::Column;
use std::fs::File;
use std::io::{ErrorKind, Read};
use std::{env, io};
use stores::batch_store::BatchStore;
use stores::faults::{Fault, LoadError};
use stores::names::Names;
use stores::pair::Pair;
use stores::store::Listed;
use values::name::Name;

const DEFAULT_FILE: &str = "season";

// The bytes of the file, of which one more than a batch may have is enough to see; none where the
// file is absent.
fn read_batch(rt: &HostRuntime, path: &str) -> io::Result<Vec<u8>> {
    let mut bytes = Vec::new(rt.alloc());
    match File::open(rt, path) {
        Ok(file) => {
            file.take(LONGEST as u64 + 1).read_to_end(&mut bytes)?;
        }
        Err(error) => {
            if error.kind() != ErrorKind::NotFound {
                return Err(error);
            }
        }
    }
    Ok(bytes)
}

// One table's line; answers its rows, of which a table that is too long counts none.
fn print_table<S: Listed>(rt: &HostRuntime, store: &S, name: Name) -> io::Result<usize> {
    let Some(table) = store.find(name) else {
        return Ok(0);
    };
    let count = store.count(table);
    match count {
        Some(rows) => print!(rt; "{name}: {rows} rows")?,
        None => print!(rt; "{name}: too long")?,
    }
    for Column { name, holds } in (0..8).map_while(|i| store.column(table, i)) {
        print!(rt; ", {name} {holds}")?;
    }
    println!(rt)?;
    Ok(count.unwrap_or(0))
}

// A line for each table and the line of the total.
fn print_tables<S: Listed>(rt: &HostRuntime, store: &S) -> io::Result<()> {
    // The tables are counted here: an iterator's `count` asks for a proof that there are fewer than
    // 2^64 of them, and no store says so.
    let mut tables = 0usize;
    let mut rows = 0usize;
    for name in Names::new(store) {
        tables = tables.saturating_add(1);
        rows = rows.saturating_add(print_table(rt, store, name)?);
    }
    println!(rt; "{tables} tables, {rows} rows")
}

// The store of a batch file; none where the batch is refused, once the line of its refusal is
// printed.
fn load(rt: &HostRuntime, path: &str) -> anyhow::Result<Option<BatchStore>> {
    let batch = read_batch(rt, path)?;
    let mut store = BatchStore::new(rt.alloc());
    match store.load(rt.alloc(), &batch) {
        Ok(()) => Ok(Some(store)),
        Err(LoadError::Refused(fault)) => {
            let layer = fault.layer();
            let number = fault.number();
            let place = fault.place();
            println!(rt; "refused {layer} {number} {place}")?;
            Ok(None)
        }
        Err(LoadError::OutOfMemory) => Err(anyhow!("no memory for the batch")),
    }
}

fn count_one(rt: &HostRuntime, path: &str) -> anyhow::Result<()> {
    let Some(store) = load(rt, path)? else {
        return Ok(());
    };
    print_tables(rt, &store)?;
    Ok(())
}

fn count_pair(rt: &HostRuntime, first: &str, second: &str) -> anyhow::Result<()> {
    let Some(first) = load(rt, first)? else {
        return Ok(());
    };
    let Some(second) = load(rt, second)? else {
        return Ok(());
    };
    print_tables(rt, &Pair::new(first, second))?;
    Ok(())
}

fn main(rt: HostRuntime) -> anyhow::Result<()> {
    let mut args = env::args(&rt)?;
    let _program = args.next();
    let Some(first) = args.next() else {
        return count_one(&rt, DEFAULT_FILE);
    };
    match args.next() {
        Some(second) => count_pair(&rt, first.as_str(), second.as_str()),
        None => count_one(&rt, first.as_str()),
    }
}
