// Reads the stored tables of the files that its arguments name and prints of each its number in the file, and its refusal, or its rows and
// every column's nulls and entries.
#![tactic(auto)]

use files::{argument, argument_count, fail, large_buffer, open, path_buffer, read_full};
use layout::number::read_u32;
use scalar::text::place_text;
use scalar::value::{Value, float_bits};
use std::io;
use std::rt::{Env, Files};
use table::entry::{EntryError, entry_at};
use table::places::{ColumnPlace, Table};
use table::read::read;

// A number of 32 bits with its sign.
fn print_int32(rt: &impl Print, n: u32) -> io::Result<()> {
    if n < 0x8000_0000 {
        rt.print(n)
    } else {
        print!(rt; "-{}", 0x1_0000_0000 - (n as u64))
    }
}

// A number of 64 bits with its sign.
fn print_int64(rt: &impl Print, n: u64) -> io::Result<()> {
    if n < 0x8000_0000_0000_0000 {
        rt.print(n)
    } else {
        print!(rt; "-{}", 0xffff_ffff_ffff_ffff - n + 1)
    }
}

// The 16 hex digits of 64 bits.
fn print_bits(rt: &impl Print, n: u64) -> io::Result<()> {
    print!(rt; "{n:016x}")
}

// The bytes of a text in hex, behind a t.
fn print_text(rt: &impl Print, t: &[u8]) -> io::Result<()> {
    rt.print("t")?;
    for b in t {
        print!(rt; "{b:02x}")?;
    }
    Ok(())
}

fn print_value(rt: &impl Print, bytes: &[u8], v: Value) -> io::Result<()> {
    match v {
        Value::Null => rt.print("null"),
        Value::Boolean(b) => rt.print(b),
        Value::Int32(n) => print_int32(rt, n),
        Value::Int64(n) => print_int64(rt, n),
        Value::Float64(f) => print_bits(rt, float_bits(f)),
        Value::Nan(n) => print_bits(rt, n),
        Value::RuleText(_, _) => rt.print("?"),
        Value::TableText(start, size) => print_text(rt, place_text(bytes, start, size)),
        Value::Failed => rt.print("?"),
    }
}

fn print_entry(
    rt: &impl Print,
    bytes: &[u8],
    t: Table,
    column: usize,
    row: usize,
) -> io::Result<()> {
    rt.print(" ")?;
    match entry_at(bytes, t, column, row) {
        Ok(v) => print_value(rt, bytes, v),
        Err(EntryError::NoColumn) => rt.print("no column"),
        Err(EntryError::NoRow) => rt.print("no row"),
        Err(EntryError::Refused(_)) => rt.print("refused"),
    }
}

fn print_head(rt: &impl Print, column: usize, place: ColumnPlace) -> io::Result<()> {
    let kind = place.data_type.number();
    let nullable = u8::from(place.nullable);
    let nulls = place.null_count;
    print!(rt; "column {column} type {kind} nullable {nullable} nulls {nulls}:")
}

// A column's line.
fn print_column(rt: &impl Print, bytes: &[u8], t: Table, column: usize) -> io::Result<()> {
    for row in 0..t.rows {
        print_entry(rt, bytes, t, column, row)?;
    }
    rt.print("\n")
}

fn print_columns(rt: &impl Print, bytes: &[u8], t: Table) -> io::Result<()> {
    for (column, &place) in t.columns.iter().enumerate().take(t.count) {
        print_head(rt, column, place)?;
        print_column(rt, bytes, t, column)?;
    }
    Ok(())
}

fn show(rt: &impl Print, index: u64, bytes: &[u8]) -> io::Result<()> {
    println!(rt; "table {index}")?;
    match read(bytes) {
        Ok(t) => {
            println!(rt; "rows {}", t.rows)?;
            print_columns(rt, bytes, t)
        },
        Err(refusal) => println!(rt; "refused {}", refusal.number()),
    }
}

// Shows the table of the record at a place, and says where the next begins.
fn next(rt: &impl Print, s: &[u8], at: usize, index: u64) -> io::Result<usize> {
    if s.len() < at {
        return Ok(s.len());
    }
    let left = s.len() - at;
    let size = read_u32(s, at) as usize;
    if left < 4 {
        return Ok(s.len());
    }
    if left - 4 < size {
        return Ok(s.len());
    }
    let from = at + 4;
    let to = from + size;
    show(rt, index, &s[from..to])?;
    Ok(to)
}

// Shows the tables of a file's bytes, at most 400.
fn show_tables(rt: &impl Print, s: &[u8]) -> io::Result<()> {
    let mut at = 0;
    for index in 0..400 {
        if at < s.len() {
            at = next(rt, s, at, index)?;
        }
    }
    Ok(())
}

// Shows the tables of a file. Not by `load`: the path is printed before the file is read.
fn show_file(rt: &(impl Files + Print + Eprint), path: &[u8]) -> io::Result<()> {
    let mut file = match open(rt, path) {
        Ok(file) => file,
        Err(error) => {
            fail(rt, path, error);
            return Ok(());
        }
    };
    rt.write_all(path)?;
    rt.print("\n")?;
    let mut buffer = large_buffer();
    let size = read_full(&mut file, &mut buffer);
    show_tables(rt, &buffer[..size])
}

// Shows the tables of the file that an argument names.
fn show_argument(rt: &(impl Env + Files + Print + Eprint), index: usize) -> io::Result<()> {
    let mut path = path_buffer();
    let size = argument(rt, index, &mut path).unwrap_or(0);
    show_file(rt, &path[..size])
}

fn main(rt: HostRuntime) -> io::Result<()> {
    for index in 1..argument_count(&rt) {
        show_argument(&rt, index)?;
    }
    Ok(())
}
