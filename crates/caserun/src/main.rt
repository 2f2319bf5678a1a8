// Evaluates the rule in rule.bin over the table in batch.bin, or in the two files that the first arguments name, and prints the listing of the
// run. A single argument, or each from the third on, names a file of records: the listings of their runs are printed one behind the other.
#![tactic(auto)]

mod file;
mod list;
mod record;

ghost use Rattle.std.specs.Prelude.{◌≡◌, length};

use file::load;
use files::argument_count;
use layout::part::part_of;
use list::list;
use record::list_records;
use std::io;
use std::rt::{Env, Files};

// One byte more than a rule may have.
fn rule_buffer() -> [u8; 4097]
    ensures { 4097 ≡ length result }
{
    [0; 4097]
}

// One byte more than a table may have.
fn table_buffer() -> [u8; 65537]
    ensures { 65537 ≡ length result }
{
    [0; 65537]
}

// More bytes than a file of records has.
fn record_buffer() -> [u8; 524288]
    ensures { 524288 ≡ length result }
{
    [0; 524288]
}

// Reads the table and goes on.
fn with_rule(rt: &(impl Env + Files + Print + Eprint), rule: &[u8]) -> io::Result<()> {
    let mut table = table_buffer();
    match load(rt, 2, b"batch.bin", &mut table) {
        Some(size) => list(rt, rule, part_of(&table, 0, size)),
        None => Ok(()),
    }
}

// The listing of the rule and the table.
fn list_files(rt: &(impl Env + Files + Print + Eprint)) -> io::Result<()> {
    let mut rule = rule_buffer();
    match load(rt, 1, b"rule.bin", &mut rule) {
        Some(size) => with_rule(rt, part_of(&rule, 0, size)),
        None => Ok(()),
    }
}

// The listings of the records of the file that an argument names.
fn list_file(rt: &(impl Env + Files + Print + Eprint), index: usize) -> io::Result<()> {
    let mut records = record_buffer();
    match load(rt, index, b"listings.bin", &mut records) {
        Some(size) => list_records(rt, part_of(&records, 0, size)),
        None => Ok(()),
    }
}

// The same of each argument from the third on.
fn list_others(rt: &(impl Env + Files + Print + Eprint), words: usize) -> io::Result<()> {
    for index in 3..words {
        list_file(rt, index)?;
    }
    Ok(())
}

fn main(rt: HostRuntime) -> io::Result<()> {
    let words = argument_count(&rt);
    if words == 2 {
        return list_file(&rt, 1);
    }
    list_files(&rt)?;
    list_others(&rt, words)
}
