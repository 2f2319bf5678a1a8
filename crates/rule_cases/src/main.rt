// Compares what is read off rules with stored answers: the refusal number or the type, the strategy, the nullability answer and the
// projection. Prints of each file that the arguments name how many rules agree, or the first that differs.
#![tactic(auto)]

mod answers;
mod record;

use files::{argument, argument_count, large_buffer, load, path_buffer};
use record::{Differs, compare};
use std::io;
use std::rt::{Env, Files};

// How many rules of a file agree, or the number, from 1, of the first that doesn't.
fn print_compared(
    rt: &impl Print,
    path: &[u8],
    compared: Result<usize, Differs>,
) -> io::Result<()> {
    rt.write_all(path)?;
    match compared {
        Ok(count) => println!(rt; ": {count} rules agree"),
        Err(Differs(number)) => println!(rt; ": the first that differs is {number}"),
    }
}

// Compares the rules of a file.
fn compare_file(rt: &(impl Files + Print + Eprint), path: &[u8]) -> io::Result<()> {
    let mut buffer = large_buffer();
    match load(rt, path, &mut buffer) {
        Some(size) => print_compared(rt, path, compare(&buffer[..size])),
        None => Ok(()),
    }
}

// Compares the rules of the file that an argument names.
fn compare_argument(rt: &(impl Env + Files + Print + Eprint), index: usize) -> io::Result<()> {
    let mut path = path_buffer();
    let size = argument(rt, index, &mut path).unwrap_or(0);
    compare_file(rt, &path[..size])
}

fn main(rt: HostRuntime) -> io::Result<()> {
    for index in 1..argument_count(&rt) {
        compare_argument(&rt, index)?;
    }
    Ok(())
}
