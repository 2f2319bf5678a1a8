// Files that are read into lent buffers, the arguments that name them, what is said of a file that can't be read, and the records of stored runs.
#![tactic(auto)]

ghost use Rattle.std.specs.Prelude.{◌≡◌, ◌≤◌, length, take, IfOk, IfSome};
ghost use Rattle.std.specs.Io.KnownBytes.{Consumes};

pub mod record;

use std::env::FillError;
use std::io::{Error, ErrorKind, Read};
use std::rt::{Env, Files};
use std::{fs, io, str};

// The system's numbers of errors: an argument that isn't there, and a name that is too long.
const INVALID_ARGUMENT: i32 = 22;

const NAME_TOO_LONG: i32 = 36;

// Room for a path.
pub fn path_buffer() -> [u8; 4096]
    ensures { 4096 ≡ length result }
{
    [0; 4096]
}

// 65,536 zeros.
pub fn large_buffer() -> [u8; 65536]
    ensures { 65536 ≡ length result }
{
    [0; 65536]
}

fn has_argument(rt: &impl Env, index: usize) -> bool {
    let mut none = [0u8; 0];
    match rt.arg(index, &mut none) {
        Ok(_) | Err(FillError::TooLong) => true,
        Err(FillError::NotPresent) => false,
    }
}

// How many arguments the program was given, its own name among them.
pub fn argument_count(rt: &impl Env) -> usize {
    for index in 0..usize::MAX {
        if !has_argument(rt, index) {
            return index;
        }
    }
    usize::MAX
}

// Puts an argument at the front of a buffer and gives its length; one that is missing or longer than the buffer is an error.
pub fn argument(rt: &impl Env, index: usize, buffer: &mut [u8]) -> io::Result<usize>
    ensures { IfOk result (λ size. size ≤ length buffer.new) }
{
    match rt.arg(index, buffer) {
        Ok(size) => Ok(size),
        Err(FillError::NotPresent) => Err(Error::from_raw_os_error(INVALID_ARGUMENT)),
        Err(FillError::TooLong) => Err(Error::from_raw_os_error(NAME_TOO_LONG)),
    }
}

// Opens a file for reading. The path has to be text.
pub fn open<R: Files>(rt: &R, path: &[u8]) -> io::Result<R::File> {
    match str::from_utf8(path) {
        Ok(path) => fs::open(rt, path),
        Err(_) => Err(Error::new(ErrorKind::InvalidInput, "the path is no UTF-8")),
    }
}

// Reads until the buffer is full, the file ends or a read fails, and gives how many bytes are at the buffer's front: the first that the file
// had left.
pub fn read_full<R: Read>(file: &mut R, buffer: &mut [u8]) -> usize
    ensures in_bounds { result ≤ length buffer.new }
    ensures bytes { Consumes (R.remaining file.old) (R.remaining file.new) (take result buffer.new) }
{
    // Not a `for`: each read says how far it came.
    let mut done = 0;
    while done < buffer.len() {
        match file.read(&mut buffer[done..]) {
            Ok(0) | Err(_) => return done,
            Ok(size) => done += size,
        }
    }
    done
}

// Says on standard error why a file can't be read.
pub fn fail(rt: &impl Eprint, path: &[u8], error: Error) {
    let _ = match str::from_utf8(path) {
        Ok(path) => eprintln!(rt; "{path}: {error}"),
        Err(_) => eprintln!(rt; "{}: {error}", path.escape_ascii()),
    };
}

// Reads a file as far as a buffer goes and gives how many bytes it had; none where it can't be opened, which is said on standard error.
pub fn load(rt: &(impl Files + Eprint), path: &[u8], buffer: &mut [u8]) -> Option<usize>
    ensures { IfSome result (λ size. size ≤ length buffer.new) }
{
    match open(rt, path) {
        Ok(mut file) => Some(read_full(&mut file, buffer)),
        Err(error) => {
            fail(rt, path, error);
            None
        }
    }
}
