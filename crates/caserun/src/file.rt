// Files read into a buffer.
use files::{argument, argument_count, fail, open, path_buffer, read_full};
use std::io::Read;
use std::rt::{Env, Files};

// Reads a file as far as the buffer goes and gives how many bytes it had; none where it couldn't be read, which is said on standard error.
fn read_file(rt: &(impl Files + Eprint), path: &[u8], buffer: &mut [u8]) -> Option<usize> {
    let mut file = match open(rt, path) {
        Ok(file) => file,
        Err(error) => {
            fail(rt, path, error);
            return None;
        }
    };
    let size = read_full(&mut file, buffer);
    let mut next = [0u8; 1];
    match file.read(&mut next) {
        Ok(_) => Some(size),
        Err(error) => {
            fail(rt, path, error);
            None
        }
    }
}

// Reads the file that an argument of the program names, or the one of a name where there are no arguments.
pub(crate) fn load(
    rt: &(impl Env + Files + Eprint),
    index: usize,
    name: &[u8],
    buffer: &mut [u8],
) -> Option<usize> {
    if argument_count(rt) < 2 {
        return read_file(rt, name, buffer);
    }
    let mut path = path_buffer();
    match argument(rt, index, &mut path) {
        Ok(size) => read_file(rt, &path[..size], buffer),
        Err(error) => {
            fail(rt, name, error);
            None
        }
    }
}
