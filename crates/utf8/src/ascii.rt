// How far text is ASCII, eight bytes at a time, in stretches of 32 as long as they last.
ghost use Rattle.std.specs.Prelude.{◌≡◌, ◌+◌, ◌≤◌, leb, length, drop};
ghost use Rattle.utf8.specs.Ascii.{ascii_length, ascii_end, stretches_end};

use layout::number::read_u64;

// The highest bit of each of eight bytes.
const HIGH_BITS: u64 = 0x8080_8080_8080_8080;

// Whether the eight bytes at a place are ASCII.
fn ascii_word(bytes: &[u8], at: usize) -> bool
    requires { at + 8 ≤ length bytes.now }
    ensures { result ≡ leb 8 (ascii_length (drop at bytes.now)) }
{
    let end = at + 8;
    read_u64(&bytes[at..end], 0) & HIGH_BITS == 0
}

// Whether the 32 bytes at a place are ASCII.
fn ascii_stretch(bytes: &[u8], at: usize) -> bool
    requires { at + 32 ≤ length bytes.now }
    ensures { result ≡ leb 32 (ascii_length (drop at bytes.now)) }
{
    if !ascii_word(bytes, at) {
        return false;
    }
    if !ascii_word(bytes, at + 8) {
        return false;
    }
    if !ascii_word(bytes, at + 16) {
        return false;
    }
    ascii_word(bytes, at + 24)
}

// Where whole stretches of 32 bytes of ASCII, from a place on, end.
fn stretches_end(bytes: &[u8], at: usize) -> usize
    ensures { result ≡ stretches_end bytes.now at }
{
    // Not a `for`: the steps are of 32 bytes from any place, and stop where fewer are left.
    let mut i = at;
    while i < bytes.len() {
        if bytes.len() - i < 32 {
            return i;
        }
        if !ascii_stretch(bytes, i) {
            return i;
        }
        i += 32;
    }
    i
}

// Where the ASCII from a place on ends; behind the end of the bytes, at the place itself.
pub fn ascii_end(bytes: &[u8], at: usize) -> usize
    ensures { result ≡ ascii_end bytes.now at }
{
    // Not a `for`: the steps are of eight bytes or of one.
    let mut i = stretches_end(bytes, at);
    while i < bytes.len() {
        if 8 <= bytes.len() - i {
            if ascii_word(bytes, i) {
                i += 8;
                continue;
            }
        }
        if 0x80 <= bytes[i] {
            return i;
        }
        i += 1;
    }
    i
}
