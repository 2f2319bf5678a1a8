// Little-endian numbers of 2, 4 and 8 bytes.
ghost use Rattle.std.specs.Prelude.{◌≡◌, ◌+◌, ◌<◌, ◌≤◌, length};
ghost use Rattle.layout.specs.Bytes.{byte, number_at, Written};

use crate::part::put_part;

// The byte at a place; behind the end it is 0.
pub fn byte_at(s: &[u8], at: usize) -> u8
    ensures { result ≡ byte s.now at }
{
    if at < s.len() { s[at] } else { 0 }
}

// The number in the two bytes at a place; bytes behind the end count as 0.
pub fn read_u16(s: &[u8], at: usize) -> u16
    ensures { result ≡ number_at 2 s.now at }
{
    if at < s.len() {
        u16::from_le_bytes([byte_at(s, at), byte_at(s, at + 1)])
    } else {
        0
    }
}

// The number in the four bytes at a place, all of them there.
fn whole_u32(s: &[u8], at: usize) -> u32
    requires { at + 4 ≤ length s.now }
    ensures { result ≡ number_at 4 s.now at }
{
    u32::from_le_bytes([s[at], s[at + 1], s[at + 2], s[at + 3]])
}

// The number in the four bytes at a place, where some may be behind the end; those count as 0. The widths stay functions of their own: each gives
// its own type, which no const parameter can name.
fn cut_u32(s: &[u8], at: usize) -> u32
    ensures { result ≡ number_at 4 s.now at }
{
    let low = read_u16(s, at) as u32;
    if at < s.len() {
        let rest = &s[at..];
        let high = read_u16(rest, 2) as u32;
        low + 65536 * high
    } else {
        low
    }
}

// The number in the four bytes at a place; bytes behind the end count as 0.
pub fn read_u32(s: &[u8], at: usize) -> u32
    ensures { result ≡ number_at 4 s.now at }
{
    if at < s.len() {
        if 4 <= s.len() - at {
            return whole_u32(s, at);
        }
    }
    cut_u32(s, at)
}

// The number in the eight bytes at a place, all of them there.
pub(crate) fn whole_u64(s: &[u8], at: usize) -> u64
    requires { at + 8 ≤ length s.now }
    ensures { result ≡ number_at 8 s.now at }
{
    let low = whole_u32(s, at) as u64;
    let high = whole_u32(s, at + 4) as u64;
    low + 0x1_0000_0000 * high
}

// The number in the eight bytes at a place, where some may be behind the end; those count as 0.
fn cut_u64(s: &[u8], at: usize) -> u64
    ensures { result ≡ number_at 8 s.now at }
{
    let low = read_u32(s, at) as u64;
    if at < s.len() {
        let rest = &s[at..];
        let high = read_u32(rest, 4) as u64;
        low + 0x1_0000_0000 * high
    } else {
        low
    }
}

// The number in the eight bytes at a place; bytes behind the end count as 0.
pub fn read_u64(s: &[u8], at: usize) -> u64
    ensures { result ≡ number_at 8 s.now at }
{
    if at < s.len() {
        if 8 <= s.len() - at {
            return whole_u64(s, at);
        }
    }
    cut_u64(s, at)
}

// Writes a number into the two bytes at a place and says true; where they don't fit, changes nothing and says false. Of each width one: the
// types differ, and each is a line over `put_part`.
pub fn write_u16(s: &mut [u8], at: usize, n: u16) -> bool
    ensures { Written 2 s.old at n result s.new }
{
    put_part(s, at, &n.to_le_bytes())
}

// The same with four bytes.
pub fn write_u32(s: &mut [u8], at: usize, n: u32) -> bool
    ensures { Written 4 s.old at n result s.new }
{
    put_part(s, at, &n.to_le_bytes())
}

// The same with eight bytes.
pub fn write_u64(s: &mut [u8], at: usize, n: u64) -> bool
    ensures { Written 8 s.old at n result s.new }
{
    put_part(s, at, &n.to_le_bytes())
}
