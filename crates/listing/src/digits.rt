// Numbers in digits, at places of a lent buffer (fixed memory: no `String`, so no `Display`).
ghost use Rattle.std.specs.Prelude.{◌≡◌, ◌+◌, ◌<◌, ◌≤◌, length};
ghost use Rattle.layout.specs.Put.{Wrote};
ghost use Rattle.listing.specs.Listing.{places, digits, decimal, hex_bytes};
ghost use Rattle.listing.specs.Listing.{digit as digitOf};
ghost use Rattle.listing.specs.Putting.{Put};

use crate::put::room;

// A number in decimal, at a place.
pub fn put_decimal(n: u64, at: usize, out: &mut [u8]) -> Option<usize>
    ensures { Put out.old at (decimal n) result out.new }
{
    let k = decimal_places(n);
    if !room(out.len(), at, k) {
        return None;
    }
    Some(write_digits(n, 10, k, at, out))
}

// So many hex digits of a number, the last ones, at a place.
pub fn put_hex(n: u64, k: usize, at: usize, out: &mut [u8]) -> Option<usize>
    ensures { Put out.old at (digits 16 k n) result out.new }
{
    if !room(out.len(), at, k) {
        return None;
    }
    Some(write_digits(n, 16, k, at, out))
}

// How many decimal digits a number has.
pub(crate) fn decimal_places(n: u64) -> usize
    ensures { (result ≡ places n) × (result ≤ 20) }
{
    // Not a `for`: the digits are counted by dividing them away.
    let mut k = 1;
    let mut rest = n;
    while 10 <= rest {
        rest /= 10;
        k += 1;
    }
    k
}

// A number in decimal, where it fits.
pub(crate) fn write_decimal(n: u64, at: usize, out: &mut [u8]) -> usize
    requires { at + length (decimal n) ≤ length out.old }
    ensures { Wrote out.old at (decimal n) result out.new }
{
    let k = decimal_places(n);
    write_digits(n, 10, k, at, out)
}

// A digit below 16.
pub(crate) fn digit(d: u64) -> u8
    requires { d < 16 }
    ensures { result ≡ digitOf d }
{
    b"0123456789abcdef"[d as usize]
}

// The last digits of a number in a base up to 16, where they fit.
pub(crate) fn write_digits(n: u64, base: u64, k: usize, at: usize, out: &mut [u8]) -> usize
    requires { (0 < base) × (base ≤ 16) × (at + k ≤ length out.old) }
    ensures { Wrote out.old at (digits base k n) result out.new }
{
    let mut rest = n;
    for i in (0..k).rev() {
        out[at + i] = digit(rest % base);
        rest /= base;
    }
    at + k
}

// A text's bytes in hex, where they fit.
pub(crate) fn write_text(text: &[u8], at: usize, out: &mut [u8]) -> usize
    requires { at + length (hex_bytes text.now) ≤ length out.old }
    ensures { Wrote out.old at (hex_bytes text.now) result out.new }
{
    let mut p = at;
    for &byte in text {
        p = write_digits(u64::from(byte), 16, 2, p, out);
    }
    p
}
