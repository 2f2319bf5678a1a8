// The bytes of an entry.
ghost use Rattle.std.specs.Prelude.{◌≡◌, ◌∷◌, suc, ◌+◌, ◌≤◌, leb, length};
ghost use Rattle.layout.specs.Put.{Wrote};
ghost use Rattle.listing.specs.Listing.{decimal, hex_bytes, truth_word, entry_bytes, listing_most};
ghost use Rattle.listing.specs.Putting.{Put, entry_of, shown_bytes};

use crate::digits::{decimal_places, write_decimal, write_digits, write_text};
use crate::put::{write_byte, write_bytes};
use crate::shown::{Shown, show};
use scalar::text::place_text;
use scalar::value::Value;

// The entry that a value is, with the table's bytes, at a place.
pub fn put_entry(bytes: &[u8], v: Value, at: usize, out: &mut [u8]) -> Option<usize>
    ensures { Put out.old at (entry_bytes (entry_of bytes.now v)) result out.new }
{
    if out.len() < at {
        return None;
    }
    let s = show(v);
    if !shown_fits(bytes, s, out.len() - at) {
        return None;
    }
    Some(write_shown(bytes, s, at, out))
}

// Whether a text in hex and one byte before it fit.
fn text_fits(text: &[u8], room: usize) -> bool
    ensures { result ≡ leb (suc (length (hex_bytes text.now))) room }
{
    if room == 0 {
        return false;
    }
    text.len() <= (room - 1) / 2
}

// Whether what is shown fits.
pub(crate) fn shown_fits(bytes: &[u8], s: Shown, room: usize) -> bool
    ensures { result ≡ leb (length (shown_bytes bytes.now s)) room }
{
    match s {
        Shown::Null => 4 <= room,
        Shown::Truth(b) => if b { 4 <= room } else { 5 <= room },
        Shown::Number(n) => decimal_places(n) <= room,
        Shown::Negative(n) => decimal_places(n) < room,
        Shown::Bits(_) => 16 <= room,
        Shown::Text(start, size) => text_fits(place_text(bytes, start, size), room),
    }
}

// How many bytes are shown, at most as many as a listing has.
pub(crate) fn shown_size(bytes: &[u8], s: Shown) -> usize
    requires { length (shown_bytes bytes.now s) ≤ listing_most }
    ensures { result ≡ length (shown_bytes bytes.now s) }
{
    match s {
        Shown::Null => 4,
        Shown::Truth(b) => if b { 4 } else { 5 },
        Shown::Number(n) => decimal_places(n),
        Shown::Negative(n) => 1 + decimal_places(n),
        Shown::Bits(_) => 16,
        Shown::Text(start, size) => {
            let text = place_text(bytes, start, size);
            1 + 2 * text.len()
        },
    }
}

// `true` or `false`, where it fits.
fn write_truth(b: bool, at: usize, out: &mut [u8]) -> usize
    requires { at + length (truth_word b) ≤ length out.old }
    ensures { Wrote out.old at (truth_word b) result out.new }
{
    if b {
        write_bytes(b"true", at, out)
    } else {
        write_bytes(b"false", at, out)
    }
}

// A minus sign and a number in decimal, where they fit.
fn write_negative(n: u64, at: usize, out: &mut [u8]) -> usize
    requires { at + length (45 ∷ decimal n) ≤ length out.old }
    ensures { Wrote out.old at (45 ∷ decimal n) result out.new }
{
    let p = write_byte(b'-', at, out);
    write_decimal(n, p, out)
}

// `t` and a text in hex, where they fit.
fn write_hex(text: &[u8], at: usize, out: &mut [u8]) -> usize
    requires { at + length (116 ∷ hex_bytes text.now) ≤ length out.old }
    ensures { Wrote out.old at (116 ∷ hex_bytes text.now) result out.new }
{
    let p = write_byte(b't', at, out);
    write_text(text, p, out)
}

// What is shown, where it fits.
pub(crate) fn write_shown(bytes: &[u8], s: Shown, at: usize, out: &mut [u8]) -> usize
    requires { at + length (shown_bytes bytes.now s) ≤ length out.old }
    ensures { Wrote out.old at (shown_bytes bytes.now s) result out.new }
{
    match s {
        Shown::Null => write_bytes(b"null", at, out),
        Shown::Truth(b) => write_truth(b, at, out),
        Shown::Number(n) => write_decimal(n, at, out),
        Shown::Negative(n) => write_negative(n, at, out),
        Shown::Bits(n) => write_digits(n, 16, 16, at, out),
        Shown::Text(start, size) => write_hex(place_text(bytes, start, size), at, out),
    }
}
