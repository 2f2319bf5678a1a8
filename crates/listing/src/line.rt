// The lines of a listing.
ghost use Rattle.std.specs.Prelude.{◌≡◌, [], ◌∷◌, ◌++◌, ◌+◌, ◌≤◌, length};
ghost use Rattle.layout.specs.Refusals.{number_of};
ghost use Rattle.layout.specs.Put.{Wrote};
ghost use Rattle.listing.specs.Listing.{decimal, type_words, head_line, refused_line};
ghost use Rattle.listing.specs.Putting.{Put, shown_bytes};

use crate::digits::{decimal_places, digit, write_decimal};
use crate::entry::write_shown;
use crate::put::{room, write_byte, write_bytes};
use crate::shown::Shown;
use layout::refusal::Refusal;
use scalar::types::DataType;

// The line of a refusal, at a place.
pub(crate) fn put_refused(refusal: Refusal, at: usize, out: &mut [u8]) -> Option<usize>
    ensures { Put out.old at (refused_line (number_of refusal)) result out.new }
{
    let n = refusal.number() as u64;
    let k = decimal_places(n);
    if !room(out.len(), at, k + 9) {
        return None;
    }
    Some(write_refused(n, at, out))
}

// A row's line with what is shown of its entry, where it fits.
pub(crate) fn write_row(bytes: &[u8], s: Shown, row: usize, at: usize, out: &mut [u8]) -> usize
    requires { at + (length (decimal row) + 2 + length (shown_bytes bytes.now s)) ≤ length out.old }
    ensures { Wrote out.old at (decimal row ++ (32 ∷ []) ++ shown_bytes bytes.now s ++ (10 ∷ [])) result out.new }
{
    let p = write_decimal(row as u64, at, out);
    let q = write_byte(b' ', p, out);
    let e = write_shown(bytes, s, q, out);
    write_byte(b'\n', e, out)
}

// What follows the row count of the head line, where it fits.
fn write_types(t: u64, n: u64, at: usize, out: &mut [u8]) -> usize
    requires { (t ≤ 5) × (n ≤ 1) × (at + 19 ≤ length out.old) }
    ensures { Wrote out.old at (type_words t n) result out.new }
{
    let p = write_bytes(b" type ", at, out);
    let q = write_byte(digit(t), p, out);
    let e = write_bytes(b" nullable ", q, out);
    let f = write_byte(digit(n), e, out);
    write_byte(b'\n', f, out)
}

// The head line: so many rows, of a type, nullable or not, where it fits.
pub(crate) fn write_head(
    rows: usize,
    data_type: DataType,
    nullable: bool,
    at: usize,
    out: &mut [u8],
) -> usize
    requires { at + length (head_line rows data_type nullable) ≤ length out.old }
    ensures { Wrote out.old at (head_line rows data_type nullable) result out.new }
{
    let p = write_bytes(b"rows ", at, out);
    let q = write_decimal(rows as u64, p, out);
    write_types(u64::from(data_type.number()), u64::from(nullable), q, out)
}

// The line of a refusal, where it fits.
fn write_refused(n: u64, at: usize, out: &mut [u8]) -> usize
    requires { at + (length (decimal n) + 9) ≤ length out.old }
    ensures { Wrote out.old at (refused_line n) result out.new }
{
    let p = write_bytes(b"refused ", at, out);
    let q = write_decimal(n, p, out);
    write_byte(b'\n', q, out)
}
