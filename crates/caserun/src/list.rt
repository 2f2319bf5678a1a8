// The listing of a run, written to standard output.
ghost use Rattle.std.specs.Prelude.{◌≡◌, length};
ghost use Rattle.listing.specs.Listing.{listing_most};

use files::large_buffer;
use layout::part::part_of;
use listing::whole::{LISTING_MOST, put_listing};
use std::io;

// As many bytes as the longest listing has.
fn listing_buffer() -> [u8; LISTING_MOST]
    ensures { listing_most ≡ length result }
{
    [0; LISTING_MOST]
}

// Evaluates a rule over a table and prints the listing.
pub(crate) fn list(rt: &impl Print, rule: &[u8], table: &[u8]) -> io::Result<()> {
    let mut work = large_buffer();
    let mut output = large_buffer();
    let mut lines = listing_buffer();
    match put_listing(rule, table, &mut work, &mut output, &mut lines) {
        Some(size) => rt.write_all(part_of(&lines, 0, size)),
        None => Ok(()),
    }
}
