// The listing of a run, compared with the stored text.
use layout::part::part_of;
use listing::whole::put_listing;

// Whether the listing of a run in the lent buffers is the stored text.
pub(crate) fn listing_agrees(
    rule: &[u8],
    table: &[u8],
    want: &[u8],
    work: &mut [u8],
    output: &mut [u8],
    lines: &mut [u8],
) -> bool {
    match put_listing(rule, table, work, output, lines) {
        Some(size) => part_of(lines, 0, size) == want,
        None => false,
    }
}
