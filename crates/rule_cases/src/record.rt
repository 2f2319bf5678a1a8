// Records of rules: the rule's length in two bytes, the rule, and what is stored of it.
ghost use Rattle.std.specs.Prelude.{◌<◌};

use crate::answers::{FACTS, rule_agrees};
use layout::number::{byte_at, read_u16};
use layout::part::part_of;

// The number, from 1, of the first rule that doesn't agree.
#[derive(Clone, Copy, Debug, PartialEq, Eq)]
pub(crate) struct Differs(pub(crate) usize);

// The bytes before the rule.
const HEAD: usize = 2;

// How many bytes the record at the start of a slice has.
fn record_size(s: &[u8]) -> usize
    ensures { 0 < result }
{
    let from = HEAD + (read_u16(s, 0) as usize);
    let columns = byte_at(s, from + FACTS - 1) as usize;
    from + FACTS + columns
}

// Whether the record that is the whole of a slice agrees.
fn record_agrees(s: &[u8]) -> bool {
    let from = HEAD + (read_u16(s, 0) as usize);
    rule_agrees(part_of(s, HEAD, from), part_of(s, from, s.len()))
}

// Compares the records of a file: how many rules agree. One that is cut off doesn't.
pub(crate) fn compare(s: &[u8]) -> Result<usize, Differs> {
    let mut at = 0;
    let mut count = 0;
    // Not a `for`: the next record begins where this one ends.
    while at < s.len() {
        let size = record_size(&s[at..]);
        if s.len() - at < size {
            return Err(Differs(count + 1));
        }
        let next = at + size;
        if !record_agrees(&s[at..next]) {
            return Err(Differs(count + 1));
        }
        at = next;
        count += 1;
    }
    Ok(count)
}
