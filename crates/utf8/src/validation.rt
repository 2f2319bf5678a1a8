// Whether a text is well-formed UTF-8.
ghost use Rattle.std.specs.Prelude.{◌≡◌};
ghost use Rattle.utf8.specs.WellFormed.{ill_formed, well_formed};
ghost use Rattle.utf8.specs.Answers.{validation};

use crate::ascii::ascii_end;
use crate::sequence::sequence_length;

// The place of the first ill-formed sequence of a text.
#[derive(Clone, Copy, Debug, PartialEq, Eq)]
pub struct IllFormed {
    pub place: usize,
}

// Tests a text, sequence by sequence, ASCII eight bytes at a time.
pub fn validate(text: &[u8]) -> Result<(), IllFormed>
    ensures { result ≡ validation (ill_formed text.now) }
{
    // Not a `for`: the next sequence starts where this one ends.
    let mut at = 0;
    while at < text.len() {
        if text[at] < 0x80 {
            at = ascii_end(text, at);
        } else {
            let Some(size) = sequence_length(&text[at..]) else {
                return Err(IllFormed { place: at });
            };
            at += size;
        }
    }
    Ok(())
}

// Whether a text is well-formed.
pub fn is_well_formed(text: &[u8]) -> bool
    ensures { result ≡ well_formed text.now }
{
    validate(text).is_ok()
}
