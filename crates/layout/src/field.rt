// A tagged field: one-byte tag, two-byte length, content.
ghost use Rattle.std.specs.Prelude.{◌≡◌};
ghost use Rattle.layout.specs.Place.{header_at};

use crate::number::read_u16;

// Where a field's content stands.
#[derive(Clone, Copy, Debug, PartialEq, Eq)]
pub struct FieldPlace {
    pub tag: u8,
    pub start: usize,
    pub end: usize,
}

// The field at a place of a slice; none where its header or its content runs past the end.
pub fn field_at(s: &[u8], at: usize) -> Option<FieldPlace>
    ensures { result ≡ header_at s.now at }
{
    if s.len() < at {
        return None;
    }
    let left = s.len() - at;
    if left < 3 {
        return None;
    }
    let size = read_u16(s, at + 1) as usize;
    if left - 3 < size {
        return None;
    }
    Some(FieldPlace {
        tag: s[at],
        start: at + 3,
        end: at + 3 + size,
    })
}
