// Text: the bytes of a place, and the order of bytes.
ghost use Rattle.std.specs.Prelude.{◌≡◌};
ghost use Rattle.scalar.specs.Text.{same_bytes, text_less};
ghost use Rattle.scalar.specs.Value.{place_text};

use layout::part::part_of;

// The bytes of a place, as far as they go.
pub fn place_text(bytes: &[u8], start: usize, size: usize) -> &[u8]
    ensures { result.now ≡ place_text bytes.now start size }
{
    let rest = part_of(bytes, start, bytes.len());
    part_of(rest, 0, size)
}

// Whether two texts are the same bytes. From the back: names often begin alike.
pub fn same_bytes(a: &[u8], b: &[u8]) -> bool
    ensures { result ≡ same_bytes a.now b.now }
{
    if a.len() != b.len() {
        return false;
    }
    for i in (0..a.len()).rev() {
        if a[i] != b[i] {
            return false;
        }
    }
    true
}

// Whether a text is less than another, by bytes.
pub fn text_less(a: &[u8], b: &[u8]) -> bool
    ensures { result ≡ text_less a.now b.now }
{
    for i in 0..a.len() {
        if i == b.len() {
            return false;
        }
        if a[i] != b[i] {
            return a[i] < b[i];
        }
    }
    a.len() < b.len()
}
