// Parts of slices, handed on and written.
ghost use Rattle.std.specs.Prelude.{◌≡◌};
ghost use Rattle.layout.specs.Bytes.{part, PartWritten};

// The part of a slice from one place to another, as far as the slice goes; empty where the first is not below the second.
pub fn part_of(s: &[u8], from: usize, to: usize) -> &[u8]
    ensures { result.now ≡ part s.now from to }
{
    let end = to.min(s.len());
    let start = from.min(end);
    &s[start..end]
}

// The bytes, written into the part of a slice at a place where they fit, and whether they do. All else stays as it was.
// A `bool`: what is written lies in the lent slice, and `Option<()>` would say no more.
pub fn put_part(s: &mut [u8], at: usize, bytes: &[u8]) -> bool
    ensures { PartWritten s.old at bytes.now result s.new }
{
    if s.len() < at {
        return false;
    }
    if s.len() - at < bytes.len() {
        return false;
    }
    let end = at + bytes.len();
    s[at..end].copy_from_slice(bytes);
    true
}
