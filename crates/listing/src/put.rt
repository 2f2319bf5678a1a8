// Bytes put at a place of a buffer. `write_byte` and `write_bytes` stand in `writer` too: they have a `requires`, and no public function has one.
ghost use Rattle.std.specs.Prelude.{◌≡◌, [], ◌∷◌, ◌+◌, ◌≤◌, leb, length};
ghost use Rattle.layout.specs.Put.{Wrote};

// Whether so many bytes fit at a place of a buffer of a length.
pub(crate) fn room(length: usize, at: usize, size: usize) -> bool
    ensures { result ≡ leb (at + size) length }
{
    if length < at {
        return false;
    }
    size <= length - at
}

// One byte, where it fits.
pub(crate) fn write_byte(b: u8, at: usize, out: &mut [u8]) -> usize
    requires { at + 1 ≤ length out.old }
    ensures { Wrote out.old at (b ∷ []) result out.new }
{
    out[at] = b;
    at + 1
}

// Bytes, where they fit.
pub(crate) fn write_bytes(bytes: &[u8], at: usize, out: &mut [u8]) -> usize
    requires { at + length bytes.now ≤ length out.old }
    ensures { Wrote out.old at bytes.now result out.new }
{
    let end = at + bytes.len();
    out[at..end].copy_from_slice(bytes);
    end
}
