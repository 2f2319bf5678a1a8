// Bytes put at a place of the output. Each function says where they end. `put_byte` and `put_bytes` stand in `listing` too: they have a
// `requires`, and no public function has one.
ghost use Rattle.std.specs.Prelude.{ℕ, [], ◌∷◌, ◌+◌, ◌*◌, ◌<◌, ◌≤◌, length};
ghost use Rattle.layout.specs.Bytes.{number_bytes};
ghost use Rattle.layout.specs.Field.{field_bytes};
ghost use Rattle.layout.specs.Put.{Wrote};
ghost use Rattle.scalar.specs.Types.{type_number, mark_number};
ghost use Rattle.writer.specs.Writing.{Gives, width_of, row_bytes, plain_numbers};

use scalar::types::DataType;

// One byte.
pub(crate) fn put_byte(output: &mut [u8], at: usize, b: u8) -> usize
    requires { at + 1 ≤ length output.old }
    ensures { Wrote output.old at (b ∷ []) result output.new }
{
    output[at] = b;
    at + 1
}

// Some bytes. One by one: `copy_from_slice` would need `memmove` from outside the archive for C.
pub(crate) fn put_bytes(output: &mut [u8], at: usize, bytes: &[u8]) -> usize
    requires { at + length bytes.now ≤ length output.old }
    ensures { Wrote output.old at bytes.now result output.new }
{
    for i in 0..bytes.len() {
        output[at + i] = bytes[i];
    }
    at + bytes.len()
}

// A number, of eight bytes or of four.
pub(crate) fn put_number(output: &mut [u8], at: usize, wide: bool, n: u64) -> usize
    requires { at + width_of wide ≤ length output.old }
    ensures { Wrote output.old at (number_bytes (width_of wide) n) result output.new }
{
    if wide {
        put_bytes(output, at, &n.to_le_bytes())
    } else {
        put_bytes(output, at, &((n % 0x1_0000_0000) as u32).to_le_bytes())
    }
}

// A number for each row, of eight bytes or of four.
pub(crate) fn put_numbers<F: Fn(usize) -> u64>(
    rows: usize,
    wide: bool,
    number: F,
    at: usize,
    output: &mut [u8],
) -> usize
    requires calls { (i : ℕ) → i < rows → F.pre number i }
    requires room { at + width_of wide * rows ≤ length output.old }
    ensures { (numbers : ℕ → ℕ) → Gives (F.post number) numbers rows → Wrote output.old at (row_bytes (plain_numbers wide numbers) rows) result output.new }
{
    let mut p = at;
    for i in 0..rows {
        p = put_number(output, p, wide, number(i));
    }
    p
}

// A field's tag and the length of its content.
pub(crate) fn put_header(output: &mut [u8], at: usize, tag: u8, size: usize) -> usize
    requires { (at + 3 ≤ length output.old) × (size < 65536) }
    ensures { Wrote output.old at (tag ∷ number_bytes 2 size) result output.new }
{
    let p = put_byte(output, at, tag);
    put_bytes(output, p, &(size as u16).to_le_bytes())
}

// Tag 2: the type and the nullable byte.
pub(crate) fn put_type(output: &mut [u8], at: usize, t: DataType, nullable: bool) -> usize
    requires { at + 5 ≤ length output.old }
    ensures { Wrote output.old at (field_bytes 2 (type_number t ∷ mark_number nullable ∷ [])) result output.new }
{
    let p = put_header(output, at, 2, 2);
    let q = put_byte(output, p, t.number());
    put_byte(output, q, u8::from(nullable))
}

// Tag 6: how many rows are null.
pub(crate) fn put_count(output: &mut [u8], at: usize, nulls: usize) -> usize
    requires { (at + 5 ≤ length output.old) × (nulls < 65536) }
    ensures { Wrote output.old at (field_bytes 6 (number_bytes 2 nulls)) result output.new }
{
    let p = put_header(output, at, 6, 2);
    put_bytes(output, p, &(nulls as u16).to_le_bytes())
}
