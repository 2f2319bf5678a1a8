// The slots of the work buffer's frame: a value's kind, one byte, and its payload, eight.
ghost use Rattle.std.specs.Prelude.{◌≡◌, ◌+◌, ◌^◌, ◌<◌, ◌≤◌, length};
ghost use Rattle.layout.specs.Bytes.{byte, number_at};
ghost use Rattle.scalar.specs.Value.{Storable, value_of};
ghost use Rattle.case.specs.Frame.{slot_at, next_slot, SlotPut};

use scalar::value::{Value, kind, payload, value_of};

// A byte as a number of 64 bits.
pub(crate) fn wide(b: u8) -> u64
    ensures { (result ≡ b) × (result < 256) }
{
    b as u64
}

// The number in the four bytes at a place.
pub(crate) fn word(work: &[u8], at: usize) -> u64
    requires { at + 4 ≤ length work.now }
    ensures { (result ≡ number_at 4 work.now at) × (result < 2 ^ 32) }
{
    wide(work[at])
        + 256 * (wide(work[at + 1]) + 256 * (wide(work[at + 2]) + 256 * wide(work[at + 3])))
}

// The number in the eight bytes at a place.
pub(crate) fn long(work: &[u8], at: usize) -> u64
    requires { at + 8 ≤ length work.now }
    ensures { result ≡ number_at 8 work.now at }
{
    let low = word(work, at);
    let high = word(work, at + 4);
    low + 0x1_0000_0000 * high
}

// The value of a kind and a payload into the slot of a row.
pub(crate) fn put_parts(work: &mut [u8], row: usize, kind: u8, payload: u64)
    requires { (row < 512) × (5632 ≤ length work.old) }
    ensures { SlotPut work.old row (value_of kind payload) work.new }
{
    let at = 1024 + 9 * row;
    work[at] = kind;
    work[at + 1] = (payload % 256) as u8;
    work[at + 2] = (payload / 0x100 % 256) as u8;
    work[at + 3] = (payload / 0x1_0000 % 256) as u8;
    work[at + 4] = (payload / 0x100_0000 % 256) as u8;
    work[at + 5] = (payload / 0x1_0000_0000 % 256) as u8;
    work[at + 6] = (payload / 0x100_0000_0000 % 256) as u8;
    work[at + 7] = (payload / 0x1_0000_0000_0000 % 256) as u8;
    work[at + 8] = (payload / 0x100_0000_0000_0000 % 256) as u8;
}

// A value into the slot of a row.
pub(crate) fn put_slot(work: &mut [u8], row: usize, v: Value)
    requires row_bound { (row < 512) × (5632 ≤ length work.old) }
    requires storable { Storable v }
    ensures { SlotPut work.old row v work.new }
{
    put_parts(work, row, kind(v), payload(v));
}

// The value in the nine bytes at a place.
fn slot_value(work: &[u8], at: usize) -> Value
    requires { at + 9 ≤ length work.now }
    ensures { (result ≡ value_of (byte work.now at) (number_at 8 work.now (at + 1))) × Storable result }
{
    let payload = long(work, at + 1);
    value_of(work[at], payload)
}

// The value in the slot of a row.
pub(crate) fn get_slot(work: &[u8], row: usize) -> Value
    requires { (row < 512) × (5632 ≤ length work.now) }
    ensures { (result ≡ slot_at work.now row) × Storable result }
{
    slot_value(work, 1024 + 9 * row)
}

// The value in the slot of a row of the next frame.
pub(crate) fn next_slot(work: &[u8], row: usize) -> Value
    requires { (row < 512) × (12288 ≤ length work.now) }
    ensures { (result ≡ next_slot work.now row) × Storable result }
{
    slot_value(work, 7680 + 9 * row)
}

// The value in the slot of a row of the next frame, into the row's slot of this one.
pub(crate) fn copy_slot(work: &mut [u8], row: usize)
    requires { (row < 512) × (12288 ≤ length work.old) }
    ensures { SlotPut work.old row (next_slot work.old row) work.new }
{
    let at = 7680 + 9 * row;
    let kind = work[at];
    let payload = long(work, at + 1);
    put_parts(work, row, kind, payload);
}

// A value as a slot keeps it: the same, where it can be stored.
pub(crate) fn stored(v: Value) -> Value
    ensures { Storable result × (Storable v → result ≡ v) }
{
    value_of(kind(v), payload(v))
}
