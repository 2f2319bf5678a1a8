// The rows of an answer.
ghost use Rattle.std.specs.Prelude.{◌≡◌, ◌<◌, ◌≤◌, length};
ghost use Rattle.layout.specs.Bytes.{Bytes};
ghost use Rattle.writer.specs.Slots.{slot_at};
ghost use Rattle.writer.specs.Write.{slot_kind, slot_payload};
ghost use Rattle.writer.specs.Writing.{row_text};

use layout::number::read_u64;
use scalar::text::place_text;
use scalar::value::{Value, value_of};

// How many rows there are, the work buffer with the slot of each, and the rule and the table that their texts are in. Lent on
// and never copied.
#[derive(Drop)]
pub(crate) struct Rows<'a> {
    pub(crate) rule: &'a [u8],
    pub(crate) table: &'a [u8],
    pub(crate) work: &'a [u8],
    pub(crate) count: usize,
    ghost bytes: { Bytes work.now },
    ghost few: { count ≤ 512 },
    ghost room: { 5632 ≤ length work.now },
    ghost rule_short: { length rule.now ≤ 65536 },
    ghost table_short: { length table.now ≤ 65536 },
}

impl<'a> Rows<'a> {
    // The kind of the value in a row's slot, one byte (fixed memory: a slot is a byte of kind and eight of payload).
    pub(crate) fn kind(&self, row: usize) -> u8
        requires { row < self.now.count }
        ensures { result ≡ slot_kind self.now.work.now row }
    {
        self.work[1024 + 9 * row]
    }

    // Its payload, eight bytes.
    pub(crate) fn payload(&self, row: usize) -> u64
        requires { row < self.now.count }
        ensures { result ≡ slot_payload self.now.work.now row }
    {
        let at = 1025 + 9 * row;
        let end = at + 8;
        read_u64(&self.work[at..end], 0)
    }

    // The value in a row's slot.
    pub(crate) fn value(&self, row: usize) -> Value
        requires { row < self.now.count }
        ensures { result ≡ slot_at self.now.work.now row }
    {
        value_of(self.kind(row), self.payload(row))
    }

    // A row's text; empty where its value is none.
    pub(crate) fn text(&self, row: usize) -> &'a [u8]
        requires { row < self.now.count }
        ensures { result.now ≡ row_text self.now.rule.now self.now.table.now (slot_at self.now.work.now) row }
    {
        match self.value(row) {
            Value::RuleText(start, size) => place_text(self.rule, start, size),
            Value::TableText(start, size) => place_text(self.table, start, size),
            _ => &[],
        }
    }
}
