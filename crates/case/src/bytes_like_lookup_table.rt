// Text keys, by their bytes.
ghost use Rattle.std.specs.Prelude.{◌≡◌, ◌<◌, ◌≤◌, true, length, slice_index};
ghost use Rattle.layout.specs.Bytes.{Bytes};
ghost use Rattle.scalar.specs.Entry.{entry, utf8};
ghost use Rattle.scalar.specs.Text.{same_bytes};
ghost use Rattle.scalar.specs.Value.{meaning, value_of};
ghost use Rattle.case.specs.LookUpTables.{EachOnce, same_key, key_index, value_at};
ghost use Rattle.case.specs.LookUpColumns.{text_hint, outcome_hint, Hinted, rule_text, text_mark, KeySize, Marked, MarkIs, TextTable};

use crate::slot::word;
use crate::when_literal_index_map::WhenLiteralIndexMap;
use scalar::text::place_text;

// Whether two texts of one size are the same bytes, one at a time from the back.
fn same_short(there: &[u8], text: &[u8]) -> bool
    requires { length text.now ≡ length there.now }
    ensures { result ≡ same_bytes text.now there.now }
{
    for left in (0..text.len()).rev() {
        if text[left] != there[left] {
            return false;
        }
    }
    true
}

// The same of four bytes or more, four at a time: names often begin alike.
fn same_long(there: &[u8], text: &[u8]) -> bool
    requires { (length text.now ≡ length there.now) × (4 ≤ length text.now) }
    ensures { result ≡ same_bytes text.now there.now }
{
    let mut left = text.len();
    // no plainer as a `for`: it would count fours, and the place from the back would be computed of each
    while 4 <= left {
        left -= 4;
        if word(text, left) != word(there, left) {
            return false;
        }
    }
    word(text, 0) == word(there, 0)
}

// Whether two texts are the same bytes. The sizes tell most texts apart.
fn same_text(there: &[u8], text: &[u8]) -> bool
    ensures { result ≡ same_bytes text.now there.now }
{
    if there.len() != text.len() {
        return false;
    }
    if text.len() < 4 {
        return same_short(there, text);
    }
    same_long(there, text)
}

// The text of a key in the bytes it is in, by its payload.
fn key_text(bytes: &[u8], payload: u64) -> &[u8]
    ensures { result.now ≡ rule_text bytes.now payload }
{
    let start = (payload % 0x1_0000_0000) as usize;
    let size = (payload / 0x1_0000_0000) as usize;
    place_text(bytes, start, size)
}

// Whether a key, by its kind and payload, is a text of these bytes. Kind 5 is text in the rule, 6 in the table.
fn is_text(rule: &[u8], table: &[u8], text: &[u8], kind: u8, payload: u64) -> bool
    ensures { result ≡ same_key (entry (utf8 text.now)) (meaning rule.now table.now (value_of kind payload)) }
{
    match kind {
        5 => same_text(key_text(rule, payload), text),
        6 => same_text(key_text(table, payload), text),
        _ => false,
    }
}

impl WhenLiteralIndexMap {
    // The index of the first key that is a text of these bytes, or the ELSE index. A part of each loop over rows that asks it.
    #[inline(always)]
    pub(crate) fn find_text(&self, rule: &[u8], table: &[u8], text: &[u8]) -> usize
        ensures { result ≡ key_index rule.now table.now self.now.kinds self.now.keys self.now.indices self.now.size self.now.else_index (entry (utf8 text.now)) }
    {
        for k in 0..self.size {
            if is_text(rule, table, text, self.kinds[k], self.keys[k]) {
                return self.indices[k] as usize;
            }
        }
        self.else_index
    }
}

// A text's place among the hints.
fn text_hint(text: &[u8]) -> usize
    ensures { result ≡ text_hint text.now }
{
    let size = text.len();
    if size == 0 {
        return 0;
    }
    (size % 256 + 8 * (text[size - 1] as usize)) % 256
}

// The hint of a key, by its kind and payload.
fn key_hint(rule: &[u8], table: &[u8], kind: u8, payload: u64) -> usize
    ensures { result ≡ outcome_hint (meaning rule.now table.now (value_of kind payload)) }
{
    match kind {
        5 => text_hint(key_text(rule, payload)),
        6 => text_hint(key_text(table, payload)),
        _ => 0,
    }
}

// At each key's hint one more than the place of a key.
fn read_hints(rule: &[u8], table: &[u8], whens: &WhenLiteralIndexMap) -> [u8; 256]
    ensures { Hinted (λ k. outcome_hint (meaning rule.now table.now (value_at whens.now.kinds whens.now.keys k))) whens.now.size result }
{
    let mut hints = [0u8; 256];
    for k in 0..whens.size {
        let h = key_hint(rule, table, whens.kinds[k], whens.keys[k]);
        hints[h] = (k + 1) as u8;
    }
    hints
}

// The mark of a text of four bytes or more.
fn text_mark(text: &[u8]) -> u64
    requires { 4 ≤ length text.now }
    ensures { result ≡ text_mark text.now }
{
    let last = text.len() - 4;
    word(text, 0) + 0x1_0000_0000 * word(text, last)
}

// The mark of a key's text in the rule, by its payload, where it has four bytes or more.
fn key_mark(rule: &[u8], payload: u64) -> u64
    ensures { 4 ≤ length (rule_text rule.now payload) → result ≡ text_mark (rule_text rule.now payload) }
{
    let text = key_text(rule, payload);
    if text.len() < 4 {
        return 0;
    }
    text_mark(text)
}

// The size of a key's text of four to eight bytes in the rule, by its kind and payload; of any other key 0.
fn key_size(rule: &[u8], kind: u8, payload: u64) -> usize
    ensures { KeySize rule.now kind payload result }
{
    if kind != 5 {
        return 0;
    }
    let there = key_text(rule, payload).len();
    if there < 4 {
        return 0;
    }
    if 8 < there {
        return 0;
    }
    there
}

// The size and the mark of each key of four to eight bytes in the rule; of any other key the size 0. Moved once, never copied.
#[derive(Drop)]
pub(crate) struct TextMarks {
    pub(crate) sizes: [u8; 32],
    pub(crate) marks: [u64; 32],
}

impl TextMarks {
    // The sizes and the marks of the keys.
    fn read(rule: &[u8], whens: &WhenLiteralIndexMap) -> TextMarks
        ensures { Marked rule.now whens.now.kinds whens.now.keys result.sizes result.marks }
    {
        let mut read = TextMarks {
            sizes: [0; 32],
            marks: [0; 32],
        };
        for k in 0..whens.size {
            read.sizes[k] = key_size(rule, whens.kinds[k], whens.keys[k]) as u8;
            read.marks[k] = key_mark(rule, whens.keys[k]);
        }
        read
    }

    // Whether a text of four bytes or more has the size and the mark of a key.
    fn is_marked(&self, k: usize, text: &[u8]) -> bool
        requires { k < 32 }
        ensures { result ≡ true → MarkIs (slice_index self.now.sizes k) (slice_index self.now.marks k) text.now }
    {
        if text.len() < 4 {
            return false;
        }
        if (self.sizes[k] as usize) != text.len() {
            return false;
        }
        self.marks[k] == text_mark(text)
    }
}

// The keys of a table that is searched for texts, their hints and their marks. Moved once, never copied.
#[derive(Drop)]
pub(crate) struct BytesLikeIndexMap<'a> {
    pub(crate) rule: &'a [u8],
    pub(crate) table: &'a [u8],
    pub(crate) whens: &'a WhenLiteralIndexMap,
    pub(crate) hints: [u8; 256],
    pub(crate) marks: TextMarks,
    ghost bytes: { Bytes rule.now },
    ghost texts: { TextTable rule.now table.now whens.now.kinds whens.now.keys whens.now.indices hints whens.now.size whens.now.else_index },
    ghost marked: { Marked rule.now whens.now.kinds whens.now.keys marks.sizes marks.marks },
}

impl<'a> BytesLikeIndexMap<'a> {
    // The hints and the marks of the keys.
    pub(crate) fn new(rule: &'a [u8], table: &'a [u8], whens: &'a WhenLiteralIndexMap) -> Self
        requires { EachOnce rule.now table.now whens.now.kinds whens.now.keys whens.now.size }
        ensures { (result.rule.now ≡ rule.now) × (result.table.now ≡ table.now) × (result.whens.now ≡ whens.now) }
    {
        let hints = read_hints(rule, table, whens);
        let marks = TextMarks::read(rule, whens);
        BytesLikeIndexMap {
            rule,
            table,
            whens,
            hints,
            marks,
        }
    }

    // The index of the first key that is a text of these bytes, or the ELSE index, by one of the keys first.
    fn likely_index(&self, k: usize, text: &[u8]) -> usize
        requires { k < self.now.whens.now.size }
        ensures { result ≡ key_index self.now.rule.now self.now.table.now self.now.whens.now.kinds self.now.whens.now.keys self.now.whens.now.indices self.now.whens.now.size self.now.whens.now.else_index (entry (utf8 text.now)) }
    {
        if is_text(
            self.rule,
            self.table,
            text,
            self.whens.kinds[k],
            self.whens.keys[k],
        ) {
            return self.whens.indices[k] as usize;
        }
        self.whens.find_text(self.rule, self.table, text)
    }

    // The index of the first key that is a text of these bytes, or the ELSE index, by the hint first.
    pub(crate) fn index(&self, text: &[u8]) -> usize
        ensures { result ≡ key_index self.now.rule.now self.now.table.now self.now.whens.now.kinds self.now.whens.now.keys self.now.whens.now.indices self.now.whens.now.size self.now.whens.now.else_index (entry (utf8 text.now)) }
    {
        let h = self.hints[text_hint(text)] as usize;
        if h == 0 {
            return self.whens.else_index;
        }
        if self.marks.is_marked(h - 1, text) {
            return self.whens.indices[h - 1] as usize;
        }
        self.likely_index(h - 1, text)
    }
}
