// What is read off a rule, compared with what is stored of it: refusal number or 0, strategy, nullable mark, type, number of columns, columns.
use layout::number::byte_at;
use layout::part::part_of;
use rule::answer::{nullable, projection, read, strategy};

// The bytes stored before the columns.
pub(crate) const FACTS: usize = 5;

// Whether the reading gives a refusal number, or accepts with a type where that is 0.
fn reading_agrees(rule: &[u8], refused: u8, number: u8) -> bool {
    match read(rule) {
        Err(e) => e.number() == refused,
        Ok(t) => refused == 0 && t.number() == number,
    }
}

fn strategy_agrees(rule: &[u8], refused: u8, number: u8) -> bool {
    match strategy(rule) {
        Err(e) => e.number() == refused,
        Ok(s) => s.number() == number,
    }
}

fn nullable_agrees(rule: &[u8], refused: u8, mark: u8) -> bool {
    match nullable(rule) {
        Err(e) => e.number() == refused,
        Ok(b) => refused == 0 && u8::from(b) == mark,
    }
}

fn projection_agrees(rule: &[u8], refused: u8, columns: &[u8]) -> bool {
    match projection(rule) {
        Err(e) => e.number() == refused && columns.is_empty(),
        Ok(p) => refused == 0
            && p.count == columns.len()
            && part_of(&p.columns, 0, p.count) == columns,
    }
}

// Whether all that is read off a rule is what is stored.
pub(crate) fn rule_agrees(rule: &[u8], stored: &[u8]) -> bool {
    let refused = byte_at(stored, 0);
    reading_agrees(rule, refused, byte_at(stored, 3))
        && strategy_agrees(rule, refused, byte_at(stored, 1))
        && nullable_agrees(rule, refused, byte_at(stored, 2))
        && projection_agrees(rule, refused, part_of(stored, FACTS, stored.len()))
}
