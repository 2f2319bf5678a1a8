// The sequences of UTF-8's table, by their bytes.
ghost use Rattle.std.specs.Prelude.{◌≡◌};
ghost use Rattle.utf8.specs.WellFormed.{within, sequence_length};
ghost use Rattle.utf8.specs.Answers.{some_length};
ghost use Rattle.utf8.specs.Sequence.{trailing_range, second_least, second_greatest, second_range};

use layout::number::byte_at;

// Whether a byte can stand behind the second.
fn trails(b: u8) -> bool
    ensures { result ≡ within trailing_range b }
{
    if b < 0x80 {
        return false;
    }
    b <= 0xBF
}

// The least second byte.
fn second_least(first: u8) -> u8
    ensures { result ≡ second_least first }
{
    match first {
        0xE0 => 0xA0,
        0xF0 => 0x90,
        _ => 0x80,
    }
}

// The greatest second byte.
fn second_greatest(first: u8) -> u8
    ensures { result ≡ second_greatest first }
{
    match first {
        0xED => 0x9F,
        0xF4 => 0x8F,
        _ => 0xBF,
    }
}

// Whether a byte can stand second, behind the first.
fn second_fits(first: u8, second: u8) -> bool
    ensures { result ≡ within (second_range first) second }
{
    if second < second_least(first) {
        return false;
    }
    second <= second_greatest(first)
}

// How long the well-formed sequence at the start of bytes is, if there is one. No byte is read before those in front of it fit.
pub fn sequence_length(bytes: &[u8]) -> Option<usize>
    ensures { result ≡ some_length (sequence_length bytes.now) }
{
    if bytes.len() == 0 {
        return None;
    }
    let first = bytes[0];
    if first < 0x80 {
        return Some(1);
    }
    if first < 0xC2 {
        return None;
    }
    if 0xF4 < first {
        return None;
    }
    if !second_fits(first, byte_at(bytes, 1)) {
        return None;
    }
    if first < 0xE0 {
        return Some(2);
    }
    if !trails(byte_at(bytes, 2)) {
        return None;
    }
    if first < 0xF0 {
        return Some(3);
    }
    if trails(byte_at(bytes, 3)) {
        Some(4)
    } else {
        None
    }
}
