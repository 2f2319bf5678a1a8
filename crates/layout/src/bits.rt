// Bitmaps: the bit of a row, lowest bit first.
ghost use Rattle.std.specs.Prelude.{◌≡◌, ◌*◌, ◌^◌, ◌<◌, ◌≤◌, length};
ghost use Rattle.std.specs.Int.Count.{ones};
ghost use Rattle.layout.specs.Bytes.{byte_of_row, bit_of_row, bit_at, bitmap_length, set_bits};

use crate::number::whole_u64;

// The byte of a bitmap that holds a row's bit.
pub fn byte_of_row(row: usize) -> usize
    ensures { result ≡ byte_of_row row }
{
    row >> 3
}

// Which bit of its byte is a row's, from 0.
pub fn bit_of_row(row: usize) -> usize
    ensures { result ≡ bit_of_row row }
{
    row & 7
}

// The bit of a row; behind the bitmap's end it is not set.
pub fn bit_at(map: &[u8], row: usize) -> bool
    ensures { result ≡ bit_at map.now row }
{
    let at = byte_of_row(row);
    let shift = bit_of_row(row);
    if at < map.len() {
        let b = map[at];
        (b >> shift) & 1 == 1
    } else {
        false
    }
}

// How many bytes a bitmap of so many rows takes: a byte for each eight rows begun.
pub fn bitmap_length(rows: usize) -> usize
    ensures { result ≡ bitmap_length rows }
{
    let whole = rows >> 3;
    if rows & 7 == 0 { whole } else { whole + 1 }
}

// How many bits of a byte are set.
pub fn ones_in(b: u8) -> usize
    ensures { (result ≡ ones b) × (result ≤ 8) }
{
    b.count_ones() as usize
}

// How many bits of the first words, of eight bytes each, are set.
fn word_set_bits(map: &[u8], words: usize) -> usize
    requires { (8 * words ≤ length map.now) × (64 * words < 2 ^ 64) }
    ensures { (result ≡ set_bits map.now (64 * words)) × (result ≤ 64 * words) }
{
    let mut sum = 0;
    for i in 0..words {
        let word = whole_u64(map, 8 * i);
        sum += word.count_ones() as usize;
    }
    sum
}

// How many bits of the first bytes are set.
fn whole_set_bits(map: &[u8], size: usize) -> usize
    requires { (size ≤ length map.now) × (8 * size < 2 ^ 64) }
    ensures { (result ≡ set_bits map.now (8 * size)) × (result ≤ 8 * size) }
{
    let words = size >> 3;
    let mut sum = word_set_bits(map, words);
    for i in 8 * words..size {
        sum += ones_in(map[i]);
    }
    sum
}

// How many of the first rows' bits are set; behind the bitmap's end none is.
pub fn set_bits(map: &[u8], rows: usize) -> usize
    ensures { (result ≡ set_bits map.now rows) × (result ≤ rows) }
{
    let whole = byte_of_row(rows);
    if map.len() <= whole {
        return whole_set_bits(map, map.len());
    }
    let below = (1u8 << bit_of_row(rows)) - 1;
    whole_set_bits(map, whole) + ones_in(map[whole] & below)
}
