// Number keys: Int32, Int64 and Float64, floats by bits; and those of one kind by the numbers by which they are compared.
ghost use Rattle.std.specs.Prelude.{◌≡◌, ℕ, ◌≤◌, List, IfSome};
ghost use Rattle.case.specs.LookUpTables.{EachOnce, number_index};
ghost use Rattle.case.specs.LookUpColumns.{number_hint, NumbersRead, NumberTable, number_found, DenseFilled};

use crate::when_literal_index_map::WhenLiteralIndexMap;
use scalar::order::{Key, key_of};
use scalar::value::value_of;

impl WhenLiteralIndexMap {
    // The index of the first key of this kind and this payload, or the ELSE index.
    pub(crate) fn find_number(&self, kind: u8, payload: u64) -> usize
        ensures { result ≡ number_index self.now.kinds self.now.keys self.now.indices self.now.size self.now.else_index kind payload }
    {
        for k in 0..self.size {
            if payload == self.keys[k] && kind == self.kinds[k] {
                return self.indices[k] as usize;
            }
        }
        self.else_index
    }
}

// The numbers of keys that are all of one kind, and at each number's hint one more than the place of a key. Moved once, never copied.
#[derive(Drop)]
pub(crate) struct PrimitiveIndexMap {
    pub(crate) numbers: [u64; 32],
    pub(crate) indices: [u16; 32],
    pub(crate) hints: [u8; 256],
    pub(crate) size: usize,
    pub(crate) else_index: usize,
    ghost numbered: { NumberTable numbers indices hints size else_index },
}

// At a number's distance from the least the index from 1: of a key its own, elsewhere ELSE's. Moved once, never copied.
#[derive(Drop)]
pub(crate) struct DenseIndexMap {
    pub(crate) least: u64,
    pub(crate) answers: [u16; 256],
    pub(crate) else_index: usize,
    ghost small: { else_index ≤ 64 },
}

// A number's place among the hints.
fn number_hint(x: u64) -> usize
    ensures { result ≡ number_hint x }
{
    ((x % 256 + x / 0x1_0000_0000_0000 % 256) % 256) as usize
}

impl PrimitiveIndexMap {
    // The keys by their numbers, where every key is of the kind.
    pub(crate) fn try_new(whens: &WhenLiteralIndexMap, kind: u8) -> Option<PrimitiveIndexMap>
        requires { (rule : List ℕ) × (table : List ℕ) × EachOnce rule table whens.now.kinds whens.now.keys whens.now.size }
        ensures { IfSome result (λ m. NumbersRead whens.now.kinds whens.now.keys whens.now.size kind m.numbers m.hints × (m.indices ≡ whens.now.indices) × (m.size ≡ whens.now.size) × (m.else_index ≡ whens.now.else_index)) }
    {
        let mut map = PrimitiveIndexMap {
            numbers: [0; 32],
            indices: whens.indices,
            hints: [0; 256],
            size: whens.size,
            else_index: whens.else_index,
        };
        for k in 0..whens.size {
            let Key::Number(of, number) = key_of(value_of(whens.kinds[k], whens.keys[k])) else {
                return None;
            };
            if of != kind {
                return None;
            }
            map.numbers[k] = number;
            map.hints[number_hint(number)] = (k + 1) as u8;
        }
        Some(map)
    }

    // The index of the first key of this number, or the ELSE index.
    fn find_key(&self, x: u64) -> usize
        ensures { result ≡ number_found self.now.numbers self.now.indices self.now.size self.now.else_index x }
    {
        for k in 0..self.size {
            if x == self.numbers[k] {
                return self.indices[k] as usize;
            }
        }
        self.else_index
    }

    // The same, by the hint first.
    pub(crate) fn index(&self, x: u64) -> usize
        ensures { result ≡ number_found self.now.numbers self.now.indices self.now.size self.now.else_index x }
    {
        let h = self.hints[number_hint(x)] as usize;
        if h == 0 {
            return self.else_index;
        }
        if x == self.numbers[h - 1] {
            return self.indices[h - 1] as usize;
        }
        self.find_key(x)
    }

    // The least of the keys' numbers, or another number: whether it serves is seen as the dense table is filled.
    fn least_number(&self) -> u64 {
        self.numbers[..self.size]
            .iter()
            .copied()
            .min()
            .unwrap_or(u64::MAX)
    }

    // The dense table, where no number is above the least by more than 255.
    pub(crate) fn dense(&self) -> Option<DenseIndexMap>
        ensures { IfSome result (λ d. DenseFilled self.now.numbers self.now.indices self.now.size self.now.else_index d.least d.answers × (d.else_index ≡ self.now.else_index)) }
    {
        let least = self.least_number();
        let mut answers = [(self.else_index / 2 + 1) as u16; 256];
        for key in 0..self.size {
            let x = self.numbers[key];
            if x < least {
                return None;
            }
            let d = x - least;
            if 255 < d {
                return None;
            }
            answers[d as usize] = self.indices[key] / 2 + 1;
        }
        Some(DenseIndexMap {
            least,
            answers,
            else_index: self.else_index,
        })
    }
}
