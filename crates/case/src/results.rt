// The literals among a CASE's THENs and its ELSE, put into the slots of the rows by their indices: of THEN at its index, of ELSE, cast, behind the THENs, and
// behind that a failure; null at 0 and where there is no literal. There is room for as many branches as a byte counts (fixed memory: no heap).
ghost use Rattle.std.specs.Prelude.{◌≡◌, ℕ, ◌≤◌, length, slice_index};
ghost use Rattle.case.specs.Frame.{Fillable, Filled};
ghost use Rattle.case.specs.Results.{StartRight, ThensRead, ResultsRead, PutBy};

use crate::rows::{ROWS_MOST, row_at};
use crate::slot::put_parts;
use layout::number::byte_at;
use rule::literal::literal_value;
use rule::tag::LITERAL;
use rule::walk::field_end;
use scalar::try_cast::try_cast;
use scalar::types::DataType;
use scalar::value::{kind, payload};

// The kind of a failure.
const FAILED: u8 = 7;

// The literal of each index or class, by its kind and its payload. Filled where it stands: to give it back by value would copy it at each level.
#[derive(Drop)]
pub(crate) struct Results {
    pub(crate) kinds: [u8; 258],
    pub(crate) payloads: [u64; 258],
}

impl Results {
    // No literal yet.
    #[inline(always)]
    pub(crate) fn none() -> Results
        ensures { (i : ℕ) → slice_index result.kinds i ≡ 0 }
    {
        Results {
            kinds: [0; 258],
            payloads: [0; 258],
        }
    }

    // The literals among so many THENs at a place: where they end.
    fn thens(&mut self, rule: &[u8], at: usize, count: usize) -> usize
        requires few { count ≤ 255 }
        requires empty { (i : ℕ) → slice_index self.old.kinds i ≡ 0 }
        ensures { ThensRead rule.now at count count self.new.kinds self.new.payloads result }
    {
        let mut place = at;
        for k in 1..count + 1 {
            let then = field_end(rule, place);
            let next = field_end(rule, then);
            if byte_at(rule, then) == LITERAL {
                let v = literal_value(rule, then, next);
                self.kinds[k] = kind(v);
                self.payloads[k] = payload(v);
            }
            place = next;
        }
        place
    }

    // The literals of so many branches at a place and of ELSE behind them, and a failure.
    pub(crate) fn read(&mut self, rule: &[u8], at: usize, end: usize, count: usize, to: DataType)
        requires few { count ≤ 255 }
        requires empty { (i : ℕ) → slice_index self.old.kinds i ≡ 0 }
        ensures { ResultsRead rule.now at end count to self.new.kinds self.new.payloads }
    {
        let place = self.thens(rule, at, count);
        self.kinds[count + 2] = FAILED;
        if place == end {
            return;
        }
        if byte_at(rule, place) == LITERAL {
            let v = try_cast(to, literal_value(rule, place, end));
            self.kinds[count + 1] = kind(v);
            self.payloads[count + 1] = payload(v);
        }
    }

    // The value at each listed row's index, in the row's slot.
    fn put(&self, work: &mut [u8], n: usize, values: &[u16; ROWS_MOST])
        requires { Fillable work.old n }
        ensures { Filled (PutBy self.now.kinds self.now.payloads values.now) work.old n work.new }
    {
        for i in 0..n {
            let r = row_at(work, 0, i);
            let j = values[r] as usize;
            if j < 258 {
                put_parts(work, r, self.kinds[j], self.payloads[j]);
            } else {
                put_parts(work, r, 0, 0);
            }
        }
    }
}

// What each listed row has before the other results are taken, in its slot: the literal of its index, null, or a failure.
pub(crate) fn start_results(
    rule: &[u8],
    at: usize,
    end: usize,
    count: u8,
    to: DataType,
    work: &mut [u8],
    n: usize,
    values: &[u16; ROWS_MOST],
)
    requires { Fillable work.old n }
    ensures { Filled (StartRight rule.now at end count to values.now) work.old n work.new }
{
    let mut results = Results::none();
    results.read(rule, at, end, count as usize, to);
    results.put(work, n, values);
}
