// The rows of a result and the value that each holds: one index a row. Rows come in rising lists, the branches' parts; a list of all rows
// is the whole result.
#![tactic(auto)]

ghost use Rattle.std.specs.Prelude.{◌≡◌, true, not, ◌&&◌, ◌≤◌, min, length};
ghost use Rattle.builder.specs.Builder.{rising_below, or_else};
ghost use Rattle.builder.specs.BuilderStruct.{marked, some_marked, count_of, holding, empty_builder, new_answer, add_answer, add_after, finish_answer};

use layout::refusal::Refusal;

// Most rows of a result.
const ROWS_MOST: usize = 512;

// `held` is 1 where a row holds its value of `values`, and 0 where it holds none (fixed memory: no heap).
#[derive(Clone, Copy, Debug, PartialEq, Eq)]
pub struct ResultBuilder {
    pub rows: usize,
    pub part: bool,
    pub whole: bool,
    pub held: [u8; 512],
    pub values: [u16; 512],
}

// The value of each row, 0 where it holds none: the first `count` of `values` (fixed memory: no heap). Behind them stand zeros.
#[derive(Clone, Copy, Debug, PartialEq, Eq)]
pub struct Finished {
    pub count: usize,
    pub values: [u16; 512],
}

// How many rows a struct has: at most 512.
fn count_of(rows: usize) -> usize
    ensures { result ≡ min rows 512 }
{
    rows.min(ROWS_MOST)
}

// The value of a row by its mark: 0 where it holds none.
fn kept(mark: u8, value: u16) -> u16
    ensures { result ≡ or_else 0 (marked mark value) }
{
    if mark == 0 { 0 } else { value }
}

// Whether a list, of all rows or of some, comes after a whole, or a whole after a part.
fn clashes(whole: bool, part: bool, all: bool) -> bool
    ensures { result ≡ not (not whole && not (part && all)) }
{
    whole || (part && all)
}

// Whether the rows rise and lie below a count.
fn rising_below(rows: &[u16], count: usize) -> bool
    ensures { result ≡ rising_below 0 count rows.now }
{
    let mut from: usize = 0;
    for &row in rows {
        let row = row as usize;
        if row < from || count <= row {
            return false;
        }
        from = row + 1;
    }
    true
}

// Whether one of the rows is marked.
fn some_marked(held: &[u8; 512], rows: &[u16], count: usize) -> bool
    requires { (count ≤ 512) × (rising_below 0 count rows.now ≡ true) }
    ensures { result ≡ some_marked held.now rows.now }
{
    for &row in rows {
        if held[row as usize] != 0 {
            return true;
        }
    }
    false
}

// A builder for so many rows, none of which is held.
fn empty(rows: usize) -> ResultBuilder
    ensures { result ≡ empty_builder rows }
{
    ResultBuilder {
        rows,
        part: false,
        whole: false,
        held: [0u8; 512],
        values: [0u16; 512],
    }
}

impl ResultBuilder {
    // A builder for so many rows, none of which is held; above 512 rows there is none.
    pub fn new(rows: usize) -> Result<ResultBuilder, Refusal>
        ensures { result ≡ new_answer rows }
    {
        if ROWS_MOST < rows {
            return Err(Refusal::TableSize);
        }
        Ok(empty(rows))
    }

    // A value for each of the rows.
    fn hold(&mut self, rows: &[u16], values: &[u16], count: usize)
        requires { (count ≡ count_of self.old) × (rising_below 0 count rows.now ≡ true) × (length rows.now ≡ length values.now) }
        ensures { self.new ≡ holding self.old rows.now values.now }
    {
        for (&row, &value) in rows.iter().zip(values) {
            let row = row as usize;
            self.held[row] = 1;
            self.values[row] = value;
        }
    }

    // The values of the rows of a branch. A refusal (19, 18, 21 or 20) leaves the builder as it was.
    pub fn add_branch_result(&mut self, rows: &[u16], values: &[u16]) -> Result<(), Refusal>
        ensures { (result ≡ add_answer self.old rows.now values.now) × (self.new ≡ add_after self.old rows.now values.now) }
    {
        let count = count_of(self.rows);
        if rows.len() != values.len() {
            return Err(Refusal::BuilderLength);
        }
        if !rising_below(rows, count) {
            return Err(Refusal::BuilderRow);
        }
        let all = rows.len() == count;
        if clashes(self.whole, self.part, all) {
            return Err(Refusal::BuilderWhole);
        }
        if some_marked(&self.held, rows, count) {
            return Err(Refusal::BuilderHeld);
        }
        self.hold(rows, values, count);
        self.part = self.part || !all;
        self.whole = all;
        Ok(())
    }

    // The value of each row; a row that no part holds is 0, null.
    pub fn finish(&self) -> Finished
        ensures { result ≡ finish_answer self.now }
    {
        let count = count_of(self.rows);
        let mut out = [0u16; 512];
        for i in 0..count {
            out[i] = kept(self.held[i], self.values[i]);
        }
        Finished { count, values: out }
    }
}
