// A run, compared with its stored outcome: a refusal number, or 0 and the answer's bytes.
use crate::bytes::{FILLING, all_are};
use case::evaluate::evaluate;
use layout::refusal::Refusal;

// Whether an answer of a length is the stored one, with the work buffer zero and the output past the answer untouched.
fn answer_agrees(want: &[u8], size: usize, work: &[u8], output: &[u8]) -> bool {
    want.len() > 0
        && want[0] == 0
        && size <= output.len()
        && output[..size] == want[1..]
        && all_are(&output[size..], FILLING)
        && all_are(work, 0)
}

// Whether a refusal is the stored one, with the output untouched and the work buffer zero at 15 to 17, untouched at any other.
fn refusal_agrees(want: &[u8], refusal: Refusal, work: &[u8], output: &[u8]) -> bool {
    let left = match refusal {
        Refusal::Cast | Refusal::TextSize | Refusal::OutputSize => 0,
        _ => FILLING,
    };
    want.len() == 1
        && want[0] == refusal.number()
        && all_are(output, FILLING)
        && all_are(work, left)
}

// Whether a run in the lent buffers has the stored outcome.
pub(crate) fn run_agrees(
    rule: &[u8],
    table: &[u8],
    want: &[u8],
    work: &mut [u8],
    output: &mut [u8],
) -> bool {
    work.fill(FILLING);
    output.fill(FILLING);
    match evaluate(rule, table, work, output) {
        Ok(size) => answer_agrees(want, size, work, output),
        Err(refusal) => refusal_agrees(want, refusal, work, output),
    }
}
