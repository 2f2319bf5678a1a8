// Records of cases, replayed: what is wanted is of a listing its text, of a run its refusal number, or 0 and the answer's bytes.
ghost use Rattle.std.specs.Prelude.{◌≡◌, ◌+◌, ◌≤◌, ◌<◌};

use crate::run::run_agrees;
use crate::text::listing_agrees;
use files::record::{Record, first_record};

// What the cases of a file are.
#[derive(Clone, Copy)]
pub(crate) enum Kind {
    Listing,
    Run,
}

// How many cases there were, how many agree, and the number, from 1, of the first that doesn't.
#[derive(Clone, Copy)]
pub(crate) struct Tally {
    pub(crate) total: usize,
    pub(crate) agree: usize,
    pub(crate) first: Option<usize>,
}

// Whether a case agrees, in buffers that are cut to the lengths that it asks for.
fn case_agrees(
    case: Record<'_>,
    kind: Kind,
    work: &mut [u8],
    output: &mut [u8],
    lines: &mut [u8],
) -> bool {
    if work.len() < case.work {
        return false;
    }
    if output.len() < case.output {
        return false;
    }
    let work = &mut work[..case.work];
    let output = &mut output[..case.output];
    match kind {
        Kind::Listing => listing_agrees(case.rule, case.table, case.want, work, output, lines),
        Kind::Run => run_agrees(case.rule, case.table, case.want, work, output),
    }
}

// The tally with one case more.
fn counted(t: Tally, agrees: bool) -> Tally
    requires { (t.total < 18446744073709551615) × (t.agree ≤ t.total) }
    ensures { (result.total ≡ t.total + 1) × (result.agree ≤ result.total) }
{
    let total = t.total + 1;
    if agrees {
        return Tally {
            total,
            agree: t.agree + 1,
            first: t.first,
        };
    }
    Tally {
        total,
        agree: t.agree,
        first: t.first.or(Some(total)),
    }
}

// Replays the records of a file; one that is cut off doesn't agree.
pub(crate) fn replay(
    s: &[u8],
    kind: Kind,
    work: &mut [u8],
    output: &mut [u8],
    lines: &mut [u8],
) -> Tally {
    let mut t = Tally {
        total: 0,
        agree: 0,
        first: None,
    };
    let mut rest = s;
    // Not a `for`: the next record begins where this one ends.
    while !rest.is_empty() {
        let Some((case, behind)) = first_record(rest) else {
            return counted(t, false);
        };
        let agrees = case_agrees(case, kind, work, output, lines);
        t = counted(t, agrees);
        rest = behind;
    }
    t
}
