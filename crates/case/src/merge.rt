// The index of each row, once ELSE has taken the rows that no branch took.
ghost use Rattle.std.specs.Prelude.{◌*◌, ◌≤◌, length};
ghost use Rattle.case.specs.Choosing.{Open};
ghost use Rattle.case.specs.Evaluation.{ElseGives};

use crate::rows::ROWS_MOST;
use crate::settle::{Leave, finished, settle};
use builder::ResultBuilder;
use rule::walk::behind_fields;

// The index of each row: of the open list's that of ELSE, or 0 where there is none; of the others what the builder holds.
pub(crate) fn else_values(
    rule: &[u8],
    at: usize,
    end: usize,
    table: &[u8],
    work: &mut [u8],
    left: usize,
    count: u8,
    b: ResultBuilder,
) -> [u16; ROWS_MOST]
    requires { Open b work.old left b.rows × (12288 ≤ length work.old) }
    ensures { ElseGives rule.now at end count work.old left b.rows b result work.new }
{
    let place = behind_fields(rule, at, 2 * (count as usize));
    if place == end {
        return finished(b);
    }
    let els = count as u16 + 1;
    let s = settle(rule, table, work, left, Leave::Rest, els, els, b);
    let builder = s.builder;
    finished(builder)
}
