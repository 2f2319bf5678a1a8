// Taking: the rows of an index go to the next frame's list, and their slots there come back.
ghost use Rattle.std.specs.Prelude.{◌≡◌, ◌≤◌, length};
ghost use Rattle.case.specs.Frame.{next_slot, Rows, FillableFrom, FilledFrom};
ghost use Rattle.case.specs.Taking.{HasIndex, Picked};

use crate::rows::{ROWS_MOST, put_row, row_at};
use crate::slot::copy_slot;

// The listed rows of an index, to the next frame's list: how many they are.
pub(crate) fn pick(work: &mut [u8], n: usize, values: &[u16; ROWS_MOST], k: u16) -> usize
    requires rows { Rows work.old 0 n 512 }
    requires in_bounds { 7680 ≤ length work.old }
    ensures { Picked (HasIndex values.now k) work.old n result work.new }
{
    let mut m = 0;
    for i in 0..n {
        let r = row_at(work, 0, i);
        if values[r] == k {
            put_row(work, 6656, m, r);
            m += 1;
        }
    }
    m
}

// The value in the slot of each row of the next frame's list, from that frame.
pub(crate) fn copy_slots(work: &mut [u8], m: usize)
    requires fillable_from { FillableFrom 6656 work.old m }
    requires in_bounds { 12288 ≤ length work.old }
    ensures { FilledFrom 6656 (λ r v. v ≡ next_slot work.old r) work.old m work.new }
{
    for i in 0..m {
        let r = row_at(work, 6656, i);
        copy_slot(work, r);
    }
}
