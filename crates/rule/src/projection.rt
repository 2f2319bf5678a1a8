// The projection: the columns that a rule names, each once, rising.
ghost use Rattle.std.specs.Prelude.{◌≡◌, List, length};
ghost use Rattle.rule.specs.Tree.{Column};
ghost use Rattle.rule.specs.Projection.{indexes};
ghost use Rattle.rule.specs.Answers.{columns_in256};
ghost use Rattle.rule.specs.Seen.{SeenIs};

use crate::seen::Seen;

// The columns that a rule names, each once, rising: the first `count` of `columns`.
// Fixed memory: an index is a byte, so 256 places hold them all.
#[derive(Clone, Copy, Debug, PartialEq, Eq)]
pub struct Projection {
    pub count: usize,
    pub columns: [u8; 256],
}

// The indexes of the columns met.
pub(crate) fn projected(seen: Seen) -> Projection
    ensures { (cols : List Column) → SeenIs cols seen → (result.count ≡ length (indexes cols)) × (result.columns ≡ columns_in256 (indexes cols)) }
{
    let mut columns = [0u8; 256];
    let mut count = 0;
    for i in 0..256 {
        if seen.marks[i] != 0 {
            columns[count] = i as u8;
            count += 1;
        }
    }
    Projection { count, columns }
}
