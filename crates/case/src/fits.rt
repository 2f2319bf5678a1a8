// Whether a table fits a rule: no column that the rule names is missing, of another type, or nullable where the rule says not.
ghost use Rattle.std.specs.Prelude.{◌≡◌, ◌==◌, ℕ, List, drop};
ghost use Rattle.std.specs.List.{list_all};
ghost use Rattle.std.proofs.Math.Option.{some};
ghost use Rattle.std.proofs.Math.ListN.{get_elem?};
ghost use Rattle.table.specs.Places.{column_in, table_in};
ghost use Rattle.case.specs.Fitting.{mark_fits, FitsGives};

use rule::seen::Seen;
use table::places::{ColumnPlace, Table};

// Whether a column of a table fits the mark of a rule's column: the three lowest bits of a mark are the type's number.
fn column_fits(mark: u8, place: ColumnPlace) -> bool
    ensures { (bytes : List ℕ) → result ≡ mark_fits mark (some (column_in bytes place)) }
{
    let kind = place.data_type;
    if mark & 7 != kind.number() {
        return false;
    }
    if 8 <= mark {
        return true;
    }
    !place.nullable
}

// Whether the column of an index is there and fits the mark of a rule's column.
fn index_fits(mark: u8, index: usize, t: Table) -> bool
    ensures { (bytes : List ℕ) → result ≡ mark_fits mark (get_elem? (table_in bytes t).columns index) }
{
    match t.column(index) {
        None => false,
        Some(place) => column_fits(mark, place),
    }
}

// Whether there is no mark from 16 on, which no table has a column for.
fn none_beyond(marks: &[u8; 256]) -> bool
    ensures { result ≡ list_all (λ m. m == 0) (drop 16 marks.now) }
{
    marks[16..].iter().all(|mark| *mark == 0)
}

// Whether a table fits the rule that was read with these columns: all that it names, reached or not.
pub(crate) fn fits_table(seen: Seen, t: Table) -> bool
    ensures { FitsGives seen t result }
{
    for i in 0..16 {
        let mark = seen.marks[i];
        if mark != 0 {
            if !index_fits(mark, i, t) {
                return false;
            }
        }
    }
    none_beyond(&seen.marks)
}
