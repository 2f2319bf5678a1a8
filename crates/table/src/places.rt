// Where the parts of a table stand in its bytes.
ghost use Rattle.std.specs.Prelude.{◌≡◌};
ghost use Rattle.table.specs.Places.{column_of};

use scalar::types::DataType;

// A part of the bytes, from its start up to its end.
#[derive(Clone, Copy, Debug, PartialEq, Eq)]
pub struct Part {
    pub start: usize,
    pub end: usize,
}

// A column: its type, its nullable mark, whether its null count is written, how many of its rows are null, and where its validity, its offsets
// and its values stand.
#[derive(Clone, Copy, Debug, PartialEq, Eq)]
pub struct ColumnPlace {
    pub data_type: DataType,
    pub nullable: bool,
    pub counted: bool,
    pub null_count: u16,
    pub validity: Part,
    pub offsets: Part,
    pub values: Part,
}

// A table: its rows, and the first `count` of `columns` (fixed memory: no heap).
#[derive(Clone, Copy, Debug, PartialEq, Eq)]
pub struct Table {
    pub rows: usize,
    pub count: usize,
    pub columns: [ColumnPlace; 16],
}

impl Table {
    // The place of a column, where the table has it.
    pub fn column(&self, column: usize) -> Option<ColumnPlace>
        ensures { result ≡ column_of self.now column }
    {
        if self.count <= column {
            return None;
        }
        self.columns.get(column).copied()
    }
}
