// CASE column WHEN literal THEN literal .. ELSE literal END: the index of each row straight from the column, by the table of the WHENs.
ghost use Rattle.std.specs.Prelude.{◌≡◌, ℕ, ◌+◌, ◌*◌, ◌^◌, ◌<◌, ◌≤◌, true, List, length};
ghost use Rattle.layout.specs.Bytes.{number_at, part};
ghost use Rattle.scalar.specs.Types.{type_number};
ghost use Rattle.case.specs.Frame.{Rows};
ghost use Rattle.case.specs.Steps.{RowsIndexed};
ghost use Rattle.case.specs.LookUp.{KeyedGive};
ghost use Rattle.case.specs.LookUpTables.{EachOnce};
ghost use Rattle.case.specs.LookUpColumns.{NumberRow, dense_row, TextRow, ColumnKeyed, BaseGives};

use crate::bytes_like_lookup_table::BytesLikeIndexMap;
use crate::keys::column_keys;
use crate::literal_lookup_table::{BRANCHES_MOST, LiteralLookupTable};
use crate::primitive_lookup_table::{DenseIndexMap, PrimitiveIndexMap};
use crate::rows::{ROWS_MOST, row_at};
use crate::slot::word;
use crate::when_literal_index_map::WhenLiteralIndexMap;
use layout::number::byte_at;
use layout::part::part_of;
use rule::tag::COLUMN;
use rule::walk::field_end;
use scalar::types::DataType;
use table::entry::{row_u32, valid_at};
use table::places::{ColumnPlace, Table};

// The index of a row, from 1, by the number of its value: of a null the ELSE index.
fn number_row(
    validity: &[u8],
    column: &[u64; ROWS_MOST],
    map: &PrimitiveIndexMap,
    row: usize,
) -> u16
    requires { row < 512 }
    ensures { NumberRow validity.now column.now map.now.numbers map.now.indices map.now.size map.now.else_index row result }
{
    if !valid_at(validity, row) {
        return (map.else_index / 2 + 1) as u16;
    }
    let j = map.index(column[row]);
    (j / 2 + 1) as u16
}

// The index of each listed row.
fn number_rows(
    validity: &[u8],
    column: &[u64; ROWS_MOST],
    map: &PrimitiveIndexMap,
    work: &[u8],
    n: usize,
    values: &mut [u16; ROWS_MOST],
)
    requires { Rows work.now 0 n 512 × (2 * n ≤ length work.now) }
    ensures { RowsIndexed (NumberRow validity.now column.now map.now.numbers map.now.indices map.now.size map.now.else_index) work.now 0 n values.new }
{
    for i in 0..n {
        let r = row_at(work, 0, i);
        values[r] = number_row(validity, column, map, r);
    }
}

// The index of a row, from 1, by a dense table: at a number's distance from the least. Of a null, and of a number beyond the table, the ELSE index.
fn dense_row(validity: &[u8], column: &[u64; ROWS_MOST], map: &DenseIndexMap, row: usize) -> u16
    requires { row < 512 }
    ensures { result ≡ dense_row validity.now column.now map.now.least map.now.answers map.now.else_index row }
{
    if !valid_at(validity, row) {
        return (map.else_index / 2 + 1) as u16;
    }
    let x = column[row];
    if x < map.least {
        return (map.else_index / 2 + 1) as u16;
    }
    let d = x - map.least;
    if 255 < d {
        return (map.else_index / 2 + 1) as u16;
    }
    map.answers[d as usize]
}

// The index of each listed row by a dense table.
fn dense_rows(
    validity: &[u8],
    column: &[u64; ROWS_MOST],
    map: &DenseIndexMap,
    work: &[u8],
    n: usize,
    values: &mut [u16; ROWS_MOST],
)
    requires { Rows work.now 0 n 512 × (2 * n ≤ length work.now) }
    ensures { RowsIndexed (λ r c. c ≡ dense_row validity.now column.now map.now.least map.now.answers map.now.else_index r) work.now 0 n values.new }
{
    for i in 0..n {
        let r = row_at(work, 0, i);
        values[r] = dense_row(validity, column, map, r);
    }
}

// The index of each listed row by the numbers of a column: by a dense table where the keys allow it, else by the hints.
fn keyed_rows(
    validity: &[u8],
    column: &[u64; ROWS_MOST],
    map: &PrimitiveIndexMap,
    work: &[u8],
    n: usize,
    values: &mut [u16; ROWS_MOST],
)
    requires { Rows work.now 0 n 512 × (2 * n ≤ length work.now) }
    ensures { RowsIndexed (NumberRow validity.now column.now map.now.numbers map.now.indices map.now.size map.now.else_index) work.now 0 n values.new }
{
    match map.dense() {
        Some(dense) => dense_rows(validity, column, &dense, work, n, values),
        None => number_rows(validity, column, map, work, n, values),
    }
}

// The text of a row.
fn row_text<'a>(offsets: &[u8], texts: &'a [u8], row: usize) -> &'a [u8]
    requires { row < 512 }
    ensures { result.now ≡ part texts.now (number_at 4 offsets.now (4 * row)) (number_at 4 offsets.now (4 * (row + 1))) }
{
    let at = 4 * row;
    if at + 8 <= offsets.len() {
        let from = word(offsets, at) as usize;
        let to = word(offsets, at + 4) as usize;
        return part_of(texts, from, to);
    }
    let from = row_u32(offsets, row) as usize;
    let to = row_u32(offsets, row + 1) as usize;
    part_of(texts, from, to)
}

// The index of a row of text, from 1: of a null the ELSE index.
fn text_row(
    validity: &[u8],
    offsets: &[u8],
    texts: &[u8],
    map: &BytesLikeIndexMap,
    row: usize,
) -> u16
    requires { row < 512 }
    ensures { TextRow map.now.rule.now map.now.table.now validity.now offsets.now texts.now map.now.whens.now.kinds map.now.whens.now.keys map.now.whens.now.indices map.now.whens.now.size map.now.whens.now.else_index row result }
{
    if !valid_at(validity, row) {
        return (map.whens.else_index / 2 + 1) as u16;
    }
    let found = map.index(row_text(offsets, texts, row));
    (found / 2 + 1) as u16
}

// The index of each listed row of text.
fn text_rows(
    validity: &[u8],
    offsets: &[u8],
    texts: &[u8],
    map: &BytesLikeIndexMap,
    work: &[u8],
    n: usize,
    values: &mut [u16; ROWS_MOST],
)
    requires { Rows work.now 0 n 512 × (2 * n ≤ length work.now) }
    ensures { RowsIndexed (TextRow map.now.rule.now map.now.table.now validity.now offsets.now texts.now map.now.whens.now.kinds map.now.whens.now.keys map.now.whens.now.indices map.now.whens.now.size map.now.whens.now.else_index) work.now 0 n values.new }
{
    for i in 0..n {
        let r = row_at(work, 0, i);
        values[r] = text_row(validity, offsets, texts, map, r);
    }
}

// The index of each listed row of a column of numbers, where every key is of its type.
fn number_column(
    table: &[u8],
    place: ColumnPlace,
    rows: usize,
    whens: &WhenLiteralIndexMap,
    work: &[u8],
    n: usize,
    values: &mut [u16; ROWS_MOST],
) -> bool
    requires each_once { (rule : List ℕ) × EachOnce rule table.now whens.now.kinds whens.now.keys whens.now.size }
    requires rows { Rows work.now 0 n rows × (rows ≤ 512) × (2 * n ≤ length work.now) × (type_number place.data_type ≤ 4) }
    ensures { (rule : List ℕ) → ColumnKeyed table.now place whens.now.kinds whens.now.keys whens.now.indices whens.now.size whens.now.else_index work.now n rule result values.new }
{
    let kind = place.data_type;
    let Some(map) = PrimitiveIndexMap::try_new(whens, kind.number()) else {
        return false;
    };
    let entries = part_of(table, place.values.start, place.values.end);
    let mut column = [0u64; ROWS_MOST];
    column_keys(kind, entries, rows, &mut column);
    let validity = part_of(table, place.validity.start, place.validity.end);
    keyed_rows(validity, &column, &map, work, n, values);
    true
}

// The index of each listed row of a column of text.
fn text_column(
    rule: &[u8],
    table: &[u8],
    place: ColumnPlace,
    whens: &WhenLiteralIndexMap,
    work: &[u8],
    n: usize,
    values: &mut [u16; ROWS_MOST],
)
    requires each_once { EachOnce rule.now table.now whens.now.kinds whens.now.keys whens.now.size }
    requires rows { Rows work.now 0 n 512 × (2 * n ≤ length work.now) × (type_number place.data_type ≡ 5) }
    ensures { ColumnKeyed table.now place whens.now.kinds whens.now.keys whens.now.indices whens.now.size whens.now.else_index work.now n rule.now true values.new }
{
    let map = BytesLikeIndexMap::new(rule, table, whens);
    let validity = part_of(table, place.validity.start, place.validity.end);
    let offsets = part_of(table, place.offsets.start, place.offsets.end);
    let texts = part_of(table, place.values.start, place.values.end);
    text_rows(validity, offsets, texts, &map, work, n, values);
}

// The index of each listed row by the branches at a place, behind a base that is the column at a place of the table.
fn base_values(
    rule: &[u8],
    at: usize,
    end: usize,
    count: u8,
    table: &[u8],
    place: ColumnPlace,
    rows: usize,
    work: &[u8],
    n: usize,
    values: &mut [u16; ROWS_MOST],
) -> bool
    requires rows { Rows work.now 0 n rows × (rows ≤ 512) × (2 * n ≤ length work.now) }
    requires few { count ≤ 32 }
    ensures { BaseGives rule.now at end table.now place count work.now n result values.new }
{
    let mut lookup = LiteralLookupTable::none(count as usize);
    lookup.read(rule, at, end, table, count as usize);
    match place.data_type {
        DataType::Utf8 => {
            text_column(rule, table, place, &lookup.whens, work, n, values);
            true
        },
        _ => number_column(table, place, rows, &lookup.whens, work, n, values),
    }
}

// The index of each listed row by the branches behind a base, where the base is a column and a table serves: from 1, ELSE's behind them.
// Whether they have one is a `bool`: the indices lie in the lent array, and `Option<()>` would say no more.
pub(crate) fn lookup_values(
    rule: &[u8],
    at: usize,
    end: usize,
    count: u8,
    table: &[u8],
    t: Table,
    work: &[u8],
    n: usize,
    values: &mut [u16; ROWS_MOST],
) -> bool
    requires rows { Rows work.now 0 n t.rows × (t.rows ≤ 512) × (2 * n ≤ length work.now) }
    requires table_len_bound { length table.now < 2 ^ 32 }
    ensures { KeyedGive rule.now at end table.now t count work.now n result values.new }
{
    if byte_at(rule, at) != COLUMN {
        return false;
    }
    let column = byte_at(rule, at + 3) as usize;
    let Some(place) = t.column(column) else {
        return false;
    };
    if BRANCHES_MOST < count {
        return false;
    }
    let first = field_end(rule, at);
    base_values(
        rule, first, end, count, table, place, t.rows, work, n, values,
    )
}
