// The parts of a column, each read behind the one before.
ghost use Rattle.std.specs.Prelude.{◌≡◌, length, drop, suc, ◌+◌, ◌*◌, ◌≤◌};
ghost use Rattle.layout.specs.Bytes.{number_at};
ghost use Rattle.table.specs.Reading.{never_falls, tagged, tagged_pair, read_count, read_validity, read_text_offsets, read_offsets, values_length};
ghost use Rattle.table.specs.Parts.{FieldGives, PartGives, CountGives, values_of_length};

use crate::places::Part;
use layout::bits::bitmap_length;
use layout::field::field_at;
use layout::number::{byte_at, read_u32};
use layout::refusal::Refusal;
use scalar::types::DataType;

// The field of a tag at a place; cut, absent or another tag: 9.
pub(crate) fn tagged_field(bytes: &[u8], at: usize, tag: u8) -> Result<Part, Refusal>
    ensures { FieldGives bytes.now tag (tagged tag (drop at bytes.now)) result }
{
    match field_at(bytes, at) {
        None => Err(Refusal::TableFields),
        Some(field) => if field.tag == tag {
            Ok(Part {
                start: field.start,
                end: field.end,
            })
        } else {
            Err(Refusal::TableFields)
        },
    }
}

// The same of two bytes, else 9.
pub(crate) fn tagged_pair(bytes: &[u8], at: usize, tag: u8) -> Result<Part, Refusal>
    ensures { FieldGives bytes.now tag (tagged_pair tag (drop at bytes.now)) result }
{
    let pair = tagged_field(bytes, at, tag)?;
    if pair.end - pair.start != 2 {
        return Err(Refusal::TableFields);
    }
    Ok(pair)
}

// The tag of the null count.
const NULL_COUNT: u8 = 6;

// Tag 6, or where it isn't written the empty part at the place itself; cut: 9.
pub(crate) fn count_part(bytes: &[u8], at: usize) -> Result<Part, Refusal>
    ensures { CountGives bytes.now at (read_count (drop at bytes.now)) result }
{
    if byte_at(bytes, at) != NULL_COUNT {
        return Ok(Part { start: at, end: at });
    }
    tagged_field(bytes, at, NULL_COUNT)
}

// Tag 3: nothing, or a bit for each row; else 11.
pub(crate) fn validity_part(bytes: &[u8], at: usize, rows: usize) -> Result<Part, Refusal>
    ensures { PartGives bytes.now (read_validity rows (drop at bytes.now)) result }
{
    let validity = tagged_field(bytes, at, 3)?;
    let size = validity.end - validity.start;
    if size != 0 && size != bitmap_length(rows) {
        return Err(Refusal::TableContent);
    }
    Ok(validity)
}

// The offset at a place where its four bytes are.
fn offset_at(offsets: &[u8], at: usize) -> u32
    requires { at + 4 ≤ length offsets.now }
    ensures { result ≡ number_at 4 offsets.now at }
{
    let end = at + 4;
    read_u32(&offsets[at..end], 0)
}

// Whether so many offsets, from the first on, never fall.
pub(crate) fn never_falls(offsets: &[u8], count: usize) -> bool
    requires { 4 * suc count ≤ length offsets.now }
    ensures { result ≡ never_falls count offsets.now }
{
    let mut last = offset_at(offsets, 0);
    for i in 0..count {
        let next = offset_at(offsets, 4 * i + 4);
        if next < last {
            return false;
        }
        last = next;
    }
    true
}

// Tag 5: rows + 1 offsets of four bytes, from 0, never falling; else 11. At most 512 rows are asked for.
pub(crate) fn text_offsets_part(bytes: &[u8], at: usize, rows: usize) -> Result<Part, Refusal>
    requires { rows ≤ 512 }
    ensures { PartGives bytes.now (read_text_offsets rows (drop at bytes.now)) result }
{
    let part = tagged_field(bytes, at, 5)?;
    if part.end - part.start != 4 * (rows + 1) {
        return Err(Refusal::TableContent);
    }
    let offsets = &bytes[part.start..part.end];
    if read_u32(offsets, 0) != 0 {
        return Err(Refusal::TableContent);
    }
    if !never_falls(offsets, rows) {
        return Err(Refusal::TableContent);
    }
    Ok(part)
}

// Tag 5 is for text only: of any other type nothing is read.
pub(crate) fn offsets_part(
    bytes: &[u8],
    at: usize,
    data_type: DataType,
    rows: usize,
) -> Result<Part, Refusal>
    requires { (rows ≤ 512) × (at ≤ length bytes.now) }
    ensures { PartGives bytes.now (read_offsets data_type rows (drop at bytes.now)) result }
{
    match data_type {
        DataType::Boolean | DataType::Int32 | DataType::Int64 | DataType::Float64 => {
            Ok(Part { start: at, end: at })
        },
        DataType::Utf8 => text_offsets_part(bytes, at, rows),
    }
}

// How long tag 4 is.
pub(crate) fn values_length(data_type: DataType, rows: usize, offsets: &[u8]) -> usize
    requires { rows ≤ 512 }
    ensures { result ≡ values_length data_type rows offsets.now }
{
    match data_type {
        DataType::Boolean => bitmap_length(rows),
        DataType::Int32 => 4 * rows,
        DataType::Int64 | DataType::Float64 => 8 * rows,
        DataType::Utf8 => read_u32(offsets, 4 * rows) as usize,
    }
}

// Tag 4: of another length 11.
pub(crate) fn values_part(bytes: &[u8], at: usize, size: usize) -> Result<Part, Refusal>
    ensures { PartGives bytes.now (values_of_length size (drop at bytes.now)) result }
{
    let values = tagged_field(bytes, at, 4)?;
    if values.end - values.start != size {
        return Err(Refusal::TableContent);
    }
    Ok(values)
}
