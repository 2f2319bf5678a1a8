// Columns and literals: fields without children.
ghost use Rattle.std.specs.Prelude.{drop};
ghost use Rattle.rule.specs.Reading.{read_column, read_literal};
ghost use Rattle.rule.specs.Steps.{NodeGives, meet_column, value_of, ValueGives};

use crate::node::{FieldFound, Node};
use layout::number::byte_at;
use layout::refusal::Refusal;
use scalar::types::DataType;

// A column behind its type: nullable, and that it is like the earlier ones of its index.
pub(crate) fn meet_column(
    index: u8,
    data_type: DataType,
    mark: u8,
    end: usize,
    marks: &mut [u8; 256],
) -> Result<FieldFound, Refusal>
    ensures { NodeGives end marks.old (meet_column index data_type mark) result marks.new }
{
    if 1 < mark {
        return Err(Refusal::RuleContent);
    }
    let new = data_type.number() + 8 * mark;
    let i = index as usize;
    let old = marks[i];
    if old != 0 && old != new {
        return Err(Refusal::RuleTypes);
    }
    marks[i] = new;
    Ok(FieldFound {
        result: data_type,
        null: false,
        next: end,
    })
}

// A column: index, type, nullable, a byte each. Never inlined: read_field, which each node passes through, would pay for its locals.
#[inline(never)]
pub(crate) fn read_column(node: Node, marks: &mut [u8; 256]) -> Result<FieldFound, Refusal>
    ensures { NodeGives node.entry.end marks.old (λ cols rest. read_column (record { tag = 16; content = node.entry.content.now; rest = rest }) cols) result marks.new }
{
    if node.content.len() != 3 {
        return Err(Refusal::RuleContent);
    }
    let data_type = DataType::numbered(node.content[1]).ok_or(Refusal::RuleContent)?;
    meet_column(node.content[0], data_type, node.content[2], node.end, marks)
}

// Whether the value of a literal is as its type and its null mark want it: none if null, a Boolean a byte 0 or 1, numbers 4 or 8 bytes, text any.
pub(crate) fn value_fits(data_type: DataType, mark: u8, content: &[u8]) -> bool
    ensures { ValueGives mark (value_of data_type mark (drop 2 content.now)) result }
{
    if 1 < mark {
        return false;
    }
    let size = content.len();
    if mark == 1 {
        return size <= 2;
    }
    match data_type {
        DataType::Boolean => {
            if size != 3 {
                return false;
            }
            byte_at(content, 2) < 2
        }
        DataType::Int32 => size == 6,
        DataType::Int64 | DataType::Float64 => size == 10,
        DataType::Utf8 => true,
    }
}

// A literal: type, null mark, value. Never inlined, as read_column.
#[inline(never)]
pub(crate) fn read_literal(node: Node, marks: &mut [u8; 256]) -> Result<FieldFound, Refusal>
    ensures { NodeGives node.entry.end marks.old (λ cols rest. read_literal (record { tag = 17; content = node.entry.content.now; rest = rest }) cols) result marks.new }
{
    if node.content.len() < 2 {
        return Err(Refusal::RuleContent);
    }
    let data_type = DataType::numbered(node.content[0]).ok_or(Refusal::RuleContent)?;
    let mark = node.content[1];
    if !value_fits(data_type, mark, node.content) {
        return Err(Refusal::RuleContent);
    }
    Ok(FieldFound {
        result: data_type,
        null: mark == 1,
        next: node.end,
    })
}
