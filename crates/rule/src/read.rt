// Reading a rule, front to back. Each function follows a definition of specs/Reading.antt; the marks of the columns met are lent to it.
ghost use Rattle.std.specs.Prelude.{◌≡◌, drop};
ghost use Rattle.rule.specs.Reading.{read_unary, read_cast, read_binary, read_limited_case, read_parts, read_optional, read_branches, read_field, read_root, read_tree, read_rule};
ghost use Rattle.rule.specs.Answers.{rule_reading};
ghost use Rattle.rule.specs.Steps.{TreeGives, RuleGives, RootGives, FieldGives, OptionalGives, BranchesGive, NodeGives, BranchGives, read_then, unary_of, cast_of, binary_of, read_tagged};

use crate::fails::constant_fails;
use crate::leaf::{read_column, read_literal};
use crate::limits::{MOST_BRANCHES, MOST_BYTES, MOST_CASES, MOST_DEPTH, Nesting};
use crate::node::{
    BranchesRead, FieldFound, Node, RuleFound, add_branch, case_fits, unary_fits, unary_type,
};
use crate::nullable::nullable_of;
use crate::seen::Seen;
use crate::tag;
use crate::types::is_listed;
use layout::field::field_at;
use layout::part::part_of;
use layout::refusal::Refusal;
use scalar::types::DataType;

// What an evaluation takes from a rule: the result's type, the nullability answer, and the columns met. Moved once, never copied.
#[derive(Drop)]
pub struct RuleReading {
    pub result: DataType,
    pub nullable: bool,
    pub seen: Seen,
}

// The field at a place of a slice; so much may still stand on the path.
#[cycle(read)]
fn read_field(
    s: &[u8],
    at: usize,
    left: Nesting,
    marks: &mut [u8; 256],
) -> Result<FieldFound, Refusal>
    ensures { FieldGives s.now marks.old (read_field left.depth left.cases (drop at s.now)) result marks.new }
{
    let f = field_at(s, at).ok_or(Refusal::RuleCut)?;
    let tag = f.tag;
    if tag < tag::COLUMN || tag::CASE < tag {
        return Err(Refusal::RuleContent);
    }
    if left.depth == 0 {
        return Err(Refusal::RuleDepth);
    }
    let node = Node {
        tag,
        content: part_of(s, f.start, f.end),
        end: f.end,
    };
    let below = Nesting {
        depth: left.depth - 1,
        ..left
    };
    read_kind(node, below, marks)
}

// A field by its tag.
#[cycle(read)]
fn read_kind(node: Node, left: Nesting, marks: &mut [u8; 256]) -> Result<FieldFound, Refusal>
    ensures { NodeGives node.entry.end marks.old (λ cols rest. read_tagged (read_field left.depth) left.cases (record { tag = node.entry.tag; content = node.entry.content.now; rest = rest }) cols) result marks.new }
{
    match node.tag {
        tag::COLUMN => read_column(node, marks),
        tag::LITERAL => read_literal(node, marks),
        tag::NOT | tag::NEGATIVE | tag::IS_NOT_NULL => read_unary(node, left, marks),
        tag::CAST | tag::TRY_CAST => read_cast(node, left, marks),
        tag::EQUAL | tag::LESS => read_binary(node, left, marks),
        _ => read_case(node, left, marks),
    }
}

// NOT, negative or IS NOT NULL: one child.
#[cycle(read)]
fn read_unary(node: Node, left: Nesting, marks: &mut [u8; 256]) -> Result<FieldFound, Refusal>
    ensures { NodeGives node.entry.end marks.old (read_unary (unary_of node.entry.tag) (read_field left.depth left.cases) node.entry.content.now) result marks.new }
{
    let a = read_field(node.content, 0, left, marks)?;
    node.close(
        a.next,
        unary_fits(node.tag, a.result),
        unary_type(node.tag, a.result),
    )
}

// Cast or try-cast: target type byte, one child.
#[cycle(read)]
fn read_cast(node: Node, left: Nesting, marks: &mut [u8; 256]) -> Result<FieldFound, Refusal>
    ensures { NodeGives node.entry.end marks.old (read_cast (cast_of node.entry.tag) (read_field left.depth left.cases) node.entry.content.now) result marks.new }
{
    if node.content.is_empty() {
        return Err(Refusal::RuleContent);
    }
    let to = DataType::numbered(node.content[0]).ok_or(Refusal::RuleContent)?;
    let a = read_field(node.content, 1, left, marks)?;
    node.close(a.next, is_listed(a.result, to), to)
}

// Equal or less: two children.
#[cycle(read)]
fn read_binary(node: Node, left: Nesting, marks: &mut [u8; 256]) -> Result<FieldFound, Refusal>
    ensures { NodeGives node.entry.end marks.old (read_binary (binary_of node.entry.tag) (read_field left.depth left.cases) node.entry.content.now) result marks.new }
{
    let a = read_field(node.content, 0, left, marks)?;
    let b = read_field(node.content, a.next, left, marks)?;
    node.close(b.next, a.result == b.result, DataType::Boolean)
}

// CASE: flags and branch count, then its parts. Never inlined: read_field, which each node passes through, would pay for its locals.
#[cycle(read)]
#[inline(never)]
fn read_case(node: Node, left: Nesting, marks: &mut [u8; 256]) -> Result<FieldFound, Refusal>
    ensures { NodeGives node.entry.end marks.old (read_limited_case (read_field left.depth) left.cases node.entry.content.now) result marks.new }
{
    if left.cases == 0 {
        return Err(Refusal::RuleDepth);
    }
    if node.content.len() < 2 {
        return Err(Refusal::RuleContent);
    }
    let flags = node.content[0];
    let count = node.content[1];
    if 3 < flags {
        return Err(Refusal::RuleContent);
    }
    if count == 0 {
        return Err(Refusal::CaseEmpty);
    }
    if MOST_BRANCHES < count {
        return Err(Refusal::CaseBranches);
    }
    let below = Nesting {
        cases: left.cases - 1,
        ..left
    };
    read_parts(node, flags, count, below, marks)
}

// The parts of a CASE: base, WHEN and THEN in turn, ELSE.
#[cycle(read)]
fn read_parts(
    node: Node,
    flags: u8,
    count: u8,
    left: Nesting,
    marks: &mut [u8; 256],
) -> Result<FieldFound, Refusal>
    ensures { NodeGives node.entry.end marks.old (read_parts (read_field left.depth left.cases) flags count (drop 2 node.entry.content.now)) result marks.new }
{
    let b = read_optional(node.content, 2, flags % 2 == 1, left, marks)?;
    let bs = read_branches(node.content, b.next, count, b.result, None, left, marks)?;
    let e = read_optional(node.content, bs.next, 2 <= flags, left, marks)?;
    node.close(
        e.next,
        case_fits(bs.fits, e.null, e.result, bs.result),
        bs.result,
    )
}

// A part that may be absent: absent, it is as a null literal of type Boolean. A part of read_parts, which asks it twice: else one of the two is a call.
#[inline(always)]
#[cycle(read)]
fn read_optional(
    s: &[u8],
    at: usize,
    there: bool,
    left: Nesting,
    marks: &mut [u8; 256],
) -> Result<FieldFound, Refusal>
    ensures { OptionalGives s.now marks.old (read_optional there (read_field left.depth left.cases) (drop at s.now)) result marks.new }
{
    if there {
        return read_field(s, at, left, marks);
    }
    Ok(FieldFound {
        result: DataType::Boolean,
        null: true,
        next: at,
    })
}

// So many branches; the type of a THEN may be known from earlier ones.
#[cycle(read)]
fn read_branches(
    s: &[u8],
    at: usize,
    count: u8,
    when: DataType,
    earlier: Option<DataType>,
    left: Nesting,
    marks: &mut [u8; 256],
) -> Result<BranchesRead, Refusal>
    ensures { BranchesGive s.now marks.old when earlier (read_branches (read_field left.depth left.cases) count (drop at s.now)) result marks.new }
{
    if count == 0 {
        return Ok(BranchesRead {
            result: earlier.unwrap_or(DataType::Boolean),
            fits: true,
            next: at,
        });
    }
    let w = read_field(s, at, left, marks)?;
    read_then(s, w, count - 1, when, earlier, left, marks)
}

// A branch behind its WHEN, and so many later ones.
#[cycle(read)]
fn read_then(
    s: &[u8],
    w: FieldFound,
    count: u8,
    when: DataType,
    earlier: Option<DataType>,
    left: Nesting,
    marks: &mut [u8; 256],
) -> Result<BranchesRead, Refusal>
    ensures { BranchGives s.now w marks.old when earlier (λ x. read_then (read_field left.depth left.cases) x.tree count x.rest x.seen) result marks.new }
{
    let t = read_field(s, w.next, left, marks)?;
    let result = earlier.unwrap_or(t.result);
    let later = read_branches(s, t.next, count, when, Some(result), left, marks)?;
    Ok(add_branch(w.result, when, t.result, later))
}

// The root of a rule: a CASE.
fn read_root(rule: &[u8], marks: &mut [u8; 256]) -> Result<FieldFound, Refusal>
    ensures { RootGives rule.now marks.old (read_root rule.now) result marks.new }
{
    let f = field_at(rule, 0).ok_or(Refusal::RuleCut)?;
    if f.tag != tag::CASE {
        return Err(Refusal::RuleContent);
    }
    let left = Nesting {
        depth: MOST_DEPTH,
        cases: MOST_CASES,
    };
    read_field(rule, 0, left, marks)
}

// A rule but for its constant casts: one CASE field of at most 4,096 bytes, with no byte after it.
fn read_tree(rule: &[u8]) -> Result<RuleFound, Refusal>
    ensures { TreeGives (read_tree rule.now) result }
{
    if rule.is_empty() || MOST_BYTES < rule.len() {
        return Err(Refusal::RuleSize);
    }
    let mut marks = [0u8; 256];
    let r = read_root(rule, &mut marks)?;
    if r.next < rule.len() {
        return Err(Refusal::RuleContent);
    }
    Ok(RuleFound {
        result: r.result,
        seen: Seen { marks },
    })
}

// A rule: its tree, and that no constant cast fails.
pub(crate) fn read_accepted(rule: &[u8]) -> Result<RuleFound, Refusal>
    ensures { RuleGives (read_rule rule.now) result }
{
    let r = read_tree(rule)?;
    if constant_fails(rule) {
        return Err(Refusal::ConstantCast);
    }
    Ok(r)
}

// Reads a rule for an evaluation.
pub fn read_rule(rule: &[u8]) -> Result<RuleReading, Refusal>
    ensures { result ≡ rule_reading (read_rule rule.now) }
{
    let r = read_accepted(rule)?;
    Ok(RuleReading {
        result: r.result,
        nullable: nullable_of(rule),
        seen: r.seen,
    })
}
