// What reading a field found, and a node behind its children.
ghost use Rattle.std.specs.Prelude.{◌≡◌, ◌&&◌, ◌||◌, length};
ghost use Rattle.scalar.specs.Types.{same_type};
ghost use Rattle.scalar.specs.Cast.{listed};
ghost use Rattle.rule.specs.Tree.{Expr};
ghost use Rattle.rule.specs.Typing.{type_of, node_typed};
ghost use Rattle.rule.specs.Steps.{closed, branched, unary_of};

use crate::seen::Seen;
use crate::tag;
use crate::types::{is_listed, is_number};
use layout::refusal::Refusal;
use scalar::types::DataType;

// A field whose header was read: its tag, its content, and where it ends in its parent's bytes.
#[derive(Clone, Copy)]
pub(crate) struct Node<'a> {
    pub(crate) tag: u8,
    pub(crate) content: &'a [u8],
    pub(crate) end: usize,
}

impl<'a> Node<'a> {
    // A node whose last child ends at `next` of its content: bytes left over, then types that don't fit.
    pub(crate) fn close(
        self,
        next: usize,
        fits: bool,
        data_type: DataType,
    ) -> Result<FieldFound, Refusal>
        ensures { result ≡ closed next (length self.entry.content.now) fits data_type self.entry.end }
    {
        if next < self.content.len() {
            return Err(Refusal::RuleContent);
        }
        if !fits {
            return Err(Refusal::RuleTypes);
        }
        Ok(FieldFound {
            result: data_type,
            null: false,
            next: self.end,
        })
    }
}

// What reading a rule found: its type, and the columns met. Moved once, never copied.
#[derive(Drop)]
pub(crate) struct RuleFound {
    pub(crate) result: DataType,
    pub(crate) seen: Seen,
}

// What reading a field found, beside the marks, which are lent: its type, whether it is a null literal, and where it ends in the slice.
#[derive(Clone, Copy)]
pub(crate) struct FieldFound {
    pub(crate) result: DataType,
    pub(crate) null: bool,
    pub(crate) next: usize,
}

// What reading branches found: the type of their THENs, whether all types fit, and where they end.
#[derive(Clone, Copy)]
pub(crate) struct BranchesRead {
    pub(crate) result: DataType,
    pub(crate) fits: bool,
    pub(crate) next: usize,
}

// Whether NOT, negative or IS NOT NULL takes a type.
#[tactic(auto, unfolding(crate::specs::Typing::type_of, crate::specs::Typing::node_typed))]
pub(crate) fn unary_fits(tag: u8, child: DataType) -> bool
    ensures { (e : Expr) → child ≡ type_of e → result ≡ node_typed (unary_of tag e) }
{
    if tag == tag::NOT {
        return child == DataType::Boolean;
    }
    if tag == tag::NEGATIVE {
        return is_number(child);
    }
    true
}

// The type that it gives.
#[tactic(auto, unfolding(crate::specs::Typing::type_of))]
pub(crate) fn unary_type(tag: u8, child: DataType) -> DataType
    ensures { (e : Expr) → child ≡ type_of e → result ≡ type_of (unary_of tag e) }
{
    if tag == tag::NEGATIVE {
        child
    } else {
        DataType::Boolean
    }
}

// Whether a CASE's branches and its ELSE fit: a null literal fits any type.
pub(crate) fn case_fits(branches: bool, null: bool, from: DataType, to: DataType) -> bool
    ensures { result ≡ (branches && (null || listed from to)) }
{
    branches && (null || is_listed(from, to))
}

// A branch before later ones.
pub(crate) fn add_branch(
    w: DataType,
    when: DataType,
    t: DataType,
    later: BranchesRead,
) -> BranchesRead
    ensures { result ≡ branched w when t later }
{
    BranchesRead {
        result: later.result,
        fits: w == when && t == later.result && later.fits,
        next: later.next,
    }
}
