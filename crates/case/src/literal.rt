// Literals in the slots of the listed rows.
ghost use Rattle.case.specs.Frame.{Fillable, Filled};
ghost use Rattle.case.specs.Evaluation.{LiteralRight, ScalarsRight};

use crate::rows::{choose_scalar, fill_value};
use crate::slot::stored;
use rule::literal::literal_value;
use rule::type_of::type_of;
use rule::walk::field_end;
use scalar::try_cast::try_cast;

// The literal at a place of the rule at each listed row.
pub(crate) fn fill_literal(rule: &[u8], start: usize, end: usize, work: &mut [u8], n: usize)
    requires { Fillable work.old n }
    ensures { Filled (LiteralRight rule.now start end) work.old n work.new }
{
    let v = stored(literal_value(rule, start, end));
    fill_value(work, n, v);
}

// Of two literals at a place the first where a row's slot is true, else the second, try-cast to the type of the first.
pub(crate) fn scalar_rows(rule: &[u8], at: usize, end: usize, work: &mut [u8], n: usize)
    requires { Fillable work.old n }
    ensures { Filled (ScalarsRight rule.now at end work.old) work.old n work.new }
{
    let els = field_end(rule, at);
    let then = stored(literal_value(rule, at, els));
    let to = type_of(rule, at);
    let other = stored(try_cast(to, literal_value(rule, els, end)));
    choose_scalar(work, n, then, other);
}
