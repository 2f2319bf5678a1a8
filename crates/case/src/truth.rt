// Whether a value is true.
ghost use Rattle.std.specs.Prelude.{◌≡◌, ℕ, List};
ghost use Rattle.scalar.specs.Value.{meaning, Storable};
ghost use Rattle.rule.specs.Row.{is_true_test, chosen};
ghost use Rattle.case.specs.Parting.{truth_of};

use scalar::value::Value;

// True; false, null or of another type; or failed.
#[derive(Clone, Copy)]
pub(crate) enum Truth {
    Yes,
    No,
    Unfit,
}

// Whether a value is true.
pub(crate) fn truth_of(v: Value) -> Truth
    ensures { (rule table : List ℕ) → result ≡ truth_of (meaning rule table v) }
{
    match v {
        Value::Boolean(true) => Truth::Yes,
        Value::Failed => Truth::Unfit,
        _ => Truth::No,
    }
}

// One value where the test is true, another elsewhere; where it failed, it stays so.
pub(crate) fn choose(test: Value, then: Value, els: Value) -> Value
    requires { Storable then × Storable els }
    ensures { ((rule table : List ℕ) → meaning rule table result ≡ chosen is_true_test (meaning rule table test) (meaning rule table then) (meaning rule table els)) × Storable result }
{
    match truth_of(test) {
        Truth::Yes => then,
        Truth::No => els,
        Truth::Unfit => Value::Failed,
    }
}
