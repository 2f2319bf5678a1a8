// The answer's column, written from the rows' values.
#![tactic(auto)]

ghost use Rattle.std.specs.Prelude.{◌≡◌};
ghost use Rattle.writer.specs.declared.WriteError.TheVariants.{Refused};

pub(crate) mod bitmap;
pub mod classes;
pub mod clear;
pub(crate) mod plain;
pub(crate) mod put;
pub(crate) mod rows;
pub(crate) mod texts;
pub mod write;

use layout::refusal::Refusal;

// Why rows are not written: they are no column of the type, or a run with them is refused.
#[derive(Clone, Copy, Debug, PartialEq, Eq)]
pub enum WriteError {
    NoColumn,
    Refused(Refusal),
}

impl From<Refusal> for WriteError {
    ghost from_gives = { λ r e. e ≡ Refused r };

    fn from(refusal: Refusal) -> WriteError {
        WriteError::Refused(refusal)
    }
}
