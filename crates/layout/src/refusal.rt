// Why a call stops.
ghost use Rattle.std.specs.Prelude.{◌≡◌};
ghost use Rattle.layout.specs.Refusals.{number_of};

// A refusal, by what it is about. docs/REFUSALS.md says of each what it means and what to do.
#[derive(Clone, Copy, Debug, PartialEq, Eq)]
pub enum Refusal {
    RuleSize,
    RuleCut,
    RuleContent,
    RuleDepth,
    CaseEmpty,
    CaseBranches,
    RuleTypes,
    ConstantCast,
    TableFields,
    TableSize,
    TableContent,
    TableNull,
    Fit,
    WorkSize,
    Cast,
    TextSize,
    OutputSize,
    BuilderRow,
    BuilderLength,
    BuilderHeld,
    BuilderWhole,
    NullCount,
}

impl Refusal {
    // The number of a refusal.
    pub fn number(self) -> u8
        ensures { result ≡ number_of self }
    {
        match self {
            Refusal::RuleSize => 1,
            Refusal::RuleCut => 2,
            Refusal::RuleContent => 3,
            Refusal::RuleDepth => 4,
            Refusal::CaseEmpty => 5,
            Refusal::CaseBranches => 6,
            Refusal::RuleTypes => 7,
            Refusal::ConstantCast => 8,
            Refusal::TableFields => 9,
            Refusal::TableSize => 10,
            Refusal::TableContent => 11,
            Refusal::TableNull => 12,
            Refusal::Fit => 13,
            Refusal::WorkSize => 14,
            Refusal::Cast => 15,
            Refusal::TextSize => 16,
            Refusal::OutputSize => 17,
            Refusal::BuilderRow => 18,
            Refusal::BuilderLength => 19,
            Refusal::BuilderHeld => 20,
            Refusal::BuilderWhole => 21,
            Refusal::NullCount => 25,
        }
    }
}
