// Boolean keys.
ghost use Rattle.std.specs.Prelude.{◌≡◌, if◌then◌else◌};
ghost use Rattle.case.specs.LookUpBooleans.{BooleansOf};

use crate::when_literal_index_map::WhenLiteralIndexMap;

// The index of each Boolean.
#[derive(Clone, Copy)]
pub(crate) struct BooleanIndexMap {
    pub(crate) true_index: usize,
    pub(crate) false_index: usize,
}

impl BooleanIndexMap {
    // The index of the first key that equals each Boolean, or the ELSE index.
    pub(crate) fn new(whens: &WhenLiteralIndexMap) -> BooleanIndexMap
        ensures { BooleansOf whens.now.kinds whens.now.keys whens.now.indices whens.now.size whens.now.else_index result }
    {
        let true_index = whens.find_number(1, 1);
        let false_index = whens.find_number(1, 0);
        BooleanIndexMap {
            true_index,
            false_index,
        }
    }

    // The index of a Boolean.
    pub(crate) fn index(self, b: bool) -> usize
        ensures { result ≡ (if b then self.true_index else self.false_index) }
    {
        if b { self.true_index } else { self.false_index }
    }
}
