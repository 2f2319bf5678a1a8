// The keys of the WHENs of a lookup table: of each key the kind, the payload (of a text its place and length) and the index of its THEN among the literals.
// The arrays have room for as many branches as a CASE may have.
ghost use Rattle.std.specs.Prelude.{◌≡◌, ◌≤◌};
ghost use Rattle.case.specs.LookUpTables.{Keys};

// The keys, how many they are, and the index of ELSE.
#[derive(Clone, Copy)]
pub(crate) struct WhenLiteralIndexMap {
    pub(crate) kinds: [u8; 32],
    pub(crate) keys: [u64; 32],
    pub(crate) indices: [u16; 32],
    pub(crate) size: usize,
    pub(crate) else_index: usize,
    ghost whens: { Keys kinds keys indices size else_index },
    ghost small: { else_index ≤ 64 },
}

impl WhenLiteralIndexMap {
    // No key yet.
    #[inline(always)]
    pub(crate) fn new(else_index: usize) -> Self
        requires { else_index ≤ 64 }
        ensures { (result.size ≡ 0) × (result.else_index ≡ else_index) }
    {
        WhenLiteralIndexMap {
            kinds: [0; 32],
            keys: [0; 32],
            indices: [0; 32],
            size: 0,
            else_index,
        }
    }
}
