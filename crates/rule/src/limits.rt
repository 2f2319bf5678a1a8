// The limits of a rule: its bytes, how deep its fields nest, the CASEs on a path, and the branches of a CASE.
pub(crate) const MOST_BYTES: usize = 4096;

pub(crate) const MOST_DEPTH: usize = 8;

pub(crate) const MOST_CASES: usize = 3;

pub(crate) const MOST_BRANCHES: u8 = 32;

// What may still stand on the path below a field: so much depth, and so many CASEs.
#[derive(Clone, Copy)]
pub(crate) struct Nesting {
    pub(crate) depth: usize,
    pub(crate) cases: usize,
}
