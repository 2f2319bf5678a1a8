// What a lent buffer is filled with before a run.
pub(crate) const FILLING: u8 = 165;

// Whether every byte of a slice is this one.
pub(crate) fn all_are(s: &[u8], b: u8) -> bool {
    s.iter().all(|&x| x == b)
}
