// The columns met while a rule is read: for each index 0, or the mark of the column's type and nullable byte. Moved once, never
// copied.
#[derive(Drop)]
pub struct Seen {
    pub marks: [u8; 256],
}
