/// A directory that was made.
#[derive(Clone, Copy, PartialEq, Eq)]
pub struct Created {
    /// Its number, and the new change value of the directory that holds it.
    pub number: u64,
    /// The change value of the directory that holds it, before.
    pub before: u64,
}
