/// What a turn of a connection did.
#[derive(Clone, Copy, Debug, PartialEq, Eq)]
pub enum Turn {
    /// No whole request waits, or the last reply was not taken.
    Idle,
    /// One operation ran, and more remain, or a seat is to hold the reply.
    Ran,
    /// The reply is in the output.
    Answered,
}
