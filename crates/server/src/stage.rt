//! What a connection does.

use crate::begun::Begun;

/// What a connection does.
#[derive(Drop)]
pub enum Stage {
    /// The next record comes, or waits for its turn.
    Receiving,
    /// The request whose record the assembler holds has begun.
    Running(Begun),
    /// A reply record that was not taken.
    Replied(Vec<u8>),
}
