//! How far an assembler is.

use crate::fault::RecordFault;

/// How far an assembler is, and what the bytes in its buffer are.
#[derive(Clone, Copy)]
pub enum State {
    /// What has come of the next record, headers included.
    Gathers,
    /// From this place on there is a whole record that holds a call, without headers.
    Holds { start: usize },
    /// Of no use: a header or a record was refused.
    Refuses(RecordFault),
}
