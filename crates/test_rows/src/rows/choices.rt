//! What a row chooses of a run.

use crate::fault::Fault;

/// The choices of a run.
#[derive(Clone, Copy)]
pub struct Choices {
    /// New sessions may be persistent.
    pub persistent: bool,
    /// Of their replies only those to requests that made a change are held.
    pub changes: bool,
    /// Full tables give up what no client holds.
    pub yields: bool,
    /// Over sockets peers share a flush.
    pub shared: bool,
}

impl Choices {
    /// Those of the run with which a row begins.
    pub const FIRST: Choices = Choices {
        persistent: true,
        changes: false,
        yields: false,
        shared: false,
    };

    /// Reads `plain`, `changes`, `yielding` or nothing.
    pub fn read(words: &[&str]) -> Result<Choices, Fault> {
        match words {
            [] => Ok(Choices::FIRST),
            [word] if *word == "plain" => Ok(Choices {
                persistent: false,
                ..Choices::FIRST
            }),
            [word] if *word == "changes" => Ok(Choices {
                changes: true,
                ..Choices::FIRST
            }),
            [word] if *word == "yielding" => Ok(Choices {
                yields: true,
                ..Choices::FIRST
            }),
            _ => Err(Fault::Step),
        }
    }
}
