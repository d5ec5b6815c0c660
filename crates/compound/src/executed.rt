//! What an operation does.

use crate::progress::SlotId;
use wire::{Operation, Outcome, StateId};

/// What an operation leaves of its COMPOUND, beside the result.
#[derive(Clone, Copy)]
pub enum Effect {
    /// Nothing changes.
    Stays,
    /// The node of this number is the current one.
    Moves(u64),
    /// The current node is the saved one too, with its stateid.
    Saves,
    /// The saved node is the current one too, with its stateid.
    Restores,
    /// The file of this number is the current one, with this stateid.
    Opens { number: u64, state: StateId },
    /// The current node keeps no stateid.
    Closes,
    /// The slot runs the COMPOUND, of the session of this client.
    Joins { slot: SlotId, client: u64 },
}

/// What an operation does.
#[derive(Drop)]
pub enum Executed {
    /// Its result, and what it leaves.
    Gives {
        outcome: Outcome<'static>,
        effect: Effect,
    },
    /// An OK result, encoded: the values after its status. Nothing changes.
    GivesValues {
        operation: Operation,
        values: Vec<u8>,
    },
    /// The COMPOUND is a retry: its whole result is the one that this slot keeps, which
    /// `Table::kept` gives.
    Replays(SlotId),
}
