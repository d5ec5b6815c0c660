//! The records of a stream, one at a time (RFC 5531, section 11).

ghost use Rattle.std.specs.Prelude.{⊤, ◌≡◌, ◌↔◌, ℕ, List, [], true, Some, MatchOption, IfOk, IfErr, IsTrue};
ghost use Rattle.model.specs.Wire.Feeding.{let_go};
ghost use Rattle.model.specs.Wire.Rpc.{read_call, is_call_read};
ghost use Rattle.model.specs.Server.World.{Closed, arrives_at, taken_at};
ghost use Rattle.rpc.specs.Assembly.{record_limits, Gathers, Holds, connection_of, released, RefusesPiece};

use crate::fault::RecordFault;
use crate::fragment::MAX_RECEIVED;
use crate::receive::{Progress, receive_piece};
use crate::state::State;
use bytes::BytesMut;
use std::alloc::{AllocError, Global};
use std::marker::Model;

/// What has come of a connection's next record, up to a whole one that holds a call.
///
/// A record has at most 16,384 bytes in at most 64 fragments. The memory for one with its headers
/// is taken once, and kept from record to record.
#[derive(Drop)]
pub struct Assembler {
    buffer: BytesMut,
    state: State,
}

impl Model for Assembler {
    ghost use Rattle.rpc.specs.Assembly.{Assembly, assembly_of, IsSoundBuffer};

    ghost Value = { Assembly };

    ghost view = { λ a. assembly_of a.state a.buffer.items };

    ghost invariant = { λ a. IsSoundBuffer a.state a.buffer.items a.buffer.spare };
}

impl Assembler {
    /// Nothing has come. All memory that records need is taken here.
    pub fn new(alloc: Global) -> Result<Assembler, AllocError>
        ensures { IfOk result (λ assembler. assembler ≡ Gathers []) }
    {
        Ok(Assembler {
            buffer: BytesMut::with_capacity(alloc, MAX_RECEIVED)?,
            state: State::Gathers,
        })
    }

    /// Takes a prefix of the piece, up to the end of the first whole record, and returns its
    /// length; 0 while a whole record waits. `RecordTooBig` and `TooManyFragments` refuse a
    /// fragment's header as soon as it is there, in this order, and `NotACall` a whole record; from
    /// then on every call returns the same error. It takes no memory.
    pub fn feed(&mut self, piece: &[u8]) -> Result<usize, RecordFault>
        ensures arrived { IfOk result
            (λ n. connection_of self.new
            ≡ arrives_at record_limits piece.now (connection_of self.old)) }
        ensures taken { IfOk result
            (λ n. taken_at record_limits piece.now (connection_of self.old) ≡ Some n) }
        ensures refused { IfErr result (λ fault. RefusesPiece piece.now self.old self.new fault) }
    {
        match self.state {
            State::Gathers => match receive_piece(&mut self.buffer, piece) {
                Progress::More => Ok(piece.len()),
                Progress::Whole { taken, start } => {
                    self.state = State::Holds { start };
                    Ok(taken)
                }
                Progress::Refused(fault) => {
                    self.state = State::Refuses(fault);
                    Err(fault)
                }
            },
            State::Holds { .. } => Ok(0),
            State::Refuses(fault) => Err(fault),
        }
    }

    /// Whether a header or a whole record was refused: nothing more is taken.
    pub fn is_refused(&self) -> bool
        ensures { IsTrue result ↔ (connection_of self.now ≡ Closed) }
    {
        matches!(self.state, State::Refuses(_))
    }

    /// The whole record that waits, which holds a call.
    pub fn record(&self) -> Option<&[u8]>
        ensures waits { MatchOption result ((request : List ℕ) → self.now ≡ Holds request → ⊥)
            (λ bytes. self.now ≡ Holds bytes.now) }
        ensures call { MatchOption result ⊤ (λ bytes. is_call_read (read_call bytes.now) ≡ true) }
    {
        match self.state {
            State::Holds { start } => Some(&self.buffer[start..]),
            State::Gathers | State::Refuses(_) => None,
        }
    }

    /// Releases the whole record that waits, and keeps its memory: what comes next begins another
    /// one. If none waits, nothing changes.
    pub fn release(&mut self)
        ensures assembly { self.new ≡ released self.old }
        ensures connection { connection_of self.new ≡ let_go (connection_of self.old) }
    {
        if matches!(self.state, State::Holds { .. }) {
            self.buffer.clear();
            self.state = State::Gathers;
        }
    }
}
