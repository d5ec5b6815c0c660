//! A slot (RFC 8881, section 2.10.6.1).

ghost use Rattle.std.specs.Prelude.{◌≡◌, IfOk, map, replicate};
ghost use Rattle.model.specs.Sessions.Session.{no_slot};
ghost use Rattle.session.specs.Slots.{slot_of};

use crate::held::KeptReply;
use crate::limits::MAX_RECORD_BYTES;
use std::alloc::{AllocError, Global};
use std::mem;

/// What a slot holds: nothing yet, a request that runs, or the COMPOUND result of the last one.
#[derive(Drop)]
pub enum SlotState {
    Free,
    /// The memory of the reply before stays, and is given back when this one's is kept.
    Running(Option<Vec<u8>>),
    Kept(KeptReply),
}

/// A slot. `last` is the number of the last request that ran, 0 at first, and `uid` who sent it.
#[derive(Drop)]
pub struct Slot {
    pub last: u32,
    pub uid: u32,
    pub state: SlotState,
}

/// What a slot does with a request.
#[derive(Clone, Copy, PartialEq, Eq)]
pub enum Next {
    /// The request is a retry, whose reply is the kept one.
    Replays,
    /// The slot runs it.
    Runs,
}

impl Slot {
    ghost use Rattle.std.specs.Prelude.{◌≡◌, ◌≤◌, length, IfSome};
    ghost use Rattle.std.specs.Option.{option_map};
    ghost use Rattle.model.specs.Sessions.Session.{no_slot, is_running_state};
    ghost use Rattle.session.specs.Slots.{slot_of, running_slot, kept_slot, kept_reply};

    /// A slot on which nothing ran.
    pub fn new() -> Slot
        ensures { slot_of result ≡ no_slot }
    {
        Slot {
            last: 0,
            uid: 0,
            state: SlotState::Free,
        }
    }

    /// Whether its request runs.
    pub fn is_running(&self) -> bool
        ensures { result ≡ is_running_state (slot_of self.now).state }
    {
        matches!(self.state, SlotState::Running(_))
    }

    /// The reply that it keeps.
    pub fn kept(&self) -> Option<&[u8]>
        ensures short { IfSome result (λ bytes. length bytes.now ≤ MAX_RECORD_BYTES) }
        ensures kept { option_map (λ bytes. bytes.now) result
            ≡ kept_reply (slot_of self.now).state }
    {
        match &self.state {
            SlotState::Kept(reply) => Some(reply.bytes.as_slice()),
            SlotState::Free | SlotState::Running(_) => None,
        }
    }

    /// Runs a request.
    pub fn start(&mut self, number: u32, uid: u32)
        ensures { slot_of self.new ≡ running_slot number uid }
    {
        self.last = number;
        self.uid = uid;
        let memory = memory_of(mem::replace(&mut self.state, SlotState::Free));
        self.state = SlotState::Running(memory);
    }

    /// Keeps the reply to its last request, and gives back the memory of the one before.
    pub fn keep(&mut self, reply: Vec<u8>) -> Option<Vec<u8>>
        requires small { length reply.items ≤ MAX_RECORD_BYTES }
        ensures { slot_of self.new ≡ kept_slot reply.items (slot_of self.old) }
    {
        let kept = SlotState::Kept(KeptReply { bytes: reply });
        memory_of(mem::replace(&mut self.state, kept))
    }
}

/// The memory of a reply, if the slot has any.
fn memory_of(state: SlotState) -> Option<Vec<u8>> {
    match state {
        SlotState::Free => None,
        SlotState::Running(memory) => memory,
        SlotState::Kept(reply) => Some(reply.bytes),
    }
}

/// So many slots on which nothing ran.
pub fn free_slots(alloc: Global, count: u32) -> Result<Vec<Slot>, AllocError>
    ensures { IfOk result (λ slots. map slot_of slots.items ≡ replicate count no_slot) }
{
    let mut slots = Vec::new(alloc);
    for _slot in 0..count {
        slots.push(Slot::new())?;
    }
    Ok(slots)
}
