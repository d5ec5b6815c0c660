//! A session and its slots.

ghost use Rattle.std.specs.Prelude.{◌≡◌, ◌≤◌};
ghost use Rattle.std.specs.Vec.{vec_len};
ghost use Rattle.model.specs.Sessions.Session.{session_id};
ghost use Rattle.session.specs.declared.limits.TheConstants.{MAX_SLOTS};

use crate::limits::{MAX_RECORD_BYTES, MAX_SLOTS};
use crate::slot::{Next, Slot, SlotState, free_slots};
use model_tree::status::Status;
use std::alloc::{AllocError, Global};
use wire::{Channel, SequenceArguments};

/// A session of a client.
#[derive(Drop)]
pub struct Session {
    pub client: u64,
    pub serial: u64,
    pub max_operations: u32,
    pub slots: Vec<Slot>,
    ghost few: { vec_len slots ≤ MAX_SLOTS },
}

/// The id of a session (RFC 8881, section 2.10.3): its client's id and its serial, 8 bytes each.
pub fn session_id(client: u64, serial: u64) -> [u8; 16]
    ensures { result ≡ session_id client serial }
{
    let mut id = [0; 16];
    id[..8].copy_from_slice(&client.to_be_bytes());
    id[8..].copy_from_slice(&serial.to_be_bytes());
    id
}

impl Session {
    ghost use Rattle.std.specs.Prelude.{◌≡◌, ◌≤◌, ◌-◌, Some, IfOk, IfSome, IfErr, length, replicate};
    ghost use Rattle.std.specs.Option.{option_map};
    ghost use Rattle.std.specs.Vec.{vec_len};
    ghost use Rattle.model_tree.specs.Seats.Seats.{no_seats};
    ghost use Rattle.model.specs.Sessions.Session.{is_session, is_of_clients, is_running, no_slot, slot_at, begin_by, begin_new, with_slot, finished_slot};
    ghost use Rattle.wire.specs.ArgumentViews.{sequence_view};
    ghost use Rattle.wire.specs.Short.{IsRefusal};
    ghost use Rattle.session.specs.Slots.{slot_of, running_slot, next_of};
    ghost use Rattle.session.specs.Views.{session_of, session_reply};

    /// A session of which no slot ran yet.
    pub fn new(
        alloc: Global,
        client: u64,
        serial: u64,
        fore: &Channel,
    ) -> Result<Session, AllocError>
        requires { fore.now.max_requests ≤ MAX_SLOTS }
        ensures { IfOk result (λ session. session_of session ≡ record {
          client = client;
          serial = serial;
          max_operations = fore.now.max_operations;
          slots = replicate fore.now.max_requests no_slot;
        }) }
    {
        let slots = free_slots(alloc, fore.max_requests)?;
        Ok(Session {
            client,
            serial,
            max_operations: fore.max_operations,
            slots,
        })
    }

    /// Whether this is its id.
    pub fn has_id(&self, id: &[u8; 16]) -> bool
        ensures { result ≡ is_session id.now (session_of self.now) }
    {
        session_id(self.client, self.serial) == *id
    }

    /// Whether it is one of these clients'.
    pub fn is_of(&self, clients: &[u64]) -> bool
        ensures { result ≡ is_of_clients clients.now (session_of self.now) }
    {
        clients.iter().any(|number| self.client == *number)
    }

    /// Whether a slot of it runs.
    pub fn is_running(&self) -> bool
        ensures { result ≡ is_running (session_of self.now) }
    {
        self.slots.iter().any(|slot| slot.is_running())
    }

    /// What SEQUENCE does on it (RFC 8881, section 18.46).
    pub fn next(&self, uid: u32, count: u32, arguments: &SequenceArguments) -> Result<Next, Status>
        ensures next { result ≡ next_of
            (begin_by uid count (sequence_view arguments.now) no_seats (Some (session_of self.now))) }
        ensures refused { IfErr result IsRefusal }
    {
        let Some(slot) = self.slots.get(arguments.slot as usize) else {
            return Err(Status::BadSlot);
        };
        let is_last = arguments.sequence == slot.last;
        match &slot.state {
            SlotState::Running(_) if is_last => Err(Status::Delay),
            SlotState::Running(_) => Err(Status::SeqMisordered),
            SlotState::Kept(_) if is_last => {
                if uid == slot.uid {
                    Ok(Next::Replays)
                } else {
                    Err(Status::SeqFalseRetry)
                }
            }
            SlotState::Free | SlotState::Kept(_) => self.next_new(slot, count, arguments),
        }
    }

    // A number other than the last one.
    fn next_new(
        &self,
        slot: &Slot,
        count: u32,
        arguments: &SequenceArguments,
    ) -> Result<Next, Status>
        ensures next { result ≡ next_of
            (begin_new count (sequence_view arguments.now) (session_of self.now)
            (slot_of slot.now)) }
        ensures refused { IfErr result IsRefusal }
    {
        if arguments.sequence != slot.last.wrapping_add(1) {
            return Err(Status::SeqMisordered);
        }
        if self.max_operations < count {
            return Err(Status::TooManyOps);
        }
        Ok(Next::Runs)
    }

    /// The slot runs the request.
    pub fn start(&mut self, uid: u32, arguments: &SequenceArguments)
        ensures { session_of self.new
            ≡ with_slot arguments.now.slot (running_slot arguments.now.sequence uid)
            (session_of self.old) }
    {
        let place = arguments.slot as usize;
        if place < self.slots.len() {
            self.slots[place].start(arguments.sequence, uid);
        }
    }

    /// The slot keeps the reply to what it ran, and gives back the memory of the one before. If
    /// there is no such slot, the session stays, and the reply's own comes back.
    pub fn keep(&mut self, slot: u32, reply: Vec<u8>) -> Option<Vec<u8>>
        requires small { length reply.items ≤ MAX_RECORD_BYTES }
        ensures { session_of self.new ≡ finished_slot slot reply.items (session_of self.old) }
    {
        let place = slot as usize;
        if place < self.slots.len() {
            self.slots[place].keep(reply)
        } else {
            Some(reply)
        }
    }

    /// The reply that the slot keeps.
    pub fn kept(&self, slot: u32) -> Option<&[u8]>
        ensures short { IfSome result (λ bytes. length bytes.now ≤ MAX_RECORD_BYTES) }
        ensures kept { option_map (λ bytes. bytes.now) result
            ≡ session_reply slot (session_of self.now) }
    {
        self.slots.get(slot as usize)?.kept()
    }

    /// The number of the slot's last request and its uid. If there is no such slot, both are 0.
    pub fn last(&self, slot: u32) -> (u32, u32)
        ensures { result ≡ (
          (slot_at (session_of self.now) slot).last,
          (slot_at (session_of self.now) slot).uid,
        ) }
    {
        match self.slots.get(slot as usize) {
            Some(slot) => (slot.last, slot.uid),
            None => (0, 0),
        }
    }

    /// The highest slot. A session without slots has none, and this is 0.
    pub fn highest_slot(&self) -> u32
        ensures { result ≡ length (session_of self.now).slots - 1 }
    {
        self.slots.len().saturating_sub(1) as u32
    }
}
