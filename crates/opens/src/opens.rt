//! All opens of a run.

ghost use Rattle.std.specs.Prelude.{◌<◌, ◌≤◌, All};
ghost use Rattle.std.specs.List.{AllPairs};

use crate::found::{Found, StateIdContext, by_seqid, is_anonymous, state_id};
use crate::open::{Entry, Open};
use byteorder::{BigEndian, ByteOrder};
use model_tree::status::Status;
use std::alloc::{AllocError, Global};
use wire::StateId;

/// The opens by rising serials, and how many serials were given in this run.
#[derive(Drop)]
pub struct Opens {
    given: u64,
    list: Vec<Entry>,
    ghost rising: { AllPairs (λ earlier later. earlier.serial < later.serial) list.items },
    ghost made: { All (λ entry. entry.serial ≤ given) list.items },
}

#[tactic(auto, unfolding(crate::specs::Views::opens_of, crate::specs::Views::HasMemory, model::specs::Sessions::StateIds::found, model::specs::Sessions::StateIds::opened))]
impl Opens {
    ghost use Rattle.std.specs.Prelude.{◌≡◌, ◌<◌, ◌≤◌, ◌^◌, None, length, map, IfOk, OnOk, IfSome, IfNone};
    ghost use Rattle.model.specs.Operations.Context.{Context};
    ghost use Rattle.model_tree.specs.Trees.Keyed.{at};
    ghost use Rattle.model.specs.Sessions.Opens as model;
    ghost use Rattle.model.specs.Sessions.Opens.{no_opens};
    ghost use Rattle.model.specs.Sessions.StateIds.{found, is_table_full, open_like, open_named, opened, without_clients, without_number, without_open};
    ghost use Rattle.wire.specs.SmallViews.{state_view};
    ghost use Rattle.opens.specs.Views.{found_of, opened_stateid, open_of, opens_of, CanOpen, HasMemory, IsAt, IsLike, IsNamed, StandsAt};

    /// A run begins with none.
    pub fn new(alloc: Global) -> Opens
        ensures { opens_of result ≡ no_opens }
    {
        Opens {
            given: 0,
            list: Vec::new(alloc),
        }
    }

    /// How many there are.
    pub fn len(&self) -> usize
        ensures { result ≡ length (opens_of self.now).known }
    {
        self.list.len()
    }

    /// Takes the memory for one more open.
    pub fn reserve(&mut self) -> Result<(), AllocError>
        ensures room { OnOk result (HasMemory self.new) }
        ensures same { opens_of self.new ≡ opens_of self.old }
    {
        self.list.reserve(1)
    }

    /// Whether the open can't be made: there are `most`, or no serial is left. One that joins
    /// another needs neither. No file has the number 0: an open of it joins no other, as none would
    /// on a file whose number had more than 64 bits.
    pub fn is_full(&self, most: usize, asked: &Open) -> bool
        ensures is { result ≡ is_table_full most (opens_of self.now) (open_of asked.now) }
        ensures high { asked.now.number ≡ 0 → (other : model.Open) → 2 ^ 64 ≤ other.number
            → result ≡ is_table_full most (opens_of self.now) other }
    {
        match self.position_like(asked) {
            Some(_) => false,
            None => most <= self.list.len() || u64::MAX <= self.given,
        }
    }

    // The first open of the same client and owner on the same file.
    fn position_like(&self, asked: &Open) -> Option<usize>
        ensures some { IfSome result (IsLike (open_of asked.now) self.now.list.items) }
        ensures none { IfNone result (open_like (opens_of self.now) (open_of asked.now) ≡ None) }
    {
        for (place, entry) in self.list.iter().enumerate() {
            if entry.is_like(asked) {
                return Some(place);
            }
        }
        None
    }

    /// OPEN (RFC 8881, section 18.16): joins the open of the same client and owner on the same
    /// file, or makes a new one. Returns its stateid.
    pub fn open(&mut self, run: u32, asked: Open) -> StateId
        requires room { HasMemory self.old }
        requires serial { CanOpen (opens_of self.old) (open_of asked) }
        requires number { 0 < asked.number }
        ensures opens { opens_of self.new ≡ (opened (opens_of self.old) (open_of asked)).opens }
        ensures state { state_view result
            ≡ opened_stateid run (opened (opens_of self.old) (open_of asked)) }
    {
        if let Some(place) = self.position_like(&asked) {
            let entry = &mut self.list[place];
            entry.state.join(asked.access);
            return state_id(run, entry.serial, entry.state.seqid);
        }
        self.given += 1;
        let serial = self.given;
        let seqid = asked.seqid;
        if self
            .list
            .push(Entry {
                serial,
                state: asked,
            })
            .is_err()
        {
            unreachable!();
        }
        state_id(run, serial, seqid)
    }

    // The open that has a serial.
    fn at(&self, serial: u64) -> Option<&Entry>
        ensures some { IfSome result (λ entry. IsAt serial (opens_of self.now) entry.now) }
        ensures none { IfNone result (at serial (opens_of self.now).known ≡ None) }
    {
        for entry in &self.list {
            if entry.serial == serial {
                return Some(entry);
            }
        }
        None
    }

    // The open that a stateid's twelve bytes name: one of another run has no serial here.
    fn named(&self, run: u32, other: &[u8; 12]) -> Option<&Entry>
        ensures some { IfSome result (λ entry. IsNamed run other.now
            (opens_of self.now) entry.now) }
        ensures none { IfNone result (open_named (opens_of self.now) run other.now ≡ None) }
    {
        if &other[..4] != run.to_be_bytes().as_slice() {
            return None;
        }
        self.at(BigEndian::read_u64(&other.as_slice()[4..]))
    }

    /// What a stateid means in its context (RFC 8881, section 8.2.4).
    pub fn find(&self, id_context: &StateIdContext, state: &StateId) -> Found<'_>
        ensures { (context : Context) → StandsAt id_context.now context
            → found_of result ≡ found (opens_of self.now) context (state_view state.now) }
    {
        let Some(state) = id_context.meant(state) else {
            return Found::Refused(Status::BadStateId);
        };
        if is_anonymous(&state) {
            return Found::Anonymous;
        }
        match self.named(id_context.run, &state.other) {
            Some(entry) if entry.is_of(id_context) => by_seqid(&state, entry),
            _ => Found::Refused(Status::BadStateId),
        }
    }

    /// CLOSE (RFC 8881, section 18.2): ends the open of a serial.
    pub fn close(&mut self, serial: u64)
        ensures { opens_of self.new ≡ without_open serial (opens_of self.old) }
    {
        self.list.retain(|entry| serial != entry.serial);
    }

    /// Ends the opens of a file, which is removed.
    pub fn remove_file(&mut self, number: u64)
        ensures { opens_of self.new ≡ without_number number (opens_of self.old) }
    {
        self.list.retain(|entry| entry.state.number != number);
    }

    /// Ends the opens of clients, which end.
    pub fn remove_clients(&mut self, clients: &[u64])
        ensures { opens_of self.new ≡ without_clients clients.now (opens_of self.old) }
    {
        self.list
            .retain(|entry| !clients.contains(&entry.state.client));
    }

    /// The client of each open.
    pub fn clients(&self, alloc: Global) -> Result<Vec<u64>, AllocError>
        ensures { IfOk result (λ clients.
            clients.items ≡ map (λ entry. entry.1.client) (opens_of self.now).known) }
    {
        self.list
            .iter()
            .map(|entry| entry.state.client)
            .collect(alloc)
    }
}
