//! The sessions of a run.

ghost use Rattle.std.specs.Prelude.{◌<◌, ◌≤◌, ◌^◌, All};
ghost use Rattle.std.specs.List.{AllPairs};

use crate::limits::MAX_RECORD_BYTES;
use crate::session::Session;
use std::alloc::{AllocError, Global};
use wire::SequenceArguments;

/// The sessions in the order in which they were made, and the serial that was given last.
#[derive(Drop)]
pub struct Sessions {
    pub serial: u64,
    pub list: Vec<Session>,
    ghost rising: { AllPairs (λ earlier later. earlier.serial < later.serial) list.items },
    ghost made: { All (λ session. session.serial ≤ serial) list.items },
    ghost small: { serial < 2 ^ 64 },
}

impl Sessions {
    ghost use Rattle.std.specs.Prelude.{◌≡◌, ◌≤◌, ◌<◌, ◌++◌, [], ◌∷◌, length, vec_len, vec_capacity, OnOk};
    ghost use Rattle.std.specs.List.{list_any, find, position};
    ghost use Rattle.std.specs.Option.{option_map, option_copied};
    ghost use Rattle.model.specs.Sessions.Session.{is_session, is_of_client, is_of_clients, without_where, changed_where, with_slot, finished_slot};
    ghost use Rattle.session.specs.Slots.{running_slot};
    ghost use Rattle.session.specs.Views.{session_of, sessions_of, book_of, book_with};

    /// No session.
    pub fn new(alloc: Global) -> Sessions
        ensures { book_of result ≡ (0, []) }
    {
        Sessions {
            serial: 0,
            list: Vec::new(alloc),
        }
    }

    /// The session of this id.
    pub fn find(&self, id: &[u8; 16]) -> Option<&Session>
        ensures { option_map session_of (option_copied result)
            ≡ find (is_session id.now) (sessions_of self.now) }
    {
        for session in &self.list {
            if session.has_id(id) {
                return Some(session);
            }
        }
        None
    }

    /// Whether there is a session of this id.
    pub fn has(&self, id: &[u8; 16]) -> bool
        ensures { result ≡ list_any (is_session id.now) (sessions_of self.now) }
    {
        self.list.iter().any(|session| session.has_id(id))
    }

    fn position(&self, id: &[u8; 16]) -> Option<usize>
        ensures { result ≡ position
            (λ session. is_session id.now (session_of session)) self.now.list.items }
    {
        self.list.iter().position(|session| session.has_id(id))
    }

    /// Whether the client has a session.
    pub fn has_client(&self, number: u64) -> bool
        ensures { result ≡ list_any (is_of_client number) (sessions_of self.now) }
    {
        self.list.iter().any(|session| session.client == number)
    }

    /// The slot of the session runs the request.
    pub fn start(&mut self, uid: u32, arguments: &SequenceArguments)
        ensures { book_of self.new
            ≡ book_with self.old (changed_where (is_session arguments.now.session)
            (with_slot arguments.now.slot (running_slot arguments.now.sequence uid))
            (sessions_of self.old)) }
    {
        if let Some(at) = self.position(&arguments.session) {
            self.list[at].start(uid, arguments);
        }
    }

    /// The slot of the session keeps the reply to what it ran, and gives back the memory of the one
    /// before.
    pub fn keep(&mut self, id: &[u8; 16], slot: u32, reply: Vec<u8>) -> Option<Vec<u8>>
        requires small { length reply.items ≤ MAX_RECORD_BYTES }
        ensures { book_of self.new ≡ book_with self.old
            (changed_where (is_session id.now) (finished_slot slot reply.items)
            (sessions_of self.old)) }
    {
        match self.position(id) {
            Some(at) => self.list[at].keep(slot, reply),
            None => Some(reply),
        }
    }

    /// Ends the session of this id.
    pub fn remove(&mut self, id: &[u8; 16])
        ensures { book_of self.new
            ≡ book_with self.old (without_where (is_session id.now) (sessions_of self.old)) }
    {
        self.list.retain(|session| !session.has_id(id));
    }

    /// Takes the memory for one more session.
    pub fn reserve(&mut self) -> Result<(), AllocError>
        ensures same { book_of self.new ≡ book_of self.old }
        ensures room { OnOk result (vec_len self.new.list < vec_capacity self.new.list) }
    {
        self.list.reserve(1)
    }

    /// A new session, of a later serial than those before, in place of those of the ended clients.
    pub fn add(&mut self, ended: &[u64], session: Session)
        requires later { self.old.serial < session.serial }
        requires room { vec_len self.old.list < vec_capacity self.old.list }
        ensures { let staying = without_where (is_of_clients ended.now) (sessions_of self.old) in
            book_of self.new ≡ (session.serial, staying ++ session_of session ∷ []) }
    {
        self.list.retain(|session| !session.is_of(ended));
        self.serial = session.serial;
        if self.list.push(session).is_err() {
            unreachable!();
        }
    }
}
