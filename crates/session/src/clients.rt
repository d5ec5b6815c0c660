//! The client records of a run.

ghost use Rattle.std.specs.Prelude.{◌<◌, ◌≤◌, ◌+◌, ◌*◌, ◌^◌, All};
ghost use Rattle.std.specs.List.{AllPairs};

use crate::client::Client;
use model::not_done::NotDone;
use model_tree::stamps::stamp;
use model_tree::status::Status;
use std::alloc::{AllocError, Global};
use wire::{CreateSessionAnswer, ExchangeIdArguments};

/// The records in the order in which they were made, and the serial that was given last.
#[derive(Drop)]
pub struct Clients {
    pub run: u32,
    pub serial: u32,
    pub list: Vec<Client>,
    // What a proof knows of the numbers without a read.
    ghost run_fits: { run < 2 ^ 32 },
    ghost serial_fits: { serial < 2 ^ 32 },
    ghost rising: { AllPairs (λ earlier later. earlier.number < later.number) list.items },
    ghost of_run: { All (λ client. run * 2 ^ 32 < client.number) list.items },
    ghost made: { All (λ client. client.number ≤ run * 2 ^ 32 + serial) list.items },
}

impl Clients {
    ghost use Rattle.std.specs.Prelude.{◌≡◌, ◌==◌, ◌+◌, ◌≤◌, [], length, IfOk, None, Some};
    ghost use Rattle.std.specs.List.{list_any, find, position};
    ghost use Rattle.std.specs.Option.{option_map, option_copied};
    ghost use Rattle.model.specs.Sessions.Session.{Client as Known, is_client, is_confirmed_of, is_unconfirmed_of, is_replaced_by, without_where, changed_where, confirmed_with};
    ghost use Rattle.wire.specs.ArgumentViews.{exchange_id_view};
    ghost use Rattle.wire.specs.AnswerViews.{create_session_view};
    ghost use Rattle.session.specs.Views.{client_of, clients_of, roll_of, roll_with};
    ghost use Rattle.session.specs.Rooms.{records_staying, may_yield, Adds, ended_by, reclaimed};

    /// No record.
    pub fn new(alloc: Global, run: u32) -> Clients
        ensures { roll_of result ≡ (run, 0, []) }
    {
        Clients {
            run,
            serial: 0,
            list: Vec::new(alloc),
        }
    }

    /// The record of this client id.
    pub fn find(&self, number: u64) -> Option<&Client>
        ensures { option_map client_of (option_copied result)
            ≡ find (is_client number) (clients_of self.now) }
    {
        for client in &self.list {
            if client.number == number {
                return Some(client);
            }
        }
        None
    }

    /// The confirmed record of this owner id.
    pub fn confirmed(&self, owner: &[u8]) -> Option<&Client>
        ensures { option_map client_of (option_copied result)
            ≡ find (is_confirmed_of owner.now) (clients_of self.now) }
    {
        for client in &self.list {
            if client.is_confirmed_of(owner) {
                return Some(client);
            }
        }
        None
    }

    /// Drops the unconfirmed record of this owner id.
    pub fn remove_unconfirmed(&mut self, owner: &[u8])
        ensures { roll_of self.new
            ≡ roll_with self.old
            (without_where (is_unconfirmed_of owner.now) (clients_of self.old)) }
    {
        self.list.retain(|client| !client.is_unconfirmed_of(owner));
    }

    /// Drops the record of this client id.
    pub fn remove(&mut self, number: u64)
        ensures { roll_of self.new
            ≡ roll_with self.old (without_where (is_client number) (clients_of self.old)) }
    {
        self.list.retain(|client| client.number != number);
    }

    /// How many records stay if a new one of this owner id is made, and the record `dropped` and
    /// the unconfirmed one `yielded` go.
    pub fn count_staying(&self, owner: &[u8], dropped: Option<u64>, yielded: Option<u64>) -> usize
        ensures { result ≡ length (records_staying owner.now dropped yielded
            (clients_of self.now)) }
    {
        self.list
            .iter()
            .filter(|client| client.stays(owner, dropped, yielded))
            .count()
    }

    /// The oldest unconfirmed record that would stay.
    pub fn first_to_yield(&self, owner: &[u8], dropped: Option<u64>) -> Option<&Client>
        ensures { option_map client_of (option_copied result)
            ≡ find (may_yield owner.now dropped) (clients_of self.now) }
    {
        for client in &self.list {
            if client.may_yield(owner, dropped) {
                return Some(client);
            }
        }
        None
    }

    /// A new unconfirmed record, in place of an unconfirmed one of the owner, of the record
    /// `dropped` and of the unconfirmed one `yielded`: its client id. There are at most `most`.
    pub fn add(
        &mut self,
        alloc: Global,
        most: usize,
        uid: u32,
        arguments: &ExchangeIdArguments<'_>,
        dropped: Option<u64>,
        yielded: Option<u64>,
    ) -> Result<u64, NotDone>
        ensures { Adds most uid (exchange_id_view arguments.now) dropped yielded
            self.old self.new result }
    {
        let owner = arguments.owner;
        let staying = self.count_staying(owner, dropped, yielded);
        if most <= staying || self.serial == u32::MAX {
            return Err(NotDone::Status(Status::Delay));
        }
        // Client ids are made as stamps are.
        let number = stamp(self.run, self.serial + 1);
        let client = Client {
            number,
            owner: Vec::from_slice(alloc, owner)?,
            verifier: arguments.verifier,
            principal: uid,
            is_confirmed: false,
            has_reclaimed: false,
            sequence: 1,
            kept: None,
        };
        self.list.reserve(1)?;
        self.list
            .retain(|client| client.stays(owner, dropped, yielded));
        self.serial += 1;
        if self.list.push(client).is_err() {
            unreachable!();
        }
        Ok(number)
    }

    /// RECLAIM_COMPLETE succeeded for this client.
    pub fn reclaim(&mut self, number: u64)
        ensures { roll_of self.new ≡ roll_with self.old
            (changed_where (is_client number) reclaimed (clients_of self.old)) }
    {
        if let Some(at) = self.position(number) {
            self.list[at].has_reclaimed = true;
        }
    }

    fn position(&self, number: u64) -> Option<usize>
        ensures { result ≡ position
            (λ client. is_client number (client_of client)) self.now.list.items }
    {
        self.list.iter().position(|client| client.number == number)
    }

    /// Whether a session of `client` ends the client of this id.
    pub fn is_ending(&self, client: &Client, number: u64) -> bool
        ensures { result ≡ list_any (λ ended. number == ended)
            (ended_by (client_of client.now) (clients_of self.now)) }
    {
        self.list.iter().any(|other| other.is_replaced_by(client) && number == other.number)
    }

    /// The clients that a session of `client` ends.
    pub fn ending(&self, alloc: Global, client: &Client) -> Result<Vec<u64>, AllocError>
        ensures { IfOk result (λ ended.
            ended.items ≡ ended_by (client_of client.now) (clients_of self.now)) }
    {
        let mut ended = Vec::new(alloc);
        for other in &self.list {
            if other.is_replaced_by(client) {
                ended.push(other.number)?;
            }
        }
        Ok(ended)
    }

    /// Drops the ended clients, and confirms the one whose session was made.
    pub fn confirm(&mut self, number: u64, ended: &[u64], answer: CreateSessionAnswer)
        ensures { (client : Known) → client.number ≡ number
            → ended.now ≡ ended_by client (clients_of self.old)
            → roll_of self.new ≡ roll_with self.old
            (changed_where (is_client number) (confirmed_with (create_session_view answer))
            (without_where (is_replaced_by client) (clients_of self.old))) }
    {
        self.list.retain(|client| !ended.contains(&client.number));
        if let Some(at) = self.position(number) {
            self.list[at].confirm(answer);
        }
    }
}
