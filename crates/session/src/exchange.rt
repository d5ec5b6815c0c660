//! EXCHANGE_ID (RFC 8881, section 18.35).

ghost use Rattle.std.specs.Prelude.{◌≡◌, ◌≤◌, ℕ, List, length, IfErr};
ghost use Rattle.model.specs.Sessions.Session.{exchange_id, exchange_answer, new_record};
ghost use Rattle.wire.specs.AnswerViews.{exchange_id_view as answer_view};
ghost use Rattle.wire.specs.ArgumentViews.{exchange_id_view};
ghost use Rattle.session.specs.Calls.{Exchanged, Refuses};
ghost use Rattle.session.specs.Limits.{limits_of};
ghost use Rattle.session.specs.Rooms.{yielded_for};
ghost use Rattle.session.specs.Views.{table_of, among, cleared_of, exchanged_answer};

use crate::flags::ExchangeFlags;
use crate::limits::Limits;
use crate::table::Table;
use bitflags::Flags;
use model::not_done::NotDone;
use model_tree::status::Status;
use wire::{ExchangeIdAnswer, ExchangeIdArguments};

/// What EXCHANGE_ID returns of a client's record. The rest of the result is the server's name.
#[derive(Clone, Copy, PartialEq, Eq)]
pub struct ExchangedId {
    pub client: u64,
    pub sequence: u32,
    pub flags: u32,
}

impl Table {
    /// EXCHANGE_ID by this uid, given that the clients of `with_opens` have opens.
    ///
    /// # Errors
    /// INVAL if a flag is set that may not be; CLID_INUSE if the owner id's confirmed record is
    /// another principal's and has a session or an open; DELAY if no serial is left, or if there
    /// are `limits.clients` records and no unconfirmed one gives way. `Memory` leaves the table as
    /// it was, and is returned only if a record would be made.
    pub fn exchange_id(
        &mut self,
        limits: Limits,
        uid: u32,
        arguments: &ExchangeIdArguments<'_>,
        with_opens: &[u64],
    ) -> Result<ExchangedId, NotDone>
        ensures answered { Exchanged
            (exchange_id (limits_of limits) (among with_opens.now) uid
            (exchange_id_view arguments.now) (table_of self.old)) (table_of self.old)
            (table_of self.new) result }
        ensures refused { IfErr result Refuses }
    {
        if !ExchangeFlags::from_bits_retain(arguments.flags).may_be_asked() {
            return Err(NotDone::Status(Status::Inval));
        }
        let Some(client) = self.clients.confirmed(arguments.owner) else {
            return self.add_client(limits, uid, arguments, None);
        };
        let number = client.number;
        if client.principal != uid {
            if self.has_state(with_opens, number) {
                return Err(NotDone::Status(Status::ClidInUse));
            }
            return self.add_client(limits, uid, arguments, Some(number));
        }
        if client.verifier != arguments.verifier {
            return self.add_client(limits, uid, arguments, None);
        }
        let flags = ExchangeFlags::CONFIRMED.union(ExchangeFlags::USE_NON_PNFS);
        let answer = answer(number, client.sequence, flags);
        self.clients.remove_unconfirmed(arguments.owner);
        Ok(answer)
    }

    fn add_client(
        &mut self,
        limits: Limits,
        uid: u32,
        arguments: &ExchangeIdArguments<'_>,
        dropped: Option<u64>,
    ) -> Result<ExchangedId, NotDone>
        ensures answered { Exchanged
            (new_record (limits_of limits) uid (exchange_id_view arguments.now)
            (table_of self.old) (cleared_of dropped (table_of self.old))) (table_of self.old)
            (table_of self.new) result }
        ensures refused { IfErr result Refuses }
    {
        let most = limits.clients as usize;
        let yielded = self.yielded_for(most, arguments.owner, dropped);
        let number = self
            .clients
            .add(self.alloc, most, uid, arguments, dropped, yielded)?;
        Ok(answer(number, 1, ExchangeFlags::USE_NON_PNFS))
    }

    // Whose unconfirmed record is yielded to a new one of this owner id: the oldest, if there is no
    // place among `most` and the settings say so.
    #[tactic(auto, unfolding(crate::specs::Views::table_of))]
    fn yielded_for(&self, most: usize, owner: &[u8], dropped: Option<u64>) -> Option<u64>
        ensures { result ≡ yielded_for most owner.now dropped (table_of self.now) }
    {
        let staying = self.clients.count_staying(owner, dropped, None);
        if !self.settings.yields_when_full || staying < most {
            return None;
        }
        match self.clients.first_to_yield(owner, dropped) {
            Some(client) => Some(client.number),
            None => None,
        }
    }

    /// The whole result of EXCHANGE_ID, with the server's name.
    #[tactic(auto, unfolding(crate::specs::Views::table_of))]
    pub fn identity_answer(&self, exchanged: ExchangedId) -> ExchangeIdAnswer<'_>
        ensures answer { answer_view result
            ≡ exchanged_answer (table_of self.now).settings.name exchanged }
        ensures short { length result.major_id.now ≤ 1024 }
        ensures same { result.scope.now ≡ result.major_id.now }
    {
        let name = self.settings.name.as_bytes();
        ExchangeIdAnswer {
            client: exchanged.client,
            sequence: exchanged.sequence,
            flags: exchanged.flags,
            major_id: name,
            scope: name,
        }
    }
}

fn answer(client: u64, sequence: u32, flags: ExchangeFlags) -> ExchangedId
    ensures { (name : List ℕ) → exchanged_answer name result
        ≡ exchange_answer name client sequence flags.0 }
{
    ExchangedId {
        client,
        sequence,
        flags: flags.bits(),
    }
}
