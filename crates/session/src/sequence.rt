//! SEQUENCE (RFC 8881, sections 2.10.6 and 18.46).

ghost use Rattle.std.specs.Prelude.{◌≡◌, IfErr};
ghost use Rattle.std.specs.Result.{result_err};
ghost use Rattle.model_tree.specs.Seats.Seats.{seat_of};
ghost use Rattle.model.specs.Sessions.Session.{begin_dead};
ghost use Rattle.wire.specs.ArgumentViews.{sequence_view};
ghost use Rattle.wire.specs.Short.{IsRefusal};
ghost use Rattle.session.specs.Calls.{BeginsSequence};
ghost use Rattle.session.specs.Slots.{refusal_of};
ghost use Rattle.session.specs.Views.{table_of};

use crate::seating::{find_seat, held_of};
use crate::slot::Next;
use crate::table::Table;
use model_tree::status::Status;
use wire::{SequenceAnswer, SequenceArguments};

/// What a SEQUENCE that is not refused does.
#[derive(Clone, Copy, PartialEq, Eq)]
pub enum Begun {
    /// The request is a retry: its reply is the kept one, which `Table::kept` gives.
    Replays,
    /// The slot runs the request, of the session of this client. `Table::finish` ends it, or
    /// `Table::finish_held` if the session has a seat.
    Runs { client: u64, answer: SequenceAnswer },
}

impl Table {
    /// SEQUENCE by this uid, first in a COMPOUND of `count` operations.
    ///
    /// # Errors
    /// In this order: BADSESSION; DEADSESSION for a session of an earlier run whose seat holds no
    /// reply to this number by this uid; BADSLOT; of a slot whose request runs, DELAY for its number
    /// and SEQ_MISORDERED for another; SEQ_FALSE_RETRY for the number of a kept reply by another
    /// uid; SEQ_MISORDERED for a number that is not the next; TOO_MANY_OPS above the session's
    /// operations. Each leaves the table as it was.
    pub fn begin(
        &mut self,
        uid: u32,
        count: u32,
        arguments: &SequenceArguments,
    ) -> Result<Begun, Status>
        ensures answered { BeginsSequence uid count (sequence_view arguments.now)
            (table_of self.old)
            (table_of self.new) result }
        ensures refused { IfErr result IsRefusal }
    {
        let Some(session) = self.sessions.find(&arguments.session) else {
            self.check_dead(uid, arguments)?;
            return Ok(Begun::Replays);
        };
        let client = session.client;
        let highest_slot = session.highest_slot();
        match session.next(uid, count, arguments)? {
            Next::Replays => return Ok(Begun::Replays),
            Next::Runs => {}
        }
        self.sessions.start(uid, arguments);
        let answer = SequenceAnswer {
            session: arguments.session,
            sequence: arguments.sequence,
            slot: arguments.slot,
            highest_slot,
            target_highest_slot: highest_slot,
            flags: 0,
        };
        Ok(Begun::Runs { client, answer })
    }

    // Why SEQUENCE fails on a session that is none of this run's. What its seat holds is returned
    // to the held number by the held uid.
    #[tactic(auto, unfolding(crate::specs::Views::table_of))]
    fn check_dead(&self, uid: u32, arguments: &SequenceArguments) -> Result<(), Status>
        ensures answered { result_err result ≡ refusal_of
            (begin_dead uid (sequence_view arguments.now)
            (seat_of arguments.now.session (table_of self.now).seats)) }
        ensures refused { IfErr result IsRefusal }
    {
        let Some(seat) = find_seat(&self.seats, &arguments.session) else {
            return Err(Status::BadSession);
        };
        let Some(held) = held_of(seat, arguments.slot) else {
            return Err(Status::DeadSession);
        };
        if arguments.sequence == held.number && uid == held.uid {
            Ok(())
        } else {
            Err(Status::DeadSession)
        }
    }
}
