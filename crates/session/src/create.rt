//! CREATE_SESSION (RFC 8881, section 18.36).

ghost use Rattle.std.specs.Prelude.{◌≡◌, ◌≢◌, ◌<◌, ◌+◌, ◌^◌, if◌then◌else◌, None, IfOk, IfErr};
ghost use Rattle.std.specs.Result.{result_err};
ghost use Rattle.model_tree.specs.Refusals.Refusal.{first_refusal};
ghost use Rattle.model.specs.Sessions.Session.{CreateSessionOutcome, create_session, create_unless, limits_for, fore_channel, is_too_small, is_full_of_sessions};
ghost use Rattle.wire.specs.ArgumentViews.{create_session_view};
ghost use Rattle.wire.specs.SmallViews.{channel_view};
ghost use Rattle.wire.specs.Short.{IsRefusal};
ghost use Rattle.model_tree.specs.Seats.SeatEdits.{AreEdits, edits_view};
ghost use Rattle.session.specs.Calls.{Refuses};
ghost use Rattle.session.specs.Limits.{limits_of};
ghost use Rattle.session.specs.Plans.{Plans, IsPlanned, HasRoom, HasRoomFor, Created};
ghost use Rattle.session.specs.Rooms.{IsOfRun, argument_refusals, room_refusals, ends_running};
ghost use Rattle.session.specs.Views.{table_of, client_of};

use crate::client::Client;
use crate::edits::edit_seats;
use crate::flags::SessionFlags;
use crate::limits::Limits;
use crate::plan::{CreatedSession, Creation, NewSession};
use crate::session::{Session, session_id};
use crate::table::Table;
use bitflags::Flags;
use model::not_done::NotDone;
use model_tree::status::Status;
use std::alloc::AllocError;
use wire::{Channel, CreateSessionAnswer, CreateSessionArguments};

impl Table {
    /// What CREATE_SESSION by this uid is to do. It takes all the memory, and changes nothing.
    ///
    /// # Errors
    /// In this order: STALE_CLIENTID for an unknown client; CLID_INUSE for another principal's;
    /// SEQ_MISORDERED for a number other than the record's next, unless it is the one before and
    /// its result is kept; INVAL for a flag that may not be set; TOOSMALL for a fore channel below
    /// the record size or without operations or requests; DELAY if a session that would end runs a
    /// request, if there are `limits.sessions` besides those, or if no serial is left. `Memory` is
    /// returned only if a session would be made.
    pub fn plan_session(
        &mut self,
        limits: Limits,
        uid: u32,
        arguments: &CreateSessionArguments<'_>,
    ) -> Result<Creation, NotDone>
        ensures same { table_of self.new ≡ table_of self.old }
        ensures planned { Plans limits.seat_slots
            (create_session (limits_of limits) uid (create_session_view arguments.now)
            (table_of self.old)) (table_of self.old) result }
        ensures room { IfOk result (HasRoomFor self.new) }
        ensures refused { IfErr result Refuses }
    {
        let creation = self.plan(limits, uid, arguments)?;
        if let Creation::New(_) = &creation {
            self.sessions.reserve()?;
        }
        Ok(creation)
    }

    /// Makes the session that was planned. It takes no memory.
    pub fn add_session(&mut self, plan: NewSession) -> CreatedSession
        requires room { HasRoom self.old }
        requires planned { (wanted : CreateSessionOutcome)
            × IsPlanned wanted (table_of self.old) plan }
        ensures { (wanted : CreateSessionOutcome) → IsPlanned wanted (table_of self.old) plan
            → Created wanted (table_of self.new) result }
    {
        let NewSession {
            answer,
            ended,
            edits,
            session,
        } = plan;
        self.clients.confirm(session.client, &ended, answer);
        edit_seats(&mut self.seats, edits);
        self.sessions.add(&ended, session);
        CreatedSession { answer, ended }
    }

    // The same, without the memory in the table.
    fn plan(
        &self,
        limits: Limits,
        uid: u32,
        arguments: &CreateSessionArguments<'_>,
    ) -> Result<Creation, NotDone>
        ensures planned { Plans limits.seat_slots
            (create_session (limits_of limits) uid (create_session_view arguments.now)
            (table_of self.now)) (table_of self.now) result }
        ensures refused { IfErr result Refuses }
    {
        let Some(client) = self.clients.find(arguments.client) else {
            return Err(NotDone::Status(Status::StaleClientId));
        };
        if client.principal != uid {
            return Err(NotDone::Status(Status::ClidInUse));
        }
        if let Some(answer) = client.repeated(arguments.sequence) {
            return Ok(Creation::Again(answer));
        }
        check_arguments(limits, client.sequence, arguments)?;
        self.check_room(limits, client)?;
        let plan = self.plan_new(limits, client, arguments)?;
        Ok(Creation::New(plan))
    }

    // DELAY if a session that would end runs a request, or if there is no place or no serial for
    // one more.
    fn check_room(&self, limits: Limits, client: &Client) -> Result<(), Status>
        ensures first { result_err result
            ≡ first_refusal
            (room_refusals (limits_of limits) (client_of client.now) (table_of self.now)) }
        ensures refused { IfErr result IsRefusal }
    {
        if self.ends_a_running_session(client) || self.is_full_beside(limits, client) {
            return Err(Status::Delay);
        }
        Ok(())
    }

    fn ends_a_running_session(&self, client: &Client) -> bool
        ensures { result ≡ ends_running (client_of client.now) (table_of self.now) }
    {
        let clients = &self.clients;
        self.sessions.list.iter().any(|session| clients.is_ending(client, session.client)
            && session.is_running())
    }

    fn is_full_beside(&self, limits: Limits, client: &Client) -> bool
        ensures { result ≡ is_full_of_sessions (limits_of limits) (client_of client.now)
            (table_of self.now) }
    {
        let clients = &self.clients;
        let staying = self
            .sessions
            .list
            .iter()
            .filter(|session| !clients.is_ending(client, session.client))
            .count();
        limits.sessions as usize <= staying || self.sessions.serial == u64::MAX
    }

    // The session of this client, if those of the ended clients give way to it.
    fn plan_new(
        &self,
        limits: Limits,
        client: &Client,
        arguments: &CreateSessionArguments<'_>,
    ) -> Result<NewSession, AllocError>
        requires serial { self.now.sessions.serial + 1 < 2 ^ 64 }
        requires known { IsOfRun self.now.clients client.now }
        requires some { arguments.now.fore.max_requests ≢ 0 }
        ensures planned { IfOk result (IsPlanned (create_unless (limits_of limits)
            (create_session_view arguments.now) (client_of client.now) (table_of self.now) None)
            (table_of self.now)) }
        ensures edits { IfOk result (λ plan. AreEdits (table_of self.now).run limits.seat_slots
            (edits_view plan.edits) (table_of self.now).seats) }
    {
        let lacks = self.lacks_seat(client, arguments);
        let place = self.place_for(client, lacks, arguments);
        let serial = self.sessions.serial + 1;
        let fore = fore_channel(limits, &arguments.fore, place.is_some());
        let session = Session::new(self.alloc, client.number, serial, &fore)?;
        let id = session_id(client.number, serial);
        let edits = self.plan_seats(client, lacks, id, fore.max_requests, place)?;
        let ended = self.clients.ending(self.alloc, client)?;
        let answer = CreateSessionAnswer {
            session: id,
            sequence: arguments.sequence,
            flags: answered_flags(place.is_some()),
            fore,
            back: Channel {
                rdma_ird: None,
                ..arguments.back
            },
        };
        Ok(NewSession {
            answer,
            ended,
            edits,
            session,
        })
    }
}

// The tests of just the arguments, given the record's next number.
fn check_arguments(
    limits: Limits,
    next: u32,
    arguments: &CreateSessionArguments<'_>,
) -> Result<(), Status>
    ensures first { result_err result ≡ first_refusal
        (argument_refusals (limits_of limits) next (create_session_view arguments.now)) }
    ensures refused { IfErr result IsRefusal }
{
    if arguments.sequence != next {
        return Err(Status::SeqMisordered);
    }
    if !SessionFlags::from_bits_retain(arguments.flags).may_be_asked() {
        return Err(Status::Inval);
    }
    if is_too_small(limits, &arguments.fore) {
        return Err(Status::TooSmall);
    }
    Ok(())
}

fn is_too_small(limits: Limits, fore: &Channel) -> bool
    ensures { result ≡ is_too_small (limits_of limits) (channel_view fore.now) }
{
    fore.max_request_size < limits.record_bytes
        || fore.max_response_size < limits.record_bytes
        || fore.max_operations == 0
        || fore.max_requests == 0
}

// The fore channel that is returned, by whether the session has a seat.
fn fore_channel(limits: Limits, asked: &Channel, has_seat: bool) -> Channel
    ensures { channel_view result
        ≡ fore_channel (limits_for (limits_of limits) has_seat) (channel_view asked.now) }
{
    let slots = if has_seat {
        limits.seat_slots.min(limits.slots)
    } else {
        limits.slots
    };
    Channel {
        header_pad_size: 0,
        max_request_size: limits.record_bytes,
        max_response_size: limits.record_bytes,
        max_response_size_cached: asked.max_response_size_cached.min(limits.record_bytes),
        max_operations: asked.max_operations.min(limits.operations),
        max_requests: asked.max_requests.min(slots),
        rdma_ird: None,
    }
}

fn answered_flags(has_seat: bool) -> u32
    ensures { result ≡ (if has_seat then 1 else 0) }
{
    if has_seat {
        SessionFlags::PERSIST.bits()
    } else {
        0
    }
}
