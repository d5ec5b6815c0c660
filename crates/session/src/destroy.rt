//! DESTROY_SESSION, DESTROY_CLIENTID and RECLAIM_COMPLETE (RFC 8881, sections 18.37, 18.50 and
//! 18.51).

ghost use Rattle.std.specs.Prelude.{◌≡◌, None, IfErr};
ghost use Rattle.std.specs.Result.{result_err};
ghost use Rattle.model_tree.specs.Seats.SeatEdits.{edited_all, edits_view};
ghost use Rattle.model_tree.specs.Seats.Seats.{is_seat_of, freed};
ghost use Rattle.model.specs.Sessions.Session.{destroy_session, destroy_client_id, reclaim_complete};
ghost use Rattle.wire.specs.Short.{IsRefusal};
ghost use Rattle.session.specs.Calls.{Refuses};
ghost use Rattle.session.specs.Plans.{PlansEnd};
ghost use Rattle.session.specs.Views.{table_of, among};

use crate::edits::edit_seats;
use crate::table::Table;
use model::not_done::NotDone;
use model_tree::seat_edits::SeatEdits;
use model_tree::seats::SeatEdit;
use model_tree::status::Status;

#[tactic(auto, unfolding(crate::specs::Views::table_of, model::specs::Sessions::Session::destroy_session, model::specs::Sessions::Session::destroy_client_id, model::specs::Sessions::Session::reclaim_complete))]
impl Table {
    /// How DESTROY_SESSION changes the seats.
    ///
    /// # Errors
    /// BADSESSION for a session that is unknown and has no seat; DELAY if a slot of it runs;
    /// `Memory` only if neither is so.
    pub fn plan_end(&self, id: &[u8; 16]) -> Result<SeatEdits, NotDone>
        ensures planned { PlansEnd id.now (table_of self.now) result }
        ensures refused { IfErr result Refuses }
    {
        self.check_end(id)?;
        Ok(self.edit_seat(id, SeatEdit::Frees)?)
    }

    // Why DESTROY_SESSION is refused.
    fn check_end(&self, id: &[u8; 16]) -> Result<(), Status>
        ensures answered { result_err result ≡ (destroy_session id.now (table_of self.now)).0 }
        ensures refused { IfErr result IsRefusal }
    {
        let Some(session) = self.sessions.find(id) else {
            return if self.has_seat(id) {
                Ok(())
            } else {
                Err(Status::BadSession)
            };
        };
        if session.is_running() {
            return Err(Status::Delay);
        }
        Ok(())
    }

    /// DESTROY_SESSION, if it is not refused, with the edits that were planned. It takes no memory.
    pub fn end_session(&mut self, id: &[u8; 16], edits: SeatEdits)
        requires { edited_all (edits_view edits) (table_of self.old).seats
            ≡ freed (is_seat_of id.now) (table_of self.old).seats }
        ensures { (destroy_session id.now (table_of self.old)).0 ≡ None
            → table_of self.new ≡ (destroy_session id.now (table_of self.old)).1 }
    {
        self.sessions.remove(id);
        edit_seats(&mut self.seats, edits);
    }

    /// DESTROY_CLIENTID, given that the clients of `with_opens` have opens.
    ///
    /// # Errors
    /// STALE_CLIENTID for an unknown client; CLIENTID_BUSY if it has a session or an open.
    pub fn destroy_clientid(&mut self, number: u64, with_opens: &[u64]) -> Result<(), Status>
        ensures answered { destroy_client_id (among with_opens.now) number (table_of self.old)
            ≡ (result_err result, table_of self.new) }
        ensures refused { IfErr result IsRefusal }
    {
        if self.clients.find(number).is_none() {
            return Err(Status::StaleClientId);
        }
        if self.has_state(with_opens, number) {
            return Err(Status::ClientIdBusy);
        }
        self.clients.remove(number);
        Ok(())
    }

    /// Why RECLAIM_COMPLETE would be refused.
    ///
    /// # Errors
    /// STALE_CLIENTID for an unknown client; COMPLETE_ALREADY the second time.
    pub fn check_reclaim(&self, number: u64) -> Result<(), Status>
        ensures answered { result_err result ≡ (reclaim_complete number (table_of self.now)).0 }
        ensures refused { IfErr result IsRefusal }
    {
        let Some(client) = self.clients.find(number) else {
            return Err(Status::StaleClientId);
        };
        if client.has_reclaimed {
            return Err(Status::CompleteAlready);
        }
        Ok(())
    }

    /// RECLAIM_COMPLETE for all file systems, by the client of the session. It takes no memory.
    ///
    /// # Errors
    /// As `check_reclaim` has them.
    pub fn reclaim_complete(&mut self, number: u64) -> Result<(), Status>
        ensures answered { reclaim_complete number (table_of self.old)
            ≡ (result_err result, table_of self.new) }
        ensures refused { IfErr result IsRefusal }
    {
        self.check_reclaim(number)?;
        self.clients.reclaim(number);
        Ok(())
    }
}
