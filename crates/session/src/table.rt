//! What a server knows of its clients in one run, apart from the seats of its volume.

ghost use Rattle.std.specs.Prelude.{◌≤◌};
ghost use Rattle.model_tree.specs.Seats.SeatViews.{seats_view};
ghost use Rattle.session.specs.Given.{AreGiven, AreGiven-prop};

use crate::clients::Clients;
use crate::sessions::Sessions;
use crate::settings::Settings;
use model_tree::seats::Seats;
use std::alloc::Global;

/// The client records and the sessions of one run, and the seats.
#[derive(Drop)]
pub struct Table {
    pub(crate) alloc: Global,
    pub(crate) clients: Clients,
    pub(crate) sessions: Sessions,
    pub(crate) seats: Seats,
    pub(crate) settings: Settings,
    ghost counted: { 1 ≤ clients.run },
    ghost given: { AreGiven clients.run sessions.serial (seats_view seats) } by { AreGiven-prop clients.run sessions.serial (seats_view seats) },
}

impl Table {
    ghost use Rattle.std.specs.Prelude.{◌≡◌, ◌+◌, ℕ, length};
    ghost use Rattle.std.specs.List.{list_any, find};
    ghost use Rattle.std.specs.Option.{option_map};
    ghost use Rattle.model_tree.specs.Seats.Seats.{AreOfRuns};
    ghost use Rattle.model_tree.specs.Seats.SeatViews.{seats_view};
    ghost use Rattle.model.specs.Sessions.Session.{loaded_table, has_state, is_client, is_session};
    ghost use Rattle.session.specs.Views.{table_of, settings_of, among};

    /// A run begins with the seats that its mount found, and with nothing else. It takes no memory.
    #[tactic(auto, unfolding(crate::specs::Views::table_of))]
    pub fn load(alloc: Global, run: u32, settings: Settings, seats: Seats) -> Table
        requires { (count : ℕ) × (run ≡ count + 1) × AreOfRuns count (seats_view seats) }
        ensures { table_of result ≡ loaded_table run (settings_of settings) (seats_view seats) }
    {
        Table {
            alloc,
            clients: Clients::new(alloc, run),
            sessions: Sessions::new(alloc),
            seats,
            settings,
        }
    }

    /// The seats, with what they hold.
    #[tactic(auto, unfolding(crate::specs::Views::table_of))]
    pub fn seats(&self) -> &Seats
        ensures { seats_view result.now ≡ (table_of self.now).seats }
    {
        &self.seats
    }

    /// Whether there is a session of this id. The seat of a session that this run has not is dead.
    #[tactic(auto, unfolding(crate::specs::Views::table_of))]
    pub fn has_session(&self, id: &[u8; 16]) -> bool
        ensures { result ≡ list_any (is_session id.now) (table_of self.now).sessions }
    {
        self.sessions.has(id)
    }

    /// How many client records there are.
    #[tactic(auto, unfolding(crate::specs::Views::table_of))]
    pub fn client_count(&self) -> usize
        ensures { result ≡ length (table_of self.now).clients }
    {
        self.clients.list.len()
    }

    /// How many sessions there are.
    #[tactic(auto, unfolding(crate::specs::Views::table_of))]
    pub fn session_count(&self) -> usize
        ensures { result ≡ length (table_of self.now).sessions }
    {
        self.sessions.list.len()
    }

    /// The owner id of the client of this id.
    #[tactic(auto, unfolding(crate::specs::Views::table_of))]
    pub fn owner(&self, number: u64) -> Option<&[u8]>
        ensures { option_map (λ owner. owner.now) result
            ≡ option_map (λ client. client.owner)
            (find (is_client number) (table_of self.now).clients) }
    {
        match self.clients.find(number) {
            Some(client) => Some(client.owner.as_slice()),
            None => None,
        }
    }

    /// Whether the client has a session, or opens.
    #[tactic(auto, unfolding(crate::specs::Views::table_of))]
    pub(crate) fn has_state(&self, with_opens: &[u64], number: u64) -> bool
        ensures { result ≡ has_state (among with_opens.now) (table_of self.now) number }
    {
        self.sessions.has_client(number) || with_opens.contains(&number)
    }
}
