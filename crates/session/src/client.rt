//! A client record (RFC 8881, section 18.35.4).

ghost use Rattle.std.specs.Prelude.{◌≤◌, ◌<◌, ◌^◌, length};

use wire::CreateSessionAnswer;

/// What is known of a client. `sequence` is the number of its next CREATE_SESSION, and `kept` the
/// last one's result.
#[derive(Drop)]
pub struct Client {
    pub number: u64,
    pub owner: Vec<u8>,
    pub verifier: [u8; 8],
    pub principal: u32,
    pub is_confirmed: bool,
    pub has_reclaimed: bool,
    pub sequence: u32,
    pub kept: Option<CreateSessionAnswer>,
    // What a proof knows of the number without a read.
    ghost principal_fits: { principal < 2 ^ 32 },
    ghost owned: { length owner.items ≤ 1024 },
}

impl Client {
    ghost use Rattle.std.specs.Prelude.{◌≡◌, ◌==◌, if◌then◌else◌, None};
    ghost use Rattle.model.specs.Sessions.Session.{is_confirmed_of, is_unconfirmed_of, is_replaced_by, confirmed_with, next_number};
    ghost use Rattle.wire.specs.AnswerViews.{create_session_view};
    ghost use Rattle.session.specs.Rooms.{stays, may_yield};
    ghost use Rattle.session.specs.Views.{client_of};

    /// Whether it is the confirmed record of this owner id.
    pub fn is_confirmed_of(&self, owner: &[u8]) -> bool
        ensures { result ≡ is_confirmed_of owner.now (client_of self.now) }
    {
        self.is_confirmed && self.owner.as_slice() == owner
    }

    /// Whether it is the unconfirmed record of this owner id.
    pub fn is_unconfirmed_of(&self, owner: &[u8]) -> bool
        ensures { result ≡ is_unconfirmed_of owner.now (client_of self.now) }
    {
        !self.is_confirmed && self.owner.as_slice() == owner
    }

    /// Whether confirming `client` ends this record: it is another one, the confirmed one of the
    /// same owner id.
    pub fn is_replaced_by(&self, client: &Client) -> bool
        ensures { result ≡ is_replaced_by (client_of client.now) (client_of self.now) }
    {
        self.is_confirmed_of(&client.owner) && self.number != client.number
    }

    /// Whether it stays if a new record of this owner id is made, and the record `dropped` and the
    /// unconfirmed one `yielded` go.
    pub fn stays(&self, owner: &[u8], dropped: Option<u64>, yielded: Option<u64>) -> bool
        ensures { result ≡ stays owner.now dropped yielded (client_of self.now) }
    {
        !self.is_unconfirmed_of(owner)
            && dropped != Some(self.number)
            && (self.is_confirmed || yielded != Some(self.number))
    }

    /// Whether it is unconfirmed, and would stay if none were yielded.
    pub fn may_yield(&self, owner: &[u8], dropped: Option<u64>) -> bool
        ensures { result ≡ may_yield owner.now dropped (client_of self.now) }
    {
        !self.is_confirmed && self.stays(owner, dropped, None)
    }

    /// The kept result, if a CREATE_SESSION of this number asks for it again.
    pub fn repeated(&self, sequence: u32) -> Option<CreateSessionAnswer>
        ensures { result
            ≡ (if next_number sequence == self.now.sequence then self.now.kept else None) }
    {
        if sequence.wrapping_add(1) == self.sequence {
            self.kept
        } else {
            None
        }
    }

    /// Confirms it, counts on, and keeps the result.
    pub fn confirm(&mut self, answer: CreateSessionAnswer)
        ensures { client_of self.new
            ≡ confirmed_with (create_session_view answer) (client_of self.old) }
    {
        self.is_confirmed = true;
        self.sequence = self.sequence.wrapping_add(1);
        self.kept = Some(answer);
    }
}
