//! How soon the loop goes on.

ghost use Rattle.std.specs.Prelude.{◌≡◌};
ghost use Rattle.peer.specs.Paces.{sooner};

/// How soon the loop goes on.
#[derive(Clone, Copy, PartialEq, Eq)]
pub enum Pace {
    /// There is nothing to do before the system reports a change.
    Sleeps,
    /// Something is tried again after a pause.
    Pauses,
    /// There is more to do at once.
    Goes,
}

impl Pace {
    /// The sooner of two.
    pub fn or(self, other: Pace) -> Pace
        ensures { result ≡ sooner self other }
    {
        match (self, other) {
            (Pace::Goes, _) | (_, Pace::Goes) => Pace::Goes,
            (Pace::Pauses, _) | (_, Pace::Pauses) => Pace::Pauses,
            (Pace::Sleeps, Pace::Sleeps) => Pace::Sleeps,
        }
    }
}
