//! When the changes of a turn are kept.

/// When what a turn changes is kept on the device.
#[derive(Clone, Copy, PartialEq, Eq)]
pub enum Keeping {
    /// In the turn.
    AtOnce,
    /// In the next flush of the server, so that many turns share it. Replies wait for it.
    Later,
}
