//! What a device over a file counts of its calls, and remembers of the last that failed.

ghost use Rattle.std.specs.Prelude.{◌≡◌};
ghost use Rattle.disk.specs.Counts.{no_calls, counted};

use crate::CallKind;
use std::io::ErrorKind;

/// How often each call came, including those that failed. A count stays at `u64::MAX`.
///
/// A read or a write of a sector that the device does not have is none of its calls.
#[derive(Clone, Copy, Debug, PartialEq, Eq)]
pub struct Counts {
    pub reads: u64,
    pub writes: u64,
    pub syncs: u64,
}

impl Counts {
    /// The counts before the first call.
    pub(crate) fn none() -> Counts
        ensures { result ≡ no_calls }
    {
        Counts {
            reads: 0,
            writes: 0,
            syncs: 0,
        }
    }

    /// Counts a call of this kind.
    pub(crate) fn add(&mut self, call: CallKind)
        ensures { self.new ≡ counted call self.old }
    {
        match call {
            CallKind::Read => self.reads = self.reads.saturating_add(1),
            CallKind::Write => self.writes = self.writes.saturating_add(1),
            CallKind::Sync => self.syncs = self.syncs.saturating_add(1),
        }
    }
}

/// A call of a device that failed, and why the file failed it.
///
/// A write hands the file what earlier writes gathered, and so does a sync: either fails if the
/// file does not take that.
#[derive(Clone, Copy, Debug, PartialEq, Eq)]
pub struct Failure {
    pub call: CallKind,
    pub kind: ErrorKind,
}
