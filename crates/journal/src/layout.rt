//! The place of the journal on a device.

ghost use Rattle.std.specs.Prelude.{◌≡◌};
ghost use Rattle.disk.specs.Calls.{zero_sector};
ghost use Rattle.journal.specs.Layout.{log_at_start, max_updates};

use disk::SECTOR;

/// The least sectors of a device.
pub const MIN_SECTORS: u32 = 256;

/// The sector that the caller writes by itself.
pub(crate) const SUPERBLOCK: u32 = 0;

/// The gate: the sector of the commit record.
pub(crate) const GATE: u32 = 1;

/// The most targets of a commit record: what one sector has room for.
pub const MAX_TARGETS: usize = 1022;

/// The first sector that a transaction may write.
pub const FIRST_TARGET: u32 = 98;

/// The most sectors of one transaction, if a commit record names each target once.
const UPDATES_ONCE: usize = 48;

/// The place of the log, and what transactions may write.
#[derive(Clone, Copy)]
pub struct LogArea {
    /// The first sector of the payload.
    pub first: u32,
    /// The number of sectors of the payload, and so the most targets of a commit record.
    pub sectors: u32,
    /// The end of the sectors that transactions may write, which begin at [`FIRST_TARGET`].
    pub end: u32,
    /// Whether a commit record names each target once. If it may name one again, the later content
    /// counts.
    pub once: bool,
}

impl LogArea {
    /// The log in front of what transactions write, on a device of `sectors` sectors.
    pub fn log_at_start(sectors: u32) -> LogArea
        ensures { result ≡ log_at_start sectors }
    {
        LogArea {
            first: 2,
            sectors: 96,
            end: sectors,
            once: true,
        }
    }

    /// The most sectors of one transaction: as many as the payload has, or 48 if a commit record
    /// names each target once.
    pub fn max_updates(&self) -> usize
        ensures { result ≡ max_updates self.now }
    {
        if self.once {
            UPDATES_ONCE
        } else {
            self.sectors as usize
        }
    }
}

/// A sector of zeros.
#[tactic(auto, unfolding(disk::specs::Calls::zero_sector))]
pub(crate) fn zeros() -> [u8; SECTOR]
    ensures { result ≡ zero_sector }
{
    [0; SECTOR]
}
