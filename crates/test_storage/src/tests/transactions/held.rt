//! A journal on a device of 256 sectors, whose calls test what the journal asks of its caller.

ghost use Rattle.std.specs.Prelude.{◌≡◌, IsTrue, IfOk};
ghost use Rattle.journal.specs.Journal.{log_of};
ghost use Rattle.journal.specs.Layout.{AreTargets, targets};

use super::super::drivers::{byte_in, filled};
use super::SECTORS;
use disk::{Device, Update};
use journal::{CACHED_SECTORS, Journal, JournalFault, LogArea};
use std::alloc::{AllocError, Global};
use std::num::NonZeroUsize;
use std::ops::Range;

/// The first sector that a transaction may write.
const FIRST_TARGET: u32 = 98;

/// The smallest log, after what transactions write. It may name a sector again.
const BEHIND: LogArea = LogArea {
    first: 208,
    sectors: 48,
    end: 208,
    once: false,
};

/// Sectors that a format may leave as they are.
const UNREAD: Range<u32> = 150..180;

/// A call of a journal.
#[derive(Clone, Copy)]
pub(super) enum Step<'a> {
    /// A transaction that fills these sectors with this.
    Apply(&'a [u32], u8),
    Flush,
    Checkpoint,
    /// Fills sector 0 with this.
    Superblock(u8),
    /// The byte that a sector is filled with, or 255.
    Byte(u32),
}

/// Updates that fill these sectors with this.
fn updates(alloc: Global, to: &[u32], byte: u8) -> Result<Vec<Update>, AllocError>
    ensures { IfOk result (λ updates. targets updates.items ≡ to.now) }
{
    let mut updates = Vec::new(alloc);
    for target in to {
        updates.push(Update {
            target: *target,
            content: filled(byte),
        })?;
    }
    Ok(updates)
}

/// Whether a transaction may write these sectors: all from 98 on, below the end, and different.
fn are_targets(to: &[u32], end: u32) -> bool
    ensures { IsTrue result → AreTargets end to.now }
{
    for (i, target) in to.iter().enumerate() {
        if *target < FIRST_TARGET || *target >= end || to[..i].contains(target) {
            return false;
        }
    }
    true
}

#[derive(Drop)]
pub(super) struct Held<D: Device> {
    journal: Journal<D>,
    /// The end of what transactions may write.
    end: u32,
    ghost size_is: { (log_of journal).size ≡ 256 },
    ghost end_is: { (log_of journal).area.end ≡ end },
}

impl<D: Device> Held<D> {
    /// Mounts; a device of another size is refused as damaged.
    pub(super) fn mount(alloc: Global, device: D) -> Result<Held<D>, JournalFault> {
        if device.sectors() != SECTORS {
            return Err(JournalFault::Damaged);
        }
        match Journal::mount(alloc, device) {
            Ok(journal) => Ok(Held {
                journal,
                end: SECTORS,
            }),
            Err(refused) => Err(refused.fault),
        }
    }

    /// The same, by a journal that keeps `cached` sectors.
    pub(super) fn mount_cached(
        alloc: Global,
        device: D,
        cached: NonZeroUsize,
    ) -> Result<Held<D>, JournalFault> {
        if device.sectors() != SECTORS {
            return Err(JournalFault::Damaged);
        }
        match Journal::mount_cached(alloc, device, cached) {
            Ok(journal) => Ok(Held {
                journal,
                end: SECTORS,
            }),
            Err(refused) => Err(refused.fault),
        }
    }

    /// The same, with the log after what transactions write.
    pub(super) fn mount_behind(alloc: Global, device: D) -> Result<Held<D>, JournalFault> {
        if device.sectors() != SECTORS {
            return Err(JournalFault::Damaged);
        }
        let cached = NonZeroUsize::new(CACHED_SECTORS).unwrap_or(NonZeroUsize::MIN);
        match Journal::mount_in(alloc, device, BEHIND, cached) {
            Ok(journal) => Ok(Held {
                journal,
                end: BEHIND.end,
            }),
            Err(refused) => Err(refused.fault),
        }
    }

    /// Makes these calls, and ignores what they return.
    pub(super) fn take_all(
        &mut self,
        alloc: Global,
        steps: &[Step<'_>],
    ) -> Result<(), JournalFault> {
        for step in steps {
            self.take(alloc, *step)?;
        }
        Ok(())
    }

    /// Makes a call, which returns 0 unless it asks for a byte.
    pub(super) fn take(&mut self, alloc: Global, step: Step<'_>) -> Result<u8, JournalFault> {
        match step {
            Step::Apply(to, byte) => self.apply(alloc, to, byte),
            Step::Flush => self.flush(),
            Step::Checkpoint => self.checkpoint(),
            Step::Superblock(byte) => self.superblock(byte),
            Step::Byte(n) => self.byte_at(n),
        }
    }

    /// Whether what is read of a sector means anything: it is not the journal's own.
    pub(super) fn is_shown(&self, n: u32) -> bool {
        n == 0 || (FIRST_TARGET <= n && n < self.end)
    }

    /// The byte that the sector is filled with, or 255.
    pub(super) fn byte_at(&mut self, n: u32) -> Result<u8, JournalFault> {
        if n >= SECTORS {
            return Ok(255);
        }
        let mut content = filled(0);
        self.journal.read(n, &mut content)?;
        Ok(byte_in(&content))
    }

    /// What is no transaction is refused as too many.
    fn apply(&mut self, alloc: Global, to: &[u32], byte: u8) -> Result<u8, JournalFault> {
        if !are_targets(to, self.end) {
            return Err(JournalFault::TooMany);
        }
        self.journal.apply(updates(alloc, to, byte)?)?;
        Ok(0)
    }

    fn flush(&mut self) -> Result<u8, JournalFault> {
        self.journal.flush()?;
        Ok(0)
    }

    fn checkpoint(&mut self) -> Result<u8, JournalFault> {
        self.journal.checkpoint()?;
        Ok(0)
    }

    fn superblock(&mut self, byte: u8) -> Result<u8, JournalFault> {
        self.journal.superblock(&filled(byte))?;
        Ok(0)
    }
}

/// Formats a device of 256 sectors: fills sector 0 with one byte, and these with another.
pub(super) fn format<D: Device>(
    alloc: Global,
    device: &mut D,
    first: u8,
    others: (&[u32], u8),
) -> Result<(), JournalFault> {
    let (to, byte) = others;
    if device.sectors() != SECTORS || !are_targets(to, SECTORS) {
        return Err(JournalFault::TooMany);
    }
    Journal::format(device, &filled(first), &updates(alloc, to, byte)?)
}

/// The same with the log after what transactions write: the log stays as it is, and so do sectors
/// 150 to 179.
pub(super) fn format_without<D: Device>(
    alloc: Global,
    device: &mut D,
    first: u8,
    others: (&[u32], u8),
) -> Result<(), JournalFault> {
    let (to, byte) = others;
    if device.sectors() != SECTORS || !are_targets(to, BEHIND.end) {
        return Err(JournalFault::TooMany);
    }
    let updates = updates(alloc, to, byte)?;
    Journal::format_without(device, BEHIND, UNREAD, &filled(first), &updates)
}
