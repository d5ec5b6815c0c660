//! The journal: a base, and a list of transactions that go into it through the commit record.

ghost use Rattle.std.specs.Prelude.{◌≡◌, ◌≤◌, ◌<◌, ◌⊎◌, ◌+◌, ◌↔◌, [], length, false, vec_capacity, OnOk, IfOk, IfErr, IsErrOf};
ghost use Rattle.disk.specs.Moments.{applied, seen, moment};
ghost use Rattle.journal.specs.declared.layout.TheConstants.{MIN_SECTORS};
ghost use Rattle.journal.specs.Recorded.{HasRoom};
ghost use Rattle.journal.specs.Calls.{AddsFirst, GoesThrough, GoesThroughFirst, HasApplied, HasCheckpointed, HasFlushed, HasWritten, IsPart, IsSafe, list_with};
ghost use Rattle.journal.specs.Format.{AddsFormats, AddsFormatsOutside, CostsOutside, IsFormatted, LeavesFormattedOutside, MayStayUnread};
ghost use Rattle.journal.specs.Cached.{AreCopies};
ghost use Rattle.journal.specs.Commit.{rewritten};
ghost use Rattle.journal.specs.Layout.{AreTargets, IsArea, area_end, copies, gate, log_at_start, max_updates, targets, through};
ghost use Rattle.journal.specs.Log.{AnswersByDevice, MakesAtMost, Moved, contents};
ghost use Rattle.journal.specs.MountAnswers.{JournalComesBack, HasRecovered, IsNewJournal, IsRecoveryRefused};
ghost use Rattle.journal.specs.Phase.{FailsCounted};
ghost use Rattle.journal.specs.Transactions.{FitTogether, gathered, sectors_of};

mod runs;

use crate::cache::Cache;
use crate::index::SectorList;
use crate::layout::{self, LogArea, SUPERBLOCK};
use crate::recorded::Recorded;
use crate::{JournalFault, Unmounted, View, commit, list, phase, recover};
use disk::{Device, DiskFault, SECTOR, Update};
use std::alloc::{AllocError, Global};
use std::num::NonZeroUsize;
use std::ops::Range;

/// The number of sectors that a mount keeps in memory if its caller gives no number.
pub const CACHED_SECTORS: usize = 64;

/// A journal over a device.
///
/// What waits for a flush is kept as one transaction: neighbours of the list become one as they
/// come.
#[derive(Drop)]
pub struct Journal<D: Device> {
    device: D,
    area: LogArea,
    pending: Vec<Update>,
    pending_sectors: SectorList,
    /// What the commit record names.
    recorded: Recorded,
    /// What was read last.
    cache: Cache,
    is_down: bool,
    ghost is_area: { IsArea area },
    ghost large: { area_end area ≤ D.size device },
    ghost few: { length pending.items ≤ area.sectors },
    ghost room: { area.sectors ≤ vec_capacity pending },
    ghost sectors_room: { area.sectors ≤ vec_capacity pending_sectors.sectors },
    ghost sectors_are: { pending_sectors.sectors.items ≡ targets pending.items },
    ghost fit: { AreTargets area.end (targets pending.items) },
    ghost shown_has: { HasRoom area recorded },
    ghost named: { is_down ≡ false → targets recorded.updates.items ≡ recorded.targets.items },
    ghost rests: { D.keeps_word → is_down ≡ false → length (D.history device).now.unsynced ≡ 0 },
    ghost gate_is: { D.keeps_word → is_down ≡ false → seen (D.history device).now 1
        ≡ gate recorded.targets.items },
    ghost payload: { D.keeps_word → is_down ≡ false
        → copies (seen (D.history device).now) area.first recorded.targets.items
        ≡ recorded.updates.items },
    ghost cached: { D.keeps_word → is_down ≡ false → AreCopies area.end
        (applied pending.items
        (through area recorded.targets.items (seen (D.history device).now)))
        cache.sectors.entries },
}

/// The memory of a journal in which nothing waits.
#[derive(Drop)]
struct Room {
    pending: Vec<Update>,
    pending_sectors: SectorList,
    recorded: Recorded,
    cache: Cache,
}

/// Memory for a journal with this log that keeps `cached` sectors.
fn room_for(alloc: Global, area: LogArea, cached: NonZeroUsize) -> Result<Room, AllocError>
    ensures none { IfOk result
        (λ room. (room.pending.items ≡ []) × (room.pending_sectors.sectors.items ≡ [])
        × (room.recorded.targets.items ≡ []) × (room.recorded.updates.items ≡ [])
        × (room.recorded.index.entries.items ≡ []) × (room.cache.sectors.entries ≡ [])) }
    ensures room { IfOk result (λ room. (area.sectors ≤ vec_capacity room.pending)
        × (area.sectors ≤ vec_capacity room.pending_sectors.sectors)
        × (area.sectors ≤ vec_capacity room.recorded.targets)
        × (area.sectors ≤ vec_capacity room.recorded.updates)
        × (area.sectors ≤ vec_capacity room.recorded.index.entries)) }
{
    Ok(Room {
        pending: Vec::with_capacity(alloc, area.sectors as usize)?,
        pending_sectors: SectorList::new(alloc, area.sectors)?,
        recorded: Recorded::new(alloc, area.sectors as usize)?,
        cache: Cache::new(alloc, cached)?,
    })
}

#[tactic(auto, unfolding(crate::specs::Journal::log_of, crate::specs::Journal::journal_failures, crate::specs::Journal::recorded_sectors))]
impl<D: Device> Journal<D> {
    ghost use Rattle.journal.specs.Journal.{log_of, journal_failures, recorded_sectors};
    ghost use Rattle.journal.specs.Viewed.{HasNoForm, HasViewed, IsUnread};
    ghost use Rattle.journal.specs.Views.{view_of, view_failures, name_of};

    /// Formats a device for a log in front: zeros, with this sector 0 and these updates. Until
    /// sector 0 is written, last of all, a crash leaves what was there before or a sector 0 of zeros.
    ///
    /// # Errors
    ///
    /// [`JournalFault::Fault`] if the device failed.
    pub fn format(
        device: &mut D,
        sector0: &[u8; SECTOR],
        updates: &[Update],
    ) -> Result<(), JournalFault>
        requires large { MIN_SECTORS ≤ D.size device.old }
        requires fit { AreTargets (D.size device.old) (targets updates.now) }
        ensures moments { D.keeps_word → AddsFormats (log_at_start (D.size device.old)) sector0.now
            updates.now (D.history device.old) (D.history device.new) }
        ensures ok { D.keeps_word → OnOk result (IsFormatted (log_at_start (D.size device.old))
            sector0.now updates.now (D.history device.new)) }
        ensures cost { D.keeps_word → OnOk result (moment (D.history device.new)
            ≡ moment (D.history device.old) + (D.size device.old + 4)) }
        ensures size { D.size device.new ≡ D.size device.old }
        // If it fails
        ensures failures { FailsCounted (D.failed device.old) (D.failed device.new) result }
        ensures refuses { IfErr result (λ fault. fault ≡ JournalFault.Fault) }
    {
        let area = LogArea::log_at_start(device.sectors());
        Journal::format_in(device, area, sector0, updates)
    }

    /// The same, for a log in this place.
    ///
    /// # Errors
    ///
    /// [`JournalFault::Fault`] if the device failed.
    pub fn format_in(
        device: &mut D,
        area: LogArea,
        sector0: &[u8; SECTOR],
        updates: &[Update],
    ) -> Result<(), JournalFault>
        requires area { IsArea area }
        requires large { area_end area ≤ D.size device.old }
        requires fit { AreTargets area.end (targets updates.now) }
        ensures moments { D.keeps_word → AddsFormats area sector0.now updates.now
            (D.history device.old) (D.history device.new) }
        ensures ok { D.keeps_word → OnOk result
            (IsFormatted area sector0.now updates.now (D.history device.new)) }
        ensures cost { D.keeps_word → OnOk result (moment (D.history device.new)
            ≡ moment (D.history device.old) + (D.size device.old + 4)) }
        ensures size { D.size device.new ≡ D.size device.old }
        // If it fails
        ensures failures { FailsCounted (D.failed device.old) (D.failed device.new) result }
        ensures refuses { IfErr result (λ fault. fault ≡ JournalFault.Fault) }
    {
        phase::write_sector(device, SUPERBLOCK, &layout::zeros())?;
        phase::write_fresh(device, updates)?;
        phase::write_sector(device, SUPERBLOCK, sector0)?;
        Ok(())
    }

    /// The same without a range of sectors that nothing reads: these and the log are not written.
    /// Nor is an update of a sector of the range.
    ///
    /// # Errors
    ///
    /// [`JournalFault::Fault`] if the device failed.
    pub fn format_without(
        device: &mut D,
        area: LogArea,
        unread: Range<u32>,
        sector0: &[u8; SECTOR],
        updates: &[Update],
    ) -> Result<(), JournalFault>
        requires place { IsArea area × (area_end area ≤ D.size device.old) }
        requires unread { MayStayUnread (D.size device.old) unread }
        requires fit { AreTargets area.end (targets updates.now) }
        ensures moments { D.keeps_word → AddsFormatsOutside area unread sector0.now updates.now
            (D.history device.old) (D.history device.new) }
        ensures ok { D.keeps_word → OnOk result (LeavesFormattedOutside area unread sector0.now
            updates.now (D.history device.new)) }
        ensures cost { D.keeps_word → CostsOutside area unread (D.size device.old) updates.now
            (D.history device.old) (D.history device.new) result }
        ensures size { D.size device.new ≡ D.size device.old }
        // If it fails
        ensures failures { FailsCounted (D.failed device.old) (D.failed device.new) result }
        ensures refuses { IfErr result (λ fault. fault ≡ JournalFault.Fault) }
    {
        let zeros = layout::zeros();
        phase::write_sector(device, SUPERBLOCK, &zeros)?;
        phase::write_fresh_outside(device, area, &unread, updates)?;
        phase::write_sector(device, SUPERBLOCK, sector0)?;
        Ok(())
    }

    /// Mounts the journal of a device whose log is in front: what a commit record that is set names
    /// is copied home first. It keeps the 64 sectors in memory that were read last.
    ///
    /// # Errors
    ///
    /// As [`Journal::mount_in`].
    pub fn mount(alloc: Global, device: D) -> Result<Journal<D>, Unmounted<D>>
        requires { MIN_SECTORS ≤ D.size device }
        ensures new { IfOk result (λ journal.
            IsNewJournal (log_at_start (D.size device)) (D.size device) (D.failed device)
            (log_of journal) (journal_failures journal)) }
        ensures mounted { D.keeps_word → IfOk result (λ journal.
            HasRecovered (log_at_start (D.size device)) (D.history device) (log_of journal)) }
        ensures closed { IfOk result (λ journal. recorded_sectors journal ≡ []) }
        // If it fails
        ensures back { IfErr result (JournalComesBack D.size D.failed device) }
        ensures refused { D.keeps_word → IfErr result (λ refused.
            IsRecoveryRefused (log_at_start (D.size device)) (D.history device)
            (D.history refused.device) refused.fault) }
    {
        let cached = NonZeroUsize::new(CACHED_SECTORS).unwrap_or(NonZeroUsize::MIN);
        Journal::mount_cached(alloc, device, cached)
    }

    /// The same, with `cached` sectors kept in memory.
    ///
    /// # Errors
    ///
    /// As [`Journal::mount_in`].
    pub fn mount_cached(
        alloc: Global,
        device: D,
        cached: NonZeroUsize,
    ) -> Result<Journal<D>, Unmounted<D>>
        requires { MIN_SECTORS ≤ D.size device }
        ensures new { IfOk result (λ journal.
            IsNewJournal (log_at_start (D.size device)) (D.size device) (D.failed device)
            (log_of journal) (journal_failures journal)) }
        ensures mounted { D.keeps_word → IfOk result (λ journal.
            HasRecovered (log_at_start (D.size device)) (D.history device) (log_of journal)) }
        ensures closed { IfOk result (λ journal. recorded_sectors journal ≡ []) }
        // If it fails
        ensures back { IfErr result (JournalComesBack D.size D.failed device) }
        ensures refused { D.keeps_word → IfErr result (λ refused.
            IsRecoveryRefused (log_at_start (D.size device)) (D.history device)
            (D.history refused.device) refused.fault) }
    {
        let area = LogArea::log_at_start(device.sectors());
        Journal::mount_in(alloc, device, area, cached)
    }

    /// The same of a journal whose log is in this place.
    ///
    /// # Errors
    ///
    /// The device comes back with the reason: `Damaged` if the commit record is malformed, and then
    /// nothing was written; `Fault` if the device failed; `Memory`, and then it was not touched.
    pub fn mount_in(
        alloc: Global,
        device: D,
        area: LogArea,
        cached: NonZeroUsize,
    ) -> Result<Journal<D>, Unmounted<D>>
        requires area { IsArea area }
        requires large { area_end area ≤ D.size device }
        ensures new { IfOk result (λ journal.
            IsNewJournal area (D.size device) (D.failed device) (log_of journal)
            (journal_failures journal)) }
        ensures mounted { D.keeps_word → IfOk result (λ journal.
            HasRecovered area (D.history device) (log_of journal)) }
        ensures closed { IfOk result (λ journal. recorded_sectors journal ≡ []) }
        // If it fails
        ensures back { IfErr result (JournalComesBack D.size D.failed device) }
        ensures refused { D.keeps_word → IfErr result (λ refused. IsRecoveryRefused area
            (D.history device) (D.history refused.device) refused.fault) }
    {
        let mut device = device;
        let mut room = match room_for(alloc, area, cached) {
            Ok(room) => room,
            Err(_) => {
                return Err(Unmounted {
                    device,
                    fault: JournalFault::Memory,
                });
            }
        };
        match recover::recover(&mut device, area, &mut room.recorded) {
            Ok(()) => Ok(Journal {
                device,
                area,
                pending: room.pending,
                pending_sectors: room.pending_sectors,
                recorded: room.recorded,
                cache: room.cache,
                is_down: false,
            }),
            Err(fault) => Err(Unmounted { device, fault }),
        }
    }

    /// What a mount would begin with, read without one: through a commit record that is set, and
    /// nothing is written.
    ///
    /// # Errors
    ///
    /// As [`Journal::mount`], with the device: `Damaged` if the commit record is malformed, `Fault`
    /// if the device failed, and `Memory`.
    pub fn view(alloc: Global, device: &mut D) -> Result<View<'_, D>, Unmounted<&mut D>>
        requires { MIN_SECTORS ≤ D.size device.old }
        ensures new { IfOk result (λ view. IsNewJournal (log_at_start (D.size device.old))
            (D.size device.old) (D.failed device.old) (view_of view) (view_failures view)) }
        ensures viewed { D.keeps_word → IfOk result (λ view.
            HasViewed (log_at_start (D.size device.old)) (D.history device.old) (view_of view)) }
        // Nothing is written, on any device
        ensures untouched { IfOk result (λ view. (view_of view).history ≡ D.history device.old) }
        ensures same_device { IfOk result (λ view. name_of view ≡ device.entry.ghost_name) }
        // If it fails
        ensures back { IfErr result (λ refused. IsUnread D.size D.failed D.history
            device.old refused.device.now refused.fault) }
        ensures same_back { IfErr result (λ refused.
            refused.device.ghost_name ≡ device.entry.ghost_name) }
        ensures damaged { D.keeps_word → IfErr result (λ refused.
            refused.fault ≡ JournalFault.Damaged
            → HasNoForm (log_at_start (D.size device.old)) (D.history device.old)) }
    {
        let area = LogArea::log_at_start(device.sectors());
        Journal::view_in(alloc, device, area)
    }

    /// The same of a journal whose log is in this place.
    ///
    /// # Errors
    ///
    /// As [`Journal::view`].
    pub fn view_in(
        alloc: Global,
        device: &mut D,
        area: LogArea,
    ) -> Result<View<'_, D>, Unmounted<&mut D>>
        requires area { IsArea area }
        requires large { area_end area ≤ D.size device.old }
        ensures new { IfOk result (λ view. IsNewJournal area (D.size device.old)
            (D.failed device.old) (view_of view) (view_failures view)) }
        ensures viewed { D.keeps_word → IfOk result (λ view.
            HasViewed area (D.history device.old) (view_of view)) }
        // Nothing is written, on any device
        ensures untouched { IfOk result (λ view. (view_of view).history ≡ D.history device.old) }
        ensures same_device { IfOk result (λ view. name_of view ≡ device.entry.ghost_name) }
        // If it fails
        ensures back { IfErr result (λ refused. IsUnread D.size D.failed D.history
            device.old refused.device.now refused.fault) }
        ensures same_back { IfErr result (λ refused.
            refused.device.ghost_name ≡ device.entry.ghost_name) }
        ensures damaged { D.keeps_word → IfErr result (λ refused.
            refused.fault ≡ JournalFault.Damaged
            → HasNoForm area (D.history device.old)) }
    {
        let mut named = match Vec::with_capacity(alloc, area.sectors as usize) {
            Ok(named) => named,
            Err(_) => {
                return Err(Unmounted {
                    device,
                    fault: JournalFault::Memory,
                });
            }
        };
        if let Err(fault) = recover::read_gate(device, area, &mut named) {
            return Err(Unmounted { device, fault });
        }
        Ok(View::new(device, area, &named))
    }

    /// The device, as it is now. What was applied and not flushed is lost.
    pub fn into_device(self) -> D
        ensures history { D.history result ≡ (log_of self).history }
        ensures size { D.size result ≡ (log_of self).size }
        ensures failures { D.failed result ≡ journal_failures self }
    {
        self.device
    }

    /// The device, to look at.
    pub fn device(&self) -> &D
        ensures history { D.history result.now ≡ (log_of self.now).history }
        ensures size { D.size result.now ≡ (log_of self.now).size }
        ensures failures { D.failed result.now ≡ journal_failures self.now }
    {
        &self.device
    }

    /// Whether the device failed in a call: every call fails from then on.
    pub fn is_down(&self) -> bool
        ensures { result ≡ (log_of self.now).is_down }
    {
        self.is_down
    }

    /// Puts into `content` the newest content of sector `n`, whether it has gone into the base or
    /// not. After `Fault` it may hold anything. What is read of the journal's own sectors, 1 to 97
    /// and those of its log, says nothing.
    ///
    /// # Errors
    ///
    /// [`JournalFault::Fault`] if the device failed, and [`JournalFault::Down`] from then on.
    pub fn read(&mut self, n: u32, content: &mut [u8; SECTOR]) -> Result<(), JournalFault>
        requires { n < (log_of self.old).size }
        ensures ok { D.keeps_word → OnOk result (content.new ≡ contents (log_of self.old) n) }
        // Nothing is written, and the list stays
        ensures log { log_of self.new ≡ record (log_of self.old)
            { is_down = (log_of self.new).is_down } }
        ensures contents { contents (log_of self.new) ≡ contents (log_of self.old) }
        ensures shown { recorded_sectors self.new ≡ recorded_sectors self.old }
        // If it fails
        ensures untouched { IsErrOf result JournalFault.Down → content.new ≡ content.old }
        ensures answers { AnswersByDevice (log_of self.old) (log_of self.new)
            (journal_failures self.old) (journal_failures self.new) result }
        ensures refuses { IfErr result
            (λ fault. (fault ≡ JournalFault.Fault) ⊎ (fault ≡ JournalFault.Down)) }
    {
        if self.is_down {
            return Err(JournalFault::Down);
        }
        if let Some(place) = self.pending_sectors.find(n) {
            *content = self.pending[place].content;
            return Ok(());
        }
        if self.cache.get(n, content) {
            return Ok(());
        }
        if self.recorded.get(n, content) {
            return Ok(());
        }
        if self.device.read(n, content).is_err() {
            self.is_down = true;
            return Err(JournalFault::Fault);
        }
        self.cache.keep(n, self.area.end, content);
        Ok(())
    }

    /// Writes sector 0 by itself, and syncs. A crash leaves the old one or the new one.
    ///
    /// # Errors
    ///
    /// [`JournalFault::Fault`] if the device failed, and [`JournalFault::Down`] from then on.
    pub fn superblock(&mut self, content: &[u8; SECTOR]) -> Result<(), JournalFault>
        ensures moments { D.keeps_word
            → AddsFirst content.now (log_of self.old) (log_of self.new) }
        ensures brief { D.keeps_word → MakesAtMost 2 (log_of self.old) (log_of self.new) }
        ensures ok { OnOk result
            (HasWritten D.keeps_word content.now (log_of self.old) (log_of self.new)) }
        ensures list { (log_of self.new).list ≡ (log_of self.old).list }
        ensures shown { recorded_sectors self.new ≡ recorded_sectors self.old }
        ensures area { (log_of self.new).area ≡ (log_of self.old).area }
        ensures size { (log_of self.new).size ≡ (log_of self.old).size }
        // If it fails
        ensures answers { AnswersByDevice (log_of self.old) (log_of self.new)
            (journal_failures self.old) (journal_failures self.new) result }
        ensures refuses { IfErr result
            (λ fault. (fault ≡ JournalFault.Fault) ⊎ (fault ≡ JournalFault.Down)) }
    {
        if self.is_down {
            return Err(JournalFault::Down);
        }
        self.is_down = true;
        if phase::write_sector(&mut self.device, SUPERBLOCK, content).is_err() {
            return Err(JournalFault::Fault);
        }
        self.is_down = false;
        Ok(())
    }

    /// Makes a checkpoint: copies home what the commit record names, and clears it, so that the
    /// next flush finds it cleared. The base and the list stay. If no record is set, nothing is
    /// done. Takes no memory.
    ///
    /// # Errors
    ///
    /// [`JournalFault::Fault`] if the device failed, and [`JournalFault::Down`] from then on.
    pub fn checkpoint(&mut self) -> Result<(), JournalFault>
        ensures safe { IsSafe D.keeps_word (log_of self.old) (log_of self.new) }
        ensures brief { D.keeps_word → MakesAtMost ((log_of self.old).area.sectors + 3)
            (log_of self.old) (log_of self.new) }
        ensures list { (log_of self.new).list ≡ (log_of self.old).list }
        ensures ok { OnOk result (HasCheckpointed D.keeps_word (recorded_sectors self.old)
            (log_of self.old) (log_of self.new)) }
        ensures closed { OnOk result (recorded_sectors self.new ≡ []) }
        ensures nothing { recorded_sectors self.old ≡ [] → log_of self.new ≡ log_of self.old }
        // If it fails
        ensures answers { AnswersByDevice (log_of self.old) (log_of self.new)
            (journal_failures self.old) (journal_failures self.new) result }
        ensures refuses { IfErr result
            (λ fault. (fault ≡ JournalFault.Fault) ⊎ (fault ≡ JournalFault.Down)) }
    {
        if self.is_down {
            return Err(JournalFault::Down);
        }
        if self.recorded.targets.is_empty() {
            return Ok(());
        }
        self.is_down = true;
        if commit::close(&mut self.device, self.area, &mut self.recorded).is_err() {
            return Err(JournalFault::Fault);
        }
        self.is_down = false;
        Ok(())
    }

    /// Writes the commit record again as it is, and syncs. The base and the list stay. After a sync
    /// that failed, the record that is read may be missing on the disk until it is written again.
    ///
    /// # Errors
    ///
    /// [`JournalFault::Fault`] if the device failed, and [`JournalFault::Down`] from then on.
    pub fn rewrite_record(&mut self) -> Result<(), JournalFault>
        ensures safe { IsSafe D.keeps_word (log_of self.old) (log_of self.new) }
        ensures brief { D.keeps_word → MakesAtMost 2 (log_of self.old) (log_of self.new) }
        ensures list { (log_of self.new).list ≡ (log_of self.old).list }
        ensures shown { recorded_sectors self.new ≡ recorded_sectors self.old }
        ensures ok { D.keeps_word → OnOk result (log_of self.new ≡ record (log_of self.old)
            { history = rewritten (recorded_sectors self.old) (log_of self.old).history }) }
        // If it fails
        ensures answers { AnswersByDevice (log_of self.old) (log_of self.new)
            (journal_failures self.old) (journal_failures self.new) result }
        ensures refuses { IfErr result
            (λ fault. (fault ≡ JournalFault.Fault) ⊎ (fault ≡ JournalFault.Down)) }
    {
        if self.is_down {
            return Err(JournalFault::Down);
        }
        self.is_down = true;
        if commit::rewrite(&mut self.device, self.area, &self.recorded.targets).is_err() {
            return Err(JournalFault::Fault);
        }
        self.is_down = false;
        Ok(())
    }

    /// Commits what is pending, if anything is.
    fn flush_pending(&mut self) -> Result<(), DiskFault>
        requires { (log_of self.old).is_down ≡ false }
        ensures part { IsPart D.keeps_word (log_of self.old) (log_of self.new)
            (journal_failures self.old) (journal_failures self.new) result }
        ensures flushed { OnOk result
            (HasFlushed D.keeps_word (log_of self.old) (log_of self.new)) }
        ensures gate { OnOk result
            (GoesThrough D.keeps_word (recorded_sectors self.old) (recorded_sectors self.new)
            (log_of self.old) (log_of self.new)) }
        ensures emptied { OnOk result (self.new.pending.items ≡ []) }
        ensures nothing { (log_of self.old).list ≡ [] → log_of self.new ≡ log_of self.old }
    {
        if self.pending.is_empty() {
            return Ok(());
        }
        self.is_down = true;
        if commit::commit(
            &mut self.device,
            self.area,
            &mut self.recorded,
            &self.pending_sectors.sectors,
            &self.pending,
        )
        .is_err()
        {
            return Err(DiskFault::Fault);
        }
        self.recorded.take_over(&mut self.pending);
        self.pending_sectors.clear();
        self.is_down = false;
        Ok(())
    }

    /// Commits what is pending if the updates would not fit the payload beside it.
    fn flush_if_full(&mut self, updates: &[Update]) -> Result<(), DiskFault>
        // A transaction that may be taken
        requires up { (log_of self.old).is_down ≡ false }
        requires short { length updates.now ≤ max_updates (log_of self.old).area }
        requires fit { AreTargets (log_of self.old).area.end (targets updates.now) }
        // However it ends
        ensures part { IsPart D.keeps_word (log_of self.old) (log_of self.new)
            (journal_failures self.old) (journal_failures self.new) result }
        // It is flushed if and only if there is no room
        ensures kept { FitTogether (log_of self.old).area (list_with (log_of self.old) updates.now)
            → (log_of self.new ≡ log_of self.old)
            × (self.new.pending.items ≡ self.old.pending.items)
            × (recorded_sectors self.new ≡ recorded_sectors self.old) }
        ensures flushed { OnOk result ((¬ FitTogether (log_of self.old).area
            (list_with (log_of self.old) updates.now))
            → HasFlushed D.keeps_word (log_of self.old) (log_of self.new)) }
        ensures gate { OnOk result ((¬ FitTogether (log_of self.old).area
            (list_with (log_of self.old) updates.now))
            → GoesThrough D.keeps_word (recorded_sectors self.old) (recorded_sectors self.new)
            (log_of self.old) (log_of self.new)) }
        ensures emptied { OnOk result ((¬ FitTogether (log_of self.old).area
            (list_with (log_of self.old) updates.now))
            → self.new.pending.items ≡ []) }
        ensures room { OnOk result
            (length (gathered self.new.pending_sectors.sectors.items (targets updates.now))
            ≤ (log_of self.old).area.sectors) }
    {
        if list::fits(&self.pending_sectors, updates, self.area.sectors as usize) {
            return Ok(());
        }
        self.flush_pending()?;
        Ok(())
    }

    /// Puts a transaction behind the pending ones: all of its updates, or after a crash none. If it
    /// and they have more different sectors than the log, they are flushed first. Takes no memory.
    ///
    /// # Errors
    ///
    /// [`JournalFault::TooMany`] above [`LogArea::max_updates`] updates: nothing changed.
    /// [`JournalFault::Fault`] if the device failed, and [`JournalFault::Down`] from then on.
    pub fn apply(&mut self, updates: Vec<Update>) -> Result<(), JournalFault>
        requires { AreTargets (log_of self.old).area.end (targets updates.items) }
        ensures safe { IsSafe D.keeps_word (log_of self.old) (log_of self.new) }
        ensures bounded { length (sectors_of (log_of self.new).list)
            ≤ (log_of self.new).area.sectors }
        ensures ok { OnOk result
            (HasApplied D.keeps_word updates.items (log_of self.old) (log_of self.new)) }
        ensures gate { OnOk result (GoesThroughFirst D.keeps_word updates.items
            (recorded_sectors self.old) (recorded_sectors self.new) (log_of self.old)
            (log_of self.new)) }
        // If it fails
        ensures too_many { (log_of self.old).is_down ≡ false
            → IsErrOf result JournalFault.TooMany
            ↔ (max_updates (log_of self.old).area < length updates.items) }
        ensures unchanged { IsErrOf result JournalFault.TooMany
            → log_of self.new ≡ log_of self.old }
        ensures answers { AnswersByDevice (log_of self.old) (log_of self.new)
            (journal_failures self.old) (journal_failures self.new) result }
        ensures refuses { IfErr result (λ fault. (fault ≡ JournalFault.TooMany)
            ⊎ ((fault ≡ JournalFault.Fault) ⊎ (fault ≡ JournalFault.Down))) }
    {
        if self.is_down {
            return Err(JournalFault::Down);
        }
        if updates.len() > self.area.max_updates() {
            return Err(JournalFault::TooMany);
        }
        self.flush_if_full(&updates)?;
        self.cache.forget(&updates);
        list::merge_into(&mut self.pending, &mut self.pending_sectors, &updates);
        Ok(())
    }

    /// Commits all that is pending: no crash loses it. If nothing is, nothing is written.
    ///
    /// # Errors
    ///
    /// [`JournalFault::Fault`] if the device failed, and [`JournalFault::Down`] from then on.
    pub fn flush(&mut self) -> Result<(), JournalFault>
        ensures safe { IsSafe D.keeps_word (log_of self.old) (log_of self.new) }
        ensures ok { OnOk result (HasFlushed D.keeps_word (log_of self.old) (log_of self.new)) }
        ensures gate { OnOk result
            (GoesThrough D.keeps_word (recorded_sectors self.old) (recorded_sectors self.new)
            (log_of self.old) (log_of self.new)) }
        ensures moved { D.keeps_word → (log_of self.new).is_down ≡ false
            → Moved (log_of self.old).list (log_of self.old) (log_of self.new) }
        ensures nothing { (log_of self.old).list ≡ [] → log_of self.new ≡ log_of self.old }
        // If it fails
        ensures answers { AnswersByDevice (log_of self.old) (log_of self.new)
            (journal_failures self.old) (journal_failures self.new) result }
        ensures refuses { IfErr result
            (λ fault. (fault ≡ JournalFault.Fault) ⊎ (fault ≡ JournalFault.Down)) }
    {
        if self.is_down {
            return Err(JournalFault::Down);
        }
        self.flush_pending()?;
        Ok(())
    }
}
