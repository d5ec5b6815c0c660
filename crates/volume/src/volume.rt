//! A mounted volume: its nodes in memory, and its journal.

ghost use Rattle.std.specs.Prelude.{◌≡◌, ◌<◌, ◌+◌, ◌^◌, false, IsTrue};
ghost use Rattle.journal.specs.Journal.{log_of};
ghost use Rattle.layout.specs.Versions.{IsServed, data_end_by, limits_by, log_by, size_by};
ghost use Rattle.model_tree.specs.Trees.Stamp.{stamp};
ghost use Rattle.tree_edits.specs.Outlines.{tree_without_data};
ghost use Rattle.volume.specs.ParentIndex.{AreParents};
ghost use Rattle.volume.specs.ParentProps.{AreParents-prop};
ghost use Rattle.volume.specs.Formed.{IsFormed};
ghost use Rattle.volume.specs.Known.{AreKnownNodes, IsServing};
ghost use Rattle.volume.specs.KnownProps.{AreKnownNodes-prop, IsFormed-prop, IsServed-prop};

use crate::fault::{MountFault, VolumeFault};
use crate::load::load;
use crate::mount::{Superblock, read_mountable_superblock};
use crate::parents::Parents;
use crate::start::start;
use crate::store::Store;
use disk::Device;
use freemap::SharedBitmap;
use journal::{CACHED_SECTORS, Journal};
use layout::versions::VersionNumber;
use model_tree::limits::Limits;
use model_tree::seats::Seats;
use node_table::{CachedNode, Table};
use std::alloc::Global;
use std::num::NonZeroUsize;

/// A mounted volume.
///
/// Everything except the bytes of files is in memory, so questions about nodes and names do not
/// touch the device. They also work on a volume that is down, with the tree before the call in
/// which the device failed or the one after it.
#[derive(Drop)]
pub struct Volume<D: Device> {
    pub(crate) alloc: Global,
    pub(crate) store: Store<D>,
    pub(crate) version: VersionNumber,
    pub(crate) limits: Limits,
    run: u32,
    pub(crate) table: Table,
    pub(crate) places: SharedBitmap,
    pub(crate) parents: Parents,
    ghost bounded: { run < 2 ^ 32 },
    ghost served: { IsServed version } by { IsServed-prop version },
    ghost sized: { IsTrue (size_by version (log_of store.journal).size limits.nodes) },
    ghost placed: { (log_of store.journal).area ≡ log_by version (log_of store.journal).size },
    ghost limited: { limits ≡ limits_by version (log_of store.journal).size limits.nodes },
    ghost formed: { IsFormed limits (stamp (run + 1) 0) (tree_without_data table) } by { IsFormed-prop limits (stamp (run + 1) 0) (tree_without_data table) },
    ghost known: { AreKnownNodes (data_end_by version (log_of store.journal).size) limits.nodes table places } by { AreKnownNodes-prop (data_end_by version (log_of store.journal).size) limits.nodes table places },
    ghost named: { AreParents table parents } by { AreParents-prop table parents },
    ghost serves: { D.keeps_word → (log_of store.journal).is_down ≡ false
        → ∥ IsServing version (log_of store.journal) limits.nodes run table ∥₁ },
}

/// A volume that was mounted, and the seats that it keeps.
#[derive(Drop)]
pub struct Mounted<D: Device> {
    pub volume: Volume<D>,
    pub seats: Seats,
}

/// A device that was not mounted, and why.
#[derive(Drop)]
pub struct Unmounted<D: Device> {
    pub fault: MountFault,
    /// The device, given back.
    pub device: D,
}

#[tactic(auto, unfolding(crate::specs::Views::volume_state, crate::specs::Views::volume_failures))]
impl<D: Device> Volume<D> {
    ghost use Rattle.std.specs.Prelude.{◌≡◌, ◌≤◌, ◌↔◌, ◌⊎◌, true, None, length};
    ghost use Rattle.std.specs.Prelude.{IfSome, IfNone, IfOk, IfErr, OnOk, IsErrOf};
    ghost use Rattle.journal.specs.Journal.{log_of, journal_failures};
    ghost use Rattle.layout.specs.Known.{IsCached};
    ghost use Rattle.model_tree.specs.declared.acl.TheConstants.Acl.{MAX_STORED};
    ghost use Rattle.model_tree.specs.Trees.Keyed.{at};
    ghost use Rattle.model_tree.specs.Seats.SeatViews.{seats_view};
    ghost use Rattle.volume.specs.Changes.{IsTree, Stays, ending_of};
    ghost use Rattle.volume.specs.Formed.{ShowsTree};
    ghost use Rattle.volume.specs.VolumeState.{IsJustMounted, KeepsRecent, MakesAtMost, checkpoint_cost, flush_cost};
    ghost use Rattle.volume.specs.Loads.{HoldsBase};
    ghost use Rattle.volume.specs.MountAnswers.{FindsSeats, MountGivesBack, ComesBack};
    ghost use Rattle.volume.specs.Mounts.{IsVolumeOf, IsAtRest, HasBegun, IsNotBegun};
    ghost use Rattle.volume.specs.Nodes.{IsNodeOf};
    ghost use Rattle.volume.specs.Views.{volume_state, volume_failures, AltersVolume, MountsVolume};

    /// Mounts the volume: finds it by its first sector, replays the log, reads its nodes and seats,
    /// writes the commit record again, migrates one of version 1, and raises the restart count.
    /// Every image that a crash leaves from then on has the new count, which is this mount's run.
    /// Its journal keeps 64 sectors in memory.
    ///
    /// # Errors
    ///
    /// As [`Volume::mount_seated`].
    pub fn mount(alloc: Global, device: D) -> Result<Volume<D>, Unmounted<D>>
        ensures serves { IfOk result (MountsVolume device) }
        ensures gives_back { IfErr result (MountGivesBack D.keeps_word D.size D.failed D.history
            device) }
    {
        let Mounted { volume, seats: _ } = Volume::mount_seated(alloc, device, None)?;
        Ok(volume)
    }

    /// The same, with a journal that keeps `cached` sectors in memory.
    ///
    /// # Errors
    ///
    /// As [`Volume::mount_seated`].
    pub fn mount_cached(
        alloc: Global,
        device: D,
        cached: NonZeroUsize,
    ) -> Result<Volume<D>, Unmounted<D>>
        ensures serves { IfOk result (MountsVolume device) }
        ensures gives_back { IfErr result (MountGivesBack D.keeps_word D.size D.failed D.history
            device) }
    {
        let Mounted { volume, seats: _ } = Volume::mount_seated(alloc, device, Some(cached))?;
        Ok(volume)
    }

    /// The same, with the seats that the volume keeps, which were read before its count was raised.
    ///
    /// # Errors
    ///
    /// The device comes back with the reason. NotVolume, then Worn, because of the first sector,
    /// and then nothing was written; then Damaged exactly if there is no tree; Device if the device
    /// failed, and Memory.
    pub fn mount_seated(
        alloc: Global,
        device: D,
        cached: Option<NonZeroUsize>,
    ) -> Result<Mounted<D>, Unmounted<D>>
        ensures serves { IfOk result (λ mounted. MountsVolume device mounted.volume) }
        ensures seats { IfOk result
            (λ mounted. FindsSeats D.keeps_word (volume_state mounted.volume)
            (seats_view mounted.seats)) }
        ensures gives_back { IfErr result (MountGivesBack D.keeps_word D.size D.failed D.history
            device) }
    {
        let own = NonZeroUsize::new(CACHED_SECTORS).unwrap_or(NonZeroUsize::MIN);
        let mut device = device;
        let found = match read_mountable_superblock(&mut device) {
            Ok(found) => found,
            Err(fault) => return Err(Unmounted { fault, device }),
        };
        let area = found.version.log_area(found.sectors);
        match Journal::mount_in(alloc, device, area, cached.unwrap_or(own)) {
            Ok(journal) => Volume::begin(alloc, journal, found),
            Err(refused) => Err(Unmounted {
                fault: refused.fault.into(),
                device: refused.device,
            }),
        }
    }

    /// Begins a run on a journal that has nothing left to flush.
    fn begin(
        alloc: Global,
        journal: Journal<D>,
        found: Superblock,
    ) -> Result<Mounted<D>, Unmounted<D>>
        requires volume { IsVolumeOf (log_of journal).size found }
        requires rests { IsAtRest found.version (log_of journal) }
        requires base { D.keeps_word → HoldsBase found (log_of journal) }
        ensures new { IfOk result (λ mounted.
            IsJustMounted (log_of journal).size (volume_state mounted.volume)) }
        ensures counted { IfOk result (λ mounted.
            volume_failures mounted.volume ≡ journal_failures journal) }
        ensures begun { D.keeps_word → IfOk result (λ mounted. HasBegun found
            (log_of journal).base (log_of journal).history (volume_state mounted.volume)) }
        ensures seats { IfOk result
            (λ mounted. FindsSeats D.keeps_word (volume_state mounted.volume)
            (seats_view mounted.seats)) }
        // If it fails
        ensures back { IfErr result (ComesBack D.size D.failed (log_of journal).size
            (journal_failures journal)) }
        ensures refused { D.keeps_word → IfErr result (λ refused.
            IsNotBegun found (log_of journal).base (log_of journal).history
            (D.history refused.device) refused.fault) }
    {
        let mut store = Store { journal };
        let loaded = match load(alloc, &mut store, found) {
            Ok(loaded) => loaded,
            Err(fault) => {
                return Err(Unmounted {
                    fault,
                    device: store.journal.into_device(),
                });
            }
        };
        match start(alloc, &mut store.journal, found, &loaded) {
            Ok(()) => Ok(Mounted {
                volume: Volume {
                    alloc,
                    store,
                    version: found.version.served(),
                    limits: found.version.limits(found.sectors, found.nodes),
                    run: found.run + 1,
                    table: loaded.table,
                    places: loaded.places,
                    parents: loaded.parents,
                },
                seats: loaded.seats,
            }),
            Err(fault) => Err(Unmounted {
                fault,
                device: store.journal.into_device(),
            }),
        }
    }

    /// The run of this mount: the restart count that it wrote.
    pub fn restart_count(&self) -> u32
        ensures { result ≡ (volume_state self.now).run }
    {
        self.run
    }

    /// The device, as it is now. What is on it is for the next mount.
    pub fn into_device(self) -> D
        ensures history { D.history result ≡ (volume_state self).history }
        ensures size { D.size result ≡ (volume_state self).sectors }
        ensures failures { D.failed result ≡ volume_failures self }
    {
        self.store.journal.into_device()
    }

    /// The device, to look at.
    pub fn device(&self) -> &D
        ensures history { D.history result.now ≡ (volume_state self.now).history }
        ensures size { D.size result.now ≡ (volume_state self.now).sectors }
        ensures failures { D.failed result.now ≡ volume_failures self.now }
    {
        self.store.journal.device()
    }

    /// The version in which the volume is served.
    pub fn version(&self) -> VersionNumber
        ensures version { result ≡ (volume_state self.now).version }
        ensures served { IsServed result }
    {
        self.version
    }

    /// The limits of the volume. They never change, even if it is down.
    pub fn limits(&self) -> &Limits
        ensures limits { result.now ≡ (volume_state self.now).limits }
        ensures sized { result.now ≡ limits_by (volume_state self.now).version
            (volume_state self.now).sectors (volume_state self.now).limits.nodes }
    {
        &self.limits
    }

    /// Whether the device failed: nothing is read from it or written to it from then on.
    pub fn is_down(&self) -> bool
        ensures { result ≡ (volume_state self.now).is_down }
    {
        self.store.journal.is_down()
    }

    /// The node of this number: all of it except the bytes of a file. If the volume is down, that
    /// of the tree before the call that failed or after it.
    pub fn node(&self, number: u64) -> Option<&CachedNode>
        ensures some { IfSome result
            (λ cached. IsNodeOf (volume_state self.now).tree number cached.now) }
        ensures none { IfNone result (at number (volume_state self.now).tree ≡ None) }
        ensures fit { IfSome result (λ cached. IsCached cached.now) }
        ensures few { IfSome result (λ cached. length cached.now.fields.acl ≤ MAX_STORED) }
    {
        let place = self.table.find(number)?;
        self.table.cached(place)
    }

    /// Keeps all changes so far: after `Ok` no crash loses one.
    ///
    /// # Errors
    ///
    /// [`VolumeFault::Device`] if the device failed, and [`VolumeFault::Down`] after such a call.
    pub fn flush(&mut self) -> Result<(), VolumeFault>
        ensures volume { AltersVolume self.old self.new
            (IsTree (volume_state self.old) (volume_state self.old).tree) (ending_of result) }
        ensures shows { OnOk result (ShowsTree D.keeps_word (volume_state self.old).tree
            (volume_state self.new).tree) }
        ensures brief { D.keeps_word → MakesAtMost (flush_cost (volume_state self.old).version (volume_state self.old).sectors)
            (volume_state self.old) (volume_state self.new) }
        // If it fails
        ensures down { IsErrOf result VolumeFault.Down ↔ ((volume_state self.old).is_down ≡ true) }
        ensures refuses { IfErr result (λ fault.
            (fault ≡ VolumeFault.Device) ⊎ (fault ≡ VolumeFault.Down)) }
    {
        self.store.journal.flush()?;
        Ok(())
    }

    /// Makes a checkpoint: copies home what the journal's commit record names, and clears it. The
    /// next change that is kept then waits for two syncs instead of four. The tree stays, and so
    /// does what a crash may leave.
    ///
    /// # Errors
    ///
    /// Those of [`Volume::flush`].
    pub fn checkpoint(&mut self) -> Result<(), VolumeFault>
        ensures volume { AltersVolume self.old self.new
            (Stays (volume_state self.old)) (ending_of result) }
        ensures shows { OnOk result (ShowsTree D.keeps_word (volume_state self.old).tree
            (volume_state self.new).tree) }
        ensures recent { D.keeps_word → OnOk result
            (KeepsRecent (volume_state self.old) (volume_state self.new)) }
        ensures brief { D.keeps_word → MakesAtMost (checkpoint_cost (volume_state self.old).version (volume_state self.old).sectors)
            (volume_state self.old) (volume_state self.new) }
        // If it fails
        ensures down { IsErrOf result VolumeFault.Down ↔ ((volume_state self.old).is_down ≡ true) }
        ensures refuses { IfErr result (λ fault.
            (fault ≡ VolumeFault.Device) ⊎ (fault ≡ VolumeFault.Down)) }
    {
        self.store.journal.checkpoint()?;
        Ok(())
    }
}
