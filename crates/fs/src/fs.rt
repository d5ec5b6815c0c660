//! The file system: a volume, how many changes this run had, and whether one waits for a flush.

ghost use Rattle.std.specs.Prelude.{◌<◌, ◌^◌};
ghost use Rattle.fs.specs.Ready.{IsFsReady, IsFsReady-prop};
ghost use Rattle.volume.specs.Views.{volume_state};

use crate::fault::FsFault;
use disk::Device;
use layout::versions::VersionNumber;
use model_tree::limits::Limits;
use model_tree::seat_edits::SeatEdits;
use model_tree::seats::Seats;
use std::alloc::Global;
use std::num::NonZeroUsize;
use volume::{Checked, FormatFault, MountFault, Room, Unmounted, Volume};

/// A mounted file system.
#[derive(Drop)]
pub struct Fs<D: Device> {
    pub(crate) alloc: Global,
    pub(crate) volume: Volume<D>,
    pub(crate) changes: u32,
    /// Whether what has to last waits for the next flush.
    pub(crate) defers: bool,
    /// Whether something does.
    pub(crate) waits: bool,
    ghost counted: { changes < 2 ^ 32 },
    ghost ready: { IsFsReady (volume_state volume) changes } by { IsFsReady-prop (volume_state volume) changes },
}

/// A file system that was mounted, and the seats that its volume keeps.
#[derive(Drop)]
pub struct Mounted<D: Device> {
    pub fs: Fs<D>,
    pub seats: Seats,
}

#[tactic(auto, unfolding(crate::specs::Views::fs_of, crate::specs::Views::fs_failures))]
impl<D: Device> Fs<D> {
    ghost use Rattle.std.specs.Prelude.{◌≡◌, ◌⊎◌, ◌↔◌, true, false, IfOk, IfErr, OnOk, IsErrOf};
    ghost use Rattle.fs.specs.Changes.{fs_ending, FsFlushes};
    ghost use Rattle.fs.specs.Views.{fs_of, fs_failures, AltersFs, MountsFs};
    ghost use Rattle.fs.specs.Formatting.{Formats};
    ghost use Rattle.volume.specs.Checks.{Checks};
    ghost use Rattle.model_tree.specs.Seats.SeatEdits.{AreEdits, edited_all, edits_view};
    ghost use Rattle.model_tree.specs.Seats.SeatViews.{seats_view};
    ghost use Rattle.volume.specs.Changes.{IsSeats, Stays};
    ghost use Rattle.volume.specs.Formed.{ShowsTree};
    ghost use Rattle.volume.specs.VolumeState.{KeepsRecent, MakesAtMost, checkpoint_cost, flush_cost};
    ghost use Rattle.volume.specs.MountAnswers.{FindsSeats, MountGivesBack};
    ghost use Rattle.volume.specs.Rooms.{IsLeftOf};
    ghost use Rattle.volume.specs.SeatUpdates.{slots_by};
    ghost use Rattle.layout.specs.Versions.{IsServed};

    /// Makes the device a new volume of `nodes` nodes, with an empty root: `volume::format`.
    ///
    /// # Errors
    ///
    /// Size if no volume has this many sectors and nodes, and Memory: nothing was written. Device
    /// if the device failed.
    pub fn format(alloc: Global, device: &mut D, nodes: u32) -> Result<(), FormatFault>
        ensures { Formats D.keeps_word D.size D.failed D.history nodes
            device.old device.new result }
    {
        volume::format(alloc, device, nodes)
    }

    /// Mounts the volume: `Volume::mount`. Every image that a crash leaves from then on has the new
    /// restart count, which is this file system's run. Its journal keeps 64 sectors in memory.
    ///
    /// # Errors
    ///
    /// As [`Fs::mount_seated`].
    pub fn mount(alloc: Global, device: D) -> Result<Fs<D>, Unmounted<D>>
        ensures serves { IfOk result (MountsFs device) }
        ensures no_change { IfOk result (λ fs. (fs_of fs).changes ≡ 0) }
        ensures at_once { IfOk result (λ fs. (fs_of fs).defers ≡ false) }
        ensures none_waits { IfOk result (λ fs. (fs_of fs).waits ≡ false) }
        ensures gives_back { IfErr result (MountGivesBack D.keeps_word D.size D.failed D.history
            device) }
    {
        let Mounted { fs, seats: _ } = Fs::mount_seated(alloc, device, None)?;
        Ok(fs)
    }

    /// The same, with a journal that keeps `cached` sectors in memory: `Volume::mount_cached`.
    ///
    /// # Errors
    ///
    /// As [`Fs::mount_seated`].
    pub fn mount_cached(
        alloc: Global,
        device: D,
        cached: NonZeroUsize,
    ) -> Result<Fs<D>, Unmounted<D>>
        ensures serves { IfOk result (MountsFs device) }
        ensures no_change { IfOk result (λ fs. (fs_of fs).changes ≡ 0) }
        ensures at_once { IfOk result (λ fs. (fs_of fs).defers ≡ false) }
        ensures none_waits { IfOk result (λ fs. (fs_of fs).waits ≡ false) }
        ensures gives_back { IfErr result (MountGivesBack D.keeps_word D.size D.failed D.history
            device) }
    {
        let Mounted { fs, seats: _ } = Fs::mount_seated(alloc, device, Some(cached))?;
        Ok(fs)
    }

    /// The same, with the seats that the volume keeps: `Volume::mount_seated`. They were read
    /// before its count was raised.
    ///
    /// # Errors
    ///
    /// The device comes back with the reason. NotVolume, then Worn, because of the first sector,
    /// and then nothing was written; then Damaged exactly if there is no tree; Device if the device
    /// failed, and Memory.
    pub fn mount_seated(
        alloc: Global,
        device: D,
        cached: Option<NonZeroUsize>,
    ) -> Result<Mounted<D>, Unmounted<D>>
        ensures serves { IfOk result (λ mounted. MountsFs device mounted.fs) }
        ensures seats { IfOk result (λ mounted. FindsSeats D.keeps_word (fs_of mounted.fs).volume
            (seats_view mounted.seats)) }
        ensures no_change { IfOk result (λ mounted. (fs_of mounted.fs).changes ≡ 0) }
        ensures at_once { IfOk result (λ mounted. (fs_of mounted.fs).defers ≡ false) }
        ensures none_waits { IfOk result (λ mounted. (fs_of mounted.fs).waits ≡ false) }
        ensures gives_back { IfErr result (MountGivesBack D.keeps_word D.size D.failed D.history
            device) }
    {
        let mounted = Volume::mount_seated(alloc, device, cached)?;
        Ok(Mounted {
            fs: Fs {
                alloc,
                volume: mounted.volume,
                changes: 0,
                defers: false,
                waits: false,
            },
            seats: mounted.seats,
        })
    }

    /// Whether the volume on a device holds a tree, found out without writing to it:
    /// `volume::check`.
    ///
    /// # Errors
    ///
    /// NotVolume, because of the first sector, as for a mount; then Damaged exactly if there is no
    /// tree; Device if the device failed, and Memory; never Worn.
    pub fn check(alloc: Global, device: &mut D) -> Result<Checked, MountFault>
        ensures { Checks D.keeps_word D.size D.failed D.history
            device.old device.new result }
    {
        volume::check(alloc, device)
    }

    /// The run of this mount: the restart count that it wrote.
    pub fn restart_count(&self) -> u32
        ensures { result ≡ (fs_of self.now).volume.run }
    {
        self.volume.restart_count()
    }

    /// The version in which its volume is served.
    pub fn version(&self) -> VersionNumber
        ensures version { result ≡ (fs_of self.now).volume.version }
        ensures served { IsServed result }
    {
        self.volume.version()
    }

    /// The limits of its volume.
    pub fn limits(&self) -> &Limits
        ensures { result.now ≡ (fs_of self.now).volume.limits }
    {
        self.volume.limits()
    }

    /// How many sectors and nodes are left of these limits: `Volume::room`.
    pub fn room(&self) -> Room
        ensures { IsLeftOf (fs_of self.now).volume result }
    {
        self.volume.room()
    }

    /// How many changes of the tree this run has had. Their stamps are `run * 2^32 + 1` and so on.
    pub fn change_count(&self) -> u32
        ensures { result ≡ (fs_of self.now).changes }
    {
        self.changes
    }

    /// The device, as it is now. What is on it is for the next mount.
    pub fn into_device(self) -> D
        ensures history { D.history result ≡ (fs_of self).volume.history }
        ensures size { D.size result ≡ (fs_of self).volume.sectors }
        ensures failures { D.failed result ≡ fs_failures self }
    {
        self.volume.into_device()
    }

    /// The device, to look at.
    pub fn device(&self) -> &D
        ensures history { D.history result.now ≡ (fs_of self.now).volume.history }
        ensures size { D.size result.now ≡ (fs_of self.now).volume.sectors }
        ensures failures { D.failed result.now ≡ fs_failures self.now }
    {
        self.volume.device()
    }

    /// Whether the device failed: each operation is refused from then on.
    pub fn is_down(&self) -> bool
        ensures { result ≡ (fs_of self.now).volume.is_down }
    {
        self.volume.is_down()
    }

    /// Sets whether from now on what has to last waits for [`Fs::flush`], so that a crash before
    /// that may lose it. Otherwise, as after a mount, it is on the device before the call returns.
    pub fn set_deferring(&mut self, later: bool)
        ensures fs { fs_of self.new ≡ record (fs_of self.old) { defers = later } }
        ensures failures { fs_failures self.new ≡ fs_failures self.old }
    {
        self.defers = later;
    }

    /// Whether something that has to last waits for [`Fs::flush`].
    pub fn waits(&self) -> bool
        ensures { result ≡ (fs_of self.now).waits }
    {
        self.waits
    }

    /// Keeps all changes so far: after `Ok` no crash loses one, and nothing waits. After an error
    /// what waited still waits.
    ///
    /// # Errors
    ///
    /// Device if the device failed, and Down from then on.
    pub fn flush(&mut self) -> Result<(), FsFault>
        ensures flushes { FsFlushes D.keeps_word (fs_of self.old) (fs_of self.new)
            (fs_failures self.old) (fs_failures self.new) result }
        ensures brief { D.keeps_word
            → MakesAtMost
            (flush_cost (fs_of self.old).volume.version (fs_of self.old).volume.sectors)
            (fs_of self.old).volume (fs_of self.new).volume }
        ensures shows { OnOk result (ShowsTree D.keeps_word (fs_of self.old).volume.tree
            (fs_of self.new).volume.tree) }
        // If it fails
        ensures down { IsErrOf result FsFault.Down ↔ ((fs_of self.old).volume.is_down ≡ true) }
        ensures refuses { IfErr result (λ fault.
            (fault ≡ FsFault.Device) ⊎ (fault ≡ FsFault.Down)) }
    {
        self.volume.flush()?;
        self.waits = false;
        Ok(())
    }

    /// Makes a checkpoint of the journal: `Volume::checkpoint`. It is no change, and keeps none.
    ///
    /// # Errors
    ///
    /// Device if the device failed, and Down from then on.
    pub fn checkpoint(&mut self) -> Result<(), FsFault>
        ensures volume { AltersFs self.old self.new
            (Stays (fs_of self.old).volume) (fs_ending result) }
        ensures brief { D.keeps_word
            → MakesAtMost
            (checkpoint_cost (fs_of self.old).volume.version (fs_of self.old).volume.sectors)
            (fs_of self.old).volume (fs_of self.new).volume }
        ensures shows { OnOk result (ShowsTree D.keeps_word (fs_of self.old).volume.tree
            (fs_of self.new).volume.tree) }
        ensures recent { D.keeps_word → OnOk result
            (KeepsRecent (fs_of self.old).volume (fs_of self.new).volume) }
        ensures changes { (fs_of self.new).changes ≡ (fs_of self.old).changes }
        ensures waits { (fs_of self.new).waits ≡ (fs_of self.old).waits }
        // If it fails
        ensures down { IsErrOf result FsFault.Down ↔ ((fs_of self.old).volume.is_down ≡ true) }
        ensures refuses { IfErr result (λ fault.
            (fault ≡ FsFault.Device) ⊎ (fault ≡ FsFault.Down)) }
    {
        self.volume.checkpoint()?;
        Ok(())
    }

    /// Edits the seats of persistent sessions, and keeps that and every change so far; or it waits
    /// for the next flush. It does not change the tree.
    ///
    /// # Errors
    ///
    /// Memory, and nothing changed; Device if the device failed, and Down from then on.
    pub fn put_seats(&mut self, edits: &SeatEdits) -> Result<(), FsFault>
        requires { D.keeps_word → AreEdits (fs_of self.old).volume.run
            (slots_by (fs_of self.old).volume.version) (edits_view edits.now)
            (fs_of self.old).volume.seats }
        ensures volume { AltersFs self.old self.new
            (IsSeats (fs_of self.old).volume
            (edited_all (edits_view edits.now) (fs_of self.old).volume.seats))
            (fs_ending result) }
        ensures shows { OnOk result (ShowsTree D.keeps_word (fs_of self.old).volume.tree
            (fs_of self.new).volume.tree) }
        ensures changes { (fs_of self.new).changes ≡ (fs_of self.old).changes }
        // If it fails
        ensures down { IsErrOf result FsFault.Down ↔ ((fs_of self.old).volume.is_down ≡ true) }
        ensures refuses { IfErr result (λ fault. (fault ≡ FsFault.Memory)
            ⊎ ((fault ≡ FsFault.Device) ⊎ (fault ≡ FsFault.Down))) }
    {
        if self.defers {
            self.volume.change_seats(edits)?;
            self.waits = true;
        } else {
            self.volume.put_seats(edits)?;
        }
        Ok(())
    }
}
