//! The seats of persistent sessions.

use crate::fault::VolumeFault;
use crate::seat_updates::updates_of;
use crate::volume::Volume;
use disk::Device;
use model_tree::seat_edits::SeatEdits;

#[tactic(auto, unfolding(crate::specs::Views::volume_state, crate::specs::Views::volume_failures))]
impl<D: Device> Volume<D> {
    ghost use Rattle.std.specs.Prelude.{◌≡◌, ◌↔◌, ◌⊎◌, true, OnOk, IfErr, IsErrOf};
    ghost use Rattle.model_tree.specs.Seats.SeatEdits.{AreEdits, edited_all, edits_view};
    ghost use Rattle.volume.specs.Changes.{IsReseated, IsSeats, ending_of};
    ghost use Rattle.volume.specs.Formed.{ShowsTree};
    ghost use Rattle.volume.specs.SeatUpdates.{slots_by};
    ghost use Rattle.volume.specs.Views.{volume_state, AltersVolume};
    ghost use Rattle.volume.specs.VolumeState.{MakesAtMost, flush_cost};

    /// Edits the seats as one transaction: a crash leaves the old ones or the new. It may be lost
    /// until the next flush.
    ///
    /// # Errors
    ///
    /// [`VolumeFault::Down`]; [`VolumeFault::Memory`], and nothing changed; [`VolumeFault::Device`]
    /// if the device failed.
    pub fn change_seats(&mut self, edits: &SeatEdits) -> Result<(), VolumeFault>
        requires { D.keeps_word → AreEdits (volume_state self.old).run
            (slots_by (volume_state self.old).version) (edits_view edits.now)
            (volume_state self.old).seats }
        ensures volume { AltersVolume self.old self.new
            (IsReseated (volume_state self.old)
            (edited_all (edits_view edits.now) (volume_state self.old).seats)) (ending_of result) }
        ensures shows { OnOk result (ShowsTree D.keeps_word (volume_state self.old).tree
            (volume_state self.new).tree) }
        ensures brief { D.keeps_word → MakesAtMost
            (flush_cost (volume_state self.old).version (volume_state self.old).sectors)
            (volume_state self.old) (volume_state self.new) }
        // If it fails
        ensures down { IsErrOf result VolumeFault.Down ↔ ((volume_state self.old).is_down ≡ true) }
        ensures refuses { IfErr result (λ fault. (fault ≡ VolumeFault.Memory)
            ⊎ ((fault ≡ VolumeFault.Device) ⊎ (fault ≡ VolumeFault.Down))) }
    {
        if self.store.journal.is_down() {
            return Err(VolumeFault::Down);
        }
        let updates = updates_of(self.alloc, self.version, edits)?;
        self.store.journal.apply(updates)?;
        Ok(())
    }

    /// Edits the seats as [`Volume::change_seats`] does, and keeps it: after `Ok` a crash leaves
    /// the new ones, and every change of the tree so far. Within it a crash leaves the old ones or
    /// the new.
    ///
    /// # Errors
    ///
    /// Those of [`Volume::change_seats`].
    pub fn put_seats(&mut self, edits: &SeatEdits) -> Result<(), VolumeFault>
        requires { D.keeps_word → AreEdits (volume_state self.old).run
            (slots_by (volume_state self.old).version) (edits_view edits.now)
            (volume_state self.old).seats }
        ensures volume { AltersVolume self.old self.new
            (IsSeats (volume_state self.old)
            (edited_all (edits_view edits.now) (volume_state self.old).seats)) (ending_of result) }
        ensures shows { OnOk result (ShowsTree D.keeps_word (volume_state self.old).tree
            (volume_state self.new).tree) }
        // If it fails
        ensures down { IsErrOf result VolumeFault.Down ↔ ((volume_state self.old).is_down ≡ true) }
        ensures refuses { IfErr result (λ fault. (fault ≡ VolumeFault.Memory)
            ⊎ ((fault ≡ VolumeFault.Device) ⊎ (fault ≡ VolumeFault.Down))) }
    {
        self.change_seats(edits)?;
        self.flush()
    }
}
