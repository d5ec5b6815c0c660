//! Changes of the tree.

ghost use Rattle.std.specs.Prelude.{◌≡◌};
ghost use Rattle.volume.specs.Refusals.{transaction_fault};

use crate::fault::VolumeFault;
use crate::parent_calls::{put_by, put_parent};
use crate::volume::Volume;
use disk::Device;
use tree_edits::{Edit, fits, outcome_of};
use tree_transaction::{PreparedTransaction, TransactionFault};

impl From<TransactionFault> for VolumeFault {
    ghost from_gives = { λ refusal fault. fault ≡ transaction_fault refusal };

    fn from(fault: TransactionFault) -> Self {
        match fault {
            TransactionFault::Device => VolumeFault::Device,
            TransactionFault::Memory => VolumeFault::Memory,
            TransactionFault::Full => VolumeFault::NoSpace,
        }
    }
}

#[tactic(auto, unfolding(crate::specs::Views::volume_state, crate::specs::Views::volume_failures))]
impl<D: Device> Volume<D> {
    ghost use Rattle.std.specs.Prelude.{◌≡◌, ◌↔◌, true, false, OnOk, OnErr, IsErrOf, IsTrue};
    ghost use Rattle.tree_edits.specs.Measures.{AreMeasurable};
    ghost use Rattle.model_tree.specs.Trees.Charge.{fits};
    ghost use Rattle.volume.specs.Changes.{IsTree, ending_of};
    ghost use Rattle.volume.specs.Edits.{IsChange, IsEdited, edited_by};
    ghost use Rattle.volume.specs.Formed.{ShowsTree};
    ghost use Rattle.volume.specs.Alike.{ShowsAs};
    ghost use Rattle.volume.specs.Views.{volume_state, AltersVolume};
    ghost use Rattle.volume.specs.VolumeState.{MakesAtMost, flush_cost};

    /// Whether the tree fits after edits, which [`Volume::change`] checks first. The room that each
    /// edit takes must be known from the tree that those before it give: the edit need not be
    /// possible, and a new node or name may have the number 0 for one that is not known yet. It
    /// also works while the volume is down, as [`Volume::node`] does.
    pub fn fits(&self, edits: &[Edit<'_>]) -> bool
        requires { AreMeasurable (volume_state self.now).tree edits.now }
        ensures { result ≡ fits (volume_state self.now).limits
            (edited_by (volume_state self.now) edits.now) }
    {
        fits(&self.table, &self.limits, edits)
    }

    /// Changes the tree by edits, one after the other, as one transaction: a crash leaves all of
    /// them or none. It may be lost until the next flush.
    ///
    /// # Errors
    ///
    /// [`VolumeFault::Down`], then [`VolumeFault::NoSpace`] exactly if the tree after all of the
    /// edits would not fit; [`VolumeFault::Memory`]; [`VolumeFault::Device`] if the device failed.
    /// None of them changes what is shown of the tree.
    pub fn change(&mut self, edits: &[Edit<'_>]) -> Result<(), VolumeFault>
        requires { IsChange (volume_state self.old) edits.now }
        ensures volume { AltersVolume self.old self.new
            (IsEdited (volume_state self.old) edits.now) (ending_of result) }
        ensures shows { OnOk result (ShowsTree D.keeps_word
            (edited_by (volume_state self.old) edits.now) (volume_state self.new).tree) }
        // If it fails
        ensures stays { OnErr result
            (ShowsAs (volume_state self.old).tree (volume_state self.new).tree) }
        ensures down { IsErrOf result VolumeFault.Down ↔ ((volume_state self.old).is_down ≡ true) }
        ensures no_space { (volume_state self.old).is_down ≡ false
            → IsErrOf result VolumeFault.NoSpace ↔ (fits (volume_state self.old).limits
            (edited_by (volume_state self.old) edits.now) ≡ false) }
    {
        if self.store.journal.is_down() {
            return Err(VolumeFault::Down);
        }
        if !self.fits(edits) {
            return Err(VolumeFault::NoSpace);
        }
        self.change_fitting(edits)
    }

    /// Changes the tree as [`Volume::change`] does, by edits after which the tree fits: it does not
    /// call [`Volume::fits`] again.
    ///
    /// # Errors
    ///
    /// Those of [`Volume::change`] except [`VolumeFault::NoSpace`].
    pub fn change_fitting(&mut self, edits: &[Edit<'_>]) -> Result<(), VolumeFault>
        requires change { IsChange (volume_state self.old) edits.now }
        requires fitting { IsTrue (fits (volume_state self.old).limits
            (edited_by (volume_state self.old) edits.now)) }
        ensures volume { AltersVolume self.old self.new
            (IsEdited (volume_state self.old) edits.now) (ending_of result) }
        ensures shows { OnOk result (ShowsTree D.keeps_word
            (edited_by (volume_state self.old) edits.now) (volume_state self.new).tree) }
        ensures brief { D.keeps_word → MakesAtMost (flush_cost (volume_state self.old).version (volume_state self.old).sectors)
            (volume_state self.old) (volume_state self.new) }
        // If it fails
        ensures stays { OnErr result
            (ShowsAs (volume_state self.old).tree (volume_state self.new).tree) }
        ensures down { IsErrOf result VolumeFault.Down ↔ ((volume_state self.old).is_down ≡ true) }
        ensures space { ¬ IsErrOf result VolumeFault.NoSpace }
    {
        if self.store.journal.is_down() {
            return Err(VolumeFault::Down);
        }
        let put = put_by(edits);
        let outcome = outcome_of(
            self.alloc,
            &mut self.store,
            &self.table,
            &self.places,
            self.version.marking(),
            edits,
        )?;
        let PreparedTransaction {
            updates,
            places,
            changes,
        } = outcome;
        self.store.journal.apply(updates)?;
        self.table.settle(changes);
        self.places = places;
        put_parent(&mut self.parents, &self.table, put);
        Ok(())
    }

    /// Changes the tree as [`Volume::change_fitting`] does, and keeps it: after `Ok` no crash loses
    /// it, nor any change before it.
    ///
    /// # Errors
    ///
    /// Those of [`Volume::change_fitting`].
    pub fn keep_fitting(&mut self, edits: &[Edit<'_>]) -> Result<(), VolumeFault>
        requires change { IsChange (volume_state self.old) edits.now }
        requires fitting { IsTrue (fits (volume_state self.old).limits
            (edited_by (volume_state self.old) edits.now)) }
        ensures volume { AltersVolume self.old self.new
            (IsTree (volume_state self.old) (edited_by (volume_state self.old) edits.now))
            (ending_of result) }
        ensures shows { OnOk result (ShowsTree D.keeps_word
            (edited_by (volume_state self.old) edits.now) (volume_state self.new).tree) }
        // If it fails
        ensures down { IsErrOf result VolumeFault.Down ↔ ((volume_state self.old).is_down ≡ true) }
        ensures space { ¬ IsErrOf result VolumeFault.NoSpace }
    {
        self.change_fitting(edits)?;
        self.flush()
    }
}
