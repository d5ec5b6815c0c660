//! REMOVE.

use crate::changing::{metadata_with_change, removed_edits};
use crate::fault::FsFault;
use crate::fs::Fs;
use crate::nodes::is_directory;
use acl_eval::Cred;
use directory::check_name;
use disk::Device;
use model::not_done::NotDone;
use model_tree::status::Status;
use node_table::CachedNode;
use tree_edits::Edit;

/// A name that was removed.
#[derive(Clone, Copy, PartialEq, Eq)]
pub struct Removed {
    /// The number of the node that it led to, which is gone.
    pub number: u64,
    /// The change value of its directory, before.
    pub before: u64,
    /// The new change value of its directory.
    pub after: u64,
}

/// A name that may be removed.
#[derive(Clone, Copy)]
struct Removal<'a> {
    /// The directory that has it.
    directory: &'a CachedNode,
    /// The name's entry stamp.
    stamp: u64,
    /// The number of the node that it leads to.
    number: u64,
}

/// The change that removes a name.
#[derive(Drop)]
struct Planned<'a> {
    edits: Vec<Edit<'a>>,
    removed: Removed,
}

#[tactic(auto, unfolding(crate::specs::Views::fs_of, crate::specs::Views::fs_failures))]
impl<D: Device> Fs<D> {
    ghost use Rattle.std.specs.Prelude.{◌≡◌, true, false, Some, OnOk, IfOk, IfErr, IsErrOf};
    ghost use Rattle.directory.specs.Records.{record_from};
    ghost use Rattle.layout.specs.Known.{IsCached};
    ghost use Rattle.model_tree.specs.Trees.Tree.{number_named};
    ghost use Rattle.model.specs.Operations.Operation.{Argument};
    ghost use Rattle.model_tree.specs.Trees.Stamp.{is_stamp_left};
    ghost use Rattle.model.specs.Operations.Step.{State};
    ghost use Rattle.model_tree.specs.Trees.Tree.{entry_of, names_at};
    ghost use Rattle.wire_attributes.specs.Given.{IsChecked};
    ghost use Rattle.fs.specs.Changes.{fs_ending};
    ghost use Rattle.fs.specs.Views.{fs_of, AltersFs};
    ghost use Rattle.fs.specs.Operations.{IsOn, MakesTree, IsNotDone};
    ghost use Rattle.fs.specs.Planned.{IsPlanned};
    ghost use Rattle.fs.specs.Refusals.{MindsRoom, fault_of};
    ghost use Rattle.fs.specs.Removing.{Removes, RemovesBy, removal_refusals};
    ghost use Rattle.volume.specs.Nodes.{IsNodeOf};

    /// REMOVE of a name in the directory of this number (RFC 8881, section 18.25), by this caller
    /// at this moment, in nanoseconds since 1970: the name is gone, and the node that it led to. It
    /// is kept or waits ([`Fs::set_deferring`]); `has_room` says whether the reply has room for the
    /// result.
    ///
    /// # Errors
    ///
    /// Refused by the first of these that holds: STALE, NOTDIR, an invalid name, NOENT, ACCESS with
    /// neither the right to delete the node nor that to delete a child of the directory, NOTEMPTY,
    /// and SERVERFAULT if the run has used up its stamps; then `NoRoom`. It is never NOSPC. Memory
    /// may run out before or after any of them, but not if no stamp is left.
    pub fn remove(
        &mut self,
        cred: &Cred,
        now: u64,
        directory: u64,
        name: &[u8],
        has_room: bool,
    ) -> Result<Removed, FsFault>
        ensures step { (state : State) → IsOn (fs_of self.old) cred.now directory state
            → Removes D.keeps_word (fs_of self.old) (fs_of self.new) state now name.now result }
        ensures gone { IfOk result (λ removed. removed.number
            ≡ number_named (fs_of self.old).volume.tree directory name.now) }
        ensures volume { AltersFs self.old self.new
            (MakesTree (fs_of self.old) cred.now directory now (Argument.Remove name.now))
            (fs_ending result) }
        // If the reply has no room
        ensures room { MindsRoom has_room (fs_of self.old).volume.is_down result }
        ensures memory { is_stamp_left (fs_of self.old).changes ≡ false
            → ¬ IsErrOf result FsFault.Memory }
    {
        if self.is_down() {
            return Err(FsFault::Down);
        }
        let planned = self.plan_removal(cred, now, directory, name)?;
        if !has_room {
            return Err(FsFault::NoRoom);
        }
        self.change_stable(&planned.edits)?;
        Ok(planned.removed)
    }

    /// The change that removes a name, if nothing refuses it except that its reply has no room.
    fn plan_removal<'a>(
        &self,
        cred: &Cred,
        now: u64,
        directory: u64,
        name: &'a [u8],
    ) -> Result<Planned<'a>, NotDone>
        requires up { (fs_of self.now).volume.is_down ≡ false }
        ensures planned { IfOk result (λ planned.
            IsPlanned (fs_of self.now) planned.edits.items) }
        ensures gone { IfOk result (λ planned. planned.removed.number
            ≡ number_named (fs_of self.now).volume.tree directory name.now) }
        ensures step { (state : State) → IsOn (fs_of self.now) cred.now directory state
            → IfOk result (λ planned. RemovesBy (fs_of self.now) state now name.now
            planned.edits.items planned.removed) }
        // If it fails
        ensures refused { (state : State) → IsOn (fs_of self.now) cred.now directory state
            → IfErr result (λ refusal. IsNotDone (fs_of self.now) state now
            (Argument.Remove name.now) (fault_of refusal)) }
        ensures memory { is_stamp_left (fs_of self.now).changes ≡ false
            → ¬ IsErrOf result NotDone.Memory }
    {
        let removal = self.permit_removal(cred, directory, name)?;
        let holder = removal.directory;
        let Some(stamp) = self.stamp_left() else {
            return Err(NotDone::Status(Status::ServerFault));
        };
        let metadata = metadata_with_change(holder, stamp, now)?;
        let edits = removed_edits(
            self.alloc,
            directory,
            removal.stamp,
            name,
            removal.number,
            metadata,
        )?;
        Ok(Planned {
            edits,
            removed: Removed {
                number: removal.number,
                before: holder.inode.change,
                after: stamp,
            },
        })
    }

    /// The tests before those of room and stamps: the directory that has the name, and the
    /// node that has it.
    fn permit_removal(
        &self,
        cred: &Cred,
        directory: u64,
        name: &[u8],
    ) -> Result<Removal<'_>, Status>
        ensures tests { IsChecked (removal_refusals (fs_of self.entry.now).volume.limits
            (fs_of self.entry.now).volume.tree cred.now directory name.now) result }
        ensures directory { IfOk result (λ removal.
            IsNodeOf (fs_of self.entry.now).volume.tree directory removal.directory.now) }
        ensures fit { IfOk result (λ removal. IsCached removal.directory.now) }
        ensures entry { IfOk result (λ removal.
            entry_of name.now (names_at (fs_of self.entry.now).volume.tree directory)
            ≡ Some (record_from removal.stamp name.now removal.number)) }
    {
        let Some(cached) = self.volume.node(directory) else {
            return Err(Status::Stale);
        };
        if !is_directory(cached) {
            return Err(Status::NotDir);
        }
        check_name(name, self.volume.limits())?;
        let Some((stamp, number)) = cached.names.get(name) else {
            return Err(Status::NoEnt);
        };
        if !self.may_remove(cred, cached, number) {
            return Err(Status::Access);
        }
        if self.has_names(number) {
            return Err(Status::NotEmpty);
        }
        Ok(Removal {
            directory: cached,
            stamp,
            number,
        })
    }
}
