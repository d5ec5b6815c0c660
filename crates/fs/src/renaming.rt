//! RENAME.

ghost use Rattle.std.specs.Prelude.{◌≡◌, IfOk, option_map};
ghost use Rattle.fs.specs.Renaming.{arguments_of, is_itself};
ghost use Rattle.fs.specs.RenameTests.{old_place, new_place};
ghost use Rattle.fs.specs.Forms.{edits_by};
ghost use Rattle.fs.specs.Forms as form;

use crate::changing::metadata_with_change;
use crate::fault::FsFault;
use crate::fs::Fs;
use crate::nodes::is_directory;
use crate::rights::grants;
use acl_eval::{Cred, Mask};
use directory::check_name;
use disk::Device;
use model::not_done::NotDone;
use model_tree::status::Status;
use node_table::CachedNode;
use std::alloc::{AllocError, Global};
use tree_edits::Edit;
use tree_transaction::Metadata;

/// The rename that a caller asks for.
#[derive(Clone, Copy)]
pub struct Renaming<'a> {
    /// The number of the directory that has the name, the saved filehandle.
    pub from: u64,
    pub old_name: &'a [u8],
    /// The number of the directory that is to have it, the current filehandle.
    pub to: u64,
    pub new_name: &'a [u8],
}

/// The change value of a directory, before and after.
#[derive(Clone, Copy, PartialEq, Eq)]
pub struct Change {
    pub before: u64,
    pub after: u64,
}

/// A name that was given to its node in place of another one.
#[derive(Clone, Copy, PartialEq, Eq)]
pub struct Renamed {
    /// The directory that had the node.
    pub source: Change,
    /// The directory that has it.
    pub target: Change,
    /// The number of the node that had the new name, and is gone.
    pub replaced: Option<u64>,
}

/// What a rename moves.
#[derive(Clone, Copy)]
struct Moving<'a> {
    from: &'a CachedNode,
    to: &'a CachedNode,
    /// The old name's entry stamp.
    stamp: u64,
    /// The number of the node that it leads to.
    number: u64,
}

/// The change of a rename: `None` if a name is renamed to itself.
#[derive(Drop)]
struct Planned<'a> {
    edits: Option<Vec<Edit<'a>>>,
    renamed: Renamed,
}

/// Whether a name is renamed to itself.
fn is_itself(asked: Renaming<'_>) -> bool
    ensures { result ≡ is_itself asked.entry.from asked.entry.to (arguments_of asked.entry) }
{
    asked.from == asked.to && asked.old_name == asked.new_name
}

/// The number that an entry leads to, if there is one.
fn number_of(entry: Option<(u64, u64)>) -> Option<u64>
    ensures { result ≡ option_map (λ found. found.1) entry }
{
    match entry {
        Some((_, number)) => Some(number),
        None => None,
    }
}

/// The edits of a rename: what has the new name is gone, if something has it; what had the old one
/// has the new one; and both directories' metadata.
fn renamed_edits<'a>(
    alloc: Global,
    asked: Renaming<'a>,
    moving: Moving<'_>,
    target: Option<(u64, u64)>,
    stamp: u64,
    from_metadata: Metadata,
    to_metadata: Metadata,
) -> Result<Vec<Edit<'a>>, AllocError>
    ensures { IfOk result (λ edits. edits.items ≡ edits_by (form.Moving moving.entry.number
        (old_place asked.entry moving.entry.stamp) (new_place asked.entry stamp) target
        from_metadata to_metadata)) }
{
    let old_gone = Edit::DropName {
        directory: asked.from,
        stamp: moving.stamp,
        name: asked.old_name,
    };
    let new = Edit::PutName {
        directory: asked.to,
        stamp,
        name: asked.new_name,
        number: moving.number,
    };
    let from_shows = Edit::Show {
        number: asked.from,
        metadata: from_metadata,
    };
    let to_shows = Edit::Show {
        number: asked.to,
        metadata: to_metadata,
    };
    let Some((target_stamp, number)) = target else {
        return Ok(vec![in alloc; old_gone, new, from_shows, to_shows]?);
    };
    let target_gone = Edit::DropName {
        directory: asked.to,
        stamp: target_stamp,
        name: asked.new_name,
    };
    let node_gone = Edit::DropNode { number };
    Ok(vec![in alloc; target_gone, node_gone, old_gone, new, from_shows, to_shows]?)
}

#[tactic(auto, unfolding(crate::specs::Views::fs_of, crate::specs::Views::fs_failures))]
impl<D: Device> Fs<D> {
    ghost use Rattle.std.specs.Prelude.{◌≡◌, true, false, None, OnOk, IfOk, IfErr, IsErrOf};
    ghost use Rattle.std.specs.Prelude.{MatchOption};
    ghost use Rattle.model.specs.Operations.Operation.{Argument};
    ghost use Rattle.model_tree.specs.Refusals.Refusal.{first_refusal};
    ghost use Rattle.model.specs.Operations.Step.{State};
    ghost use Rattle.model_tree.specs.Trees.Tree.{is_directory_at};
    ghost use Rattle.wire_attributes.specs.Given.{IsChecked};
    ghost use Rattle.fs.specs.Changes.{fs_ending};
    ghost use Rattle.fs.specs.Views.{fs_of, AltersFs};
    ghost use Rattle.fs.specs.Making.{IsDirectoryOf};
    ghost use Rattle.fs.specs.Operations.{IsNotDone};
    ghost use Rattle.fs.specs.Planned.{IsPlanned};
    ghost use Rattle.fs.specs.Refusals.{MindsRoom, fault_of};
    ghost use Rattle.fs.specs.Renaming.{IsOnBoth, Renames, RenamesAsPlanned, RenamesTree, arguments_of, replaced_in};
    ghost use Rattle.fs.specs.Renaming.{IsMoved, is_itself, number_under};
    ghost use Rattle.fs.specs.RenameTests.{FindsMoving, IsTarget, directory_refusals};
    ghost use Rattle.fs.specs.RenameTests.{moving_refusals, placing_refusals};
    ghost use Rattle.fs.specs.RenameTests.{is_in_the_way, may_rename, may_replace};

    /// RENAME of what a name in one directory leads to (RFC 8881, section 18.26), by this caller at
    /// this moment, in nanoseconds since 1970: it has the new name, in the other directory or the
    /// same. What had that name is gone. It is kept or waits ([`Fs::set_deferring`]); `has_room`
    /// says whether the reply has room for the result.
    ///
    /// Renaming a name to itself is no change, and uses up no stamp.
    ///
    /// # Errors
    ///
    /// Refused by the first of these that holds: STALE for `to`, then for `from`; NOTDIR; an
    /// invalid old name, then an invalid new one; NOENT. If the name is not renamed to itself, also
    /// by ACCESS without the rights to remove the old name, to remove the new one if it is there,
    /// and to add a file or a directory to `to`; INVAL if a directory would go below itself; EXIST
    /// if only one of the two is a directory, or what is there has names; NOSPC, and SERVERFAULT if
    /// the run has used up its stamps. Then `NoRoom`. Memory may run out before or after any of
    /// them.
    pub fn rename(
        &mut self,
        cred: &Cred,
        now: u64,
        asked: Renaming<'_>,
        has_room: bool,
    ) -> Result<Renamed, FsFault>
        ensures step { (state : State) → IsOnBoth (fs_of self.old) cred.now asked.entry.from
            asked.entry.to state → Renames D.keeps_word (fs_of self.old) (fs_of self.new) state now
            (arguments_of asked.entry) result }
        ensures replaced { IfOk result (λ renamed. renamed.replaced
            ≡ replaced_in (fs_of self.old).volume.tree asked.entry.from asked.entry.to
            (arguments_of asked.entry)) }
        ensures volume { AltersFs self.old self.new
            (RenamesTree (fs_of self.old) cred.now asked.entry.from asked.entry.to now
            (arguments_of asked.entry)) (fs_ending result) }
        // If the reply has no room
        ensures room { MindsRoom has_room (fs_of self.old).volume.is_down result }
    {
        if self.is_down() {
            return Err(FsFault::Down);
        }
        let planned = self.plan_rename(cred, now, asked)?;
        if !has_room {
            return Err(FsFault::NoRoom);
        }
        let Planned { edits, renamed } = planned;
        let Some(edits) = edits else {
            return Ok(renamed);
        };
        self.change_stable(&edits)?;
        Ok(renamed)
    }

    /// The change of a rename, if nothing refuses it except that its reply has no room.
    fn plan_rename<'a>(
        &self,
        cred: &Cred,
        now: u64,
        asked: Renaming<'a>,
    ) -> Result<Planned<'a>, NotDone>
        requires up { (fs_of self.now).volume.is_down ≡ false }
        ensures planned { IfOk result (λ planned. MatchOption planned.edits
            (is_itself asked.entry.from asked.entry.to (arguments_of asked.entry) ≡ true)
            (λ edits. IsPlanned (fs_of self.now) edits.items)) }
        ensures replaced { IfOk result (λ planned. planned.renamed.replaced
            ≡ replaced_in (fs_of self.now).volume.tree asked.entry.from asked.entry.to
            (arguments_of asked.entry)) }
        ensures step { (state : State) → IsOnBoth (fs_of self.now) cred.now asked.entry.from
            asked.entry.to state
            → IfOk result (RenamesAsPlanned (fs_of self.now) state now
            (arguments_of asked.entry)) }
        // If it fails
        ensures refused { (state : State) → IsOnBoth (fs_of self.now) cred.now asked.entry.from
            asked.entry.to state → IfErr result (λ refusal. IsNotDone (fs_of self.now) state now
            (Argument.Rename (arguments_of asked.entry)) (fault_of refusal)) }
    {
        let moving = self.find_moved(asked)?;
        let (from, to) = (moving.from, moving.to);
        if is_itself(asked) {
            let (source, target) = (from.inode.change, to.inode.change);
            return Ok(Planned {
                edits: None,
                renamed: Renamed {
                    source: Change {
                        before: source,
                        after: source,
                    },
                    target: Change {
                        before: target,
                        after: target,
                    },
                    replaced: None,
                },
            });
        }
        self.plan_move(cred, now, asked, moving)
    }

    /// The tests before those of rights: both directories, and what the old name leads to.
    fn find_moved(&self, asked: Renaming<'_>) -> Result<Moving<'_>, Status>
        ensures tests { IsChecked (moving_refusals (fs_of self.entry.now).volume.limits
            (fs_of self.entry.now).volume.tree asked.entry.from asked.entry.to
            (arguments_of asked.entry)) result }
        ensures moved { IfOk result (λ moving.
            FindsMoving (fs_of self.entry.now).volume.tree asked.entry moving) }
    {
        let (from, to) = self.both_directories(asked)?;
        let limits = self.volume.limits();
        check_name(asked.old_name, limits)?;
        check_name(asked.new_name, limits)?;
        let Some((stamp, number)) = from.names.get(asked.old_name) else {
            return Err(Status::NoEnt);
        };
        Ok(Moving {
            from,
            to,
            stamp,
            number,
        })
    }

    /// The directory that has the old name, and the one that is to have the new one. STALE, NOTDIR.
    fn both_directories(&self, asked: Renaming<'_>) -> Result<(&CachedNode, &CachedNode), Status>
        ensures tests { IsChecked (directory_refusals (fs_of self.entry.now).volume.tree
            asked.entry.from asked.entry.to) result }
        ensures from { IfOk result (λ both.
            IsDirectoryOf (fs_of self.entry.now).volume.tree asked.entry.from both.0.now) }
        ensures to { IfOk result (λ both.
            IsDirectoryOf (fs_of self.entry.now).volume.tree asked.entry.to both.1.now) }
    {
        let Some(to) = self.volume.node(asked.to) else {
            return Err(Status::Stale);
        };
        let Some(from) = self.volume.node(asked.from) else {
            return Err(Status::Stale);
        };
        if is_directory(from) && is_directory(to) {
            Ok((from, to))
        } else {
            Err(Status::NotDir)
        }
    }

    /// The change of a name that is not renamed to itself, after the tests of both directories and
    /// of the old name.
    fn plan_move<'a>(
        &self,
        cred: &Cred,
        now: u64,
        asked: Renaming<'a>,
        moving: Moving<'_>,
    ) -> Result<Planned<'a>, NotDone>
        requires up { (fs_of self.now).volume.is_down ≡ false }
        requires moved { FindsMoving (fs_of self.now).volume.tree asked moving }
        requires passed { first_refusal (moving_refusals (fs_of self.now).volume.limits
            (fs_of self.now).volume.tree asked.from asked.to (arguments_of asked)) ≡ None }
        requires other { is_itself asked.from asked.to (arguments_of asked) ≡ false }
        ensures planned { IfOk result (λ planned. MatchOption planned.edits ⊥ (λ edits.
            IsPlanned (fs_of self.now) edits.items)) }
        ensures replaced { IfOk result (λ planned. planned.renamed.replaced
            ≡ number_under (fs_of self.now).volume.tree asked.entry.to asked.entry.new_name.now) }
        ensures step { (state : State) → IsOnBoth (fs_of self.now) cred.now asked.entry.from
            asked.entry.to state → IfOk result (λ planned. MatchOption planned.edits ⊥ (λ edits.
            IsMoved (fs_of self.now) state now (arguments_of asked.entry) edits.items
            planned.renamed)) }
        // If it fails
        ensures refused { (state : State) → IsOnBoth (fs_of self.now) cred.now asked.entry.from
            asked.entry.to state → IfErr result (λ refusal. IsNotDone (fs_of self.now) state now
            (Argument.Rename (arguments_of asked.entry)) (fault_of refusal)) }
    {
        let (from, to) = (moving.from, moving.to);
        let target = to.names.get(asked.new_name);
        self.permit_rename(cred, asked, moving, target)?;
        // which stamp the new name gets does not matter to the room: 0 if none is left
        let stamp = self.stamp_left().unwrap_or(0);
        let from_metadata = metadata_with_change(from, stamp, now)?;
        let to_metadata = metadata_with_change(to, stamp, now)?;
        let edits = renamed_edits(
            self.alloc,
            asked,
            moving,
            target,
            stamp,
            from_metadata,
            to_metadata,
        )?;
        self.stamp_for(&edits)?;
        Ok(Planned {
            edits: Some(edits),
            renamed: Renamed {
                source: Change {
                    before: from.inode.change,
                    after: stamp,
                },
                target: Change {
                    before: to.inode.change,
                    after: stamp,
                },
                replaced: number_of(target),
            },
        })
    }

    /// The tests of a name that is not renamed to itself, before those of room and of stamps.
    fn permit_rename(
        &self,
        cred: &Cred,
        asked: Renaming<'_>,
        moving: Moving<'_>,
        target: Option<(u64, u64)>,
    ) -> Result<(), Status>
        requires moved { FindsMoving (fs_of self.now).volume.tree asked moving }
        requires target { IsTarget (fs_of self.now).volume.tree asked target }
        ensures { IsChecked (placing_refusals (fs_of self.now).volume.tree cred.now
            asked.entry.from asked.entry.to (arguments_of asked.entry)) result }
    {
        let moves_directory = self.has_directory(moving.number);
        if !self.has_rename_rights(cred, asked, moving, target, moves_directory) {
            return Err(Status::Access);
        }
        if moves_directory && self.volume.is_below(moving.number, asked.to) {
            return Err(Status::Inval);
        }
        if self.cannot_replace(target, moves_directory) {
            return Err(Status::Exist);
        }
        Ok(())
    }

    /// Whether something is in the way of what moves: only one of the two is a directory, or it has
    /// names.
    fn cannot_replace(&self, target: Option<(u64, u64)>, moves_directory: bool) -> bool
        ensures { result ≡ is_in_the_way (fs_of self.now).volume.tree moves_directory target }
    {
        let Some((_, number)) = target else {
            return false;
        };
        let is_directory = self.has_directory(number);
        let is_other = if moves_directory {
            !is_directory
        } else {
            is_directory
        };
        is_other || self.has_names(number)
    }

    /// Whether a caller may remove the old name, and the new one if it is there, and add what moves
    /// to its directory.
    fn has_rename_rights(
        &self,
        cred: &Cred,
        asked: Renaming<'_>,
        moving: Moving<'_>,
        target: Option<(u64, u64)>,
        moves_directory: bool,
    ) -> bool
        requires moved { FindsMoving (fs_of self.now).volume.tree asked moving }
        requires target { IsTarget (fs_of self.now).volume.tree asked target }
        requires kind { moves_directory
            ≡ is_directory_at (fs_of self.now).volume.tree moving.number }
        ensures { result ≡ may_rename (fs_of self.now).volume.tree cred.now asked.entry.from
            asked.entry.to (arguments_of asked.entry) }
    {
        let (from, to) = (moving.from, moving.to);
        let adding = if moves_directory {
            Mask::APPEND_DATA
        } else {
            Mask::WRITE_DATA
        };
        self.may_remove(cred, from, moving.number)
            && self.may_replace(cred, to, target)
            && grants(to, cred, adding)
    }

    /// Whether a caller may remove what has the new name, if something has it.
    fn may_replace(&self, cred: &Cred, directory: &CachedNode, target: Option<(u64, u64)>) -> bool
        ensures { result ≡ may_replace (fs_of self.now).volume.tree cred.now directory.now target }
    {
        match target {
            Some((_, number)) => self.may_remove(cred, directory, number),
            None => true,
        }
    }
}
