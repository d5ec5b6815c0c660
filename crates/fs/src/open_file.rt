//! OPEN of a file by its name.

use crate::changing::{NewNode, metadata_with_change, set_edits};
use crate::fault::FsFault;
use crate::fs::Fs;
use crate::nodes::is_directory;
use crate::opening::{How, OpenEffect, OpenRoom, Opened, Opening, check_share, may_open};
use crate::renaming::Change;
use crate::rights::grants;
use acl_eval::{Cred, Mask, NodeKind};
use directory::check_name;
use disk::Device;
use model::not_done::NotDone;
use model_tree::status::Status;
use node_table::CachedNode;
use tree_edits::Edit;
use wire_attributes::{GivenAttributes, SETTABLE_AT_OPEN, Settings, check_attributes};

/// An open that passed its tests.
#[derive(Drop)]
struct Planned<'a> {
    /// The change that makes its file or truncates it.
    edits: Option<Vec<Edit<'a>>>,
    opened: Opened,
}

#[tactic(auto, unfolding(crate::specs::Views::fs_of, crate::specs::Views::fs_failures))]
impl<D: Device> Fs<D> {
    ghost use Rattle.std.specs.Prelude.{◌≡◌, ◌≤◌, true, false, None, length, OnOk, IfOk, IfErr, IsErrOf};
    ghost use Rattle.std.specs.Prelude.{MatchOption, ⊤};
    ghost use Rattle.layout.specs.Known.{IsCached};
    ghost use Rattle.model_tree.specs.declared.node.NodeKind.TheVariants as kind;
    ghost use Rattle.model.specs.Attributes.Attribute.{attribute_refusals, settable_at_open};
    ghost use Rattle.model_tree.specs.Trees.Tree.{is_named};
    ghost use Rattle.model_tree.specs.Refusals.Name.{name_refusals};
    ghost use Rattle.model.specs.Operations.Open.{cuts, given_by, known_refusals, new_refusals};
    ghost use Rattle.model.specs.Operations.Operation.{Argument, OpenArguments, Unchecked};
    ghost use Rattle.model_tree.specs.Refusals.Refusal.{first_refusal};
    ghost use Rattle.model_tree.specs.Trees.Stamp.{is_stamp_left};
    ghost use Rattle.model.specs.Operations.Step.{State};
    ghost use Rattle.wire_attributes.specs.Given.{given_of, AreSettings, WithinLimits, IsChecked, IsCheckedInMemory};
    ghost use Rattle.fs.specs.Changes.{fs_ending};
    ghost use Rattle.fs.specs.Views.{fs_of, AltersFs};
    ghost use Rattle.fs.specs.Making.{IsDirectoryOf, room_tests};
    ghost use Rattle.fs.specs.OnTree.{IsState};
    ghost use Rattle.fs.specs.Opening.{IsOpened, IsOpening, IsPlaced, NameLeadsTo, OpensAsPlanned, OpensFile, OpensTree};
    ghost use Rattle.fs.specs.Opening.{file_tests, has_open_room, place_tests, tree_cut, type_of};
    ghost use Rattle.fs.specs.Operations.{IsOn, IsNotDone};
    ghost use Rattle.fs.specs.Planned.{IsPlanned};
    ghost use Rattle.fs.specs.Refusals.{MindsRoom, fault_of};
    ghost use Rattle.volume.specs.Edits.{edited_by};
    ghost use Rattle.volume.specs.Nodes.{IsNodeOf};

    /// OPEN of a file by its name (RFC 8881, section 18.16, `CLAIM_NULL`), by this caller at this
    /// moment, in nanoseconds since 1970. A file that it makes or truncates is kept or waits
    /// ([`Fs::set_deferring`]); otherwise it changes only the table of opens. `is_full` says
    /// whether that has no room for it, `room` whether the reply has room.
    ///
    /// # Errors
    ///
    /// Refused by the first of these that holds: STALE; INVAL for an invalid access, SHAREDENIED,
    /// INVAL for an invalid denial; NOTDIR, an invalid name, ACCESS without the right to look it
    /// up. If the name is there: EXIST if it may not be, else ISDIR; if it is not, NOENT if it has
    /// to be. Then attributes that may not be set, if some are given; ACCESS without the rights to
    /// read or to write the file, as it asks and as a truncation requires, or to add a file; DELAY
    /// if the table is full; and for a file that is made or truncated NOSPC, and SERVERFAULT if the
    /// run has used up its stamps. Then `NoRoom`. Memory may run out before or after any of them.
    pub fn open_file(
        &mut self,
        cred: &Cred,
        now: u64,
        asked: Opening<'_>,
        is_full: bool,
        room: OpenRoom,
    ) -> Result<Opened, FsFault>
        requires { length (given_by (type_of asked.how)).bitmap ≤ 8 }
        ensures step { (state : State) (arguments : OpenArguments)
            → IsOn (fs_of self.old) cred.now asked.entry.directory state
            → IsOpening (fs_of self.old) state asked.entry is_full arguments
            → OpensFile D.keeps_word (fs_of self.old) (fs_of self.new) state now asked.entry
            arguments result }
        ensures volume { AltersFs self.old self.new
            (OpensTree (fs_of self.old) cred.now now asked.entry is_full) (fs_ending result) }
        // Opened
        ensures opened { IfOk result (IsOpened (fs_of self.old) asked.entry) }
        ensures full { OnOk result (is_full ≡ false) }
        // If the reply has no room
        ensures room { MindsRoom (has_open_room (fs_of self.old) asked.entry room)
            (fs_of self.old).volume.is_down result }
    {
        if self.is_down() {
            return Err(FsFault::Down);
        }
        let planned = self.plan_open(cred, now, asked, is_full)?;
        let Planned { edits, opened } = planned;
        if !room.has(opened.effect) {
            return Err(FsFault::NoRoom);
        }
        let Some(edits) = edits else {
            return Ok(opened);
        };
        self.change_stable(&edits)?;
        Ok(opened)
    }

    /// The change of an open, if nothing refuses it except that its reply has no room.
    fn plan_open<'a>(
        &self,
        cred: &Cred,
        now: u64,
        asked: Opening<'a>,
        is_full: bool,
    ) -> Result<Planned<'a>, NotDone>
        requires up { (fs_of self.now).volume.is_down ≡ false }
        requires few { length (given_by (type_of asked.how)).bitmap ≤ 8 }
        ensures planned { IfOk result (λ planned. MatchOption planned.edits ⊤ (λ edits.
            IsPlanned (fs_of self.now) edits.items)) }
        ensures step { (state : State) (arguments : OpenArguments)
            → IsOn (fs_of self.now) cred.now asked.entry.directory state
            → IsOpening (fs_of self.now) state asked.entry is_full arguments
            → IfOk result (OpensAsPlanned (fs_of self.now) state now arguments
            (type_of asked.entry.how)) }
        ensures opened { IfOk result (λ planned.
            IsOpened (fs_of self.now) asked.entry planned.opened) }
        ensures full { OnOk result (is_full ≡ false) }
        // If it fails
        ensures refused { (state : State) (arguments : OpenArguments)
            → IsOn (fs_of self.now) cred.now asked.entry.directory state
            → IsOpening (fs_of self.now) state asked.entry is_full arguments
            → IfErr result (λ refusal. IsNotDone (fs_of self.now) state now
            (Argument.Open arguments) (fault_of refusal)) }
    {
        let directory = self.permit_place(cred, asked)?;
        let Some(entry) = directory.names.get(asked.name) else {
            return self.plan_new(cred, now, asked, is_full, directory);
        };
        self.plan_known(cred, now, asked, is_full, directory, entry.1)
    }

    /// The tests of the place: the directory, the share, the name, and the right to look it up.
    fn permit_place(&self, cred: &Cred, asked: Opening<'_>) -> Result<&CachedNode, Status>
        ensures tests { (state : State) (arguments : OpenArguments)
            → IsState (fs_of self.entry.now).volume.tree cred.now asked.entry.directory state
            → arguments.access ≡ asked.entry.share.access
            → arguments.deny ≡ asked.entry.share.deny
            → IsChecked (place_tests (fs_of self.entry.now).volume.limits state arguments
            asked.entry.name.now) result }
        ensures directory { IfOk result (λ cached.
            IsDirectoryOf (fs_of self.entry.now).volume.tree asked.entry.directory cached.now) }
        ensures name { OnOk result (first_refusal (name_refusals
            (fs_of self.entry.now).volume.limits asked.entry.name.now) ≡ None) }
    {
        let Some(cached) = self.volume.node(asked.directory) else {
            return Err(Status::Stale);
        };
        check_share(asked.share)?;
        if !is_directory(cached) {
            return Err(Status::NotDir);
        }
        check_name(asked.name, self.volume.limits())?;
        if !grants(cached, cred, Mask::EXECUTE) {
            return Err(Status::Access);
        }
        Ok(cached)
    }

    /// An open of the file that the name leads to, after the tests of its place.
    fn plan_known<'a>(
        &self,
        cred: &Cred,
        now: u64,
        asked: Opening<'a>,
        is_full: bool,
        directory: &CachedNode,
        number: u64,
    ) -> Result<Planned<'a>, NotDone>
        requires up { (fs_of self.now).volume.is_down ≡ false }
        requires few { length (given_by (type_of asked.how)).bitmap ≤ 8 }
        requires directory { IsDirectoryOf (fs_of self.now).volume.tree asked.directory
            directory.now }
        requires leads { NameLeadsTo (fs_of self.now).volume.tree asked.directory asked.name.now
            number }
        ensures planned { IfOk result (λ planned. MatchOption planned.edits ⊤ (λ edits.
            IsPlanned (fs_of self.now) edits.items)) }
        ensures step { (state : State) (arguments : OpenArguments)
            → IsPlaced (fs_of self.now) cred.now asked.entry is_full state arguments
            → IfOk result (OpensAsPlanned (fs_of self.now) state now arguments
            (type_of asked.entry.how)) }
        ensures opened { IfOk result (λ planned.
            IsOpened (fs_of self.now) asked.entry planned.opened) }
        ensures full { OnOk result (is_full ≡ false) }
        // If it fails
        ensures refused { (state : State) (arguments : OpenArguments)
            → IsPlaced (fs_of self.now) cred.now asked.entry is_full state arguments
            → IfErr result (λ refusal. IsNotDone (fs_of self.now) state now
            (Argument.Open arguments) (fault_of refusal)) }
    {
        let (cached, is_cut) = self.permit_known(cred, asked, number)?;
        if is_full {
            return Err(NotDone::Status(Status::Delay));
        }
        let before = directory.inode.change;
        let same = Change {
            before,
            after: before,
        };
        if !is_cut {
            return Ok(Planned {
                edits: None,
                opened: Opened {
                    number,
                    directory: same,
                    effect: OpenEffect::Nothing,
                },
            });
        }
        let edits = self.plan_cut(cached, number, now)?;
        Ok(Planned {
            edits: Some(edits),
            opened: Opened {
                number,
                directory: same,
                effect: OpenEffect::Cut,
            },
        })
    }

    /// The tests of the file that the name leads to, and whether it is to be truncated.
    fn permit_known(
        &self,
        cred: &Cred,
        asked: Opening<'_>,
        number: u64,
    ) -> Result<(&CachedNode, bool), NotDone>
        requires few { length (given_by (type_of asked.how)).bitmap ≤ 8 }
        requires leads { NameLeadsTo (fs_of self.now).volume.tree asked.directory asked.name.now
            number }
        // Its tests, in their order
        ensures tests { (state : State)
            → IsState (fs_of self.entry.now).volume.tree cred.now asked.entry.directory state
            → IsCheckedInMemory (file_tests (fs_of self.entry.now).volume.limits state
            asked.entry.share.access (type_of asked.entry.how) asked.entry.name.now) result }
        // If none holds
        ensures node { IfOk result (λ found.
            IsNodeOf (fs_of self.entry.now).volume.tree number found.0.now) }
        ensures file { IfOk result (λ found. found.0.now.fields.kind ≡ kind.File) }
        ensures fit { IfOk result (λ found. IsCached found.0.now) }
        ensures cut { IfOk result (λ found. found.1 ≡ cuts (type_of asked.entry.how)) }
    {
        // a name always leads to a node
        let Some(cached) = self.volume.node(number) else {
            unreachable!();
        };
        let is_cut = self.check_known(cached, asked.how)?;
        if !may_open(cached, cred, asked.share.access, is_cut) {
            return Err(NotDone::Status(Status::Access));
        }
        Ok((cached, is_cut))
    }

    /// The tests of a node that is there, before those of rights, and whether it is to be
    /// truncated: it is a file, and may be there.
    fn check_known(&self, cached: &CachedNode, how: How<'_>) -> Result<bool, NotDone>
        requires few { length (given_by (type_of how)).bitmap ≤ 8 }
        ensures tests { (state : State) (number : _) → state.tree ≡ (fs_of self.now).volume.tree
            → IsNodeOf state.tree number cached.now → IsCheckedInMemory (known_refusals
            (fs_of self.now).volume.limits state number (type_of how.entry)) result }
        ensures file { OnOk result (cached.now.fields.kind ≡ kind.File) }
        ensures cut { IfOk result (λ is_cut. is_cut ≡ cuts (type_of how.entry)) }
    {
        match how {
            How::Guarded(_) => Err(NotDone::Status(Status::Exist)),
            _ if is_directory(cached) => Err(NotDone::Status(Status::IsDir)),
            How::NoCreate => Ok(false),
            How::Unchecked(given) => self.check_cut(given),
        }
    }

    /// The tests of attributes that an open gives for a file that is there, and whether they
    /// truncate it.
    fn check_cut(&self, given: GivenAttributes<'_>) -> Result<bool, NotDone>
        requires { length given.bitmap.now ≤ 8 }
        ensures tests { IsCheckedInMemory (attribute_refusals (fs_of self.now).volume.limits
            kind.File settable_at_open (given_of given.entry)) result }
        ensures cut { IfOk result (λ is_cut. is_cut ≡ cuts (Unchecked (given_of given.entry))) }
    {
        let settings = self.check_given(given)?;
        Ok(settings.size == Some(0))
    }

    /// The tests of attributes that an open gives, and what they set.
    fn check_given(&self, given: GivenAttributes<'_>) -> Result<Settings, NotDone>
        requires { length given.bitmap.now ≤ 8 }
        ensures tests { IsCheckedInMemory (attribute_refusals (fs_of self.now).volume.limits
            kind.File settable_at_open (given_of given.entry)) result }
        ensures settings { IfOk result (λ settings.
            AreSettings settings (given_of given.entry)) }
        ensures within { IfOk result (λ settings.
            WithinLimits (fs_of self.now).volume.limits kind.File settings) }
    {
        check_attributes(
            self.alloc,
            self.volume.limits(),
            NodeKind::File,
            &SETTABLE_AT_OPEN,
            given,
        )
    }

    /// The change that truncates a file, if the tree has room for it and a stamp is left; otherwise
    /// NOSPC or SERVERFAULT.
    fn plan_cut<'a>(
        &self,
        cached: &CachedNode,
        number: u64,
        now: u64,
    ) -> Result<Vec<Edit<'a>>, NotDone>
        requires up { (fs_of self.now).volume.is_down ≡ false }
        requires node { IsNodeOf (fs_of self.now).volume.tree number cached.now }
        requires file { cached.now.fields.kind ≡ kind.File }
        requires fit { IsCached cached.now }
        // Its tests, in their order
        ensures tests { IsCheckedInMemory (room_tests (fs_of self.now)
            (tree_cut (fs_of self.now) number now)) result }
        ensures memory { is_stamp_left (fs_of self.now).changes ≡ false
            → ¬ IsErrOf result NotDone.Memory }
        // If none holds
        ensures planned { IfOk result (λ edits. IsPlanned (fs_of self.now) edits.items) }
        ensures after { IfOk result (λ edits. edited_by (fs_of self.now).volume edits.items
            ≡ tree_cut (fs_of self.now) number now) }
    {
        let stamp = self.stamp_to_resize(number, Some(0))?;
        let metadata = metadata_with_change(cached, stamp, now)?;
        let edits = set_edits(self.alloc, number, Some(0), metadata)?;
        Ok(edits)
    }

    /// An open that makes its file, after the tests of its place.
    fn plan_new<'a>(
        &self,
        cred: &Cred,
        now: u64,
        asked: Opening<'a>,
        is_full: bool,
        directory: &CachedNode,
    ) -> Result<Planned<'a>, NotDone>
        requires up { (fs_of self.now).volume.is_down ≡ false }
        requires few { length (given_by (type_of asked.how)).bitmap ≤ 8 }
        requires directory { IsDirectoryOf (fs_of self.now).volume.tree asked.directory
            directory.now }
        requires allowed { first_refusal (name_refusals (fs_of self.now).volume.limits
            asked.name.now) ≡ None }
        requires lacks { is_named (fs_of self.now).volume.tree asked.directory asked.name.now
            ≡ false }
        ensures planned { IfOk result (λ planned. MatchOption planned.edits ⊤ (λ edits.
            IsPlanned (fs_of self.now) edits.items)) }
        ensures step { (state : State) (arguments : OpenArguments)
            → IsPlaced (fs_of self.now) cred.now asked.entry is_full state arguments
            → IfOk result (OpensAsPlanned (fs_of self.now) state now arguments
            (type_of asked.entry.how)) }
        ensures opened { IfOk result (λ planned. (is_full ≡ false)
            × IsOpened (fs_of self.now) asked.entry planned.opened) }
        // If it fails
        ensures refused { (state : State) (arguments : OpenArguments)
            → IsPlaced (fs_of self.now) cred.now asked.entry is_full state arguments
            → IfErr result (λ refusal. IsNotDone (fs_of self.now) state now
            (Argument.Open arguments) (fault_of refusal)) }
    {
        let settings = self.permit_new(cred, asked, directory)?;
        if is_full {
            return Err(NotDone::Status(Status::Delay));
        }
        let new = NewNode {
            directory: asked.directory,
            name: asked.name,
            kind: NodeKind::File,
            size: settings.size.unwrap_or(0),
        };
        let stamp = self.stamp_for_node(directory, new)?;
        let metadata = self.new_node(cred, directory, NodeKind::File, settings, stamp, now)?;
        let edits = self.plan_node(directory, new, metadata, stamp, now)?;
        Ok(Planned {
            edits: Some(edits),
            opened: Opened {
                number: stamp,
                directory: Change {
                    before: directory.inode.change,
                    after: stamp,
                },
                effect: OpenEffect::Made,
            },
        })
    }

    /// The tests of a file that is to be made, and what is set for it.
    fn permit_new(
        &self,
        cred: &Cred,
        asked: Opening<'_>,
        directory: &CachedNode,
    ) -> Result<Settings, NotDone>
        requires few { length (given_by (type_of asked.how)).bitmap ≤ 8 }
        requires directory { IsDirectoryOf (fs_of self.now).volume.tree asked.directory
            directory.now }
        requires lacks { is_named (fs_of self.now).volume.tree asked.directory asked.name.now
            ≡ false }
        // Its tests, in their order
        ensures tests { (state : State)
            → IsState (fs_of self.now).volume.tree cred.now asked.entry.directory state
            → IsCheckedInMemory (file_tests (fs_of self.now).volume.limits state
            asked.entry.share.access (type_of asked.entry.how) asked.entry.name.now) result }
        // If none holds
        ensures settings { IfOk result (λ settings.
            AreSettings settings (given_by (type_of asked.entry.how))) }
        ensures within { IfOk result (λ settings.
            WithinLimits (fs_of self.now).volume.limits kind.File settings) }
    {
        let settings = self.check_new(asked.how)?;
        if !grants(directory, cred, Mask::WRITE_DATA) {
            return Err(NotDone::Status(Status::Access));
        }
        Ok(settings)
    }

    /// The tests of a file that is to be made, before that of rights, and what is set for it.
    fn check_new(&self, how: How<'_>) -> Result<Settings, NotDone>
        requires few { length (given_by (type_of how)).bitmap ≤ 8 }
        ensures tests { IsCheckedInMemory (new_refusals (fs_of self.now).volume.limits
            (type_of how.entry)) result }
        ensures settings { IfOk result (λ settings.
            AreSettings settings (given_by (type_of how.entry))) }
        ensures within { IfOk result (λ settings.
            WithinLimits (fs_of self.now).volume.limits kind.File settings) }
    {
        match how {
            How::NoCreate => Err(NotDone::Status(Status::NoEnt)),
            How::Unchecked(given) | How::Guarded(given) => self.check_given(given),
        }
    }
}
