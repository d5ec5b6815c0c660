//! CREATE of a directory.

use crate::changing::{NewNode, made_edits, metadata_with_change};
use crate::created::Created;
use crate::fault::FsFault;
use crate::fs::Fs;
use crate::lists::list_created;
use crate::nodes::is_directory;
use crate::rights::grants;
use acl_eval::{Cred, Mask, NodeKind};
use directory::check_name;
use disk::Device;
use model::not_done::NotDone;
use model_tree::acl::Acl;
use model_tree::status::Status;
use node_table::CachedNode;
use std::alloc::{AllocError, Global};
use tree_edits::Edit;
use tree_transaction::Metadata;
use wire_attributes::{GivenAttributes, SETTABLE_AT_CREATION, Settings, check_attributes};

/// The directory that a caller asks for.
#[derive(Clone, Copy)]
pub struct NewDirectory<'a> {
    /// The number of the directory that is to hold it.
    pub parent: u64,
    pub name: &'a [u8],
    /// At most the mode and the list.
    pub attributes: GivenAttributes<'a>,
}

/// A directory that may be made.
#[derive(Drop)]
struct Planned<'a> {
    /// The change that makes it.
    edits: Vec<Edit<'a>>,
    created: Created,
}

/// A node's metadata if only its room matters. Needs no memory.
fn blank_metadata(alloc: Global) -> Metadata {
    Metadata {
        owner: 0,
        group: 0,
        acl: Acl::new(alloc),
        change: 0,
        time_modify: 0,
    }
}

#[tactic(auto, unfolding(crate::specs::Views::fs_of, crate::specs::Views::fs_failures))]
impl<D: Device> Fs<D> {
    ghost use Rattle.std.specs.Prelude.{◌≡◌, ◌≤◌, ◌<◌, ◌+◌, ◌^◌, ℕ, true, false, None, length, OnOk, IfOk, IfErr, IsErrOf};
    ghost use Rattle.tree_transaction.specs.Nodes.{metadata_of};
    ghost use Rattle.tree_edits.specs.Edits.{AreEntries};
    ghost use Rattle.layout.specs.Known.{IsCached};
    ghost use Rattle.model_tree.specs.Refusals.Refusal.{first_refusal};
    ghost use Rattle.model_tree.specs.Trees.Stamp.{next_stamp};
    ghost use Rattle.model.specs.Operations.Step.{State};
    ghost use Rattle.model_tree.specs.Trees.Tree.{Node};
    ghost use Rattle.wire_attributes.specs.Given.{given_of, AreSettings, WithinLimits, IsChecked, IsCheckedInMemory};
    ghost use Rattle.fs.specs.OnTree.{new_directory_refusals};
    ghost use Rattle.fs.specs.Changes.{fs_ending};
    ghost use Rattle.fs.specs.Views.{fs_of, AltersFs};
    ghost use Rattle.fs.specs.Operations.{IsOn, MakesDir, MakesDirBy, MakesTree, IsNotDone, new_directory};
    ghost use Rattle.fs.specs.Making.{IsDirectoryOf, IsSizeOf, MayBeMade, first_content, first_node, room_tests};
    ghost use Rattle.fs.specs.Making.{tree_with};
    ghost use Rattle.fs.specs.Planned.{IsList, IsPlanned, child_metadata, list_by};
    ghost use Rattle.fs.specs.Refusals.{MindsRoom, fault_of};
    ghost use Rattle.volume.specs.Edits.{edited_by};
    ghost use Rattle.volume.specs.Nodes.{IsNodeOf};

    /// CREATE of a directory (RFC 8881, section 18.4), by this caller at this moment, in
    /// nanoseconds since 1970. It is kept or waits ([`Fs::set_deferring`]); `has_room` says whether
    /// the reply has room for the result.
    ///
    /// # Errors
    ///
    /// Refused by the first of these that holds: STALE, NOTDIR, an invalid name, attributes that
    /// may not be set, ACCESS without the right to add a directory, EXIST, NOSPC, and SERVERFAULT
    /// if the run has used up its stamps; then `NoRoom`. Memory may run out before or after any of
    /// them.
    pub fn make_dir(
        &mut self,
        cred: &Cred,
        now: u64,
        asked: NewDirectory,
        has_room: bool,
    ) -> Result<Created, FsFault>
        requires { length asked.attributes.bitmap.now ≤ 8 }
        ensures step { (state : State) → IsOn (fs_of self.old) cred.now asked.entry.parent state
            → MakesDir D.keeps_word (fs_of self.old) (fs_of self.new) state now
            asked.entry.name.now (given_of asked.entry.attributes) result }
        ensures volume { AltersFs self.old self.new
            (MakesTree (fs_of self.old) cred.now asked.entry.parent now
            (new_directory asked.entry.name.now (given_of asked.entry.attributes)))
            (fs_ending result) }
        // If the reply has no room
        ensures room { MindsRoom has_room (fs_of self.old).volume.is_down result }
    {
        if self.is_down() {
            return Err(FsFault::Down);
        }
        let planned = self.plan_dir(cred, now, asked)?;
        if !has_room {
            return Err(FsFault::NoRoom);
        }
        self.change_stable(&planned.edits)?;
        Ok(planned.created)
    }

    /// The change that makes a directory, if nothing refuses it except that its reply has no room.
    fn plan_dir<'a>(
        &self,
        cred: &Cred,
        now: u64,
        asked: NewDirectory<'a>,
    ) -> Result<Planned<'a>, NotDone>
        requires up { (fs_of self.now).volume.is_down ≡ false }
        requires few { length asked.attributes.bitmap.now ≤ 8 }
        ensures planned { IfOk result (λ planned.
            IsPlanned (fs_of self.now) planned.edits.items) }
        ensures step { (state : State) → IsOn (fs_of self.now) cred.now asked.entry.parent state
            → IfOk result (λ planned. MakesDirBy (fs_of self.now) state now asked.entry.name.now
            (given_of asked.entry.attributes) planned.edits.items planned.created) }
        // If it fails
        ensures refused { (state : State) → IsOn (fs_of self.now) cred.now asked.entry.parent state
            → IfErr result (λ refusal. IsNotDone (fs_of self.now) state now
            (new_directory asked.entry.name.now (given_of asked.entry.attributes))
            (fault_of refusal)) }
    {
        let (parent, settings) = self.permit_dir(cred, asked)?;
        let new = NewNode {
            directory: asked.parent,
            name: asked.name,
            kind: NodeKind::Directory,
            size: 0,
        };
        let stamp = self.stamp_for_node(parent, new)?;
        let metadata = self.new_node(cred, parent, NodeKind::Directory, settings, stamp, now)?;
        let edits = self.plan_node(parent, new, metadata, stamp, now)?;
        Ok(Planned {
            edits,
            created: Created {
                number: stamp,
                before: parent.inode.change,
            },
        })
    }

    /// The tests before those of room and stamps: the directory that is to hold the new one, and
    /// what is set.
    fn permit_dir(
        &self,
        cred: &Cred,
        asked: NewDirectory,
    ) -> Result<(&CachedNode, Settings), NotDone>
        requires { length asked.attributes.bitmap.now ≤ 8 }
        // Its tests, in their order
        ensures tests { IsCheckedInMemory
            (new_directory_refusals (fs_of self.entry.now).volume.limits
            (fs_of self.entry.now).volume.tree cred.now asked.entry.parent asked.entry.name.now
            (given_of asked.entry.attributes)) result }
        // If none holds
        ensures parent { IfOk result (λ permitted.
            IsNodeOf (fs_of self.entry.now).volume.tree asked.entry.parent permitted.0.now) }
        ensures fit { IfOk result (λ permitted. IsCached permitted.0.now) }
        ensures settings { IfOk result (λ permitted.
            AreSettings permitted.1 (given_of asked.entry.attributes)) }
        ensures within { IfOk result (λ permitted.
            WithinLimits (fs_of self.entry.now).volume.limits NodeKind.Directory permitted.1) }
    {
        let Some(parent) = self.volume.node(asked.parent) else {
            return Err(NotDone::Status(Status::Stale));
        };
        if !is_directory(parent) {
            return Err(NotDone::Status(Status::NotDir));
        }
        let limits = self.volume.limits();
        check_name(asked.name, limits)?;
        let settings = check_attributes(
            self.alloc,
            limits,
            NodeKind::Directory,
            &SETTABLE_AT_CREATION,
            asked.attributes,
        )?;
        if !grants(parent, cred, Mask::APPEND_DATA) {
            return Err(NotDone::Status(Status::Access));
        }
        if parent.names.get(asked.name).is_some() {
            return Err(NotDone::Status(Status::Exist));
        }
        Ok((parent, settings))
    }

    /// The stamp of the change that makes a node in a directory, if the tree has room for it and a
    /// stamp is left; otherwise NOSPC or SERVERFAULT. The room is that for a node with the number
    /// 0.
    pub(crate) fn stamp_for_node(
        &self,
        parent: &CachedNode,
        new: NewNode<'_>,
    ) -> Result<u64, Status>
        requires up { (fs_of self.now).volume.is_down ≡ false }
        requires parent { IsDirectoryOf (fs_of self.now).volume.tree new.directory parent.now }
        // Its tests, in their order
        ensures tests { (node : Node) (now : ℕ)
            → MayBeMade (fs_of self.now) new.entry.directory new.entry.name.now node
            → node.content ≡ first_content new.entry.kind new.entry.size
            → IsChecked (room_tests (fs_of self.now) (tree_with (fs_of self.now)
            new.entry.directory new.entry.name.now node now)) result }
        // If none holds
        ensures stamp { IfOk result (λ stamp.
            stamp ≡ next_stamp (fs_of self.now).volume.run (fs_of self.now).changes) }
        ensures left { OnOk result ((fs_of self.now).changes + 1 < 2 ^ 32) }
    {
        let node = Edit::PutNode {
            number: 0,
            kind: new.kind,
            metadata: blank_metadata(self.alloc),
        };
        let name = Edit::PutName {
            directory: new.directory,
            stamp: 0,
            name: new.name,
            number: 0,
        };
        match new.kind {
            NodeKind::Directory => self.stamp_for(&[node, name]),
            NodeKind::File => {
                let size = Edit::SetSize {
                    file: 0,
                    size: new.size,
                };
                self.stamp_for(&[node, size, name])
            }
        }
    }

    /// The change that makes a node in a directory, if none of the tests of room and stamps holds.
    pub(crate) fn plan_node<'a>(
        &self,
        parent: &CachedNode,
        new: NewNode<'a>,
        metadata: Metadata,
        stamp: u64,
        now: u64,
    ) -> Result<Vec<Edit<'a>>, AllocError>
        requires up { (fs_of self.now).volume.is_down ≡ false }
        requires parent { IsDirectoryOf (fs_of self.now).volume.tree new.directory parent.now }
        requires size { IsSizeOf new.kind new.size }
        requires made { MayBeMade (fs_of self.now) new.directory new.name.now
            (first_node new.kind new.size (metadata_of metadata)) }
        requires entries { AreEntries (metadata_of metadata).acl }
        requires stamp { stamp ≡ next_stamp (fs_of self.now).volume.run (fs_of self.now).changes }
        requires room { first_refusal (room_tests (fs_of self.now) (tree_with (fs_of self.now)
            new.directory new.name.now (first_node new.kind new.size (metadata_of metadata)) now))
            ≡ None }
        ensures planned { IfOk result (λ edits. IsPlanned (fs_of self.now) edits.items) }
        ensures after { IfOk result (λ edits. edited_by (fs_of self.now).volume edits.items
            ≡ tree_with (fs_of self.now) new.entry.directory new.entry.name.now
            (first_node new.entry.kind new.entry.size (metadata_of metadata)) now) }
    {
        let directory_metadata = metadata_with_change(parent, stamp, now)?;
        let edits = made_edits(self.alloc, new, stamp, metadata, directory_metadata)?;
        Ok(edits)
    }

    /// The metadata of a new node of this caller.
    pub(crate) fn new_node(
        &self,
        cred: &Cred,
        parent: &CachedNode,
        kind: NodeKind,
        settings: Settings,
        stamp: u64,
        now: u64,
    ) -> Result<Metadata, AllocError>
        requires within { WithinLimits (fs_of self.now).volume.limits kind settings }
        requires listed { IsList (fs_of self.now).volume.limits NodeKind.Directory
            parent.now.fields.acl }
        ensures metadata { IfOk result (λ child. metadata_of child
            ≡ child_metadata cred.now (list_by kind parent.now.fields.acl settings) stamp now) }
        ensures entries { IfOk result (λ child. AreEntries (metadata_of child).acl) }
    {
        let (owner, group) = (cred.uid, cred.gid);
        let acl = list_created(self.alloc, parent.inode.acl.as_slice(), kind, settings)?;
        Ok(Metadata {
            owner,
            group,
            acl,
            change: stamp,
            time_modify: now,
        })
    }
}
