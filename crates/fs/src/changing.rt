//! Changes of the tree: the edits that they consist of, and keeping them.

ghost use Rattle.std.specs.Prelude.{◌≡◌, ◌⊎◌, ◌+◌, ◌<◌, true, false, IfOk, IfErr, OnOk, MatchOption, ◌^◌};
ghost use Rattle.tree_transaction.specs.Nodes.{metadata_of};
ghost use Rattle.fs.specs.Planned.{metadata_by};
ghost use Rattle.fs.specs.Forms.{edits_by, resizing};
ghost use Rattle.fs.specs.Forms as form;

use crate::fault::FsFault;
use crate::fs::Fs;
use acl_eval::NodeKind;
use disk::Device;
use model_tree::stamps::stamp;
use model_tree::status::Status;
use node_table::CachedNode;
use std::alloc::{AllocError, Global};
use tree_edits::Edit;
use tree_transaction::Metadata;

/// A node's metadata after a change of its content.
pub(crate) fn metadata_with_change(
    cached: &CachedNode,
    stamp: u64,
    now: u64,
) -> Result<Metadata, AllocError>
    ensures { IfOk result
        (λ metadata. metadata_of metadata ≡ metadata_by cached.now.fields stamp now) }
{
    let inode = &cached.inode;
    Ok(Metadata {
        owner: inode.owner,
        group: inode.group,
        acl: inode.acl.try_clone()?,
        change: stamp,
        time_modify: now,
    })
}

/// A node that is to be made, and its name.
#[derive(Clone, Copy)]
pub(crate) struct NewNode<'a> {
    /// The number of its directory.
    pub(crate) directory: u64,
    pub(crate) name: &'a [u8],
    pub(crate) kind: NodeKind,
    /// For a file in bytes, which are zeros; 0 for a directory.
    pub(crate) size: u64,
}

/// The edits of a new node with the change's number, its name, and its directory's metadata.
pub(crate) fn made_edits<'a>(
    alloc: Global,
    new: NewNode<'a>,
    stamp: u64,
    metadata: Metadata,
    directory_metadata: Metadata,
) -> Result<Vec<Edit<'a>>, AllocError>
    ensures { IfOk result (λ edits. edits.items
        ≡ edits_by (form.Making stamp new.entry.kind new.entry.size metadata new.entry.directory
        new.entry.name directory_metadata)) }
{
    let node = Edit::PutNode {
        number: stamp,
        kind: new.kind,
        metadata,
    };
    let name = Edit::PutName {
        directory: new.directory,
        stamp,
        name: new.name,
        number: stamp,
    };
    let shows = Edit::Show {
        number: new.directory,
        metadata: directory_metadata,
    };
    if new.size == 0 {
        return Ok(vec![in alloc; node, name, shows]?);
    }
    let size = Edit::SetSize {
        file: stamp,
        size: new.size,
    };
    Ok(vec![in alloc; node, size, name, shows]?)
}

/// The edits that remove a name and the node that it leads to, and set its directory's metadata.
pub(crate) fn removed_edits<'a>(
    alloc: Global,
    directory: u64,
    stamp: u64,
    name: &'a [u8],
    number: u64,
    directory_metadata: Metadata,
) -> Result<Vec<Edit<'a>>, AllocError>
    ensures { IfOk result (λ edits. edits.items ≡ edits_by (form.Removing
        (record { directory = directory; stamp = stamp; name = name.entry }) number
        directory_metadata)) }
{
    let name_gone = Edit::DropName {
        directory,
        stamp,
        name,
    };
    let shows = Edit::Show {
        number: directory,
        metadata: directory_metadata,
    };
    Ok(vec![in alloc; name_gone, Edit::DropNode { number }, shows]?)
}

/// The edits that write bytes of a file from `offset` on, and set the file's metadata. Needs
/// no memory.
pub(crate) fn written_edits<'a>(
    file: u64,
    offset: usize,
    bytes: &'a [u8],
    metadata: Metadata,
) -> [Edit<'a>; 2]
    ensures { result ≡ edits_by (form.Writing file offset bytes.entry metadata) }
{
    let put = Edit::PutBytes {
        file,
        offset,
        bytes,
    };
    let shows = Edit::Show {
        number: file,
        metadata,
    };
    [put, shows]
}

/// The edits that set the size of a file, if there is one, and the node's metadata.
pub(crate) fn set_edits<'a>(
    alloc: Global,
    number: u64,
    size: Option<u64>,
    metadata: Metadata,
) -> Result<Vec<Edit<'a>>, AllocError>
    ensures { IfOk result (λ edits. edits.items ≡ edits_by (form.Setting number size metadata)) }
{
    let shows = Edit::Show { number, metadata };
    match size {
        None => Ok(vec![in alloc; shows]?),
        Some(size) => Ok(vec![in alloc; Edit::SetSize { file: number, size }, shows]?),
    }
}

#[tactic(auto, unfolding(crate::specs::Views::fs_of, crate::specs::Views::fs_failures))]
impl<D: Device> Fs<D> {
    ghost use Rattle.fs.specs.Changes.{fs_ending};
    ghost use Rattle.fs.specs.Views.{fs_of, AltersFs};
    ghost use Rattle.tree_edits.specs.Measures.{AreMeasurable};
    ghost use Rattle.fs.specs.Making.{AsRoomy, room_tests};
    ghost use Rattle.fs.specs.Opening.{IsShortNumber};
    ghost use Rattle.fs.specs.Planned.{IsPlanned};
    ghost use Rattle.model_tree.specs.Trees.Stamp.{next_stamp, is_stamp_left};
    ghost use Rattle.model_tree.specs.Trees.Tree.{Tree};
    ghost use Rattle.wire_attributes.specs.Given.{IsChecked};
    ghost use Rattle.volume.specs.Changes.{IsTree};
    ghost use Rattle.volume.specs.Edits.{IsEdited, edited_by};
    ghost use Rattle.volume.specs.Formed.{ShowsTree};

    /// The stamp of the next change: 0 if it has more than 64 bits, after the last change of the
    /// last run.
    pub(crate) fn next_stamp(&self) -> u64
        ensures { IsShortNumber
            (next_stamp (fs_of self.now).volume.run (fs_of self.now).changes) result }
    {
        stamp(self.restart_count(), self.changes).wrapping_add(1)
    }

    /// The same: `None` if the run has no stamp left.
    pub(crate) fn stamp_left(&self) -> Option<u64>
        ensures { MatchOption result (is_stamp_left (fs_of self.now).changes ≡ false) (λ stamp.
            (stamp ≡ next_stamp (fs_of self.now).volume.run (fs_of self.now).changes)
            × ((fs_of self.now).changes + 1 < 2 ^ 32)) }
    {
        if self.changes == u32::MAX {
            return None;
        }
        Some(stamp(self.restart_count(), self.changes + 1))
    }

    /// The stamp of a change, if the tree after it has room and a stamp is left; otherwise NOSPC or
    /// SERVERFAULT. The edits are those of the change, or others that need the same room: metadata
    /// needs none, and a new node and its name need the same whichever number they get.
    pub(crate) fn stamp_for(&self, edits: &[Edit<'_>]) -> Result<u64, Status>
        requires { AreMeasurable (fs_of self.now).volume.tree edits.now }
        // Its tests, in their order
        ensures tests { (after : Tree)
            → AsRoomy (fs_of self.now) after (edited_by (fs_of self.now).volume edits.now)
            → IsChecked (room_tests (fs_of self.now) after) result }
        // If none holds
        ensures stamp { IfOk result (λ stamp.
            stamp ≡ next_stamp (fs_of self.now).volume.run (fs_of self.now).changes) }
        ensures left { OnOk result ((fs_of self.now).changes + 1 < 2 ^ 32) }
    {
        if !self.volume.fits(edits) {
            return Err(Status::NoSpc);
        }
        match self.stamp_left() {
            Some(stamp) => Ok(stamp),
            None => Err(Status::ServerFault),
        }
    }

    /// The same, for a change that sets a node's size, or for one that sets none.
    pub(crate) fn stamp_to_resize(&self, number: u64, size: Option<u64>) -> Result<u64, Status>
        // Its tests, in their order
        ensures tests { (after : Tree) → AsRoomy (fs_of self.now) after
            (edited_by (fs_of self.now).volume (resizing number size))
            → IsChecked (room_tests (fs_of self.now) after) result }
        // If none holds
        ensures stamp { IfOk result (λ stamp.
            stamp ≡ next_stamp (fs_of self.now).volume.run (fs_of self.now).changes) }
        ensures left { OnOk result ((fs_of self.now).changes + 1 < 2 ^ 32) }
    {
        match size {
            None => self.stamp_for(&[]),
            Some(size) => self.stamp_for(&[Edit::SetSize { file: number, size }]),
        }
    }

    /// Makes a change, and counts it. A crash may lose it until the next flush.
    pub(crate) fn change_unstable(&mut self, edits: &[Edit<'_>]) -> Result<(), FsFault>
        // A change that may be made
        requires up { (fs_of self.old).volume.is_down ≡ false }
        requires planned { IsPlanned (fs_of self.old) edits.now }
        // However it ends
        ensures volume { AltersFs self.old self.new
            (IsEdited (fs_of self.old).volume edits.now) (fs_ending result) }
        // If it succeeds
        ensures shows { OnOk result (ShowsTree D.keeps_word
            (edited_by (fs_of self.old).volume edits.now) (fs_of self.new).volume.tree) }
        ensures counted { OnOk result ((fs_of self.new).changes ≡ (fs_of self.old).changes + 1) }
        // If it fails
        ensures only { IfErr result (λ fault.
            (fault ≡ FsFault.Memory) ⊎ (fault ≡ FsFault.Device)) }
    {
        self.volume.change_fitting(edits)?;
        self.changes += 1;
        Ok(())
    }

    /// Keeps a change, and counts it; or it waits for the next flush.
    pub(crate) fn change_stable(&mut self, edits: &[Edit<'_>]) -> Result<(), FsFault>
        // A change that may be made
        requires up { (fs_of self.old).volume.is_down ≡ false }
        requires planned { IsPlanned (fs_of self.old) edits.now }
        // However it ends
        ensures volume { AltersFs self.old self.new
            (IsTree (fs_of self.old).volume
            (edited_by (fs_of self.old).volume edits.now)) (fs_ending result) }
        // If it succeeds
        ensures shows { OnOk result (ShowsTree D.keeps_word
            (edited_by (fs_of self.old).volume edits.now) (fs_of self.new).volume.tree) }
        ensures counted { OnOk result ((fs_of self.new).changes ≡ (fs_of self.old).changes + 1) }
        // If it fails
        ensures only { IfErr result (λ fault.
            (fault ≡ FsFault.Memory) ⊎ (fault ≡ FsFault.Device)) }
    {
        if self.defers {
            self.volume.change_fitting(edits)?;
            self.waits = true;
        } else {
            self.volume.keep_fitting(edits)?;
        }
        self.changes += 1;
        Ok(())
    }
}
