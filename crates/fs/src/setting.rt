//! SETATTR.

ghost use Rattle.std.specs.Prelude.{◌≡◌};
ghost use Rattle.model_tree.specs.Rights.Acl.{granted};
ghost use Rattle.wire_attributes.specs.Given.{IsChecked};
ghost use Rattle.fs.specs.Setting.{may_set, sized_refusals};

use crate::changing::set_edits;
use crate::fault::FsFault;
use crate::fs::Fs;
use crate::lists::list_set;
use crate::nodes::is_directory;
use crate::rights::grants;
use acl_eval::{Cred, Mask};
use disk::Device;
use model::not_done::NotDone;
use model_tree::status::Status;
use node_table::CachedNode;
use std::alloc::AllocError;
use tree_edits::Edit;
use tree_transaction::Metadata;
use wire_attributes::{
    Attribute, GivenAttributes, SETTABLE_AT_SETATTR, Settings, check_attributes, is_among,
    numbers_of,
};

/// What a caller sets of a node.
#[derive(Clone, Copy)]
pub struct Setting<'a> {
    /// The node's number.
    pub number: u64,
    /// On the stateid, for an open with write access; it matters only if a size is set.
    pub verdict: Result<(), Status>,
    pub attributes: GivenAttributes<'a>,
}

/// Whether a caller has the rights to set attributes of these numbers on a node.
fn may_set(cached: &CachedNode, cred: &Cred, attributes: &[u32]) -> bool
    ensures { result ≡ may_set (granted cached.now.fields.acl cached.now.fields.owner
        cached.now.fields.group cred.now) attributes.now }
{
    let sizes = is_among(attributes, Attribute::Size);
    let lists = is_among(attributes, Attribute::Mode) || is_among(attributes, Attribute::Acl);
    let owners = is_among(attributes, Attribute::Owner)
        || is_among(attributes, Attribute::OwnerGroup);
    (!sizes || grants(cached, cred, Mask::WRITE_DATA))
        && (!lists || grants(cached, cred, Mask::WRITE_ACL))
        && (!owners || grants(cached, cred, Mask::WRITE_OWNER))
}

/// The tests of a size, if one is set: ISDIR for a directory, and the verdict's refusal.
fn check_sized(
    is_sized: bool,
    is_directory: bool,
    verdict: Result<(), Status>,
) -> Result<(), Status>
    ensures { IsChecked (sized_refusals is_sized is_directory verdict) result }
{
    if !is_sized {
        return Ok(());
    }
    if is_directory {
        return Err(Status::IsDir);
    }
    verdict
}

#[tactic(auto, unfolding(crate::specs::Views::fs_of, crate::specs::Views::fs_failures))]
impl<D: Device> Fs<D> {
    ghost use Rattle.std.specs.Prelude.{◌≡◌, ◌≤◌, true, false, length, OnOk, IfOk, IfErr, IsErrOf};
    ghost use Rattle.std.specs.Prelude.{MatchOption};
    ghost use Rattle.tree_transaction.specs.Nodes.{metadata_of};
    ghost use Rattle.tree_edits.specs.Edits.{AreEntries};
    ghost use Rattle.layout.specs.Known.{IsCached};
    ghost use Rattle.model.specs.Attributes.Attribute.{is_empty};
    ghost use Rattle.model.specs.Operations.Operation.{Argument, SetAttrArguments};
    ghost use Rattle.model.specs.Operations.Step.{State};
    ghost use Rattle.wire_attributes.specs.Given.{given_of, AreSettings, WithinLimits};
    ghost use Rattle.wire_attributes.specs.Given.{IsCheckedInMemory};
    ghost use Rattle.fs.specs.Changes.{fs_ending};
    ghost use Rattle.fs.specs.Views.{fs_of, AltersFs};
    ghost use Rattle.fs.specs.Operations.{IsOn, IsNotDone};
    ghost use Rattle.fs.specs.Planned.{IsList, IsPlanned};
    ghost use Rattle.fs.specs.Refusals.{MindsRoom, fault_of};
    ghost use Rattle.fs.specs.Setting.{IsSetting, SetsAsPlanned, SetsAttributes, SetsTree};
    ghost use Rattle.fs.specs.Setting.{setting_tests, metadata_with};
    ghost use Rattle.fs.specs.Verdicts.{IsPossible};
    ghost use Rattle.volume.specs.Nodes.{IsNodeOf};

    /// SETATTR (RFC 8881, section 18.30) of a node, by this caller at this moment, in nanoseconds
    /// since 1970. It is kept or waits ([`Fs::set_deferring`]); `has_room` says whether the reply
    /// has room for the result. A list that is set stays, even if a mode is set with it.
    ///
    /// An empty bitmap is no change, and uses up no stamp.
    ///
    /// # Errors
    ///
    /// Refused by the first of these that holds: STALE; attributes that may not be set; if a size
    /// is set, ISDIR for a directory and then the verdict's refusal; ACCESS without the right to
    /// write for a size, to write the list for a mode or a list, and to write the owner for an
    /// owner or a group; NOSPC, and SERVERFAULT if the run has used up its stamps; then `NoRoom`.
    /// Memory may run out before or after any of them.
    pub fn set_attributes(
        &mut self,
        cred: &Cred,
        now: u64,
        asked: Setting<'_>,
        has_room: bool,
    ) -> Result<(), FsFault>
        requires few { length asked.attributes.bitmap.now ≤ 8 }
        requires possible { IsPossible asked.verdict }
        ensures step { (state : State) (arguments : SetAttrArguments)
            → IsOn (fs_of self.old) cred.now asked.entry.number state
            → IsSetting state asked.entry arguments
            → SetsAttributes D.keeps_word (fs_of self.old) (fs_of self.new) state now arguments
            result }
        ensures volume { AltersFs self.old self.new
            (SetsTree (fs_of self.old) cred.now now asked.entry) (fs_ending result) }
        // If the reply has no room
        ensures room { MindsRoom has_room (fs_of self.old).volume.is_down result }
    {
        if self.is_down() {
            return Err(FsFault::Down);
        }
        let planned = self.plan_setting(cred, now, asked)?;
        if !has_room {
            return Err(FsFault::NoRoom);
        }
        let Some(edits) = planned else {
            return Ok(());
        };
        self.change_stable(&edits)
    }

    /// The change that sets attributes, if nothing refuses it except that its reply has no room:
    /// `None` if no attribute is given.
    fn plan_setting<'a>(
        &self,
        cred: &Cred,
        now: u64,
        asked: Setting<'a>,
    ) -> Result<Option<Vec<Edit<'a>>>, NotDone>
        requires up { (fs_of self.now).volume.is_down ≡ false }
        requires few { length asked.attributes.bitmap.now ≤ 8 }
        ensures planned { IfOk result (λ planned. MatchOption planned
            (is_empty asked.entry.attributes.bitmap.now ≡ true)
            (λ edits. IsPlanned (fs_of self.now) edits.items)) }
        ensures step { (state : State) (arguments : SetAttrArguments)
            → IsOn (fs_of self.now) cred.now asked.entry.number state
            → IsSetting state asked.entry arguments
            → IfOk result (SetsAsPlanned (fs_of self.now) state now arguments) }
        // If it fails
        ensures refused { (state : State) (arguments : SetAttrArguments)
            → IsOn (fs_of self.now) cred.now asked.entry.number state
            → IsSetting state asked.entry arguments
            → IfErr result (λ refusal. IsNotDone (fs_of self.now) state now
            (Argument.SetAttr arguments) (fault_of refusal)) }
    {
        let (cached, settings) = self.permit_setting(cred, asked)?;
        if settings.is_empty {
            return Ok(None);
        }
        let size = settings.size;
        let stamp = self.stamp_to_resize(asked.number, size)?;
        let metadata = self.metadata_set(cached, settings, stamp, now)?;
        let edits = set_edits(self.alloc, asked.number, size, metadata)?;
        Ok(Some(edits))
    }

    /// The tests before those of room and stamps: the node, and what is set.
    fn permit_setting(
        &self,
        cred: &Cred,
        asked: Setting<'_>,
    ) -> Result<(&CachedNode, Settings), NotDone>
        requires { length asked.attributes.bitmap.now ≤ 8 }
        // Its tests, in their order
        ensures tests { IsCheckedInMemory (setting_tests (fs_of self.entry.now).volume.limits
            (fs_of self.entry.now).volume.tree cred.now asked.entry.number asked.entry.verdict
            (given_of asked.entry.attributes)) result }
        // If none holds
        ensures node { IfOk result (λ permitted.
            IsNodeOf (fs_of self.entry.now).volume.tree asked.entry.number permitted.0.now) }
        ensures fit { IfOk result (λ permitted. IsCached permitted.0.now) }
        ensures settings { IfOk result (λ permitted.
            AreSettings permitted.1 (given_of asked.entry.attributes)) }
        ensures within { IfOk result (λ permitted. WithinLimits
            (fs_of self.entry.now).volume.limits permitted.0.now.fields.kind permitted.1) }
    {
        let Some(cached) = self.volume.node(asked.number) else {
            return Err(NotDone::Status(Status::Stale));
        };
        let settings = check_attributes(
            self.alloc,
            self.volume.limits(),
            cached.inode.kind,
            &SETTABLE_AT_SETATTR,
            asked.attributes,
        )?;
        check_sized(settings.size.is_some(), is_directory(cached), asked.verdict)?;
        let attributes = numbers_of(self.alloc, asked.attributes.bitmap)?;
        if !may_set(cached, cred, &attributes) {
            return Err(NotDone::Status(Status::Access));
        }
        Ok((cached, settings))
    }

    /// A node's metadata with these settings, which passed their tests.
    fn metadata_set(
        &self,
        cached: &CachedNode,
        settings: Settings,
        stamp: u64,
        now: u64,
    ) -> Result<Metadata, AllocError>
        requires within { WithinLimits (fs_of self.now).volume.limits cached.now.fields.kind
            settings }
        requires listed { IsList (fs_of self.now).volume.limits cached.now.fields.kind
            cached.now.fields.acl }
        ensures metadata { IfOk result (λ metadata.
            metadata_of metadata ≡ metadata_with cached.now.fields settings stamp now) }
        ensures entries { IfOk result (λ metadata. AreEntries (metadata_of metadata).acl) }
    {
        let inode = &cached.inode;
        let owner = settings.owner.unwrap_or(inode.owner);
        let group = settings.group.unwrap_or(inode.group);
        let time_modify = if settings.size.is_some() {
            now
        } else {
            inode.time_modify
        };
        let acl = list_set(
            self.alloc,
            inode.kind,
            &inode.acl,
            settings.mode,
            settings.acl,
        )?;
        Ok(Metadata {
            owner,
            group,
            acl,
            change: stamp,
            time_modify,
        })
    }
}
