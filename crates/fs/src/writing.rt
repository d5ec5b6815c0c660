//! WRITE and COMMIT.

use crate::changing::{metadata_with_change, written_edits};
use crate::fault::FsFault;
use crate::fs::Fs;
use acl_eval::{Cred, Mask};
use disk::Device;
use model::not_done::NotDone;
use model_tree::status::Status;
use tree_edits::Edit;

/// The bytes that a caller writes to a file.
#[derive(Clone, Copy)]
pub struct Writing<'a> {
    /// The offset of the first of them.
    pub offset: u64,
    pub bytes: &'a [u8],
    /// Whether they are to last (not `UNSTABLE4`).
    pub is_stable: bool,
}

#[tactic(auto, unfolding(crate::specs::Views::fs_of, crate::specs::Views::fs_failures))]
impl<D: Device> Fs<D> {
    ghost use Rattle.std.specs.Prelude.{◌≡◌, ◌+◌, ◌<◌, ◌≤◌, ◌⊎◌, true, false, ℕ, length, take, OnOk, IfOk, IfErr, IfSome, IfNone, IsErrOf, IsTrue};
    ghost use Rattle.model.specs.Operations.Files.{are_bytes};
    ghost use Rattle.model.specs.Operations.Operation.{Argument, CommitArguments, WriteArguments};
    ghost use Rattle.model_tree.specs.Trees.Stamp.{is_stamp_left};
    ghost use Rattle.model.specs.Operations.Step.{State};
    ghost use Rattle.fs.specs.Changes.{fs_ending};
    ghost use Rattle.fs.specs.Views.{fs_of, AltersFs};
    ghost use Rattle.fs.specs.Operations.{IsOn, IsNotDone};
    ghost use Rattle.fs.specs.Planned.{IsPlanned};
    ghost use Rattle.fs.specs.Refusals.{MindsRoom, fault_of};
    ghost use Rattle.fs.specs.Verdicts.{IsPossible};
    ghost use Rattle.fs.specs.Writing.{Commits, IsWrittenTree, IsWriting, Writes, WritesBy, WritesTree, bytes_taken};
    ghost use Rattle.volume.specs.Changes.{IsTree};
    ghost use Rattle.volume.specs.Edits.{edited_by};
    ghost use Rattle.volume.specs.Formed.{ShowsTree};

    /// WRITE (RFC 8881, section 18.32) to the file of this number, by this caller at this moment,
    /// in nanoseconds since 1970: writes the first bytes, up to what one WRITE takes, and returns
    /// how many. What is to be stable is kept or waits ([`Fs::set_deferring`]); a crash may lose
    /// anything else until the next flush. Writing no bytes is no change. `verdict` is that on the
    /// stateid, for an open with write access; `has_room` says whether the reply has room.
    ///
    /// # Errors
    ///
    /// Refused by the first of these that holds: STALE, ISDIR, the verdict's refusal, ACCESS
    /// without the right to write, FBIG if the bytes exceed the limit of a file, NOSPC, and
    /// SERVERFAULT if the run has used up its stamps; then `NoRoom`. Memory may run out before or
    /// after any of the last three, but not if no stamp is left.
    pub fn write(
        &mut self,
        cred: &Cred,
        now: u64,
        number: u64,
        verdict: Result<(), Status>,
        asked: Writing<'_>,
        has_room: bool,
    ) -> Result<u32, FsFault>
        requires possible { IsPossible verdict }
        ensures step { (state : State) (arguments : WriteArguments)
            → IsOn (fs_of self.old) cred.now number state
            → IsWriting state verdict asked.entry arguments
            → Writes D.keeps_word (fs_of self.old) (fs_of self.new) state now arguments result }
        ensures count { IfOk result (λ count.
            count ≡ length (bytes_taken (fs_of self.old) asked.entry)) }
        ensures volume { AltersFs self.old self.new
            (WritesTree (fs_of self.old) cred.now number now verdict asked.entry)
            (fs_ending result) }
        // If the reply has no room
        ensures room { MindsRoom has_room (fs_of self.old).volume.is_down result }
        // Without a stamp no memory is needed: it is refused with SERVERFAULT or NOSPC
        ensures memory { is_stamp_left (fs_of self.old).changes ≡ false
            → ¬ IsErrOf result FsFault.Memory }
    {
        if self.is_down() {
            return Err(FsFault::Down);
        }
        if asked.bytes.is_empty() {
            self.permit_file(cred, number, verdict, Mask::WRITE_DATA)?;
            if !has_room {
                return Err(FsFault::NoRoom);
            }
            return Ok(0);
        }
        let edits = self.plan_write(cred, now, number, verdict, asked)?;
        if !has_room {
            return Err(FsFault::NoRoom);
        }
        self.apply_plan(&edits, asked.is_stable)?;
        Ok(self.taken(asked.bytes).len() as u32)
    }

    /// The change that writes bytes, if nothing refuses it except that its reply has no room.
    fn plan_write<'a>(
        &self,
        cred: &Cred,
        now: u64,
        number: u64,
        verdict: Result<(), Status>,
        asked: Writing<'a>,
    ) -> Result<[Edit<'a>; 2], NotDone>
        requires up { (fs_of self.now).volume.is_down ≡ false }
        requires some { 0 < length asked.bytes.now }
        ensures planned { IfOk result (λ edits. IsPlanned (fs_of self.now) edits) }
        ensures step { (state : State) (arguments : WriteArguments)
            → IsOn (fs_of self.now) cred.now number state
            → IsWriting state verdict asked.entry arguments
            → IfOk result (λ edits. WritesBy (fs_of self.now) state now arguments
            (length (bytes_taken (fs_of self.now) asked.entry)) edits) }
        // If it fails
        ensures refused { (state : State) (arguments : WriteArguments)
            → IsOn (fs_of self.now) cred.now number state
            → IsWriting state verdict asked.entry arguments
            → IfErr result (λ refusal. IsNotDone (fs_of self.now) state now
            (Argument.Write arguments) (fault_of refusal)) }
        ensures memory { is_stamp_left (fs_of self.now).changes ≡ false
            → ¬ IsErrOf result NotDone.Memory }
    {
        let part = self.taken(asked.bytes);
        let cached = self.permit_file(cred, number, verdict, Mask::WRITE_DATA)?;
        let Some(offset) = self.place_in_file(asked.offset, part.len()) else {
            return Err(NotDone::Status(Status::FBig));
        };
        let put = Edit::PutBytes {
            file: number,
            offset,
            bytes: part,
        };
        let stamp = self.stamp_for(&[put])?;
        let metadata = metadata_with_change(cached, stamp, now)?;
        Ok(written_edits(number, offset, part, metadata))
    }

    /// The bytes that one WRITE takes of these: the first of them.
    fn taken<'a>(&self, bytes: &'a [u8]) -> &'a [u8]
        ensures taken { result.now
            ≡ take (fs_of self.now).volume.limits.transfer_bytes bytes.now }
        ensures few { length result.now ≤ 8192 }
        ensures bytes { IsTrue (are_bytes bytes.now) }
    {
        &bytes[..bytes.len().min(self.volume.limits().transfer_bytes)]
    }

    /// The offset of `len` bytes in a file: `None` if they exceed the limit of one.
    fn place_in_file(&self, offset: u64, len: usize) -> Option<usize>
        ensures some { IfSome result (λ place. (place ≡ offset)
            × (offset + len ≤ (fs_of self.now).volume.limits.file_bytes)) }
        ensures none { IfNone result
            ((fs_of self.now).volume.limits.file_bytes < offset + len) }
    {
        let most = self.volume.limits().file_bytes;
        if offset > most as u64 {
            return None;
        }
        let place = offset as usize;
        if len > most - place {
            return None;
        }
        Some(place)
    }

    /// Makes a change, and counts it; one that is to be stable is kept or waits.
    fn apply_plan(&mut self, edits: &[Edit<'_>], is_stable: bool) -> Result<(), FsFault>
        // A change that may be made
        requires up { (fs_of self.old).volume.is_down ≡ false }
        requires planned { IsPlanned (fs_of self.old) edits.now }
        // However it ends
        ensures volume { AltersFs self.old self.new
            (IsWrittenTree (fs_of self.old).volume edits.now is_stable) (fs_ending result) }
        // If it succeeds
        ensures shows { OnOk result (ShowsTree D.keeps_word
            (edited_by (fs_of self.old).volume edits.now) (fs_of self.new).volume.tree) }
        ensures counted { OnOk result ((fs_of self.new).changes ≡ (fs_of self.old).changes + 1) }
        // If it fails
        ensures only { IfErr result (λ fault.
            (fault ≡ FsFault.Memory) ⊎ (fault ≡ FsFault.Device)) }
    {
        if is_stable {
            self.change_stable(edits)
        } else {
            self.change_unstable(edits)
        }
    }

    /// COMMIT (RFC 8881, section 18.3) of the file of this number, by this caller: keeps all
    /// changes so far, of every file, or lets them wait for [`Fs::flush`], whichever part of the
    /// file it asks for. `has_room` says whether the reply has room.
    ///
    /// # Errors
    ///
    /// STALE, ISDIR; then `NoRoom`, and nothing is kept; Device if the device failed.
    pub fn commit(&mut self, cred: &Cred, number: u64, has_room: bool) -> Result<(), FsFault>
        ensures step { (state : State) (now : ℕ) (arguments : CommitArguments)
            → IsOn (fs_of self.old) cred.now number state
            → Commits D.keeps_word (fs_of self.old) (fs_of self.new) state now arguments result }
        ensures volume { AltersFs self.old self.new
            (IsTree (fs_of self.old).volume (fs_of self.old).volume.tree) (fs_ending result) }
        // If the reply has no room
        ensures room { MindsRoom has_room (fs_of self.old).volume.is_down result }
    {
        if self.is_down() {
            return Err(FsFault::Down);
        }
        self.file(number)?;
        if !has_room {
            return Err(FsFault::NoRoom);
        }
        if self.defers {
            self.waits = true;
            return Ok(());
        }
        self.volume.flush()?;
        Ok(())
    }
}
