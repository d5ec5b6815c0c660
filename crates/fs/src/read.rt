//! READ.

use crate::fault::FsFault;
use crate::fs::Fs;
use acl_eval::{Cred, Mask};
use disk::Device;
use model_tree::status::Status;

/// The part of a file that a READ returns.
#[derive(Clone, Copy)]
struct Part {
    /// How many bytes.
    len: usize,
    /// Whether it reaches the file's end.
    is_end: bool,
}

#[tactic(auto, unfolding(crate::specs::Views::fs_of, crate::specs::Views::fs_failures))]
impl<D: Device> Fs<D> {
    ghost use Rattle.std.specs.Prelude.{◌≡◌, ◌+◌, ◌<◌, ◌++◌, ◌⊎◌, true, ℕ, nat_le, length, OnOk, OnErr, IfOk, IsErrOf};
    ghost use Rattle.model_tree.specs.Rights.Acl.{read_data};
    ghost use Rattle.model_tree.specs.Trees.Tree.{bytes_at};
    ghost use Rattle.model.specs.Operations.Operation.{StateId};
    ghost use Rattle.model.specs.Sessions.StateIds.{read_access};
    ghost use Rattle.model.specs.Operations.Step.{State};
    ghost use Rattle.wire_attributes.specs.Given.{IsChecked};
    ghost use Rattle.fs.specs.Files.{IsVerdict, permit_refusals};
    ghost use Rattle.fs.specs.Views.{fs_of, AltersFs};
    ghost use Rattle.fs.specs.Operations.{IsOn};
    ghost use Rattle.fs.specs.Reading.{ReadsFile, part_at, read_operation, reading_ending};
    ghost use Rattle.fs.specs.Verdicts.{IsPossible};
    ghost use Rattle.volume.specs.Changes.{IsTree};
    ghost use Rattle.volume.specs.Reading.{HasFile};

    /// READ (RFC 8881, section 18.22) of the file of this number, by this caller: appends to `out`
    /// `count` of its bytes from `offset` on, or fewer if one READ returns no more or the file ends
    /// before. Returns whether the end was reached. `verdict` is that on the stateid, for an open
    /// with read access.
    ///
    /// # Errors
    ///
    /// Refused by the first of these that holds: STALE, ISDIR, the verdict's refusal, ACCESS
    /// without the right to read. Memory and Device only if there were bytes to read. `out` is as
    /// it was.
    pub fn read(
        &mut self,
        cred: &Cred,
        number: u64,
        verdict: Result<(), Status>,
        offset: u64,
        count: u32,
        out: &mut Vec<u8>,
    ) -> Result<bool, FsFault>
        requires possible { IsPossible verdict }
        ensures step { (state : State) (now : ℕ) (stateid : StateId)
            → IsOn (fs_of self.old) cred.now number state
            → IsVerdict state read_access stateid verdict
            → ReadsFile (fs_of self.old) state now (read_operation stateid offset count)
            (part_at (fs_of self.old) number offset count) result }
        ensures bytes { D.keeps_word → OnOk result (out.new.items
            ≡ out.old.items ++ part_at (fs_of self.old) number offset count) }
        ensures err { OnErr result (out.new.items ≡ out.old.items) }
        // It only reads, and only if there is something to read
        ensures volume { AltersFs self.old self.new
            (IsTree (fs_of self.old).volume (fs_of self.old).volume.tree) (reading_ending result) }
        ensures nothing { (IsErrOf result FsFault.Memory ⊎ IsErrOf result FsFault.Device)
            → 0 < length (part_at (fs_of self.old) number offset count) }
        ensures down { (fs_of self.old).volume.is_down ≡ true → IsErrOf result FsFault.Down }
    {
        if self.is_down() {
            return Err(FsFault::Down);
        }
        let part = self.permit_read(cred, number, verdict, offset, count)?;
        if part.len > 0 {
            self.volume.bytes(number, offset, part.len, out)?;
        }
        Ok(part.is_end)
    }

    /// The tests of a READ, and the part that it returns.
    fn permit_read(
        &self,
        cred: &Cred,
        number: u64,
        verdict: Result<(), Status>,
        offset: u64,
        count: u32,
    ) -> Result<Part, Status>
        ensures tests { IsChecked (permit_refusals (fs_of self.now).volume.tree cred.now
            number read_data verdict) result }
        ensures file { OnOk result (HasFile (fs_of self.now).volume.tree number) }
        ensures len { IfOk result (λ part.
            part.len ≡ length (part_at (fs_of self.now) number offset count)) }
        ensures is_end { IfOk result (λ part.
            part.is_end ≡ nat_le (length (bytes_at (fs_of self.now).volume.tree number))
            (offset + length (part_at (fs_of self.now) number offset count))) }
    {
        let size = self
            .permit_file(cred, number, verdict, Mask::READ_DATA)?
            .inode
            .size;
        let most = u64::from(count).min(self.volume.limits().transfer_bytes as u64);
        let rest = size.saturating_sub(offset);
        Ok(Part {
            len: most.min(rest) as usize,
            is_end: rest <= most,
        })
    }
}
