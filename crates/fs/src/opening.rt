//! OPEN, except for the table of opens.

ghost use Rattle.std.specs.Prelude.{◌≡◌};
ghost use Rattle.fs.specs.Opening.{has_room_for, may_use};
ghost use Rattle.model.specs.Operations.Open.{share_refusals};
ghost use Rattle.model.specs.Operations.Operation.{OpenArguments};
ghost use Rattle.wire_attributes.specs.Given.{IsChecked};

use crate::fault::FsFault;
use crate::fs::Fs;
use crate::nodes::is_directory;
use crate::renaming::Change;
use crate::rights::grants;
use acl_eval::{Cred, Mask};
use disk::Device;
use model_tree::status::Status;
use node_table::CachedNode;
use wire_attributes::GivenAttributes;

/// `OPEN4_SHARE_ACCESS_READ` and `OPEN4_SHARE_ACCESS_WRITE`.
const READ: u32 = 1;

const WRITE: u32 = 2;

/// How a file is opened by its name (RFC 8881, section 18.16.1, `openflag4`).
#[derive(Clone, Copy)]
pub enum How<'a> {
    /// The file has to be there.
    NoCreate,
    /// If the file is not there it is made with these attributes; if it is, it is truncated if they
    /// give the size 0.
    Unchecked(GivenAttributes<'a>),
    /// The file may not be there, and is made with these attributes.
    Guarded(GivenAttributes<'a>),
}

/// What an open asks for, and what it denies to others, as it was sent (RFC 8881, section 18.16.1,
/// `share_access` and `share_deny`).
#[derive(Clone, Copy)]
pub struct Share {
    pub access: u32,
    pub deny: u32,
}

/// The file that a caller opens by its name.
#[derive(Clone, Copy)]
pub struct Opening<'a> {
    /// The number of the directory that has it.
    pub directory: u64,
    pub name: &'a [u8],
    pub share: Share,
    pub how: How<'a>,
}

/// What an OPEN does to its file.
#[derive(Clone, Copy, PartialEq, Eq)]
pub enum OpenEffect {
    Nothing,
    /// The file then has no bytes.
    Cut,
    Made,
}

/// Whether the reply has room for the result of an OPEN by a name, which names the attributes that
/// were set: for each effect on its file.
#[derive(Clone, Copy)]
pub struct OpenRoom {
    pub nothing: bool,
    pub cut: bool,
    pub made: bool,
}

impl OpenRoom {
    pub(crate) fn has(self, effect: OpenEffect) -> bool
        ensures { result ≡ has_room_for self effect }
    {
        match effect {
            OpenEffect::Nothing => self.nothing,
            OpenEffect::Cut => self.cut,
            OpenEffect::Made => self.made,
        }
    }
}

/// A file that was opened.
#[derive(Clone, Copy, PartialEq, Eq)]
pub struct Opened {
    pub number: u64,
    /// The directory that has its name; 0 and 0 if it was opened without one.
    pub directory: Change,
    pub effect: OpenEffect,
}

/// The tests of a share reservation (RFC 8881, section 9.7): access to read, write or both, and
/// nothing denied.
///
/// # Errors
///
/// `Inval` for another access, then `ShareDenied` for a valid denial, and `Inval` for an invalid
/// one.
pub(crate) fn check_share(share: Share) -> Result<(), Status>
    ensures { (arguments : OpenArguments) → arguments.access ≡ share.access
        → arguments.deny ≡ share.deny → IsChecked (share_refusals arguments) result }
{
    if share.access == 0 || 3 < share.access {
        return Err(Status::Inval);
    }
    if 0 < share.deny && share.deny <= 3 {
        return Err(Status::ShareDenied);
    }
    if 3 < share.deny {
        return Err(Status::Inval);
    }
    Ok(())
}

/// Whether a caller has the rights that an open needs on its file: to read it, and to write it,
/// which a truncation needs too.
pub(crate) fn may_open(cached: &CachedNode, cred: &Cred, access: u32, is_cut: bool) -> bool
    ensures { result ≡ may_use cached.now.fields cred.now access is_cut }
{
    let reads = access & READ != 0;
    let writes = is_cut || access & WRITE != 0;
    (!reads || grants(cached, cred, Mask::READ_DATA))
        && (!writes || grants(cached, cred, Mask::WRITE_DATA))
}

#[tactic(auto, unfolding(crate::specs::Views::fs_of))]
impl<D: Device> Fs<D> {
    ghost use Rattle.std.specs.Prelude.{◌≡◌, ◌<◌, ℕ, true, false, IsErrOf, OnOk};
    ghost use Rattle.model.specs.Operations.Open.{creates};
    ghost use Rattle.model.specs.Operations.Operation.{OpenType};
    ghost use Rattle.model.specs.Operations.Step.{State};
    ghost use Rattle.fs.specs.OnTree.{IsState};
    ghost use Rattle.fs.specs.Views.{fs_of};
    ghost use Rattle.fs.specs.Opening.{IsFileToOpen, IsOpeningCurrent, IsShortNumber, OpensCurrent, handle_tests};
    ghost use Rattle.fs.specs.Operations.{IsOn};

    /// The number of the file that an OPEN by a name opens if nothing refuses it, with which a
    /// caller checks whether the table of opens has room: that which the name leads to, or that of
    /// the file which is made. 0, which no file has, if that has more than 64 bits, after the last
    /// change of the last run.
    pub fn file_to_open(&self, asked: Opening<'_>) -> u64
        ensures { (number : ℕ) × IsFileToOpen (fs_of self.now) asked.entry number
            × IsShortNumber number result }
    {
        match self.named_in(asked.directory, asked.name) {
            Some((_, number)) => number,
            None => self.next_stamp(),
        }
    }

    /// OPEN of the current file (RFC 8881, section 18.16, `CLAIM_FH`), which has this number, by
    /// this caller: it changes only the table of opens. `is_create` says whether it may create a
    /// file, and `is_full` whether the table has no room for it.
    ///
    /// # Errors
    ///
    /// Refused by the first of these that holds: STALE; INVAL for an invalid access, SHAREDENIED,
    /// INVAL for an invalid denial; INVAL if it may create a file; ISDIR; ACCESS without the rights
    /// to read or to write, as it asks; DELAY if the table is full.
    pub fn open_current(
        &self,
        cred: &Cred,
        number: u64,
        share: Share,
        is_create: bool,
        is_full: bool,
    ) -> Result<(), FsFault>
        ensures step { (state : State) (now : ℕ) (arguments : _)
            → IsOn (fs_of self.now) cred.now number state
            → IsOpeningCurrent (fs_of self.now) state share is_create is_full arguments
            → OpensCurrent (fs_of self.now) state now number arguments result }
        ensures full { OnOk result (is_full ≡ false) }
        ensures number { OnOk result (0 < number) }
        ensures down { (fs_of self.now).volume.is_down ≡ true → IsErrOf result FsFault.Down }
    {
        if self.is_down() {
            return Err(FsFault::Down);
        }
        self.permit_current(cred, number, share, is_create)?;
        if is_full {
            return Err(FsFault::Status(Status::Delay));
        }
        Ok(())
    }

    /// The tests of the current file, except that of the table of opens.
    fn permit_current(
        &self,
        cred: &Cred,
        number: u64,
        share: Share,
        is_create: bool,
    ) -> Result<(), Status>
        ensures tests { (state : State) (arguments : OpenArguments) (how : OpenType)
            → IsState (fs_of self.now).volume.tree cred.now number state
            → arguments.access ≡ share.access → arguments.deny ≡ share.deny
            → creates how ≡ is_create
            → IsChecked (handle_tests state arguments how) result }
        ensures number { OnOk result (0 < number) }
    {
        let Some(cached) = self.volume.node(number) else {
            return Err(Status::Stale);
        };
        check_share(share)?;
        if is_create {
            return Err(Status::Inval);
        }
        if is_directory(cached) {
            return Err(Status::IsDir);
        }
        if !may_open(cached, cred, share.access, false) {
            return Err(Status::Access);
        }
        Ok(())
    }
}
