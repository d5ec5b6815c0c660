//! Access control entries, and the credentials that they are matched against (RFC 8881, section
//! 6.2).

ghost use Rattle.std.specs.Prelude.{⊤, ◌≡◌, ◌<◌, ◌≤◌, ◌++◌, [], ◌∷◌, IfOk, OnOk, OnErr, codes, length};

use bitflags::{Flag, Flags, bitflag_items};
use std::alloc::{AllocError, Global};
use std::marker::Model;
use std::rc::Rc;
use xdr::Words;

/// The rights that an entry names (RFC 8881, section 6.2.1.3, `acemask4`): a 32-bit word.
#[derive(Clone, Copy, PartialEq, Eq)]
pub struct Mask(u32);

bitflag_items! {
    impl Mask: u32 {
        /// To read a file's bytes, or to list a directory (`LIST_DIRECTORY`).
        const READ_DATA = 0x1;
        /// To write a file's bytes, or to add a file to a directory (`ADD_FILE`).
        const WRITE_DATA = 0x2;
        /// To write beyond a file's end, or to add a directory to a directory (`ADD_SUBDIRECTORY`).
        const APPEND_DATA = 0x4;
        const EXECUTE = 0x20;
        const DELETE_CHILD = 0x40;
        const READ_ATTRIBUTES = 0x80;
        const WRITE_ATTRIBUTES = 0x100;
        const DELETE = 0x10000;
        const READ_ACL = 0x20000;
        const WRITE_ACL = 0x40000;
        const WRITE_OWNER = 0x80000;
        const SYNCHRONIZE = 0x100000;
    }
}

impl Flags for Mask {
    type Bits = u32;

    ghost exact = { ⊤ };

    ghost table = { (codes "READ_DATA", 0x1) ∷ (codes "WRITE_DATA", 0x2)
        ∷ (codes "APPEND_DATA", 0x4) ∷ (codes "EXECUTE", 0x20) ∷ (codes "DELETE_CHILD", 0x40)
        ∷ (codes "READ_ATTRIBUTES", 0x80) ∷ (codes "WRITE_ATTRIBUTES", 0x100)
        ∷ (codes "DELETE", 0x10000) ∷ (codes "READ_ACL", 0x20000) ∷ (codes "WRITE_ACL", 0x40000)
        ∷ (codes "WRITE_OWNER", 0x80000) ∷ (codes "SYNCHRONIZE", 0x100000) ∷ [] };

    ghost set_of = { λ mask. mask.0 };

    fn flags<'a>() -> &'a [Flag<Mask>] {
        Mask::FLAGS
    }

    fn bits(&self) -> u32 {
        self.0
    }

    fn from_bits_retain(bits: u32) -> Mask {
        Mask(bits)
    }
}

/// The flags of an entry (RFC 8881, section 6.2.1.4, `aceflag4`): a 32-bit word.
#[derive(Clone, Copy, PartialEq, Eq)]
pub struct AceFlags(u32);

bitflag_items! {
    impl AceFlags: u32 {
        const FILE_INHERIT = 0x1;
        const DIRECTORY_INHERIT = 0x2;
        const NO_PROPAGATE = 0x4;
        const INHERIT_ONLY = 0x8;
        /// On the wire: the number is a group's. In an [`Ace`] its `who` says so.
        const IDENTIFIER_GROUP = 0x40;
    }
}

impl Flags for AceFlags {
    type Bits = u32;

    ghost exact = { ⊤ };

    ghost table = { (codes "FILE_INHERIT", 0x1) ∷ (codes "DIRECTORY_INHERIT", 0x2)
        ∷ (codes "NO_PROPAGATE", 0x4) ∷ (codes "INHERIT_ONLY", 0x8) ∷ (codes "IDENTIFIER_GROUP", 0x40) ∷ [] };

    ghost set_of = { λ flags. flags.0 };

    fn flags<'a>() -> &'a [Flag<AceFlags>] {
        AceFlags::FLAGS
    }

    fn bits(&self) -> u32 {
        self.0
    }

    fn from_bits_retain(bits: u32) -> AceFlags {
        AceFlags(bits)
    }
}

/// Whether an entry grants or denies (RFC 8881, section 6.2.1.1, `acetype4`).
#[derive(Clone, Copy, PartialEq, Eq)]
pub enum AceKind {
    Allow = 0,
    Deny = 1,
}

/// Whom an entry is for (RFC 8881, section 6.2.1.5).
#[derive(Clone, Copy, PartialEq, Eq)]
pub enum Who {
    /// `OWNER@`: the node's owner.
    Owner,
    /// `GROUP@`: the members of the node's group.
    Group,
    /// `EVERYONE@`: everyone, the owner and the group's members included.
    Everyone,
    /// The user of this number.
    User(u32),
    /// The members of the group of this number.
    NamedGroup(u32),
}

impl Who {
    ghost use Rattle.model_tree.specs.Rights.Acl.{is_special, matches};

    /// Whether this is `OWNER@`, `GROUP@` or `EVERYONE@`.
    pub fn is_special(self) -> bool
        ensures { result ≡ is_special self }
    {
        matches!(self, Who::Owner | Who::Group | Who::Everyone)
    }

    /// Whether this matches a caller, on a node of this owner and group.
    pub fn matches(self, owner: u32, group: u32, cred: &Cred) -> bool
        ensures { result ≡ matches self owner group cred.now }
    {
        match self {
            Who::Owner => cred.uid == owner,
            Who::Group => cred.is_member(group),
            Who::Everyone => true,
            Who::User(number) => cred.uid == number,
            Who::NamedGroup(number) => cred.is_member(number),
        }
    }
}

/// An access control entry (RFC 8881, section 6.2.1, `nfsace4`).
#[derive(Clone, Copy, PartialEq, Eq)]
pub struct Ace {
    pub kind: AceKind,
    pub flags: AceFlags,
    pub mask: Mask,
    pub who: Who,
}

impl Ace {
    ghost use Rattle.model_tree.specs.Rights.Acl.{counts};

    /// Whether the entry applies to its own node: one with `INHERIT_ONLY` does not.
    pub fn counts(&self) -> bool
        ensures { result ≡ counts self.now }
    {
        !self.flags.intersects(AceFlags::INHERIT_ONLY)
    }
}

/// An access control list: its entries, in the order in which they are evaluated. A copy shares
/// their memory until one of the two changes.
///
/// Contracts see the list of the entries.
#[derive(Drop)]
pub struct Acl {
    alloc: Global,
    /// None if there are no entries.
    entries: Option<Rc<Vec<Ace>>>,
}

impl Model for Acl {
    ghost use Rattle.std.specs.Prelude.{List};
    ghost use Rattle.model_tree.specs.Rights.AclEntries.{entries_in};
    ghost use Rattle.model_tree.specs.declared.acl.Ace.{Ace};

    ghost Value = { List Ace };

    ghost view = { λ acl. entries_in (λ rc. rc.value.items) acl.entries };
}

impl Acl {
    /// How many entries a client may set.
    pub const MAX_SET: usize = 64;

    /// How many entries a node's list may have.
    pub const MAX_STORED: usize = 72;

    /// A list without entries. Allocates no memory.
    pub fn new(alloc: Global) -> Acl
        ensures { result ≡ [] }
    {
        Acl {
            alloc,
            entries: None,
        }
    }

    /// A list of these entries.
    pub fn from_slice(alloc: Global, entries: &[Ace]) -> Result<Acl, AllocError>
        ensures { IfOk result (λ acl. acl ≡ entries.now) }
    {
        if entries.is_empty() {
            return Ok(Acl::new(alloc));
        }
        let own = Vec::from_slice(alloc, entries)?;
        Ok(Acl {
            alloc,
            entries: Some(Rc::new(alloc, own)?),
        })
    }

    /// The same list, in the same memory.
    pub fn try_clone(&self) -> Result<Acl, AllocError>
        ensures { IfOk result (λ acl. acl ≡ self.now) }
    {
        let entries = match &self.entries {
            Some(entries) => Some(entries.clone()?),
            None => None,
        };
        Ok(Acl {
            alloc: self.alloc,
            entries,
        })
    }

    /// Appends an entry, in place if nobody shares the memory. If memory runs out, the list is
    /// unchanged.
    pub fn push(&mut self, ace: Ace) -> Result<(), AllocError>
        ensures added { OnOk result (self.new ≡ self.old ++ ace ∷ []) }
        ensures kept { OnErr result (self.new ≡ self.old) }
    {
        if let Some(entries) = &mut self.entries
            && let Some(own) = Rc::get_mut(entries)
        {
            own.push(ace)?;
            return Ok(());
        }
        let mut own = Vec::from_slice(self.alloc, self.as_slice())?;
        own.push(ace)?;
        self.entries = Some(Rc::new(self.alloc, own)?);
        Ok(())
    }

    /// The entries.
    pub fn as_slice(&self) -> &[Ace]
        ensures { result.now ≡ self.now }
    {
        match &self.entries {
            Some(entries) => entries.as_slice(),
            None => &[],
        }
    }
}

/// The groups that a caller is a member of besides the first one: at most [`Gids::MAX_GIDS`] (RFC
/// 5531, appendix A).
///
/// Contracts see the list of their numbers.
#[derive(Drop)]
pub struct Gids {
    numbers: Words<16>,
}

impl Model for Gids {
    ghost use Rattle.std.specs.Prelude.{ℕ, List};

    ghost Value = { List ℕ };

    ghost view = { λ gids. gids.numbers };
}

impl Gids {
    /// The maximum number of groups.
    pub const MAX_GIDS: usize = 16;

    /// No groups.
    pub fn new() -> Gids
        ensures { result ≡ [] }
    {
        Gids {
            numbers: Words::new(),
        }
    }

    /// Appends a group.
    pub fn push(&mut self, gid: u32)
        requires { length self.old < Gids.MAX_GIDS }
        ensures { self.new ≡ self.old ++ gid ∷ [] }
    {
        self.numbers.push(gid);
    }

    /// The groups' numbers.
    pub fn as_slice(&self) -> &[u32]
        ensures numbers { result.now ≡ self.now }
        ensures few { length result.now ≤ Gids.MAX_GIDS }
    {
        self.numbers.as_slice()
    }
}

impl From<Words<16>> for Gids {
    ghost from_gives = { λ words gids. gids ≡ words };

    fn from(numbers: Words<16>) -> Gids {
        Gids { numbers }
    }
}

/// The caller: a user, its first group and its other groups, as its call says (RFC 5531, appendix
/// A, AUTH_SYS).
#[derive(Drop)]
pub struct Cred {
    pub uid: u32,
    pub gid: u32,
    pub gids: Gids,
}

impl Cred {
    ghost use Rattle.model_tree.specs.Rights.Acl.{is_member};

    /// Whether the group is the caller's first one or among its others.
    pub fn is_member(&self, gid: u32) -> bool
        ensures { result ≡ is_member self.now gid }
    {
        self.gid == gid || self.gids.as_slice().contains(&gid)
    }
}
