//! The numbers of records and messages, and those by which a call names what it asks for (RFC 5531,
//! sections 9 and 11; RFC 8881, section 16; RFC 5662).

/// The mark of a record's last fragment, in its header.
pub const LAST_FRAGMENT: u32 = 1 << 31;

/// The message type of a call.
pub const CALL: u32 = 0;

/// The message type of a reply.
pub const REPLY: u32 = 1;

/// The version of RPC.
pub const RPC_VERSION: u32 = 2;

/// The program NFS.
pub const PROGRAM: u32 = 100003;

/// The program's version.
pub const NFS_VERSION: u32 = 4;

/// The procedure that does nothing.
pub(crate) const NULL: u32 = 0;

/// The procedure that runs operations.
pub const COMPOUND: u32 = 1;

/// The minor version of a COMPOUND.
pub const MINOR_VERSION: u32 = 1;

/// The flavour that names no caller (RFC 5531, section 10.1).
pub const AUTH_NONE: u32 = 0;

/// The flavour that gives the caller's numbers (RFC 5531, appendix A).
pub const AUTH_SYS: u32 = 1;
