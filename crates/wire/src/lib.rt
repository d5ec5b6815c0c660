//! The operations of NFS version 4.1 on the wire (RFC 8881, section 18; RFC 5662).
//!
//! One type for each argument; names and data are borrowed from the record that was read.
#![tactic(auto)]

mod answers;
mod argument;
mod created;
mod directory;
mod exchange;
mod file;
mod fits;
mod laws;
mod open;
mod outcome;
mod session;
mod size;
mod small;

pub use answers::{
    AccessAnswer, CreateAnswer, CreateSessionAnswer, Entry, ExchangeIdAnswer, OpenAnswer,
    ReadAnswer, ReadDirAnswer, RenameAnswer, SequenceAnswer, WriteAnswer,
};
pub use argument::{Argument, MAX_HANDLE_BYTES, Operation};
pub use directory::{CreateArguments, ReadDirArguments, RenameArguments};
pub use exchange::ExchangeIdArguments;
pub use file::{
    CloseArguments, CommitArguments, ReadArguments, SetAttrArguments, StableHow, WriteArguments,
};
pub use laws::{arguments_are_exact, outcomes_are_exact};
pub use open::{Claim, ExclusiveCreate, OpenArguments, OpenType, Opening};
pub use outcome::{Answer, Outcome};
pub use session::{CreateSessionArguments, SequenceArguments};
pub use small::{
    ANY_LENGTH, Attributes, Bitmap, CallbackSecurity, ChangeInfo, Channel, Implementation, StateId,
    SystemCredential, read_trimmed, trimmed,
};
