//! Calls over TCP (RFC 5531): the records of a stream, a call and the tests that it has to pass,
//! and the replies.
#![tactic(auto)]

mod assembler;
mod auth;
mod call;
mod compound;
mod fault;
mod fragment;
mod join;
mod numbers;
mod place;
mod receive;
mod reply;
mod request;
mod scan;
mod state;
mod tag;

pub use assembler::Assembler;
pub use call::{Call, CallRead, MAX_AUTH_BYTES, read_call};
pub use compound::Compound;
pub use fault::RecordFault;
pub use fragment::{HEADER_BYTES, MAX_FRAGMENTS, MAX_RECORD_BYTES};
pub use numbers::{
    AUTH_NONE, AUTH_SYS, CALL, COMPOUND, LAST_FRAGMENT, MINOR_VERSION, NFS_VERSION, PROGRAM, REPLY,
    RPC_VERSION,
};
pub use place::CompoundPlace;
pub use reply::{AuthStat, CompoundResult, Reply, write_frame_header, write_reply};
pub use request::Request;
pub use tag::{MAX_TAG_BYTES, Tag};
