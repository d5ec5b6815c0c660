//! A COMPOUND over its record. Its turn is in `step`, each operation in a file of its own.

ghost use Rattle.std.specs.Prelude.{◌≡◌, ◌≤◌, ◌<◌, ◌+◌, None, length};
ghost use Rattle.xdr.specs.Forms.{counted};
ghost use Rattle.compound.specs.declared.results.TheConstants.{MAX_REPLY_BYTES, MAX_REFUSAL_BYTES, AROUND_RESULTS};

use crate::progress::Progress;
use model_tree::acl::Cred;
use rpc::Compound;
use std::alloc::Global;

/// A COMPOUND of which an operation runs next, or whose reply a seat is to hold next. Its tag and
/// its operations are in its record, and its caller is kept beside that.
#[derive(Drop)]
pub struct Running<'a> {
    pub(crate) alloc: Global,
    pub(crate) xid: u32,
    pub(crate) cred: &'a Cred,
    pub(crate) compound: Compound<'a>,
    pub(crate) progress: Progress,
    ghost within: { progress.position ≤ length compound.operations.now },
    ghost brief: { AROUND_RESULTS + length (counted compound.tag.bytes.now)
        + length progress.results.bytes ≤ MAX_REPLY_BYTES + MAX_REFUSAL_BYTES },
    ghost more: { progress.ended ≡ None → progress.answered < compound.count },
    ghost room: { progress.ended ≡ None
        → AROUND_RESULTS + length (counted compound.tag.bytes.now)
        + length progress.results.bytes ≤ MAX_REPLY_BYTES },
}
