//! The reply that a slot keeps.

ghost use Rattle.std.specs.Prelude.{◌≤◌, length};
ghost use Rattle.session.specs.declared.limits.TheConstants.{MAX_RECORD_BYTES};

/// A whole COMPOUND result, of at most the number of bytes that a record has.
#[derive(Drop)]
pub struct KeptReply {
    pub bytes: Vec<u8>,
    ghost short: { length bytes.items ≤ MAX_RECORD_BYTES },
}
