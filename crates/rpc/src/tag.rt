//! The tag of a COMPOUND (RFC 8881, section 16.2).

ghost use Rattle.std.specs.Prelude.{◌≤◌, length};
ghost use Rattle.rpc.specs.declared.tag.TheConstants.{MAX_TAG_BYTES};

/// The most bytes of a tag.
pub const MAX_TAG_BYTES: u32 = 255;

/// A text of at most 255 bytes, which the reply repeats. Any bytes are taken.
#[derive(Clone, Copy)]
pub struct Tag<'a> {
    pub bytes: &'a [u8],
    ghost short: { length bytes.now ≤ MAX_TAG_BYTES },
}
