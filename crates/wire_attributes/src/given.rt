//! Attributes as a client gives them.

/// Attributes as a client gives them (RFC 8881, section 3.3.9, `fattr4`).
#[derive(Clone, Copy)]
pub struct GivenAttributes<'a> {
    /// At most 8 words: bit m of word n represents attribute 32 n + m.
    pub bitmap: &'a [u32],
    /// The values by rising attribute number, encoded one after the other.
    pub values: &'a [u8],
}
