//! A COMPOUND (RFC 8881, section 16.2).

ghost use Rattle.std.specs.Prelude.{◌<◌};

use crate::tag::Tag;

/// A COMPOUND of minor version 1 and at least one operation.
#[derive(Clone, Copy)]
pub struct Compound<'a> {
    pub tag: Tag<'a>,
    /// How many operations there are.
    pub count: u32,
    /// The bytes of all of them.
    pub operations: &'a [u8],
    ghost some: { 0 < count },
}
