//! Consecutive blocks in consecutive sectors.

/// `length` consecutive blocks from `block` on, in consecutive sectors from `sector` on.
#[derive(Clone, Copy, PartialEq, Eq)]
pub struct Run {
    /// The first block, counted from 0.
    pub block: u16,
    /// How many blocks.
    pub length: u16,
    /// The sector of the first block.
    pub sector: u32,
}
