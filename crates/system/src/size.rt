//! The size of a volume that is to be made.

use crate::number::decimal;
use volume::superblock::{MAX_NODES, MAX_SECTORS, MIN_NODES, MIN_SECTORS};

/// How many sectors and nodes a volume is to have.
#[derive(Clone, Copy, Debug, PartialEq, Eq)]
pub struct VolumeSize {
    pub sectors: u32,
    pub nodes: u32,
}

impl VolumeSize {
    /// The size that two words give, in decimal digits; None if one of them is no such number, or
    /// no volume has this size.
    pub fn parse(sectors: &str, nodes: &str) -> Option<VolumeSize> {
        let size = VolumeSize {
            sectors: decimal(sectors)?,
            nodes: decimal(nodes)?,
        };
        size.is_within_bounds().then_some(size)
    }

    fn is_within_bounds(self) -> bool {
        (MIN_SECTORS..=MAX_SECTORS).contains(&self.sectors)
            && (MIN_NODES..=MAX_NODES).contains(&self.nodes)
    }
}
