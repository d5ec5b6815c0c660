//! What is left of a volume's limits.

use crate::volume::Volume;
use disk::Device;

/// What is left of a volume's limits, as [`Volume::fits`] counts it.
#[derive(Clone, Copy)]
pub struct Room {
    /// Sectors of 4,096 bytes that no node is charged for. A hole of a file is charged like a block.
    pub sectors: u64,
    /// Nodes that may be added to those that there are.
    pub nodes: u64,
}

#[tactic(auto, unfolding(crate::specs::Views::volume_state))]
impl<D: Device> Volume<D> {
    ghost use Rattle.volume.specs.Rooms.{IsLeftOf};
    ghost use Rattle.volume.specs.Views.{volume_state};

    /// How many sectors and nodes are left. It takes the same few steps for every tree, and is
    /// known while the volume is down too, as [`Volume::node`] is.
    pub fn room(&self) -> Room
        ensures { IsLeftOf (volume_state self.now) result }
    {
        Room {
            sectors: self.limits.data_sectors as u64 - self.table.charge(),
            nodes: self.limits.nodes as u64 - u64::from(self.table.count()),
        }
    }
}
