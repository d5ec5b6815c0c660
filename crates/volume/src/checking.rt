//! Whether a volume holds a tree, found out without a mount.

ghost use Rattle.volume.specs.Checks.{Checks};

use crate::fault::MountFault;
use crate::load::read_nodes;
use crate::mount::read_superblock;
use crate::view_store::ViewStore;
use disk::Device;
use journal::Journal;
use std::alloc::Global;

/// A volume that holds a tree.
#[derive(Clone, Copy, Debug, PartialEq, Eq)]
pub struct Checked {
    /// The version of its layout.
    pub version: u32,
    /// How many sectors it has.
    pub sectors: u32,
    /// How many nodes it may have.
    pub nodes: u32,
    /// How often it was mounted.
    pub count: u32,
}

/// Reads what a mount would find, through the commit record if it is set, and writes nothing:
/// whether there is a tree. A full restart count is returned like any other.
///
/// # Errors
///
/// NotVolume, because of the first sector, as for a mount; then Damaged exactly if there is no
/// tree; Device if the device failed, and Memory; never Worn.
#[tactic(auto, unfolding(journal::specs::Views::view_of, journal::specs::Views::view_failures, journal::specs::Views::name_of))]
pub fn check<D: Device>(alloc: Global, device: &mut D) -> Result<Checked, MountFault>
    ensures { Checks D.keeps_word D.size D.failed D.history device.old device.new result }
{
    let found = match read_superblock(device) {
        Ok(found) => found,
        Err(fault) => return Err(fault),
    };
    let view = match Journal::view_in(alloc, device, found.version.log_area(found.sectors)) {
        Ok(view) => view,
        Err(refused) => return Err(refused.fault.into()),
    };
    let mut store = ViewStore { view };
    let _loaded = match read_nodes(alloc, &mut store, found) {
        Ok(loaded) => loaded,
        Err(fault) => return Err(fault),
    };
    Ok(Checked {
        version: found.version.number(),
        sectors: found.sectors,
        nodes: found.nodes,
        count: found.run,
    })
}
