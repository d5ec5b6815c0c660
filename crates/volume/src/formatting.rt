//! Making a new volume.

ghost use Rattle.std.specs.Prelude.{◌≡◌, ◌≤◌, ◌⊎◌, ◌↔◌, false, IfOk, OnOk, IsErrOf, IsTrue};
ghost use Rattle.disk.specs.Cause.{IsCounted};
ghost use Rattle.inode.specs.Fields.{fields_of};
ghost use Rattle.layout.specs.FreshLaws.{root_fields};
ghost use Rattle.layout.specs.Superblock.{is_size};
ghost use Rattle.layout.specs.declared.versions.VersionNumber.TheVariants as VersionNumber;
ghost use Rattle.volume.specs.Formats.{AddsFresh, FitsDevice, IsBrief, LeavesFresh, root_update};

use crate::fault::FormatFault;
use crate::superblock::{is_volume_size, superblock_of};
use bitflags::Flags;
use disk::{Device, SECTOR, Update};
use geometry::{Geometry, Superblock};
use inode::{Form, Inode, to_sector};
use journal::Journal;
use layout::places::NODES;
use layout::versions::VersionNumber;
use model_tree::acl::{Ace, AceFlags, AceKind, Acl, Mask, Who};
use model_tree::node::{NodeKind, ROOT};
use std::alloc::{AllocError, Global};
use std::slice;

/// The root of a new volume: an empty directory, on which everyone may do everything.
fn fresh_root(alloc: Global) -> Result<Inode, AllocError>
    ensures { IfOk result (λ root. fields_of root ≡ root_fields) }
{
    let everyone = Ace {
        kind: AceKind::Allow,
        flags: AceFlags::empty(),
        mask: Mask::all(),
        who: Who::Everyone,
    };
    Ok(Inode {
        kind: NodeKind::Directory,
        number: ROOT,
        owner: 0,
        group: 0,
        change: 1,
        time_modify: 0,
        size: 0,
        runs: 0,
        run_sectors: Vec::new(alloc),
        acl: Acl::from_slice(alloc, &[everyone])?,
    })
}

/// The sector of the root of a new volume.
fn fresh_update(alloc: Global) -> Result<Update, AllocError>
    ensures { IfOk result (λ update. update ≡ root_update) }
{
    let root = fresh_root(alloc)?;
    let mut content = [0; SECTOR];
    to_sector(&root, Form::Two, &mut content);
    Ok(Update {
        target: NODES,
        content,
    })
}

/// Makes the device a new volume of version 2 and `nodes` nodes, with an empty root. First its
/// sector 0 becomes zeros, then all other sectors become those of the new volume, then sector 0
/// does: a crash leaves what was there, no volume, or the new one.
///
/// # Errors
///
/// Size if no volume has this many sectors and nodes, and Memory: nothing was written. Device if
/// the device failed.
pub fn format<D: Device>(alloc: Global, device: &mut D, nodes: u32) -> Result<(), FormatFault>
    ensures moments { D.keeps_word → AddsFresh VersionNumber.Two (D.size device.old) nodes
        (D.history device.old) (D.history device.new) }
    ensures ok { D.keeps_word → OnOk result
        (LeavesFresh VersionNumber.Two (D.size device.old) nodes (D.history device.new)) }
    // If it fails
    ensures size { IsErrOf result FormatFault.Size
        ↔ (is_size (D.size device.old) nodes ≡ false) }
    ensures untouched { (IsErrOf result FormatFault.Size ⊎ IsErrOf result FormatFault.Memory)
        → D.history device.new ≡ D.history device.old }
    ensures cause { IsErrOf result FormatFault.Device
        → IsCounted (D.failed device.old) (D.failed device.new) }
    ensures none { (¬ IsErrOf result FormatFault.Device)
        → D.failed device.new ≡ D.failed device.old }
    ensures later { D.failed device.old ≤ D.failed device.new }
    ensures same_size { D.size device.new ≡ D.size device.old }
{
    let sectors = device.sectors();
    if !is_volume_size(sectors, nodes) {
        return Err(FormatFault::Size);
    }
    let update = fresh_update(alloc)?;
    let first = superblock_of(VersionNumber::CURRENT, sectors, nodes, 0);
    if Journal::format(device, &first, slice::from_ref(&update)).is_err() {
        return Err(FormatFault::Device);
    }
    Ok(())
}

/// Makes the device a new volume of version 3, of this geometry and identity, with an empty root.
/// First its sector 0 becomes zeros; then the commit record, the node table and the seats become
/// those of the new volume; then sector 0 does. So a crash leaves what was there, no volume, or the
/// new one. The data region and the log, which no mount reads, stay as they are: a format takes as
/// long on a large volume as on a small one with as many nodes.
///
/// # Errors
///
/// Size if no volume has this geometry, or if the device does not have its size, and Memory:
/// nothing was written. Device if the device failed.
pub fn format_large<D: Device>(
    alloc: Global,
    device: &mut D,
    superblock: &Superblock,
) -> Result<(), FormatFault>
    ensures moments { D.keeps_word → AddsFresh (VersionNumber.Three superblock.now)
        (D.size device.old) superblock.now.geometry.nodes
        (D.history device.old) (D.history device.new) }
    ensures ok { D.keeps_word → OnOk result (LeavesFresh (VersionNumber.Three superblock.now)
        (D.size device.old) superblock.now.geometry.nodes (D.history device.new)) }
    ensures brief { D.keeps_word → IsBrief superblock.now.geometry
        (D.history device.old) (D.history device.new) result }
    // If it fails
    ensures size { IsErrOf result FormatFault.Size
        ↔ ¬ FitsDevice (D.size device.old) superblock.now.geometry }
    ensures untouched { (IsErrOf result FormatFault.Size ⊎ IsErrOf result FormatFault.Memory)
        → D.history device.new ≡ D.history device.old }
    ensures cause { IsErrOf result FormatFault.Device
        → IsCounted (D.failed device.old) (D.failed device.new) }
    ensures none { (¬ IsErrOf result FormatFault.Device)
        → D.failed device.new ≡ D.failed device.old }
    ensures later { D.failed device.old ≤ D.failed device.new }
    ensures same_size { D.size device.new ≡ D.size device.old }
{
    let geometry = &superblock.geometry;
    if !fits_device(geometry, device.sectors()) {
        return Err(FormatFault::Size);
    }
    let update = fresh_update(alloc)?;
    let unread = geometry.data_start()..geometry.data_end();
    let first = superblock.encode(0);
    let updates = slice::from_ref(&update);
    if Journal::format_without(device, geometry.log_area(), unread, &first, updates).is_err() {
        return Err(FormatFault::Device);
    }
    Ok(())
}

/// Whether a volume of this geometry may be on a device with this many sectors.
fn fits_device(geometry: &Geometry, sectors: u32) -> bool
    ensures { IsTrue result ↔ FitsDevice sectors geometry.now }
{
    geometry.sectors == sectors && geometry.fits()
}
