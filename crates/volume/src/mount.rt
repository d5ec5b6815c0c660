//! Finding a volume, and raising its restart count with its version.

ghost use Rattle.std.specs.Prelude.{◌≡◌, ◌≤◌, ◌<◌, ◌⊎◌, IfOk, IfErr, OnOk, OnErr, IsErrOf};
ghost use Rattle.disk.specs.Cause.{IsCounted};
ghost use Rattle.disk.specs.Moments.{seen};
ghost use Rattle.journal.specs.Journal.{log_of, journal_failures};
ghost use Rattle.volume.specs.Checks.{IsSeen};
ghost use Rattle.migration.specs.Migrations.{StaysInPlace};
ghost use Rattle.volume.specs.Mounts.{RaisesSafely, HasSize, IsVolumeOf, IsAtRest, IsTold, IsRaised};
ghost use Rattle.volume.specs.Superblock.{superblock};

use crate::fault::MountFault;
use crate::superblock::{Verdict, judge, nodes_of, run_of, superblock_of, version_at};
use disk::{Device, SECTOR};
use journal::{Journal, JournalFault, MIN_SECTORS};
use layout::versions::VersionNumber;

/// A volume, by its first sector.
#[derive(Clone, Copy)]
pub(crate) struct Superblock {
    pub(crate) version: VersionNumber,
    pub(crate) sectors: u32,
    pub(crate) nodes: u32,
    /// How often it was mounted.
    pub(crate) run: u32,
}

/// Reads the first sector of a device, which is no volume if it has too few sectors for one.
fn read_first<D: Device>(device: &mut D) -> Result<[u8; SECTOR], MountFault>
    ensures first { D.keeps_word
        → IfOk result (λ first. first ≡ seen (D.history device.old).now 0) }
    ensures few { IsErrOf result MountFault.NotVolume → D.size device.old < MIN_SECTORS }
    ensures only { IfErr result (λ fault.
        (fault ≡ MountFault.NotVolume) ⊎ (fault ≡ MountFault.Device)) }
    // It only reads
    ensures history { D.history device.new ≡ D.history device.old }
    ensures same_size { D.size device.new ≡ D.size device.old }
    // If the device fails in it
    ensures later { D.failed device.old ≤ D.failed device.new }
    ensures cause { IsErrOf result MountFault.Device
        → IsCounted (D.failed device.old) (D.failed device.new) }
    ensures none { (¬ IsErrOf result MountFault.Device)
        → D.failed device.new ≡ D.failed device.old }
{
    if device.sectors() < MIN_SECTORS {
        return Err(MountFault::NotVolume);
    }
    let mut first = [0; SECTOR];
    if device.read(0, &mut first).is_err() {
        return Err(MountFault::Device);
    }
    Ok(first)
}

/// Finds a volume that can be mounted, by the first sector of its device.
#[tactic(auto, using(crate::proofs::FirstLaws::sound_run, crate::proofs::FirstLaws::sound_first, crate::proofs::FirstLaws::not_volume, crate::proofs::FirstLaws::not_volume_on_few))]
pub(crate) fn read_mountable_superblock<D: Device>(device: &mut D) -> Result<Superblock, MountFault>
    ensures volume { IfOk result (IsVolumeOf (D.size device.old)) }
    ensures told { D.keeps_word
        → IsTold (D.size device.old) (seen (D.history device.old).now 0) result }
    // It only reads
    ensures history { D.history device.new ≡ D.history device.old }
    ensures same_size { D.size device.new ≡ D.size device.old }
    // If the device fails in it
    ensures later { D.failed device.old ≤ D.failed device.new }
    ensures cause { IsErrOf result MountFault.Device
        → IsCounted (D.failed device.old) (D.failed device.new) }
    ensures none { (¬ IsErrOf result MountFault.Device)
        → D.failed device.new ≡ D.failed device.old }
    ensures no_memory { ¬ IsErrOf result MountFault.Memory }
{
    let first = match read_first(device) {
        Ok(first) => first,
        Err(fault) => return Err(fault),
    };
    let sectors = device.sectors();
    let Some(version) = version_at(sectors, &first) else {
        return Err(MountFault::NotVolume);
    };
    match judge(sectors, &first) {
        Verdict::NotVolume => Err(MountFault::NotVolume),
        Verdict::Worn => Err(MountFault::Worn),
        Verdict::Damaged => Err(MountFault::Damaged),
        Verdict::Sound => Ok(Superblock {
            version,
            sectors,
            nodes: nodes_of(&first),
            run: run_of(&first),
        }),
    }
}

/// Finds a volume by the first sector of its device, whether it can be mounted once more or not.
#[tactic(auto, using(crate::proofs::FirstLaws::not_volume, crate::proofs::FirstLaws::not_volume_on_few, crate::proofs::FirstLaws::volume_there, crate::proofs::FirstLaws::has_sizes))]
pub(crate) fn read_superblock<D: Device>(device: &mut D) -> Result<Superblock, MountFault>
    ensures volume { IfOk result (HasSize (D.size device.old)) }
    ensures seen { D.keeps_word
        → IsSeen (D.size device.old) (seen (D.history device.old).now 0) result }
    // It only reads
    ensures history { D.history device.new ≡ D.history device.old }
    ensures same_size { D.size device.new ≡ D.size device.old }
    // If the device fails in it
    ensures later { D.failed device.old ≤ D.failed device.new }
    ensures cause { IsErrOf result MountFault.Device
        → IsCounted (D.failed device.old) (D.failed device.new) }
    ensures none { (¬ IsErrOf result MountFault.Device)
        → D.failed device.new ≡ D.failed device.old }
    ensures no_memory { ¬ IsErrOf result MountFault.Memory }
    ensures never_worn { ¬ IsErrOf result MountFault.Worn }
{
    let first = match read_first(device) {
        Ok(first) => first,
        Err(fault) => return Err(fault),
    };
    let sectors = device.sectors();
    let Some(version) = version_at(sectors, &first) else {
        return Err(MountFault::NotVolume);
    };
    let nodes = nodes_of(&first);
    let run = run_of(&first);
    if first != superblock_of(version, sectors, nodes, run) {
        return Err(MountFault::Damaged);
    }
    Ok(Superblock {
        version,
        sectors,
        nodes,
        run,
    })
}

/// Raises the restart count of a volume whose nodes have form two, and sets its version to the one
/// in which it is served: one write of its first sector.
pub(crate) fn raise<D: Device>(
    journal: &mut Journal<D>,
    found: Superblock,
) -> Result<(), JournalFault>
    requires volume { IsVolumeOf (log_of journal.old).size found }
    requires rests { IsAtRest found.version (log_of journal.old) }
    ensures moments { D.keeps_word → RaisesSafely found (log_of journal.old)
        (log_of journal.new).history }
    ensures raised { OnOk result (IsRaised D.keeps_word found
        (log_of journal.old) (log_of journal.new)) }
    ensures cause { OnErr result
        (IsCounted (journal_failures journal.old) (journal_failures journal.new)) }
    ensures none { OnOk result (journal_failures journal.new ≡ journal_failures journal.old) }
    // However it ends
    ensures list { (log_of journal.new).list ≡ (log_of journal.old).list }
    ensures place { StaysInPlace (log_of journal.old) (log_of journal.new) }
    ensures later { journal_failures journal.old ≤ journal_failures journal.new }
{
    let sector = superblock_of(
        found.version.served(),
        found.sectors,
        found.nodes,
        found.run + 1,
    );
    journal.superblock(&sector)?;
    Ok(())
}
