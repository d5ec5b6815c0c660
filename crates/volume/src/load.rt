//! Reading the nodes of a volume into memory.

ghost use Rattle.std.specs.Prelude.{◌≡◌, ◌⊎◌, IfOk, IfErr, IsErrOf};
ghost use Rattle.journal.specs.Journal.{log_of, journal_failures};
ghost use Rattle.layout.specs.Rewriting.{all_second, in_second};
ghost use Rattle.layout.specs.Stands.{Kept};
ghost use Rattle.model_tree.specs.Seats.SeatViews.{seats_view};
ghost use Rattle.volume.specs.ParentIndex.{AreParents};
ghost use Rattle.layout.specs.Health.{FailsOrStays};
ghost use Rattle.volume.specs.Loads.{AreLoaded, HoldsBase, HoldsVolume, IsLoaded, Loads};
ghost use Rattle.volume.specs.Mounts.{HasSize, IsVolumeOf, IsAtRest, StandsOn};

use crate::fault::MountFault;
use crate::mount::Superblock;
use crate::parents::Parents;
use crate::store::Store;
use disk::Device;
use freemap::SharedBitmap;
use inode::Form;
use layout::sectors::Sectors;
use model_tree::seats::Seats;
use model_tree::stamps::stamp;
use node_table::{BoxedNode, Table};
use std::alloc::{AllocError, Global};
use tree_check::are_well_formed;
use volume_load::read_volume;

/// The nodes of a volume as they are once each has form two, the places of its data region that
/// they name, and their parents.
#[derive(Drop)]
pub(crate) struct Loaded {
    /// How far a migration got, by its mark.
    pub(crate) mark: Option<u32>,
    /// The seats of persistent sessions.
    pub(crate) seats: Seats,
    pub(crate) table: Table,
    pub(crate) places: SharedBitmap,
    pub(crate) parents: Parents,
}

/// The cached node of a place as it is once its node has form two.
fn in_second(cached: Option<BoxedNode>) -> Option<BoxedNode>
    ensures { result ≡ in_second cached }
{
    Some(cached?.with_form(Form::Two))
}

/// The cached nodes of all places as they are then.
fn all_second(
    alloc: Global,
    cached_nodes: Vec<Option<BoxedNode>>,
) -> Result<Vec<Option<BoxedNode>>, AllocError>
    ensures { IfOk result (λ second. second.items ≡ all_second cached_nodes.items) }
{
    let mut second = Vec::with_capacity(alloc, cached_nodes.len())?;
    for cached in cached_nodes {
        second.push(in_second(cached))?;
    }
    Ok(second)
}

/// Reads the nodes of a volume that was found, whatever keeps its sectors: Damaged exactly if there
/// is no tree.
pub(crate) fn read_nodes<S: Sectors>(
    alloc: Global,
    sectors: &mut S,
    found: Superblock,
) -> Result<Loaded, MountFault>
    requires volume { HasSize (S.size (S.kept sectors.old)) found }
    requires base { S.keeps_word → HoldsVolume found
        (S.size (S.kept sectors.old)) (S.image (S.kept sectors.old)) }
    ensures loaded { IfOk result (λ loaded. AreLoaded S.keeps_word found
        (S.image (S.kept sectors.old)) loaded.mark loaded.table (seats_view loaded.seats)
        loaded.places) }
    ensures parents { IfOk result (λ loaded. AreParents loaded.table loaded.parents) }
    // It only reads
    ensures kept { S.kept sectors.new ≡ S.kept sectors.old }
    ensures health { FailsOrStays (S.health sectors.old) (S.health sectors.new)
        (IsErrOf result MountFault.Device) }
    // If it fails
    ensures damaged { S.keeps_word → IsErrOf result MountFault.Damaged → (kept : Kept)
        → ¬ StandsOn found (S.image (S.kept sectors.old)) kept }
    ensures only { IfErr result (λ fault. (fault ≡ MountFault.Device)
        ⊎ ((fault ≡ MountFault.Damaged) ⊎ (fault ≡ MountFault.Memory))) }
{
    let limits = found.version.limits(found.sectors, found.nodes);
    let contents = read_volume(
        alloc,
        sectors,
        found.sectors,
        found.nodes,
        found.version,
        found.run,
    )?;
    let table = Table::from_cached_nodes(alloc, all_second(alloc, contents.cached_nodes)?)?;
    let last_stamp = stamp(found.run, u32::MAX);
    if !are_well_formed(alloc, &table, &limits, last_stamp)? {
        return Err(MountFault::Damaged);
    }
    let parents = Parents::from_table(alloc, &table)?;
    let places = SharedBitmap::new(alloc, contents.places)?;
    Ok(Loaded {
        mark: contents.mark,
        seats: contents.seats,
        table,
        places,
        parents,
    })
}

/// Reads the nodes of a volume that is mounted.
pub(crate) fn load<D: Device>(
    alloc: Global,
    store: &mut Store<D>,
    found: Superblock,
) -> Result<Loaded, MountFault>
    requires volume { IsVolumeOf (log_of store.old.journal).size found }
    requires rests { IsAtRest found.version (log_of store.old.journal) }
    requires base { D.keeps_word → HoldsBase found (log_of store.old.journal) }
    ensures loaded { IfOk result (λ loaded. IsLoaded D.keeps_word found
        (log_of store.old.journal) loaded.mark loaded.table (seats_view loaded.seats)
        loaded.places) }
    ensures parents { IfOk result (λ loaded. AreParents loaded.table loaded.parents) }
    // It only reads
    ensures loads { Loads (log_of store.old.journal) (log_of store.new.journal)
        (journal_failures store.old.journal) (journal_failures store.new.journal)
        (IsErrOf result MountFault.Device) }
    // If it fails
    ensures damaged { D.keeps_word → IsErrOf result MountFault.Damaged → (kept : Kept)
        → ¬ StandsOn found (log_of store.old.journal).base kept }
    ensures only { IfErr result (λ fault. (fault ≡ MountFault.Device)
        ⊎ ((fault ≡ MountFault.Damaged) ⊎ (fault ≡ MountFault.Memory))) }
{
    let loaded = read_nodes(alloc, store, found)?;
    Ok(loaded)
}
