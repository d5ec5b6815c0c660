//! The cached node of a place, and those of a table.

ghost use Rattle.std.specs.Prelude.{◌≡◌, ◌≤◌, ◌<◌, ◌+◌, ◌/◌, ◌^◌, ℕ, List, Option, Some, length};
ghost use Rattle.std.specs.Prelude.{replicate, false, IfOk, OnOk, IsErrOf, None, IsTrue, ◌↔◌};
ghost use Rattle.extents.specs.declared.run.Run.{Run};
ghost use Rattle.inode.specs.Fields.{fields_of, IsInode};
ghost use Rattle.layout.specs.CachedNodes as layout;
ghost use Rattle.layout.specs.Health.{FailsOrStays};
ghost use Rattle.layout.specs.Laid.{AreNumbered};
ghost use Rattle.layout.specs.Marks.{namings_of};
ghost use Rattle.layout.specs.Stands.{version_by};
ghost use Rattle.model_tree.specs.Seats.Seats.{no_seats};
ghost use Rattle.model_tree.specs.Trees.Charge.{divided_up};
ghost use Rattle.volume_load.specs.Ahead.{IsAhead};
ghost use Rattle.volume_load.specs.Names.{AreSetWithin};
ghost use Rattle.volume_load.specs.Marking.{CanMark, AreMarked};
ghost use Rattle.volume_load.specs.CachedNodes.{uses, FindsBlocks, FindsRest, FindsPlace, IsFound};
ghost use Rattle.volume_load.specs.CachedNodes.{CanHold};
ghost use Rattle.volume_load.specs.CachedNodes.{numbers_of};

use crate::ahead::Ahead;
use crate::fault::ScanFault;
use crate::marks::{mark_blocks, mark_sectors};
use crate::names::read_content;
use crate::nodes::read_node;
use crate::numbers::are_apart;
use crate::runs::{blocks_from, read_runs};
use extents::{BlockList, MAX_SECTOR_RUNS, Run, Runs};
use freemap::Bitmap;
use inode::{Form, Inode};
use layout::places::NODES;
use layout::sectors::Sectors;
use layout::versions::{VersionNumber, form_at};
use node_table::{BoxedNode, CachedNode};
use std::alloc::{AllocError, Global};

/// The runs and the blocks of a node.
#[derive(Drop)]
struct Laid {
    runs: Vec<Run>,
    blocks: BlockList,
}

/// The runs and the blocks of a node. Their sectors are marked before they are read.
fn read_blocks<S: Sectors>(
    alloc: Global,
    sectors: &mut S,
    places: &mut Bitmap,
    first: u32,
    inode: &Inode,
) -> Result<Laid, ScanFault>
    requires enough { length inode.now.run_sectors.items
        ≡ divided_up inode.now.runs MAX_SECTOR_RUNS }
    requires within { first + length places.old ≤ S.size (S.kept sectors.old) }
    ensures found { IfOk result (λ laid. FindsBlocks S.keeps_word (S.image (S.kept sectors.old))
        (fields_of inode.now) laid.runs.items laid.blocks) }
    ensures within { IfOk result
        (λ laid. AreSetWithin (S.size (S.kept sectors.old)) laid.blocks) }
    ensures marked { IfOk result (λ laid. AreMarked first places.old places.new
        (uses (fields_of inode.now) laid.blocks)) }
    // If it fails
    ensures damaged { S.keeps_word → IsErrOf result ScanFault.Damaged
        → (runs : List Run) (blocks : List (Option ℕ))
        → FindsBlocks S.keeps_word (S.image (S.kept sectors.old)) (fields_of inode.now) runs blocks
        → ¬ CanMark first places.old (uses (fields_of inode.now) blocks) }
    // It only reads
    ensures kept { S.kept sectors.new ≡ S.kept sectors.old }
    ensures health { FailsOrStays (S.health sectors.old) (S.health sectors.new)
        (IsErrOf result ScanFault.Device) }
{
    if !mark_sectors(places, first, &inode.run_sectors) {
        return Err(ScanFault::Damaged);
    }
    let runs = read_runs(alloc, sectors, &inode.run_sectors, usize::from(inode.runs))?;
    let blocks = blocks_from(alloc, inode.kind, inode.size, &runs)?;
    if !mark_blocks(places, first, &blocks) {
        return Err(ScanFault::Damaged);
    }
    Ok(Laid { runs, blocks })
}

/// The cached node of a node: what the sectors that it names hold. These are marked.
fn read_cached<S: Sectors>(
    alloc: Global,
    sectors: &mut S,
    places: &mut Bitmap,
    first: u32,
    form: Form,
    inode: Inode,
) -> Result<CachedNode, ScanFault>
    requires fits { IsInode form (fields_of inode) }
    requires within { first + length places.old ≤ S.size (S.kept sectors.old) }
    ensures fields { IfOk result (λ cached. cached.fields ≡ fields_of inode) }
    ensures form { IfOk result (λ cached. cached.form ≡ form) }
    ensures found { IfOk result (FindsRest S.keeps_word (S.image (S.kept sectors.old))) }
    ensures marked { IfOk result (λ cached. AreMarked first places.old places.new
        (uses cached.fields cached.blocks)) }
    // If it fails
    ensures damaged { S.keeps_word → IsErrOf result ScanFault.Damaged → (cached : layout.CachedNode)
        → cached.fields ≡ fields_of inode
        → FindsRest S.keeps_word (S.image (S.kept sectors.old)) cached
        → ¬ CanMark first places.old (uses cached.fields cached.blocks) }
    // It only reads
    ensures kept { S.kept sectors.new ≡ S.kept sectors.old }
    ensures health { FailsOrStays (S.health sectors.old) (S.health sectors.new)
        (IsErrOf result ScanFault.Device) }
{
    let laid = read_blocks(alloc, sectors, places, first, &inode)?;
    let names = read_content(alloc, sectors, inode.kind, inode.size, &laid.blocks)?;
    let runs = Runs::from_vec(laid.runs)?;
    Ok(CachedNode {
        form,
        inode,
        runs,
        blocks: laid.blocks,
        names,
    })
}

/// The cached node of a place, whose node is to have this form; none if it is free.
fn read_place<S: Sectors>(
    alloc: Global,
    sectors: &mut S,
    ahead: &mut Ahead,
    places: &mut Bitmap,
    first: u32,
    place: u32,
    form: Form,
) -> Result<Option<BoxedNode>, ScanFault>
    requires place { place < ahead.old.nodes }
    requires ahead { IsAhead S.keeps_word (S.image (S.kept sectors.old))
        (S.size (S.kept sectors.old)) ahead.old.nodes ahead.old }
    requires within { first + length places.old ≤ S.size (S.kept sectors.old) }
    ensures found { IfOk result
        (FindsPlace S.keeps_word form (S.image (S.kept sectors.old)) place) }
    ensures marked { IfOk result (λ cached. AreMarked first places.old places.new
        (λ n. namings_of n cached)) }
    ensures ahead { OnOk result (IsAhead S.keeps_word (S.image (S.kept sectors.old))
        (S.size (S.kept sectors.old)) ahead.old.nodes ahead.new) }
    // If it fails
    ensures damaged { S.keeps_word → IsErrOf result ScanFault.Damaged
        → (cached : Option layout.CachedNode)
        → FindsPlace S.keeps_word form (S.image (S.kept sectors.old)) place cached
        → ¬ CanMark first places.old (λ n. namings_of n cached) }
    // It only reads
    ensures kept { S.kept sectors.new ≡ S.kept sectors.old }
    ensures health { FailsOrStays (S.health sectors.old) (S.health sectors.new)
        (IsErrOf result ScanFault.Device) }
{
    let Some(inode) = read_node(alloc, sectors, ahead, place, form)? else {
        return Ok(None);
    };
    let cached = read_cached(alloc, sectors, places, first, form, inode)?;
    let boxed = BoxedNode::new(alloc, cached)?;
    Ok(Some(boxed))
}

/// The cached nodes of `nodes` places, in the forms of the version and its mark, and the marks of
/// what they name.
pub(crate) fn read_table<S: Sectors>(
    alloc: Global,
    sectors: &mut S,
    places: &mut Bitmap,
    nodes: u32,
    number: VersionNumber,
    mark: Option<u32>,
) -> Result<Vec<Option<BoxedNode>>, ScanFault>
    requires few { NODES + nodes < 2 ^ 32 }
    requires within { NODES + nodes + length places.old ≤ S.size (S.kept sectors.old) }
    requires free { places.old ≡ replicate (length places.old) false }
    ensures found { IfOk result (λ cached_nodes. IsFound S.keeps_word
        (version_by number mark no_seats).form (S.image (S.kept sectors.old)) nodes
        (length places.old) cached_nodes.items places.new) }
    // If it fails
    ensures damaged { S.keeps_word → IsErrOf result ScanFault.Damaged
        → (cached_nodes : List (Option layout.CachedNode))
        → ¬ CanHold S.keeps_word (version_by number mark no_seats).form
        (S.image (S.kept sectors.old)) nodes (length places.old) cached_nodes }
    // It only reads
    ensures kept { S.kept sectors.new ≡ S.kept sectors.old }
    ensures health { FailsOrStays (S.health sectors.old) (S.health sectors.new)
        (IsErrOf result ScanFault.Device) }
{
    let mut cached_nodes = Vec::with_capacity(alloc, nodes as usize)?;
    let mut ahead = Ahead::new(alloc, nodes)?;
    for place in 0..nodes {
        let form = form_at(number, mark, place);
        let cached = read_place(
            alloc,
            sectors,
            &mut ahead,
            places,
            NODES + nodes,
            place,
            form,
        )?;
        cached_nodes.push(cached)?;
    }
    Ok(cached_nodes)
}

/// The numbers of the nodes.
fn numbers_in(alloc: Global, cached_nodes: &[Option<BoxedNode>]) -> Result<Vec<u64>, AllocError>
    ensures { IfOk result (λ numbers. numbers.items ≡ numbers_of cached_nodes.now) }
{
    let mut numbers = Vec::with_capacity(alloc, cached_nodes.len())?;
    for cached in cached_nodes {
        if let Some(cached) = cached {
            numbers.push(cached.inode.number)?;
        }
    }
    Ok(numbers)
}

/// Whether no two nodes have the same number.
pub(crate) fn are_numbered(
    alloc: Global,
    cached_nodes: &[Option<BoxedNode>],
) -> Result<bool, AllocError>
    ensures { IfOk result (λ are. IsTrue are ↔ AreNumbered cached_nodes.now) }
{
    let numbers = numbers_in(alloc, cached_nodes)?;
    let apart = are_apart(numbers)?;
    Ok(apart)
}
