//! A transaction that is being prepared.

ghost use Rattle.std.specs.Prelude.{◌≡◌, ◌≤◌, ◌<◌, ◌+◌, ◌*◌, ◌/◌, ◌%◌, ◌^◌, false, set, [], Some, None, length, slice_index_or, IfOk, OnOk, IsErrOf};
ghost use Rattle.node_table.specs.Overlays.{overlaid};
ghost use Rattle.node_table.specs.Tables.{HasNoNode, IsFree};
ghost use Rattle.directory.specs.Records.{record_from};
ghost use Rattle.disk.specs.Moments.{Image, applied};
ghost use Rattle.freemap.specs.Kept.{free_places};
ghost use Rattle.inode.specs.Fields.{IsInode};
ghost use Rattle.inode.specs.Encoding.{inode_sector};
ghost use Rattle.model_tree.specs.declared.node.NodeKind.TheVariants as kind;
ghost use Rattle.model_tree.specs.Trees.Charge.{blocks_of};
ghost use Rattle.model_tree.specs.Trees.Edit.{PutNode, DropNode, Show, PutName, PutBytes, SetSize};
ghost use Rattle.layout.specs.CachedNodes as layout;
ghost use Rattle.layout.specs.Health.{FailsOrStays};
ghost use Rattle.tree_transaction.specs.Blocks.{IsSectorPut, set_blocks};
ghost use Rattle.tree_transaction.specs.Transactions.{cached_nodes_of, end_of, IsKnown, StaysKnown, MakesEdit, Edits, EditsOver, NodeBecomes, IsBack, StandsAgain, IsOvercharged};
ghost use Rattle.tree_transaction.specs.Grown.{grown, reaching, sized, blocks_to, CanWrite};
ghost use Rattle.tree_transaction.specs.Grown.{CanGrow, CanCut};
ghost use Rattle.tree_transaction.specs.Laying.{CanBeLaid, HasEnough, sectors_for};
ghost use Rattle.tree_transaction.specs.Naming.{CanName, HasNameAt, DropsNamed, with_name, without_name, blocks_named};
ghost use Rattle.tree_transaction.specs.Nodes.{IsNewCached, new_node, metadata_of, showing, HasNode};
ghost use Rattle.tree_transaction.specs.Nodes.{CanShow};
ghost use Rattle.tree_transaction.specs.Updates.{AreTreeUpdates};
ghost use Rattle.tree_transaction.specs.Whole.{Finishes, bitmap_sectors};
ghost use Rattle.tree_transaction.specs.Written.{HasBytes, HasItsRuns, IsWritten};

use crate::blocks::{clear_tail, rewrite_names, write_blocks, write_names};
use crate::fault::{SpaceFault, TransactionFault};
use crate::laying::{rerun, store_given_runs};
use crate::marks::put_marks;
use crate::nodes::{Metadata, put_node};
use crate::numbers::{give_blocks, give_numbers};
use crate::updates::Updates;
use directory::RECORDS;
use disk::{SECTOR, Update};
use extents::BlockList;
use freemap::SharedBitmap;
use layout::places::NODES;
use layout::sectors::Sectors;
use layout::versions::Marking;
use node_table::{BoxedNode, CachedNode, Changes, Overlay, Table};
use std::alloc::{AllocError, Global};

/// Cached nodes, places and updates as edits have made them.
#[derive(Drop)]
pub struct Transaction<'a> {
    pub alloc: Global,
    pub nodes: u32,
    pub updates: Updates,
    pub places: SharedBitmap,
    pub cached_nodes: Overlay<'a>,
}

/// The result of a transaction: what is to be written, and what memory is then to keep of the
/// volume.
#[derive(Drop)]
pub struct PreparedTransaction {
    pub updates: Vec<Update>,
    pub places: SharedBitmap,
    pub changes: Changes,
}

/// A cached node that was taken out and whose blocks are written.
#[derive(Drop)]
struct WrittenCached {
    cached: CachedNode,
    /// Whether holes got sectors.
    filled: bool,
}

/// Takes the cached node of a place out of the table.
fn take_cached(cached_nodes: &mut Overlay<'_>, place: u32) -> Result<CachedNode, AllocError>
    requires { HasNode cached_nodes.old.cached_nodes place }
    ensures cached { IfOk result
        (λ cached. slice_index_or cached_nodes.old.cached_nodes place None ≡ Some cached) }
    ensures cached_nodes { OnOk result
        (cached_nodes.new.cached_nodes ≡ set cached_nodes.old.cached_nodes place None) }
    ensures table { cached_nodes.new.table ≡ cached_nodes.old.table }
{
    let cached = cached_nodes.take(place)?;
    Ok(cached.unwrap())
}

/// Puts a cached node into a place of the table.
fn put_cached(
    alloc: Global,
    cached_nodes: &mut Overlay<'_>,
    place: u32,
    cached: CachedNode,
) -> Result<(), AllocError>
    requires { place < length cached_nodes.old.cached_nodes }
    ensures cached_nodes { OnOk result
        (cached_nodes.new.cached_nodes ≡ set cached_nodes.old.cached_nodes place (Some cached)) }
    ensures table { cached_nodes.new.table ≡ cached_nodes.old.table }
{
    let boxed = BoxedNode::new(alloc, cached)?;
    cached_nodes.put(place, Some(boxed))
}

/// Gives a cached node other metadata.
fn show_in(cached: &mut CachedNode, metadata: &Metadata) -> Result<(), AllocError>
    ensures { OnOk result (cached.new ≡ showing (metadata_of metadata.now) cached.old) }
{
    cached.inode.acl = metadata.acl.try_clone()?;
    cached.inode.owner = metadata.owner;
    cached.inode.group = metadata.group;
    cached.inode.change = metadata.change;
    cached.inode.time_modify = metadata.time_modify;
    Ok(())
}

/// The number of blocks of a file of this size.
fn blocks_of(size: u64) -> u32
    requires { size ≤ SECTOR * BlockList.MAX_BLOCKS }
    ensures { result ≡ blocks_of kind.File size }
{
    size.div_ceil(SECTOR as u64) as u32
}

/// Extends a file to at least this end, by holes.
fn grow_to(cached: &mut CachedNode, end: u64) -> Result<(), AllocError>
    requires end { end ≤ SECTOR * BlockList.MAX_BLOCKS }
    requires few { cached.old.fields.size ≤ SECTOR * BlockList.MAX_BLOCKS }
    ensures { OnOk result (cached.new ≡ grown cached.old end) }
{
    let size = cached.inode.size.max(end);
    cached.blocks.grow(blocks_of(size))?;
    cached.inode.size = size;
    Ok(())
}

impl<'a> Transaction<'a> {
    /// A transaction that has changed nothing yet, over a volume's table and the places of its data
    /// region. The memory of the places is copied once one is allocated or freed.
    pub fn new(
        alloc: Global,
        table: &'a Table,
        places: &SharedBitmap,
    ) -> Result<Transaction<'a>, AllocError>
        // Nothing is written yet
        ensures updates { IfOk result (λ transaction. transaction.updates ≡ []) }
        // The volume as it is
        ensures nodes { IfOk result (λ transaction. transaction.nodes ≡ length table.now) }
        ensures places { IfOk result (λ transaction. transaction.places ≡ places.now) }
        ensures cached_nodes { IfOk result (λ transaction. cached_nodes_of transaction ≡ table.now) }
        ensures table { IfOk result (λ transaction. transaction.cached_nodes.table ≡ table.now) }
    {
        Ok(Transaction {
            alloc,
            nodes: table.places(),
            updates: Updates::new(alloc),
            places: places.try_clone()?,
            cached_nodes: Overlay::new(alloc, table)?,
        })
    }

    /// The result of the transaction. The table is no longer borrowed.
    pub fn into_prepared(self) -> PreparedTransaction
        ensures updates { result.updates.items ≡ self.entry.updates }
        ensures places { result.places ≡ self.entry.places }
        ensures changes { overlaid self.entry.cached_nodes.table result.changes ≡ cached_nodes_of self.entry }
    {
        PreparedTransaction {
            updates: self.updates.into_vec(),
            places: self.places,
            changes: self.cached_nodes.into_changes(),
        }
    }

    /// Makes a node without bytes or names at a free place.
    ///
    /// # Errors
    ///
    /// Only memory.
    pub fn make(&mut self, place: u32, cached: CachedNode) -> Result<(), AllocError>
        requires known { IsKnown self.old }
        requires free { IsFree (cached_nodes_of self.old) place }
        requires node { IsNewCached cached }
        requires fresh { HasNoNode (cached_nodes_of self.old) cached.fields.number }
        ensures known { OnOk result (StaysKnown self.old self.new) }
        ensures cached_nodes { OnOk result
            (cached_nodes_of self.new ≡ set (cached_nodes_of self.old) place (Some cached)) }
        ensures made { OnOk result (MakesEdit self.old self.new
            (PutNode cached.fields.number (new_node cached))) }
        // However it ends
        ensures count { length self.new.updates ≤ length self.old.updates + 1 }
        ensures table { self.new.cached_nodes.table ≡ self.old.cached_nodes.table }
    {
        put_node(&mut self.updates, place, &cached)?;
        put_cached(self.alloc, &mut self.cached_nodes, place, cached)?;
        Ok(())
    }

    /// Gives a node other metadata.
    ///
    /// # Errors
    ///
    /// Only memory.
    pub fn show(&mut self, place: u32, metadata: &Metadata) -> Result<(), AllocError>
        requires known { IsKnown self.old }
        requires node { CanShow (cached_nodes_of self.old) place (metadata_of metadata.now) }
        ensures known { OnOk result (StaysKnown self.old self.new) }
        ensures cached_nodes { OnOk result
            (NodeBecomes self.old self.new place (showing (metadata_of metadata.now))) }
        ensures metadata { OnOk result (Edits self.old self.new place
            (λ number. Show number (metadata_of metadata.now))) }
        // However it ends
        ensures count { length self.new.updates ≤ length self.old.updates + 1 }
        ensures table { self.new.cached_nodes.table ≡ self.old.cached_nodes.table }
    {
        let mut cached = take_cached(&mut self.cached_nodes, place)?;
        show_in(&mut cached, metadata)?;
        put_node(&mut self.updates, place, &cached)?;
        put_cached(self.alloc, &mut self.cached_nodes, place, cached)?;
        Ok(())
    }

    /// Removes a node: its place gets zeros, and its sectors are freed.
    ///
    /// # Errors
    ///
    /// Only memory.
    pub fn free(&mut self, place: u32) -> Result<(), AllocError>
        requires known { IsKnown self.old }
        requires node { HasNode (cached_nodes_of self.old) place }
        ensures known { OnOk result (StaysKnown self.old self.new) }
        ensures cached_nodes { OnOk result (cached_nodes_of self.new ≡ set (cached_nodes_of self.old) place None) }
        ensures freed { OnOk result (Edits self.old self.new place DropNode) }
        // However it ends
        ensures count { length self.new.updates ≤ length self.old.updates + 1 }
        ensures table { self.new.cached_nodes.table ≡ self.old.cached_nodes.table }
    {
        let mut cached = take_cached(&mut self.cached_nodes, place)?;
        let first = NODES + self.nodes;
        give_blocks(&mut self.places, first, &cached.blocks, 0)?;
        give_numbers(&mut self.places, first, &mut cached.inode.run_sectors, 0)?;
        self.updates.put(NODES + place, &[0; SECTOR])?;
        Ok(())
    }

    /// Puts a new name after the others of a directory.
    ///
    /// # Errors
    ///
    /// [`SpaceFault::Memory`], and [`SpaceFault::Full`] if no sector is free.
    pub fn put_name(
        &mut self,
        place: u32,
        name: &[u8],
        stamp: u64,
        number: u64,
    ) -> Result<(), SpaceFault>
        requires known { IsKnown self.old }
        requires names { CanName (cached_nodes_of self.old) place name.now stamp }
        ensures known { OnOk result (StaysKnown self.old self.new) }
        ensures cached_nodes { OnOk result (NodeBecomes self.old self.new place
            (with_name (record_from stamp name.now number))) }
        ensures put { OnOk result (Edits self.old self.new place
            (λ to. PutName to stamp (record { name = name.now; number = number }))) }
        // What it costs
        ensures count { length self.new.updates ≤ length self.old.updates + 4 }
        ensures full { IsErrOf result SpaceFault.Full → IsOvercharged self.old place blocks_named }
        // However it ends
        ensures table { self.new.cached_nodes.table ≡ self.old.cached_nodes.table }
    {
        let mut cached = take_cached(&mut self.cached_nodes, place)?;
        // There is room for the name, so it can only be memory that is lacking.
        let Ok(at) = cached.names.put(name, stamp, number) else {
            return Err(SpaceFault::Memory);
        };
        cached.inode.size = cached.names.len() as u64;
        let filled = write_names(
            &mut self.updates,
            &mut self.places,
            NODES + self.nodes,
            &mut cached.blocks,
            &cached.names,
            (at / RECORDS) as u32,
        )?;
        self.store_written(place, WrittenCached { cached, filled })?;
        Ok(())
    }

    /// Removes a name from a directory; the last record moves into its place.
    ///
    /// # Errors
    ///
    /// Only memory.
    pub fn drop_name(&mut self, place: u32, name: &[u8]) -> Result<(), AllocError>
        requires known { IsKnown self.old }
        requires names { HasNameAt (cached_nodes_of self.old) place name.now }
        ensures known { OnOk result (StaysKnown self.old self.new) }
        ensures cached_nodes { OnOk result (NodeBecomes self.old self.new place (without_name name.now)) }
        ensures dropped { OnOk result (DropsNamed self.old self.new place name.now) }
        // However it ends
        ensures count { length self.new.updates ≤ length self.old.updates + 4 }
        ensures table { self.new.cached_nodes.table ≡ self.old.cached_nodes.table }
    {
        let mut cached = take_cached(&mut self.cached_nodes, place)?;
        let (at, _entry) = cached.names.remove(name)?.unwrap();
        let left = cached.names.len();
        cached.inode.size = left as u64;
        let count = ((left + RECORDS - 1) / RECORDS) as u32;
        give_blocks(&mut self.places, NODES + self.nodes, &cached.blocks, count)?;
        let before = cached.blocks.len();
        cached.blocks.cut(count);
        let block = (at / RECORDS) as u32;
        let last = (left / RECORDS) as u32;
        rewrite_names(&mut self.updates, &cached.blocks, &cached.names, block)?;
        rewrite_names(&mut self.updates, &cached.blocks, &cached.names, last)?;
        self.store_cut(place, cached, before)?;
        Ok(())
    }

    /// Extends a file to this size, by holes.
    ///
    /// # Errors
    ///
    /// Only memory.
    pub fn grow(&mut self, place: u32, size: u64) -> Result<(), AllocError>
        requires known { IsKnown self.old }
        requires file { CanGrow (cached_nodes_of self.old) place size }
        ensures known { OnOk result (StaysKnown self.old self.new) }
        ensures cached_nodes { OnOk result
            (NodeBecomes self.old self.new place (λ cached. sized cached size)) }
        ensures grown { OnOk result (Edits self.old self.new place
            (λ number. SetSize number size)) }
        // However it ends
        ensures count { length self.new.updates ≤ length self.old.updates + 1 }
        ensures table { self.new.cached_nodes.table ≡ self.old.cached_nodes.table }
    {
        let mut cached = take_cached(&mut self.cached_nodes, place)?;
        grow_to(&mut cached, size)?;
        put_node(&mut self.updates, place, &cached)?;
        put_cached(self.alloc, &mut self.cached_nodes, place, cached)?;
        Ok(())
    }

    /// Truncates a file to this size.
    ///
    /// # Errors
    ///
    /// [`TransactionFault::Device`] if the device failed, [`TransactionFault::Memory`].
    pub fn truncate<S: Sectors>(
        &mut self,
        base: &mut S,
        place: u32,
        size: u64,
    ) -> Result<(), TransactionFault>
        requires known { IsKnown self.old × (end_of self.old ≤ S.size (S.kept base.old)) }
        requires file { CanCut (cached_nodes_of self.old) place size }
        ensures known { OnOk result (StaysKnown self.old self.new) }
        ensures cached_nodes { OnOk result
            (NodeBecomes self.old self.new place (λ cached. sized cached size)) }
        ensures tree { S.keeps_word → OnOk result (EditsOver (S.image (S.kept base.old))
            (S.size (S.kept base.old)) self.old self.new place (λ number. SetSize number size)) }
        // What it costs
        ensures count { OnOk result (length self.new.updates ≤ length self.old.updates + 11) }
        ensures full { ¬ IsErrOf result TransactionFault.Full }
        // It only reads the base
        ensures kept { (S.kept base.new ≡ S.kept base.old)
            × (self.new.cached_nodes.table ≡ self.old.cached_nodes.table) }
        ensures health { FailsOrStays (S.health base.old) (S.health base.new)
            (IsErrOf result TransactionFault.Device) }
    {
        let mut cached = take_cached(&mut self.cached_nodes, place)?;
        clear_tail(&mut self.updates, base, &cached.blocks, size)?;
        let count = blocks_of(size);
        give_blocks(&mut self.places, NODES + self.nodes, &cached.blocks, count)?;
        cached.blocks.cut(count);
        cached.inode.size = size;
        self.store_node_and_runs(place, cached)?;
        Ok(())
    }

    /// Writes bytes into a file from an offset on. Holes on the way get sectors, and the file grows
    /// if the bytes pass its end. For 8,192 bytes that makes at most 13 updates.
    ///
    /// # Errors
    ///
    /// [`TransactionFault::Device`] if the device failed, [`TransactionFault::Memory`], and
    /// [`TransactionFault::Full`] if no sector is free.
    pub fn write<S: Sectors>(
        &mut self,
        base: &mut S,
        place: u32,
        offset: usize,
        bytes: &[u8],
    ) -> Result<(), TransactionFault>
        requires known { IsKnown self.old × (end_of self.old ≤ S.size (S.kept base.old)) }
        requires file { CanWrite (cached_nodes_of self.old) place (offset + length bytes.now) }
        ensures known { OnOk result (StaysKnown self.old self.new) }
        ensures cached_nodes { OnOk result (NodeBecomes self.old self.new place
            (reaching (offset + length bytes.now))) }
        ensures tree { S.keeps_word → OnOk result (EditsOver (S.image (S.kept base.old))
            (S.size (S.kept base.old)) self.old self.new place
            (λ number. PutBytes number offset bytes.now)) }
        // What it costs
        ensures count { OnOk result (length self.new.updates
            ≤ length self.old.updates + (offset % SECTOR + length bytes.now + 4095) / SECTOR + 10) }
        ensures full { IsErrOf result TransactionFault.Full
            → IsOvercharged self.old place (blocks_to (offset + length bytes.now)) }
        // It only reads the base
        ensures kept { (S.kept base.new ≡ S.kept base.old)
            × (self.new.cached_nodes.table ≡ self.old.cached_nodes.table) }
        ensures health { FailsOrStays (S.health base.old) (S.health base.new)
            (IsErrOf result TransactionFault.Device) }
    {
        let written = self.write_blocks_of(base, place, offset, bytes)?;
        self.store_written(place, written)?;
        Ok(())
    }

    /// Takes the cached node of a file out, extends it to the end of these bytes, and writes them
    /// into its blocks.
    fn write_blocks_of<S: Sectors>(
        &mut self,
        base: &mut S,
        place: u32,
        offset: usize,
        bytes: &[u8],
    ) -> Result<WrittenCached, TransactionFault>
        requires known { IsKnown self.old × (end_of self.old ≤ S.size (S.kept base.old)) }
        requires file { CanWrite (cached_nodes_of self.old) place (offset + length bytes.now) }
        ensures written { IfOk result (λ written. IsWritten self.old self.new place
            (offset + length bytes.now) written.cached written.filled) }
        ensures bytes { S.keeps_word → IfOk result (λ written.
            HasBytes (S.image (S.kept base.old)) self.old self.new place offset bytes.now
            written.cached) }
        // What it costs
        ensures count { OnOk result (length self.new.updates
            ≤ length self.old.updates + (offset % SECTOR + length bytes.now + 4095) / SECTOR) }
        ensures full { IsErrOf result TransactionFault.Full
            → IsOvercharged self.old place (blocks_to (offset + length bytes.now)) }
        // It only reads the base
        ensures kept { (S.kept base.new ≡ S.kept base.old)
            × (self.new.cached_nodes.table ≡ self.old.cached_nodes.table) }
        ensures health { FailsOrStays (S.health base.old) (S.health base.new)
            (IsErrOf result TransactionFault.Device) }
    {
        let mut cached = take_cached(&mut self.cached_nodes, place)?;
        grow_to(&mut cached, (offset + bytes.len()) as u64)?;
        let filled = write_blocks(
            &mut self.updates,
            &mut self.places,
            base,
            NODES + self.nodes,
            &mut cached.blocks,
            offset,
            bytes,
        )?;
        Ok(WrittenCached { cached, filled })
    }

    /// Writes the marks of the places if they have changed and sectors hold them. This is the last
    /// step: what is to be written is then complete.
    ///
    /// # Errors
    ///
    /// Only memory.
    pub fn finish(&mut self, marking: Marking, before: &SharedBitmap) -> Result<(), AllocError>
        requires { IsKnown self.old }
        ensures laid { OnOk result (Finishes marking before.now self.old self.new) }
        ensures targets { OnOk result (AreTreeUpdates (end_of self.old) self.new.updates) }
        // What stays
        ensures cached_nodes { self.new.cached_nodes ≡ self.old.cached_nodes }
        ensures places { self.new.places ≡ self.old.places }
        ensures nodes { self.new.nodes ≡ self.old.nodes }
        ensures updates { marking ≡ Marking.AsNamed → self.new.updates ≡ self.old.updates }
        // What it costs
        ensures count { OnOk result
            (length self.new.updates ≤ length self.old.updates + bitmap_sectors marking) }
    {
        match marking {
            Marking::InSectors => {
                put_marks(&mut self.updates, &self.places, before, 0)?;
                put_marks(&mut self.updates, &self.places, before, 1)?;
            }
            Marking::AsNamed => self.updates.tell_apart(),
        }
        Ok(())
    }

    /// Puts a cached node whose blocks were written back. Its runs are rewritten only if holes got
    /// sectors.
    fn store_written(&mut self, place: u32, mut written: WrittenCached) -> Result<(), SpaceFault>
        requires can { CanBeLaid self.old.nodes place self.old.places written.cached }
        requires within { place < length (cached_nodes_of self.old) }
        requires same { written.filled ≡ false → HasItsRuns place written.cached }
        ensures stands { OnOk result (StandsAgain self.old self.new place written.cached
            self.old.places self.old.updates) }
        // However it ends
        ensures table { self.new.cached_nodes.table ≡ self.old.cached_nodes.table }
        // What it costs
        ensures count { length self.new.updates
            ≤ length self.old.updates + 1 + sectors_for (set_blocks written.cached.blocks) }
        ensures full { IsErrOf result SpaceFault.Full
            → free_places self.old.places + length written.cached.fields.run_sectors
            < sectors_for (set_blocks written.cached.blocks) }
    {
        if written.filled {
            rerun(
                self.alloc,
                &mut self.updates,
                &mut self.places,
                self.nodes,
                place,
                &mut written.cached,
            )?;
            put_cached(self.alloc, &mut self.cached_nodes, place, written.cached)?;
        } else {
            // The runs of its blocks have not changed.
            self.store_node(place, written.cached)?;
        }
        Ok(())
    }

    /// Puts a cached node back that had `before` blocks before. Its runs are rewritten only if it
    /// now has fewer.
    fn store_cut(&mut self, place: u32, cached: CachedNode, before: u32) -> Result<(), AllocError>
        requires can { CanBeLaid self.old.nodes place self.old.places cached }
        requires within { place < length (cached_nodes_of self.old) }
        requires enough { HasEnough cached }
        requires same { before ≤ length cached.blocks → HasItsRuns place cached }
        ensures stands { OnOk result
            (StandsAgain self.old self.new place cached self.old.places self.old.updates) }
        // However it ends
        ensures table { self.new.cached_nodes.table ≡ self.old.cached_nodes.table }
        ensures count { length self.new.updates
            ≤ length self.old.updates + 1 + sectors_for (set_blocks cached.blocks) }
    {
        if cached.blocks.len() < before {
            self.store_node_and_runs(place, cached)?;
        } else {
            self.store_node(place, cached)?;
        }
        Ok(())
    }

    /// Puts a cached node that was taken out back, and writes only its inode.
    fn store_node(&mut self, place: u32, cached: CachedNode) -> Result<(), AllocError>
        requires fits { IsInode cached.form cached.fields }
        requires within { place < length (cached_nodes_of self.old) }
        requires small { NODES + place < 2 ^ 32 }
        ensures node { OnOk result ((image : Image) → IsSectorPut (applied self.old.updates image)
            (applied self.new.updates image) (NODES + place)
            (inode_sector cached.form cached.fields)) }
        ensures cached_nodes { OnOk result
            (cached_nodes_of self.new ≡ set (cached_nodes_of self.old) place (Some cached)) }
        // However it ends
        ensures nodes { self.new.nodes ≡ self.old.nodes }
        ensures places { self.new.places ≡ self.old.places }
        ensures table { self.new.cached_nodes.table ≡ self.old.cached_nodes.table }
        ensures count { length self.new.updates ≤ length self.old.updates + 1 }
    {
        put_node(&mut self.updates, place, &cached)?;
        put_cached(self.alloc, &mut self.cached_nodes, place, cached)?;
        Ok(())
    }

    /// Encodes the blocks of a cached node that was taken out as runs again, for which it has
    /// enough run sectors, writes its inode, and puts it back.
    fn store_node_and_runs(&mut self, place: u32, mut cached: CachedNode) -> Result<(), AllocError>
        requires can { CanBeLaid self.old.nodes place self.old.places cached }
        requires within { place < length (cached_nodes_of self.old) }
        requires enough { HasEnough cached }
        ensures back { OnOk result (IsBack self.old.nodes place self.old.places self.old.updates
            (cached_nodes_of self.old) self.new cached) }
        // However it ends
        ensures table { self.new.cached_nodes.table ≡ self.old.cached_nodes.table }
        ensures count { length self.new.updates
            ≤ length self.old.updates + 1 + sectors_for (set_blocks cached.blocks) }
    {
        let runs = cached.blocks.to_runs(self.alloc)?;
        store_given_runs(
            &mut self.updates,
            &mut self.places,
            self.nodes,
            place,
            &mut cached,
            runs,
        )?;
        put_cached(self.alloc, &mut self.cached_nodes, place, cached)?;
        Ok(())
    }
}
