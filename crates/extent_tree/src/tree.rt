//! The blocks of a file in memory.

ghost use Rattle.std.specs.Prelude.{◌≡◌, ◌≢◌, ◌<◌, ◌≤◌, ◌+◌, ◌*◌, ◌^◌, [], ◌∷◌, ◌++◌, Option, Some, None, length, nat_lt, slice_index_or, slice_set, take, Err, ℕ, if◌then◌else◌, IfOk, OnOk, OnErr};
ghost use Rattle.std.specs.List.{AllByRecursion, list_all};
ghost use Rattle.extent_tree.specs.Charge.{charge_of};
ghost use Rattle.extent_tree.specs.Depth.{depth_of};
ghost use Rattle.extent_tree.specs.Held.{AreHeld, entries_by, held_entries, no_blocks, blocks_by, with_room, root_above};
ghost use Rattle.extent_tree.specs.Setting.{times, listed, AreDistinct, AreFresh, AreKept};
ghost use Rattle.extent_tree.specs.Tree.{AreSomeTrees, IsRoot, blocks_in, file_indexes, is_hole, with_holes};

use crate::cutting::{Truncated, cut, forget, lowered};
use crate::entry::{Entry, INDEX_ENTRIES, ROOT_ENTRIES};
use crate::fault::SetFault;
use crate::setting::{Touched, set_in_root};
use crate::spans::{MAX_BLOCKS, MAX_DEPTH, depth, span};
use std::alloc::{AllocError, Global};
use std::collections::BTreeMap;
use std::marker::Model;
use std::rc::Rc;

/// The entries of index sectors, by the numbers of the sectors.
pub type Nodes = BTreeMap<u32, Rc<Vec<Entry>>>;

/// The sector of each block of a file, as a tree of extents; a block without a sector is a hole.
///
/// Contracts see the list of the sectors, that of the index sectors, and their entries.
#[derive(Drop)]
pub struct ExtentTree {
    alloc: Global,
    blocks: u32,
    root: Rc<Vec<Entry>>,
    nodes: Nodes,
}

impl Model for ExtentTree {
    ghost use Rattle.std.specs.Prelude.{◌≤◌};
    ghost use Rattle.extent_tree.specs.declared.spans.TheConstants.{MAX_BLOCKS};
    ghost use Rattle.extent_tree.specs.Held.{Blocks, entries_by, blocks_by};
    ghost use Rattle.extent_tree.specs.Setting.{AreDistinct};
    ghost use Rattle.extent_tree.specs.Tree.{IsRoot, file_indexes};

    ghost Value = { Blocks };

    ghost view = { λ t. blocks_by (entries_by (λ rc. rc.value.items) t.nodes) t.blocks
        t.root.value.items };

    ghost invariant = { λ t. IsRoot (entries_by (λ rc. rc.value.items) t.nodes) t.blocks
        t.root.value.items × (t.blocks ≤ MAX_BLOCKS)
        × AreDistinct (file_indexes (entries_by (λ rc. rc.value.items) t.nodes) t.blocks
        t.root.value.items) };
}

impl ExtentTree {
    /// No blocks.
    pub fn new(alloc: Global) -> Result<ExtentTree, AllocError>
        ensures { IfOk result (λ tree. tree ≡ no_blocks) }
    {
        let root = vec![in alloc; Entry::HOLE; ROOT_ENTRIES]?;
        ExtentTree::from_parts(alloc, 0, root, BTreeMap::new(alloc))
    }

    /// The tree of a file of this many blocks, with these entries in its inode and in its index
    /// sectors.
    pub fn from_parts(
        alloc: Global,
        blocks: u32,
        root: Vec<Entry>,
        nodes: Nodes,
    ) -> Result<ExtentTree, AllocError>
        requires blocks { blocks ≤ MAX_BLOCKS }
        requires root { IsRoot (entries_by (λ rc. rc.value.items) nodes) blocks root.items }
        requires once { AreDistinct
            (file_indexes (entries_by (λ rc. rc.value.items) nodes) blocks root.items) }
        ensures { IfOk result (λ tree.
            tree ≡ blocks_by (entries_by (λ rc. rc.value.items) nodes) blocks root.items) }
    {
        let root = Rc::new(alloc, root)?;
        Ok(ExtentTree {
            alloc,
            blocks,
            root,
            nodes,
        })
    }

    /// A copy of the tree, which shares the memory of its entries.
    pub fn try_clone(&self) -> Result<ExtentTree, AllocError>
        ensures { IfOk result (λ tree. tree ≡ self.now) }
    {
        Ok(ExtentTree {
            alloc: self.alloc,
            blocks: self.blocks,
            root: self.root.clone()?,
            nodes: self.nodes.clone()?,
        })
    }

    /// How many blocks there are, holes included.
    pub fn len(&self) -> u32
        ensures count { result ≡ length self.now.sectors }
        ensures most { length self.now.sectors ≤ MAX_BLOCKS }
        ensures once { AreDistinct self.now.indexes }
    {
        self.blocks
    }

    /// The entries in the inode. They and those of the index sectors are the tree.
    pub fn root(&self) -> &[Entry]
        ensures value { result.now ≡ self.now.root }
        ensures held { AreHeld self.now }
    {
        &self.root
    }

    /// The entries of an index sector.
    pub fn index(&self, sector: u32) -> &[Entry]
        requires { 0 < times sector self.now.indexes }
        ensures { result.now ≡ held_entries self.now sector }
    {
        entries_of(&self.nodes, sector)
    }

    /// The sector of a block; none if it is a hole, or past the last block.
    pub fn at(&self, block: u32) -> Option<u32>
        ensures { result ≡ slice_index_or self.now.sectors block None }
    {
        if block >= self.blocks {
            return None;
        }
        sector_in(&self.nodes, &self.root, depth(self.blocks), block)
    }

    /// Gives a sector to a block, which may have another or none. Takes the first of the spare
    /// sectors as index sectors. Returns how many, and which index sector has other entries.
    ///
    /// # Errors
    /// `TooFew` only if there are fewer spare sectors than the tree is deep, and if the file is
    /// charged for more than these and its index sectors; and `Memory`. Then nothing changes.
    pub fn set(&mut self, block: u32, sector: u32, spare: &[u32]) -> Result<Touched, SetFault>
        requires block { block < length self.old.sectors }
        requires sector { 0 < sector }
        requires spare { AreFresh spare.now self.old.indexes }
        ensures sectors { OnOk result
            (self.new.sectors ≡ slice_set self.old.sectors block (Some sector)) }
        ensures indexes { IfOk result (λ touched. (s : ℕ) → times s self.new.indexes
            ≡ times s self.old.indexes + times s (take touched.taken spare.now)) }
        ensures taken { IfOk result (λ touched. touched.taken ≤ length spare.now) }
        ensures kept { IfOk result (λ touched.
            AreKept (held_entries self.old) (held_entries self.new)
            (listed touched.changed ++ take touched.taken spare.now)) }
        ensures few { result ≡ Err SetFault.TooFew
            → (length spare.now < depth_of (length self.old.sectors))
            × (length spare.now + length self.old.indexes < charge_of (length self.old.sectors)) }
        ensures err { OnErr result (self.new ≡ self.old) }
    {
        let depth = depth(self.blocks);
        set_in_root(
            self.alloc,
            &mut self.nodes,
            &mut self.root,
            depth,
            block,
            sector,
            spare,
        )
    }

    /// Puts holes at the end, so that there are `count` blocks. The tree gets at most one level
    /// deeper. If it does, and some block is no hole, `sector` becomes an index sector; the result
    /// says whether it does. An `Err` changes nothing.
    pub fn grow(&mut self, count: u32, sector: u32) -> Result<bool, AllocError>
        requires count { (length self.old.sectors ≤ count) × (count ≤ MAX_BLOCKS) }
        requires depth { depth_of count ≤ depth_of (length self.old.sectors) + 1 }
        requires sector { (0 < sector) × AllByRecursion (λ s. s ≢ sector) self.old.indexes }
        ensures sectors { OnOk result (self.new.sectors ≡ with_holes self.old.sectors count) }
        ensures indexes { IfOk result (λ taken. self.new.indexes
            ≡ (if taken then sector ∷ self.old.indexes else self.old.indexes)) }
        ensures kept { IfOk result (λ taken.
            AreKept (held_entries self.old) (held_entries self.new)
            (if taken then sector ∷ [] else [])) }
        ensures err { OnErr result (self.new ≡ self.old) }
    {
        if depth(count) == depth(self.blocks) || are_holes(&self.root) {
            self.blocks = count;
            return Ok(false);
        }
        let below = Rc::new(self.alloc, with_room(self.alloc, &self.root)?)?;
        let root = Rc::new(self.alloc, root_above(self.alloc, sector)?)?;
        self.nodes.insert(sector, below)?;
        self.root = root;
        self.blocks = count;
        Ok(true)
    }

    /// Keeps the first `len` blocks. Returns the index sectors that the tree no longer has, and
    /// those that have other entries. An `Err` changes nothing.
    pub fn truncate(&mut self, len: u32) -> Result<Truncated, AllocError>
        requires { len ≤ length self.old.sectors }
        ensures sectors { OnOk result (self.new.sectors ≡ take len self.old.sectors) }
        ensures indexes { IfOk result (λ cut. (s : ℕ) →
            times s self.new.indexes + times s cut.freed.items ≡ times s self.old.indexes) }
        ensures kept { IfOk result (λ cut. AreKept (held_entries self.old) (held_entries self.new)
            (cut.changed.items ++ cut.freed.items)) }
        ensures err { OnErr result (self.new ≡ self.old) }
    {
        let from = depth(self.blocks);
        let to = depth(len);
        let mut nodes = self.nodes.clone()?;
        let mut freed = Vec::new(self.alloc);
        let mut changed = Vec::new(self.alloc);
        let copy = Vec::from_slice(self.alloc, self.root.as_slice())?;
        let made = cut(
            self.alloc,
            &mut nodes,
            copy,
            from,
            len,
            &mut freed,
            &mut changed,
        )?;
        let made = lowered(self.alloc, &nodes, made, from, to, &mut freed)?;
        let root = Rc::new(self.alloc, made)?;
        forget(&mut nodes, &freed);
        self.root = root;
        self.nodes = nodes;
        self.blocks = len;
        Ok(Truncated { freed, changed })
    }
}

/// Whether each entry is a hole.
pub(crate) fn are_holes(entries: &[Entry]) -> bool
    ensures { result ≡ list_all is_hole entries.now }
{
    entries.iter().all(|entry| entry.is_hole())
}

/// The entries of an inode as those of an index sector, with holes after them.
fn with_room(alloc: Global, root: &[Entry]) -> Result<Vec<Entry>, AllocError>
    ensures { IfOk result (λ made. made.items ≡ with_room root.now) }
{
    let mut made = Vec::with_capacity(alloc, INDEX_ENTRIES)?;
    made.extend_from_slice(root)?;
    made.extend_from_slice(&[Entry::HOLE; INDEX_ENTRIES - ROOT_ENTRIES])?;
    Ok(made)
}

/// The entries of an inode of which the first has this index sector, and the others are holes.
fn root_above(alloc: Global, sector: u32) -> Result<Vec<Entry>, AllocError>
    ensures { IfOk result (λ made. made.items ≡ root_above sector) }
{
    let mut made = vec![in alloc; Entry::HOLE; ROOT_ENTRIES]?;
    made[0] = Entry { sector, length: 0 };
    Ok(made)
}

/// The entries of an index sector; none if they are not there.
pub(crate) fn entries_of(nodes: &Nodes, sector: u32) -> &[Entry]
    ensures { result.now ≡ entries_by (λ rc. rc.value.items) nodes.now sector }
{
    match nodes.get(&sector) {
        Some(node) => node.as_slice(),
        None => &[],
    }
}

/// The sector of a block of an entry that has no index sector.
fn sector_at(entry: Entry, place: u32) -> Option<u32>
    requires { entry.sector + entry.length ≤ 2 ^ 32 }
    ensures { result ≡ (if nat_lt place entry.length then Some (entry.sector + place) else None) }
{
    if place < entry.length {
        Some(entry.sector + place)
    } else {
        None
    }
}

/// The sector of a block of consecutive entries.
fn sector_in(nodes: &Nodes, entries: &[Entry], depth: u8, block: u32) -> Option<u32>
    requires depth { depth ≤ MAX_DEPTH }
    requires trees { AreSomeTrees (entries_by (λ rc. rc.value.items) nodes.now) depth
        entries.now }
    requires within { block < 512 ^ depth * length entries.now }
    ensures { result ≡ slice_index_or
        (blocks_in (entries_by (λ rc. rc.value.items) nodes.now) depth entries.now) block None }
{
    let span = span(depth);
    let entry = entries[(block / span) as usize];
    let place = block % span;
    if entry.is_index() {
        return sector_in(nodes, entries_of(nodes, entry.sector), depth - 1, place);
    }
    sector_at(entry, place)
}
