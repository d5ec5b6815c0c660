//! The updates so far.

ghost use Rattle.std.specs.Prelude.{◌≡◌, ◌≤◌, ◌<◌, ◌+◌, ◌++◌, ◌∷◌, ℕ, List, [], Option, Some, None, length, set, IfOk, IfSome, IfNone, OnOk, OnErr, IsTrue, is_err};
ghost use Rattle.disk.specs.Moments.{Image, put, applied};
ghost use Rattle.disk.specs.declared.update.Update.{Update};
ghost use Rattle.extents.specs.Sector.{run_sector};
ghost use Rattle.inode.specs.Fields.{IsInode, fields_of};
ghost use Rattle.inode.specs.Encoding.{inode_sector};
ghost use Rattle.layout.specs.Health.{FailsOrStays};
ghost use Rattle.tree_transaction.specs.Updates.{UpdatesApart, updated, IsFirst, HasNoUpdate};
ghost use Rattle.tree_transaction.specs.Updates.{target_of, content_of, encoded, with_sector};

use crate::pending::PendingInode;
use disk::{SECTOR, Update};
use extents::{MAX_SECTOR_RUNS, Run, write_run_sector};
use inode::{Form, Inode};
use layout::sectors::{ReadFault, Sectors};
use std::alloc::{AllocError, Global};
use std::marker::Model;

/// The number of updates for which the first one makes room: a WRITE of whole blocks has three.
const ROOM: usize = 8;

/// Updates of distinct sectors. Those of inodes are encoded when the list is returned, so only once
/// each, however often the inode changed. Contracts see the list with all of them encoded.
#[derive(Drop)]
pub struct Updates {
    alloc: Global,
    list: Vec<Update>,
    /// For each update, the inode that it is to hold, if it is not encoded yet.
    pending: Vec<Option<PendingInode>>,
}

impl Model for Updates {
    ghost use Rattle.std.specs.Prelude.{◌≡◌, List, length};
    ghost use Rattle.disk.specs.declared.update.Update.{Update};
    ghost use Rattle.tree_transaction.specs.Updates.{UpdatesApart, encoded};

    ghost Value = { List Update };

    ghost view = { λ updates. encoded updates.list.items updates.pending.items };

    ghost invariant = { λ updates. (length updates.pending.items ≡ length updates.list.items)
        × UpdatesApart (encoded updates.list.items updates.pending.items) };
}

impl Updates {
    /// No updates.
    pub fn new(alloc: Global) -> Updates
        ensures { result ≡ [] }
    {
        Updates {
            alloc,
            list: Vec::new(alloc),
            pending: Vec::new(alloc),
        }
    }

    /// States that no two of them are of the same sector.
    pub(crate) fn tell_apart(&self)
        ensures { UpdatesApart self.now }
    {
        let _ = &self.list;
    }

    /// Sector `n` after the updates.
    pub fn read<S: Sectors>(&self, base: &mut S, n: u32) -> Result<[u8; SECTOR], ReadFault>
        requires { n < S.size (S.kept base.old) }
        ensures content { S.keeps_word
            → IfOk result (λ content. content ≡ applied self.now (S.image (S.kept base.old)) n) }
        // It only reads
        ensures kept { S.kept base.new ≡ S.kept base.old }
        ensures health { FailsOrStays (S.health base.old) (S.health base.new)
            (IsTrue (is_err result)) }
    {
        match place_of(&self.list, n) {
            Some(place) => Ok(content_at(&self.list, &self.pending, place)),
            None => base.read(n),
        }
    }

    /// One more update, in place of the one of its sector. An `Err` changes nothing.
    pub fn put(&mut self, target: u32, content: &[u8; SECTOR]) -> Result<(), AllocError>
        ensures list { OnOk result (self.new
            ≡ updated self.old (record { target = target; content = content.now })) }
        ensures image { OnOk result ((image : Image) → applied self.new image
            ≡ put (applied self.old image) (record { target = target; content = content.now })) }
        // However it ends
        ensures apart { UpdatesApart self.new }
        ensures count { length self.new ≤ length self.old + 1 }
        // If it fails
        ensures err { OnErr result (self.new ≡ self.old) }
    {
        let place = place_for(&mut self.list, &mut self.pending, target)?;
        fill(&mut self.list, &mut self.pending, place, content);
        Ok(())
    }

    /// The same for the sector of an inode, which is encoded later.
    pub(crate) fn put_inode(
        &mut self,
        target: u32,
        inode: &Inode,
        form: Form,
    ) -> Result<(), AllocError>
        requires { IsInode form (fields_of inode.now) }
        ensures image { OnOk result ((image : Image)
            → applied self.new image ≡ put (applied self.old image) (record {
              target = target;
              content = inode_sector form (fields_of inode.now);
            })) }
        ensures count { length self.new ≤ length self.old + 1 }
        ensures err { OnErr result (self.new ≡ self.old) }
    {
        let copy = PendingInode::new(self.alloc, inode, form)?;
        let place = place_for(&mut self.list, &mut self.pending, target)?;
        keep(&mut self.pending, place, copy);
        Ok(())
    }

    /// The same for a run sector, which is encoded in its final place.
    pub(crate) fn put_runs(&mut self, target: u32, runs: &[Run]) -> Result<(), AllocError>
        requires { length runs.now ≤ MAX_SECTOR_RUNS }
        ensures image { OnOk result ((image : Image)
            → applied self.new image ≡ put (applied self.old image) (record {
              target = target;
              content = run_sector runs.now;
            })) }
        ensures count { length self.new ≤ length self.old + 1 }
        ensures err { OnErr result (self.new ≡ self.old) }
    {
        let place = place_for(&mut self.list, &mut self.pending, target)?;
        fill_runs(&mut self.list, &mut self.pending, place, runs);
        Ok(())
    }

    /// The updates, for the caller to write.
    pub fn into_vec(self) -> Vec<Update>
        ensures { result.items ≡ self }
    {
        let Updates {
            mut list,
            pending,
            ..
        } = self;
        encode_all(&mut list, &pending);
        list
    }
}

/// The place of the update of a sector. If there was none, this appends one of zeros: what it is to
/// hold is put in its final place. The first one makes room for most transactions. An `Err` changes
/// nothing.
fn place_for(
    list: &mut Vec<Update>,
    pending: &mut Vec<Option<PendingInode>>,
    target: u32,
) -> Result<usize, AllocError>
    requires { length pending.old.items ≡ length list.old.items }
    ensures whole { length pending.new.items ≡ length list.new.items }
    ensures within { IfOk result (λ place. place < length list.new.items) }
    ensures there { IfOk result (λ place.
        target_of (encoded list.new.items pending.new.items) place ≡ target) }
    ensures put { IfOk result (λ place. (content : List ℕ)
        → set (encoded list.new.items pending.new.items) place
        (record { target = target; content = content })
        ≡ updated (encoded list.old.items pending.old.items)
        (record { target = target; content = content })) }
    ensures err { OnErr result ((list.new.items ≡ list.old.items)
        × (pending.new.items ≡ pending.old.items)) }
{
    if let Some(place) = place_of(list, target) {
        return Ok(place);
    }
    let last = list.len();
    let room = if last == 0 { ROOM } else { 1 };
    list.reserve(room)?;
    pending.reserve(room)?;
    list.push_reserved(Update {
        target,
        content: [0; SECTOR],
    });
    pending.push_reserved(None);
    Ok(last)
}

/// Puts a sector's content into an update.
fn fill(
    list: &mut Vec<Update>,
    pending: &mut Vec<Option<PendingInode>>,
    place: usize,
    content: &[u8; SECTOR],
)
    requires within { place < length list.old.items }
    requires whole { length pending.old.items ≡ length list.old.items }
    ensures put { encoded list.new.items pending.new.items
        ≡ set (encoded list.old.items pending.old.items) place (record {
          target = target_of (encoded list.old.items pending.old.items) place;
          content = content.now;
        }) }
    ensures whole { length pending.new.items ≡ length list.new.items }
{
    list[place].content.copy_from_slice(content);
    pending[place] = None;
}

/// Encodes runs into an update.
fn fill_runs(
    list: &mut Vec<Update>,
    pending: &mut Vec<Option<PendingInode>>,
    place: usize,
    runs: &[Run],
)
    requires within { place < length list.old.items }
    requires whole { length pending.old.items ≡ length list.old.items }
    requires few { length runs.now ≤ MAX_SECTOR_RUNS }
    ensures put { encoded list.new.items pending.new.items
        ≡ set (encoded list.old.items pending.old.items) place (record {
          target = target_of (encoded list.old.items pending.old.items) place;
          content = run_sector runs.now;
        }) }
    ensures whole { length pending.new.items ≡ length list.new.items }
{
    write_run_sector(runs, &mut list[place].content);
    pending[place] = None;
}

/// What an update holds.
fn content_at(list: &[Update], pending: &[Option<PendingInode>], place: usize) -> [u8; SECTOR]
    requires within { place < length list.now }
    requires whole { length pending.now ≡ length list.now }
    ensures { result ≡ content_of (encoded list.now pending.now) place }
{
    let mut content = list[place].content;
    if let Some(inode) = &pending[place] {
        inode.encode(&mut content);
    }
    content
}

/// Keeps an inode that an update is to hold.
fn keep(pending: &mut Vec<Option<PendingInode>>, place: usize, inode: PendingInode)
    requires { place < length pending.old.items }
    ensures { pending.new.items ≡ set pending.old.items place (Some inode) }
{
    pending[place] = Some(inode);
}

/// Encodes the inodes that are not encoded yet.
fn encode_all(list: &mut Vec<Update>, pending: &[Option<PendingInode>])
    requires { length pending.now ≡ length list.old.items }
    ensures { list.new.items ≡ encoded list.old.items pending.now }
{
    for (place, inode) in pending.iter().enumerate() {
        encode_at(list, place, inode);
    }
}

/// Encodes an inode into its update, if there is one.
fn encode_at(list: &mut Vec<Update>, place: usize, inode: &Option<PendingInode>)
    requires { place < length list.old.items }
    ensures { list.new.items ≡ with_sector list.old.items place inode.now }
{
    if let Some(inode) = inode {
        inode.encode(&mut list[place].content);
    }
}

/// The place of the update of a sector.
fn place_of(updates: &[Update], target: u32) -> Option<usize>
    ensures some { IfSome result (λ place. IsFirst updates.now target place) }
    ensures none { IfNone result (HasNoUpdate target updates.now) }
{
    for (i, update) in updates.iter().enumerate() {
        if update.target == target {
            return Some(i);
        }
    }
    None
}
