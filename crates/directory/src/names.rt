//! The names of a directory.

ghost use Rattle.std.specs.Prelude.{◌≡◌, ◌≢◌, ◌<◌, ◌≤◌, ◌+◌, ◌++◌, ℕ, List, [], ◌∷◌, Option, Some, None, length, map, take, drop, option_map, slice_index_or, slice_set, IsErrOf, IsTrue, ◌↔◌, IfOk, IfSome, IfNone, OnOk, OnErr, MatchOption};
ghost use Rattle.std.specs.List.{AllByRecursion};
ghost use Rattle.model_tree.specs.Trees.Tree.{entry_of};
ghost use Rattle.directory.specs.Encoding.{directory_sector};
ghost use Rattle.directory.specs.Order.{IsOrder};
ghost use Rattle.directory.specs.declared.order.By.TheVariants as By;
ghost use Rattle.directory.specs.Records.{record_of, record_from, name_of, place_of, with_record, without_place, NamesApart, NamesStamped, Record, IsRecord, IsDirectory};
ghost use Rattle.directory.specs.Listing.{by_stamp, after, PutsByStamp, RemovesByStamp};
ghost use Rattle.model_tree.specs.Trees.Keyed.{at};
ghost use Rattle.directory.specs.Rest.{rest_of};

use crate::entry::Entry;
use crate::fault::DirectoryFault;
use crate::listing::ListAfter;
use crate::order::{self, By, Sought};
use crate::records::Records;
use crate::sectors::{self, MAX_NAME_BYTES, RECORDS};
use chunks::Chunks;
use sector::SIZE;
use std::alloc::{AllocError, Global};
use std::marker::Model;

/// The names of a directory, at most `MAX_NAMES`, in the order of their records.
///
/// Contracts see the list of the records. `by_stamp` has their places by rising stamp, `by_name` by
/// rising name.
#[derive(Drop)]
pub struct Names {
    alloc: Global,
    records: Records,
    by_stamp: Chunks<u32>,
    by_name: Chunks<u32>,
}

impl Model for Names {
    ghost use Rattle.std.specs.Prelude.{ℕ, List};
    ghost use Rattle.model_tree.specs.Trees.Tree.{DirEntry};

    ghost Value = { List (ℕ × DirEntry) };

    ghost use Rattle.directory.specs.Order.{AreKept};

    ghost view = { λ names. names.records };

    ghost invariant = { λ names. AreKept names.records names.by_stamp names.by_name };
}

impl Names {
    /// The most names of a directory.
    pub const MAX_NAMES: usize = 1024;

    /// No names.
    pub fn new(alloc: Global) -> Names
        ensures { result ≡ [] }
    {
        Names {
            alloc,
            records: Records::new(alloc),
            by_stamp: Chunks::new(alloc),
            by_name: Chunks::new(alloc),
        }
    }

    /// The names of these records, in the same order.
    ///
    /// `None` exactly if they are no directory's: more than `MAX_NAMES`, two of one name, or a name
    /// without bytes or of more than 255.
    pub fn from_entries(alloc: Global, entries: Vec<Entry>) -> Result<Option<Names>, AllocError>
        ensures some { IfOk result (λ names.
            IfSome names (λ names. names ≡ map record_of entries.items)) }
        ensures none { IfOk result (λ names.
            IfNone names (¬ IsDirectory (map record_of entries.items))) }
    {
        if entries.len() > Names::MAX_NAMES || !are_records(&entries) {
            return Ok(None);
        }
        let records = Records::from_entries(alloc, &entries)?;
        let by_name = order::order_of(alloc, By::Name, &records)?;
        if !are_apart(&by_name, &records) {
            return Ok(None);
        }
        let by_stamp = order::order_of(alloc, By::Stamp, &records)?;
        Ok(Some(Names {
            alloc,
            records,
            by_stamp,
            by_name,
        }))
    }

    /// A copy of the names, with the same records. Their bytes are shared.
    pub fn try_clone(&self) -> Result<Names, AllocError>
        ensures { IfOk result (λ names. names ≡ self.now) }
    {
        Ok(Names {
            alloc: self.alloc,
            records: self.records.try_clone()?,
            by_stamp: self.by_stamp.try_clone()?,
            by_name: self.by_name.try_clone()?,
        })
    }

    /// The names whose stamps are above this one, by rising stamp: what READDIR returns after a
    /// cookie. Takes no memory.
    pub fn list_after(&self, stamp: u64) -> ListAfter<'_>
        ensures { rest_of result ≡ after stamp (by_stamp self.entry.now) }
    {
        ListAfter {
            names: self,
            cookie: stamp,
        }
    }

    /// The entry of the least stamp above the cookie, the first one of that stamp.
    pub(crate) fn first_after(&self, cookie: u64) -> Option<&Entry>
        ensures { MatchOption result (after cookie (by_stamp self.now) ≡ [])
            (λ entry. after cookie (by_stamp self.now)
            ≡ record_of entry.now ∷ after entry.now.stamp (by_stamp self.now)) }
    {
        let sought = Sought {
            stamp: cookie,
            name: &[],
            place: usize::MAX,
        };
        let next = order::position(&self.by_stamp, By::Stamp, &self.records, &sought);
        let Some(place) = self.by_stamp.get(next) else {
            return None;
        };
        Some(self.records.get(place as usize))
    }

    /// How many names there are.
    pub fn len(&self) -> usize
        ensures count { result ≡ length self.now }
        ensures names { IsDirectory self.now }
    {
        self.records.len()
    }

    /// The name whose record is at a place.
    pub fn entry(&self, place: usize) -> &Entry
        requires { place < length self.now }
        ensures { (default : Record)
            → slice_index_or self.now place default ≡ record_of result.now }
    {
        self.records.get(place)
    }

    /// The name's stamp and the number of its node.
    pub fn get(&self, name: &[u8]) -> Option<(u64, u64)>
        ensures found { option_map (λ found. record_from found.0 name.now found.1) result
            ≡ entry_of name.now self.now }
        ensures by_stamp { NamesStamped self.now
            → option_map (λ found. record_from found.0 name.now found.1) result
            ≡ entry_of name.now (by_stamp self.now) }
    {
        let place = place_in(&self.by_name, &self.records, name);
        if place >= self.records.len() {
            return None;
        }
        let entry = self.records.get(place);
        Some((entry.stamp, entry.number))
    }

    /// Puts a name: in the place of its record, or after the last record. Returns the record's
    /// place. An `Err` changes nothing.
    ///
    /// # Errors
    /// `Full` exactly if the name is new and there are `MAX_NAMES` names.
    pub fn put(&mut self, name: &[u8], stamp: u64, number: u64) -> Result<usize, DirectoryFault>
        requires some { 0 < length name.now }
        requires few { length name.now ≤ MAX_NAME_BYTES }
        ensures ok { OnOk result
            (self.new ≡ with_record self.old (record_from stamp name.now number)) }
        ensures place { IfOk result (λ place. place ≡ place_of name.now self.old) }
        ensures full { IsErrOf result DirectoryFault.Full
            → (place_of name.now self.old ≡ length self.old) × (length self.old ≡ Names.MAX_NAMES) }
        ensures err { OnErr result (self.new ≡ self.old) }

        // The map from names, and the map by stamp.
        ensures found { OnOk result
            (entry_of name.now self.new ≡ Some (record_from stamp name.now number)) }
        ensures others { OnOk result ((other : List ℕ) → other ≢ name.now
            → entry_of other self.new ≡ entry_of other self.old) }
        ensures by_stamp { OnOk result (NamesStamped self.old → 0 < stamp → at stamp self.old ≡ None
            → PutsByStamp self.old self.new (record_from stamp name.now number)) }
    {
        let place = place_in(&self.by_name, &self.records, name);
        if place >= Names::MAX_NAMES {
            return Err(DirectoryFault::Full);
        }
        let entry = Entry::new(self.alloc, name, stamp, number)?;
        if place < self.records.len() {
            self.change(place, entry)?;
            return Ok(place);
        }
        self.add(entry)?;
        Ok(place)
    }

    // Puts an entry in the place of another one of its name.
    fn change(&mut self, place: usize, entry: Entry) -> Result<(), AllocError>
        requires within { place < length self.old }
        requires named { (default : Record)
            → name_of (slice_index_or self.old place default) ≡ name_of (record_of entry) }
        requires fits { IsRecord (record_of entry) }
        ensures ok { OnOk result (self.new ≡ slice_set self.old place (record_of entry)) }
        ensures err { OnErr result (self.new ≡ self.old) }
    {
        let mut records = self.records.try_clone()?;
        records.set(place, entry)?;
        let by_stamp = order::with_changed(
            &self.by_stamp,
            By::Stamp,
            &self.records,
            &records,
            place,
        )?;
        self.records = records;
        self.by_stamp = by_stamp;
        Ok(())
    }

    // Puts an entry of a new name after the last.
    fn add(&mut self, entry: Entry) -> Result<(), AllocError>
        requires room { length self.old < Names.MAX_NAMES }
        requires fresh { (i : ℕ) (default : Record) → i < length self.old
            → name_of (slice_index_or self.old i default) ≢ name_of (record_of entry) }
        requires fits { IsRecord (record_of entry) }
        ensures ok { OnOk result (self.new ≡ self.old ++ record_of entry ∷ []) }
        ensures err { OnErr result (self.new ≡ self.old) }
    {
        let mut records = self.records.try_clone()?;
        records.push(entry)?;
        let by_stamp = order::with_last(&self.by_stamp, By::Stamp, &records)?;
        let by_name = order::with_last(&self.by_name, By::Name, &records)?;
        self.records = records;
        self.by_stamp = by_stamp;
        self.by_name = by_name;
        Ok(())
    }

    /// Writes the sector of the records from `first` on, 15 at most.
    pub fn write_sector(&self, first: usize, sector: &mut [u8; SIZE])
        ensures { sector.new ≡ directory_sector (take RECORDS (drop first self.now)) }
    {
        let from = first.min(self.records.len());
        let to = self.records.len().min(from + RECORDS);
        sectors::write_part(&self.records, from, to - from, sector);
    }

    /// Removes a name, and moves the last record into its place. Returns that place, and what was
    /// there. An `Err` changes nothing.
    pub fn remove(&mut self, name: &[u8]) -> Result<Option<(usize, Entry)>, AllocError>
        ensures place { IfOk result (λ found. IfSome found
            (λ it. (it.0 ≡ place_of name.now self.old) × (it.0 < length self.old))) }
        ensures record { IfOk result (λ found. IfSome found
            (λ it. entry_of name.now self.old ≡ Some (record_of it.1))) }
        ensures removed { IfOk result (λ found. IfSome found
            (λ it. self.new ≡ without_place self.old it.0)) }
        ensures absent { IfOk result (λ found. IfNone found
            (place_of name.now self.old ≡ length self.old)) }
        ensures unchanged { IfOk result (λ found. IfNone found (self.new ≡ self.old)) }
        ensures err { OnErr result (self.new ≡ self.old) }

        // The map from names, and the map by stamp.
        ensures gone { OnOk result (entry_of name.now self.new ≡ None) }
        ensures others { OnOk result ((other : List ℕ) → other ≢ name.now
            → entry_of other self.new ≡ entry_of other self.old) }
        ensures by_stamp { OnOk result (NamesStamped self.old
            → RemovesByStamp self.old self.new name.now) }
    {
        let place = place_in(&self.by_name, &self.records, name);
        if place >= self.records.len() {
            return Ok(None);
        }
        let entry = self.take(place)?;
        Ok(Some((place, entry)))
    }

    // Removes the entry at a place.
    fn take(&mut self, place: usize) -> Result<Entry, AllocError>
        requires { place < length self.old }
        ensures entry { IfOk result (λ entry. (default : Record)
            → slice_index_or self.old place default ≡ record_of entry) }
        ensures ok { OnOk result (self.new ≡ without_place self.old place) }
        ensures err { OnErr result (self.new ≡ self.old) }
    {
        let entry = self.records.get(place).try_clone()?;
        let mut records = self.records.try_clone()?;
        records.swap_remove(place)?;
        let by_stamp = order::without(&self.by_stamp, By::Stamp, &self.records, &records, place)?;
        let by_name = order::without(&self.by_name, By::Name, &self.records, &records, place)?;
        self.records = records;
        self.by_stamp = by_stamp;
        self.by_name = by_name;
        Ok(entry)
    }
}

// Whether each name has 1 to 255 bytes.
fn are_records(entries: &[Entry]) -> bool
    ensures { IsTrue result ↔ AllByRecursion IsRecord (map record_of entries.now) }
{
    for entry in entries {
        if !is_record(entry) {
            return false;
        }
    }
    true
}

fn is_record(entry: &Entry) -> bool
    ensures { IsTrue result ↔ IsRecord (record_of entry.now) }
{
    let len = entry.name.len();
    0 < len && len <= MAX_NAME_BYTES
}

// Whether no two records have one name.
fn are_apart(by_name: &Chunks<u32>, records: &Records) -> bool
    requires { IsOrder By.Name by_name.now records.now }
    ensures { IsTrue result ↔ NamesApart records.now }
{
    for place in 0..records.len() {
        if place_in(by_name, records, &records.get(place).name) != place {
            return false;
        }
    }
    true
}

/// The place of a name: after the last record if none has it.
fn place_in(by_name: &Chunks<u32>, records: &Records, name: &[u8]) -> usize
    requires { IsOrder By.Name by_name.now records.now }
    ensures place { result ≡ place_of name.now records.now }
    ensures within { result ≤ length records.now }
{
    let sought = Sought {
        stamp: 0,
        name,
        place: 0,
    };
    let at = order::position(by_name, By::Name, records, &sought);
    let Some(place) = by_name.get(at) else {
        return records.len();
    };
    let place = place as usize;
    if name == records.get(place).name.as_slice() {
        return place;
    }
    records.len()
}
