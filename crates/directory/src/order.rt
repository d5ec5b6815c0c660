//! Orders of the records of a directory, in which they are found by binary search.

ghost use Rattle.std.specs.Prelude.{◌≡◌, ◌≢◌, ◌<◌, ◌≤◌, ◌-◌, ◌↔◌, ℕ, [], length, map, take, slice_index_or, slice_set, IfOk, OnOk, All};
ghost use Rattle.std.specs.List.{Contains};
ghost use Rattle.directory.specs.Order.{compare, compare_placed, placed_of, placed_in, at_place, AreRising, IsOrder, IsPosition, IsInserted, IsTakenOut, ArePlaced};
ghost use Rattle.directory.specs.Records.{name_of, record_of, record_from, without_place};

use crate::entry::Entry;
use crate::records::Records;
use chunks::{Chunks, ChunksFault, MAX_LEN, Test};
use std::alloc::{AllocError, Global};
use std::cmp::Ordering;

/// What an order goes by.
#[derive(Clone, Copy)]
pub(crate) enum By {
    Stamp,
    /// The bytes of the name.
    Name,
}

/// What is searched for: of an order by stamp the stamp, of one by name the name, and of records
/// that have the same the place.
#[derive(Clone, Copy)]
pub(crate) struct Sought<'a> {
    pub(crate) stamp: u64,
    pub(crate) name: &'a [u8],
    pub(crate) place: usize,
}

/// An entry and its place.
#[derive(Clone, Copy)]
struct PlacedEntry<'a> {
    entry: &'a Entry,
    place: usize,
}

/// The test of places by which an order is searched: that a record is not before what is sought.
#[derive(Drop)]
struct IsReached<'a> {
    by: By,
    records: &'a Records,
    sought: Sought<'a>,
}

impl Test<u32> for IsReached<'_> {
    ghost use Rattle.std.specs.Prelude.{◌<◌, length};
    ghost use Rattle.directory.specs.Order.{is_reached};

    ghost can_test = { λ test place. place < length test.records.now };

    ghost passes = { λ test place. is_reached test.by test.records.now test.sought place };

    fn passes(&self, place: &u32) -> bool {
        let one = placed_at(self.records, *place as usize);
        !compare(self.by, &one, &self.sought).is_lt()
    }
}

fn compare_keys(by: By, entry: &Entry, sought: &Sought<'_>) -> Ordering
    ensures { result ≡ compare by (record_of entry.now)
        (record_from sought.now.stamp sought.now.name.now 0) }
{
    match by {
        By::Stamp => entry.stamp.cmp(&sought.stamp),
        By::Name => entry.name.as_slice().cmp(sought.name),
    }
}

fn compare(by: By, one: &PlacedEntry<'_>, sought: &Sought<'_>) -> Ordering
    ensures { result ≡ compare_placed by (placed_in one.now) (placed_of sought.now) }
{
    compare_keys(by, one.entry, sought).then(one.place.cmp(&sought.place))
}

fn compare_entries(by: By, one: &PlacedEntry<'_>, other: &PlacedEntry<'_>) -> Ordering
    ensures { result ≡ compare_placed by (placed_in one.now) (placed_in other.now) }
{
    compare(by, one, &sought_of(other))
}

/// The record at a place.
fn placed_at(records: &Records, place: usize) -> PlacedEntry<'_>
    requires { place < length records.now }
    ensures { placed_in result ≡ at_place records.now place }
{
    PlacedEntry {
        entry: records.get(place),
        place,
    }
}

/// What to search for, to find the entry.
fn sought_of<'a>(one: &PlacedEntry<'a>) -> Sought<'a>
    ensures stamp { result.stamp ≡ one.now.entry.now.stamp }
    ensures name { result.name.now ≡ name_of (record_of one.now.entry.now) }
    ensures place { result.place ≡ one.now.place }
{
    Sought {
        stamp: one.entry.stamp,
        name: one.entry.name.as_slice(),
        place: one.place,
    }
}

/// Its position in the order, or the one that it would have.
pub(crate) fn position(order: &Chunks<u32>, by: By, records: &Records, sought: &Sought<'_>) -> usize
    requires rising { AreRising by records.now order.now }
    requires within { (place : ℕ) → Contains order.now place → place < length records.now }
    ensures { IsPosition by records.now order.now (placed_of sought.now) result }
{
    let is_reached = IsReached {
        by,
        records,
        sought: *sought,
    };
    order.position(&is_reached)
}

// The position of the record at a place, or the one that it would have.
fn position_of(order: &Chunks<u32>, by: By, records: &Records, place: usize) -> usize
    requires rising { AreRising by records.now order.now }
    requires within { (place : ℕ) → Contains order.now place → place < length records.now }
    requires there { place < length records.now }
    ensures { IsPosition by records.now order.now (at_place records.now place) result }
{
    let one = placed_at(records, place);
    position(order, by, records, &sought_of(&one))
}

/// The order of these records.
pub(crate) fn order_of(alloc: Global, by: By, records: &Records) -> Result<Chunks<u32>, AllocError>
    requires { length records.now ≤ MAX_LEN }
    ensures { IfOk result (λ order. IsOrder by order records.now) }
{
    let mut all = all_placed(alloc, records)?;
    all.sort_unstable_by(move |one, other| compare_entries(by, one, other));
    places_of(alloc, &all)
}

/// The records with their places, in the order of these.
fn all_placed(alloc: Global, records: &Records) -> Result<Vec<PlacedEntry<'_>>, AllocError>
    ensures { IfOk result (λ all. ArePlaced all.items records.now) }
{
    let mut all = Vec::with_capacity(alloc, records.len())?;
    for place in 0..records.len() {
        all.push(placed_at(records, place))?;
    }
    Ok(all)
}

/// The places of these records.
fn places_of(alloc: Global, all: &[PlacedEntry<'_>]) -> Result<Chunks<u32>, AllocError>
    requires few { length all.now ≤ MAX_LEN }
    requires low { All (λ one. one.place < MAX_LEN) all.now }
    ensures { IfOk result (λ places. places ≡ map (λ one. one.place) all.now) }
{
    let mut places = Chunks::new(alloc);
    for one in all {
        match places.push(one.place as u32) {
            Ok(()) => {}
            Err(ChunksFault::Memory) => return Err(AllocError),
            Err(ChunksFault::Full) => unreachable!(),
        }
    }
    Ok(places)
}

/// Puts the place of a record into the order.
fn insert(
    order: &mut Chunks<u32>,
    by: By,
    records: &Records,
    place: usize,
) -> Result<(), AllocError>
    requires rising { AreRising by records.now order.old }
    requires within { (other : ℕ) → Contains order.old other → other < length records.now }
    requires there { place < length records.now }
    requires small { length records.now ≤ MAX_LEN }
    requires new { ¬ Contains order.old place }
    ensures { OnOk result (IsInserted by records.now order.old order.new place) }
{
    let at = position_of(order, by, records, place);
    match order.insert(at, place as u32) {
        Ok(()) => Ok(()),
        Err(ChunksFault::Memory) => Err(AllocError),
        Err(ChunksFault::Full) => unreachable!(),
    }
}

/// Takes the place of a record out of the order.
fn take_out(
    order: &mut Chunks<u32>,
    by: By,
    records: &Records,
    place: usize,
) -> Result<(), AllocError>
    requires rising { AreRising by records.now order.old }
    requires within { (other : ℕ) → Contains order.old other → other < length records.now }
    requires there { Contains order.old place }
    ensures { OnOk result (IsTakenOut by records.now order.old order.new place) }
{
    let at = position_of(order, by, records, place);
    order.remove(at)?;
    Ok(())
}

/// The order after a record was put behind the last.
pub(crate) fn with_last(
    order: &Chunks<u32>,
    by: By,
    records: &Records,
) -> Result<Chunks<u32>, AllocError>
    requires some { 0 < length records.now }
    requires order { IsOrder by order.now (take (length records.now - 1) records.now) }
    requires small { length records.now ≤ MAX_LEN }
    ensures { IfOk result (λ made. IsOrder by made records.now) }
{
    let mut made = order.try_clone()?;
    insert(&mut made, by, records, records.len() - 1)?;
    Ok(made)
}

/// The order after the record at a place changed.
pub(crate) fn with_changed(
    order: &Chunks<u32>,
    by: By,
    old: &Records,
    new: &Records,
    place: usize,
) -> Result<Chunks<u32>, AllocError>
    requires order { IsOrder by order.now old.now }
    requires within { place < length old.now }
    requires small { length old.now ≤ MAX_LEN }
    requires changed { new.now ≡ slice_set old.now place
        (slice_index_or new.now place (record_from 0 [] 0)) }
    ensures { IfOk result (λ made. IsOrder by made new.now) }
{
    let mut made = order.try_clone()?;
    take_out(&mut made, by, old, place)?;
    insert(&mut made, by, new, place)?;
    Ok(made)
}

/// The order after the record at a place was removed, and the last one moved there.
pub(crate) fn without(
    order: &Chunks<u32>,
    by: By,
    old: &Records,
    new: &Records,
    place: usize,
) -> Result<Chunks<u32>, AllocError>
    requires order { IsOrder by order.now old.now }
    requires within { place < length old.now }
    requires small { length old.now ≤ MAX_LEN }
    requires removed { new.now ≡ without_place old.now place }
    ensures { IfOk result (λ made. IsOrder by made new.now) }
{
    let mut made = order.try_clone()?;
    take_out(&mut made, by, old, place)?;
    let last = new.len();
    if place >= last {
        return Ok(made);
    }
    take_out(&mut made, by, old, last)?;
    insert(&mut made, by, new, place)?;
    Ok(made)
}
