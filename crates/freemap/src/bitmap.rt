//! The set of used places.

ghost use Rattle.std.specs.Prelude.{◌≡◌, ◌<◌, ◌≤◌, ◌*◌, ◌↔◌, Bool, true, false, List, length, replicate, slice_index_or, slice_get, slice_set, All, IfOk, OnErr, IsTrue};
ghost use Rattle.freemap.specs.Places.{ShowsPlaces, HaveSamePart, OneSet, OneEncoding};
ghost use Rattle.freemap.specs.Kept.{free_places, parts};

use crate::fault::Full;
use crate::sectors::{self, SECTOR_PLACES};
use sector::SIZE;
use std::alloc::{AllocError, Global};
use std::marker::Model;

/// Which places are used: the bitmap sectors as they lie on a device, end to end, two at least, and
/// where to look for a free place.
///
/// Contracts see a list of booleans, true if the place is used.
#[derive(Drop)]
pub struct Bitmap {
    pub(crate) bits: Vec<u8>,
    pub(crate) count: u32,
    /// No place below this one is free.
    pub(crate) lowest: usize,
}

impl Model for Bitmap {
    ghost use Rattle.std.specs.Prelude.{Bool, List};
    ghost use Rattle.freemap.specs.Places.{places_in};
    ghost use Rattle.freemap.specs.Kept.{IsBitmap};

    ghost Value = { List Bool };

    ghost view = { λ b. places_in b.bits.items b.count };

    ghost invariant = { λ b. IsBitmap b.bits.items b.count b.lowest };
}

impl Bitmap {
    /// A set of `count` places, all free.
    pub fn new(alloc: Global, count: u32) -> Result<Bitmap, AllocError>
        ensures { IfOk result (λ places. places ≡ replicate count false) }
    {
        let bits = vec![in alloc; 0; SIZE * parts_of(count)]?;
        Ok(Bitmap {
            bits,
            count,
            lowest: 0,
        })
    }

    /// A copy of the set, in its own memory.
    pub fn try_clone(&self) -> Result<Bitmap, AllocError>
        ensures { IfOk result (λ places. places ≡ self.now) }
    {
        Ok(Bitmap {
            bits: Vec::from_slice(*self.bits.allocator(), &self.bits)?,
            count: self.count,
            lowest: self.lowest,
        })
    }

    /// Writes bitmap sector `part`, which encodes the places from `32768 * part` on.
    pub fn write_sector(&self, part: u32, sector: &mut [u8; SIZE])
        requires { part < parts (length self.now) }
        ensures { ShowsPlaces sector.new self.now (SECTOR_PLACES * part) }
    {
        let first = SIZE * part as usize;
        sector.copy_from_slice(&self.bits[first..first + SIZE]);
    }

    /// Whether bitmap sector `part` is the same of both sets.
    pub fn has_same_part(&self, other: &Bitmap, part: u32) -> bool
        requires own { part < parts (length self.now) }
        requires other { part < parts (length other.now) }
        ensures { IsTrue result ↔ HaveSamePart self.now other.now (SECTOR_PLACES * part) }
    {
        let start = part as usize * SIZE;
        let end = start + SIZE;
        sectors::have_same_bits(&self.bits[start..end], &other.bits[start..end])
    }

    /// How many places there are, used or free.
    pub fn len(&self) -> u32
        ensures { result ≡ length self.now }
    {
        self.count
    }

    /// How many places are free.
    pub fn free_count(&self) -> u32
        ensures { result ≡ free_places self.now }
    {
        sectors::count_free(&self.bits, self.count as usize)
    }

    /// Whether a place is used; one past the last is not.
    pub fn is_used(&self, place: u32) -> bool
        ensures { result ≡ slice_index_or self.now place false }
    {
        place < self.count && sectors::is_set(&self.bits, place as usize)
    }

    /// Takes a free place. Which one is left open.
    ///
    /// # Errors
    /// `Full` exactly if no place is free; then nothing changes.
    pub fn take(&mut self) -> Result<u32, Full>
        ensures free { IfOk result (λ place. slice_get self.old place ≡ Some false) }
        ensures taken { IfOk result (λ place. self.new ≡ slice_set self.old place true) }
        ensures full { OnErr result (All (λ used. used ≡ true) self.old) }
        ensures unchanged { OnErr result (self.new ≡ self.old) }
    {
        let count = self.count as usize;
        let Some(place) = sectors::first_clear(&self.bits, self.lowest, count) else {
            self.lowest = count;
            return Err(Full);
        };
        sectors::set_bit(&mut self.bits, place);
        self.lowest = place + 1;
        Ok(place as u32)
    }

    /// Takes this free place.
    pub fn mark(&mut self, place: u32)
        requires { slice_get self.old place ≡ Some false }
        ensures { self.new ≡ slice_set self.old place true }
    {
        sectors::set_bit(&mut self.bits, place as usize);
    }

    /// Frees a used place.
    pub fn give(&mut self, place: u32)
        requires { slice_index_or self.old place false ≡ true }
        ensures { self.new ≡ slice_set self.old place false }
    {
        let place = place as usize;
        sectors::clear_bit(&mut self.bits, place);
        self.lowest = self.lowest.min(place);
    }
}

/// How many sectors a set of this many places takes.
fn parts_of(count: u32) -> usize
    ensures { result ≡ parts count }
{
    (count as usize).div_ceil(SECTOR_PLACES as usize).max(2)
}

/// Two sectors encode at most one set of a given size, and a set is encoded by one pair of sectors.
pub fn one_encoding()
    ensures set { OneSet }
    ensures sectors { OneEncoding }
{}
