//! A bitmap that copies share.

ghost use Rattle.std.specs.Prelude.{◌≡◌, ◌<◌, ◌*◌, ◌↔◌, Some, false, true, length, slice_index_or, slice_get, slice_set, All, IfOk, IsErrOf, OnOk, OnErr, IsTrue};
ghost use Rattle.freemap.specs.Places.{ShowsPlaces, HaveSamePart};
ghost use Rattle.freemap.specs.Kept.{parts};

use crate::bitmap::Bitmap;
use crate::fault::TakeFault;
use crate::group::{self, GROUP_PLACES, Group};
use crate::sectors::{self, SECTOR_PLACES};
use crate::{groups, pages};
use sector::SIZE;
use std::alloc::{AllocError, Global};
use std::marker::Model;
use std::rc::Rc;

/// Which places are used, in pages of one bitmap sector each, and these in groups of 128. A copy
/// shares each group, and then each page, until one of the two changes it.
///
/// Contracts see a list of booleans, true if the place is used.
#[derive(Drop)]
pub struct SharedBitmap {
    alloc: Global,
    groups: Vec<Rc<Group>>,
    count: u32,
    /// No place below this one is free.
    lowest: usize,
}

impl Model for SharedBitmap {
    ghost use Rattle.std.specs.Prelude.{Bool, List, map};
    ghost use Rattle.std.specs.List.{concat};
    ghost use Rattle.freemap.specs.Places.{places_in};
    ghost use Rattle.freemap.specs.Kept.{IsShared};

    ghost Value = { List Bool };

    ghost view = { λ b. places_in (concat (map (λ g. g.value) b.groups.items)) b.count };

    ghost invariant = { λ b. IsShared (map (λ g. g.value) b.groups.items) b.count b.lowest };
}

impl SharedBitmap {
    /// A bitmap of the same places, whose copies share its memory.
    pub fn new(alloc: Global, set: Bitmap) -> Result<SharedBitmap, AllocError>
        ensures { IfOk result (λ places. places ≡ set) }
    {
        let count = set.bits.len() / SIZE;
        Ok(SharedBitmap {
            alloc,
            groups: groups::cut(alloc, &set.bits, count)?,
            count: set.count,
            lowest: set.lowest,
        })
    }

    /// A copy, which shares each group.
    pub fn try_clone(&self) -> Result<SharedBitmap, AllocError>
        ensures { IfOk result (λ places. places ≡ self.now) }
    {
        Ok(SharedBitmap {
            alloc: self.alloc,
            groups: pages::share(self.alloc, &self.groups)?,
            count: self.count,
            lowest: self.lowest,
        })
    }

    /// Writes bitmap sector `part`, which encodes the places from `32768 * part` on.
    pub fn write_sector(&self, part: u32, sector: &mut [u8; SIZE])
        requires { part < parts (length self.now) }
        ensures { ShowsPlaces sector.new self.now (SECTOR_PLACES * part) }
    {
        sector.copy_from_slice(groups::page(&self.groups, part as usize));
    }

    /// Whether bitmap sector `part` is the same of both.
    pub fn has_same_part(&self, other: &SharedBitmap, part: u32) -> bool
        requires own { part < parts (length self.now) }
        requires other { part < parts (length other.now) }
        ensures { IsTrue result ↔ HaveSamePart self.now other.now (SECTOR_PLACES * part) }
    {
        let part = part as usize;
        sectors::have_same_bits(
            groups::page(&self.groups, part),
            groups::page(&other.groups, part),
        )
    }

    /// Takes a free place, in place if nobody shares its page. Which one is left open.
    ///
    /// # Errors
    /// `Full` only if no place is free, and `Memory`; then nothing changes.
    pub fn take(&mut self) -> Result<u32, TakeFault>
        ensures free { IfOk result (λ place. slice_get self.old place ≡ Some false) }
        ensures taken { IfOk result (λ place. self.new ≡ slice_set self.old place true) }
        ensures full { IsErrOf result TakeFault.Full → All (λ used. used ≡ true) self.old }
        ensures unchanged { OnErr result (self.new ≡ self.old) }
    {
        let count = self.count as usize;
        let place = groups::first_clear(&self.groups, self.lowest);
        if place >= count {
            self.lowest = count;
            return Err(TakeFault::Full);
        }
        let group = &mut self.groups[place / GROUP_PLACES];
        group::take(self.alloc, group, place % GROUP_PLACES)?;
        self.lowest = place + 1;
        Ok(place as u32)
    }

    /// Frees a used place, in place if nobody shares its page. An `Err` changes nothing.
    pub fn give(&mut self, place: u32) -> Result<(), AllocError>
        requires { slice_index_or self.old place false ≡ true }
        ensures given { OnOk result (self.new ≡ slice_set self.old place false) }
        ensures unchanged { OnErr result (self.new ≡ self.old) }
    {
        let place = place as usize;
        let group = &mut self.groups[place / GROUP_PLACES];
        group::give(self.alloc, group, place % GROUP_PLACES)?;
        self.lowest = self.lowest.min(place);
        Ok(())
    }
}
