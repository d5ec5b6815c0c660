//! A shared bitmap beside a list of booleans: the same places are used, the lowest free one is
//! taken, and a copy keeps its own.

ghost use Rattle.std.specs.Prelude.{◌≡◌, length};

use super::drivers::Random;
use disk::SECTOR;
use freemap::{Bitmap, SECTOR_PLACES, SharedBitmap, TakeFault};
use std::alloc::{AllocError, Global};
use std::process::Abort;
use std::test::Fail;

/// The last of four pages has some of them.
const PLACES: u32 = 100_000;

const PARTS: u32 = 4;

/// A bitmap and what is expected of it.
#[derive(Drop)]
struct Both {
    map: SharedBitmap,
    used: Vec<bool>,
    ghost same: { map ≡ used.items },
    ghost count: { length used.items ≡ 100000 },
}

impl Both {
    fn new(alloc: Global) -> Result<Both, AllocError> {
        Ok(Both {
            map: SharedBitmap::new(alloc, Bitmap::new(alloc, PLACES)?)?,
            used: vec![in alloc; false; PLACES as usize]?,
        })
    }

    fn try_clone(&self, alloc: Global) -> Result<Both, AllocError> {
        Ok(Both {
            map: self.map.try_clone()?,
            used: Vec::from_slice(alloc, &self.used)?,
        })
    }

    /// The lowest free place.
    fn lowest(&self) -> Option<usize> {
        for (place, used) in self.used.iter().enumerate() {
            if !*used {
                return Some(place);
            }
        }
        None
    }

    /// Takes a place, if one is free.
    fn take(&mut self) -> Result<Option<usize>, TakeFault> {
        match self.map.take() {
            Ok(place) => {
                let place = place as usize;
                self.used[place] = true;
                Ok(Some(place))
            }
            Err(TakeFault::Full) => Ok(None),
            Err(fault) => Err(fault),
        }
    }

    /// Frees a place, if it is used.
    fn give(&mut self, place: u32) -> Result<(), AllocError> {
        if self.used.get(place as usize) == Some(&true) {
            self.map.give(place)?;
            self.used[place as usize] = false;
        }
        Ok(())
    }

    fn assert_same(&self, rt: &impl Abort) {
        for part in 0..PARTS {
            let mut sector = [255; SECTOR];
            self.map.write_sector(part, &mut sector);
            let first = SECTOR_PLACES as usize * part as usize;
            assert!(rt; sector == sector_of(&self.used, first), "{part}");
        }
    }
}

/// The byte of the eight places from `first` on, the first one in its highest bit.
fn byte_of(used: &[bool], first: usize) -> u8 {
    let mut byte = 0;
    for place in 0..8 {
        if used.get(first.saturating_add(place)) == Some(&true) {
            byte |= 128 >> place;
        }
    }
    byte
}

/// The sector of the places from `first` on.
fn sector_of(used: &[bool], first: usize) -> [u8; SECTOR] {
    let mut sector = [0; SECTOR];
    for (i, byte) in sector.iter_mut().enumerate() {
        *byte = byte_of(used, first.saturating_add(8 * i));
    }
    sector
}

/// A bitmap whose places are all used, taken from the first one to the last.
fn full(rt: &impl Abort, alloc: Global) -> Result<Both, Fail> {
    let mut both = Both::new(alloc)?;
    for place in 0..PLACES as usize {
        assert_eq!(rt; both.take()?, Some(place));
    }
    assert_eq!(rt; both.take()?, None);
    Ok(both)
}

fn give_one(both: &mut Both, random: &mut Random) -> Result<(), AllocError> {
    both.give(random.below(PLACES as usize) as u32)
}

/// Takes a place or frees one, `count` times.
fn change(rt: &impl Abort, both: &mut Both, random: &mut Random, count: u32) -> Result<(), Fail> {
    for _ in 0..count {
        if random.below(2) == 0 {
            let lowest = both.lowest();
            assert_eq!(rt; both.take()?, lowest);
        } else {
            give_one(both, random)?;
        }
    }
    Ok(())
}

#[test]
fn the_lowest_free_place_is_taken(rt: HostRuntime) -> Result<(), Fail> {
    let mut both = full(&rt, rt.alloc())?;
    let mut random = Random(1);
    for _ in 0..1000 {
        give_one(&mut both, &mut random)?;
    }
    for _ in 0..8 {
        let mut copy = both.try_clone(rt.alloc())?;
        change(&rt, &mut both, &mut random, 500)?;
        copy.assert_same(&rt);
        change(&rt, &mut copy, &mut random, 100)?;
        copy.assert_same(&rt);
        both.assert_same(&rt);
    }
    Ok(())
}
