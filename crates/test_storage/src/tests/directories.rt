//! The names of a directory beside a list of them: the same calls give the same places, stamps and
//! numbers, and a copy keeps its own. Many names have one stamp: a listing has the first of these.

ghost use Rattle.std.specs.Prelude.{◌<◌, ◌≤◌, length};

use super::drivers::Random;
use directory::{DirectoryFault, Entry, Names};
use std::alloc::{AllocError, Global};
use std::process::Abort;
use std::rc::RcSlice;
use std::test::Fail;

/// A name is a number below this, in one byte or in two.
const NAMES: usize = 1500;

/// Stamps are below this, and above 0.
const STAMPS: usize = 700;

/// What a name leads to.
#[derive(Clone, Copy)]
struct Row {
    name: u16,
    stamp: u64,
    number: u64,
}

fn row_of(name: u16, random: &mut Random) -> Row {
    Row {
        name,
        stamp: 1 + random.below(STAMPS) as u64,
        number: random.0,
    }
}

fn name_in(bytes: &[u8; 2]) -> &[u8]
    ensures some { 0 < length result.now }
    ensures few { length result.now ≤ 2 }
{
    if bytes[0] == 0 { &bytes[1..] } else { bytes }
}

fn is_row(entry: &Entry, row: &Row) -> bool {
    entry.name.as_slice() == name_in(&row.name.to_be_bytes())
        && (entry.stamp, entry.number) == (row.stamp, row.number)
}

/// Names, and in the order of their records what is expected of them.
#[derive(Drop)]
struct Both {
    names: Names,
    rows: Vec<Row>,
}

impl Both {
    fn new(alloc: Global) -> Both {
        Both {
            names: Names::new(alloc),
            rows: Vec::new(alloc),
        }
    }

    fn try_clone(&self, alloc: Global) -> Result<Both, AllocError> {
        Ok(Both {
            names: self.names.try_clone()?,
            rows: Vec::from_slice(alloc, &self.rows)?,
        })
    }

    /// The place of a name: behind the last if it is not there.
    fn place_of(&self, name: u16) -> usize {
        for (place, row) in self.rows.iter().enumerate() {
            if row.name == name {
                return place;
            }
        }
        self.rows.len()
    }

    /// Puts a name, unless the directory is full, and returns whether it did.
    fn put(&mut self, rt: &impl Abort, row: Row) -> Result<bool, DirectoryFault> {
        let bytes = row.name.to_be_bytes();
        let wanted = self.place_of(row.name);
        match self.names.put(name_in(&bytes), row.stamp, row.number) {
            Ok(place) => {
                assert_eq!(rt; place, wanted);
                if place < self.rows.len() {
                    self.rows[place] = row;
                } else {
                    self.rows.push(row)?;
                }
                Ok(true)
            }
            Err(DirectoryFault::Full) => {
                assert_eq!(rt; wanted, Names::MAX_NAMES);
                Ok(false)
            }
            Err(fault) => Err(fault),
        }
    }

    /// Removes a name, if it is there.
    fn remove(&mut self, rt: &impl Abort, name: u16) -> Result<(), AllocError> {
        let bytes = name.to_be_bytes();
        let wanted = self.place_of(name);
        let Some((place, entry)) = self.names.remove(name_in(&bytes))? else {
            assert_eq!(rt; wanted, self.rows.len());
            return Ok(());
        };
        assert!(rt; place == wanted && place < self.rows.len());
        let row = self.rows.swap_remove(place);
        assert!(rt; is_row(&entry, &row));
        Ok(())
    }

    /// Puts or removes a name at random, `count` times. Returns whether a name found no room.
    fn change(
        &mut self,
        rt: &impl Abort,
        random: &mut Random,
        count: u32,
    ) -> Result<bool, DirectoryFault> {
        let mut was_full = false;
        for _ in 0..count {
            let name = random.below(NAMES) as u16;
            if random.below(6) == 0 {
                self.remove(rt, name)?;
            } else if !self.put(rt, row_of(name, random))? {
                was_full = true;
            }
        }
        Ok(was_full)
    }

    fn assert_found(&self, rt: &impl Abort) {
        for name in 0..NAMES as u16 {
            let row = self.rows.get(self.place_of(name));
            let wanted = row.map(|row| (row.stamp, row.number));
            assert_eq!(rt;
                self.names.get(name_in(&name.to_be_bytes())),
                wanted,
                "{name}"
            );
        }
    }

    fn assert_records(&self, rt: &impl Abort) {
        assert_eq!(rt; self.names.len(), self.rows.len());
        for (place, row) in self.rows.iter().enumerate() {
            assert!(rt; place < self.names.len());
            assert!(rt; is_row(self.names.entry(place), row), "{place}");
        }
    }

    /// For each stamp the first row that has it.
    fn firsts(&self, alloc: Global) -> Result<Vec<Option<Row>>, AllocError> {
        let mut firsts = vec![in alloc; None; STAMPS + 1]?;
        for row in &self.rows {
            let stamp = row.stamp as usize;
            if stamp < firsts.len() && firsts[stamp].is_none() {
                firsts[stamp] = Some(*row);
            }
        }
        Ok(firsts)
    }

    fn assert_listed(&self, rt: &impl Abort, firsts: &[Option<Row>], cookie: usize) {
        let mut list = self.names.list_after(cookie as u64);
        for first in firsts.iter().skip(cookie.saturating_add(1)) {
            if let Some(row) = first {
                let next = list.next();
                assert!(rt;
                    next.is_some_and(|entry| is_row(entry, row)),
                    "{}",
                    row.stamp
                );
            }
        }
        assert!(rt; list.next().is_none(), "after {cookie}");
    }

    fn assert_same(&self, rt: &impl Abort, alloc: Global) -> Result<(), AllocError> {
        self.assert_records(rt);
        self.assert_found(rt);
        let firsts = self.firsts(alloc)?;
        for cookie in [0, 1, STAMPS / 2, STAMPS] {
            self.assert_listed(rt, &firsts, cookie);
        }
        Ok(())
    }
}

#[test]
fn names_are_those_that_were_put(rt: HostRuntime) -> Result<(), Fail> {
    let mut both = Both::new(rt.alloc());
    let mut random = Random(1);
    both.change(&rt, &mut random, 1000)?;
    both.assert_same(&rt, rt.alloc())?;
    let copy = both.try_clone(rt.alloc())?;
    assert!(rt; both.change(&rt, &mut random, 5000)?);
    both.assert_same(&rt, rt.alloc())?;
    copy.assert_same(&rt, rt.alloc())?;
    Ok(())
}

fn entry_of(alloc: Global, row: Row) -> Result<Entry, AllocError> {
    Ok(Entry {
        name: RcSlice::from_slice(alloc, name_in(&row.name.to_be_bytes()))?,
        stamp: row.stamp,
        number: row.number,
    })
}

fn entries_of(alloc: Global, rows: &[Row]) -> Result<Vec<Entry>, AllocError> {
    let mut entries = Vec::new(alloc);
    for row in rows {
        entries.push(entry_of(alloc, *row)?)?;
    }
    Ok(entries)
}

/// This many names in a random order.
fn shuffled(alloc: Global, count: u16, random: &mut Random) -> Result<Vec<Row>, AllocError> {
    let mut rows = Vec::new(alloc);
    for name in 0..count {
        rows.push(row_of(name, random))?;
        let len = rows.len();
        rows.swap(len - 1, random.below(len));
    }
    Ok(rows)
}

#[test]
fn entries_are_listed_by_stamp(rt: HostRuntime) -> Result<(), Fail> {
    let mut random = Random(2);
    let rows = shuffled(rt.alloc(), 1000, &mut random)?;
    let names = Names::from_entries(rt.alloc(), entries_of(rt.alloc(), &rows)?)?;
    let Some(names) = names else {
        return Err("no directory".into());
    };
    let mut both = Both { names, rows };
    both.assert_same(&rt, rt.alloc())?;
    both.change(&rt, &mut random, 1000)?;
    both.assert_same(&rt, rt.alloc())?;
    Ok(())
}

/// Whether entries of these names are a directory's.
fn are_names(alloc: Global, rows: &[Row]) -> Result<bool, AllocError> {
    let names = Names::from_entries(alloc, entries_of(alloc, rows)?)?;
    Ok(names.is_some())
}

#[test]
fn what_is_no_directory_is_refused(rt: HostRuntime) -> Result<(), Fail> {
    let mut rows = shuffled(rt.alloc(), 1025, &mut Random(3))?;
    assert!(rt; !are_names(rt.alloc(), &rows)?);
    rows.pop();
    assert!(rt; are_names(rt.alloc(), &rows)?);
    rows.pop();
    if let Some(row) = rows.get(500).copied() {
        rows.push(row)?;
    }
    assert!(rt; !are_names(rt.alloc(), &rows)?);
    Ok(())
}
