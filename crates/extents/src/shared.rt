//! Sectors in memory that lists share.

ghost use Rattle.std.specs.Prelude.{◌≡◌, ◌<◌, ◌≤◌, ℕ, List, [], Option, Some, None, length, take, set, IfOk, OnOk, OnErr};
ghost use Rattle.extents.specs.Runs.{with_holes};

use std::alloc::{AllocError, AllocFailed, Global};
use std::marker::Model;
use std::rc::Rc;

/// Sectors of blocks. A copy shares their memory until one of the two changes.
///
/// Contracts see the list of them.
#[derive(Drop)]
pub(crate) struct Shared {
    alloc: Global,
    /// `None` if there are no sectors.
    sectors: Option<Rc<Vec<Option<u32>>>>,
}

impl Model for Shared {
    ghost use Rattle.std.specs.Prelude.{ℕ, List, Option};
    ghost use Rattle.extents.specs.Shared.{items_in};

    ghost Value = { List (Option ℕ) };

    ghost view = { λ shared. items_in (λ rc. rc.value.items) shared.sectors };
}

impl Shared {
    /// No sectors. Takes no memory.
    pub(crate) fn new(alloc: Global) -> Shared
        ensures { result ≡ [] }
    {
        Shared {
            alloc,
            sectors: None,
        }
    }

    /// These sectors.
    pub(crate) fn from_vec(
        alloc: Global,
        sectors: Vec<Option<u32>>,
    ) -> Result<Shared, AllocFailed<Vec<Option<u32>>>>
        ensures { IfOk result (λ shared. shared ≡ sectors.items) }
    {
        let sectors = Rc::new(alloc, sectors)?;
        Ok(Shared {
            alloc,
            sectors: Some(sectors),
        })
    }

    /// The same sectors, in the same memory.
    pub(crate) fn try_clone(&self) -> Result<Shared, AllocError>
        ensures { IfOk result (λ shared. shared ≡ self.now) }
    {
        let sectors = match &self.sectors {
            Some(sectors) => Some(sectors.clone()?),
            None => None,
        };
        Ok(Shared {
            alloc: self.alloc,
            sectors,
        })
    }

    /// The sectors.
    pub(crate) fn as_slice(&self) -> &[Option<u32>]
        ensures { result.now ≡ self.now }
    {
        match &self.sectors {
            Some(sectors) => sectors.as_slice(),
            None => &[],
        }
    }

    /// Keeps the first `kept` sectors, and puts holes after them up to `count`: in place, if nobody
    /// shares the memory. An `Err` keeps the first `kept`, and maybe others after them.
    pub(crate) fn grow(&mut self, kept: usize, count: usize) -> Result<(), AllocError>
        requires { (kept ≤ length self.old) × (kept ≤ count) }
        ensures ok { OnOk result (self.new ≡ with_holes (take kept self.old) count) }
        ensures err { OnErr result (take kept self.new ≡ take kept self.old) }
        ensures len { OnErr result (kept ≤ length self.new) }
    {
        if let Some(sectors) = &mut self.sectors
            && let Some(own) = Rc::get_mut(sectors)
        {
            return refill(own, kept, count);
        }
        let own = copied(self.alloc, &self.as_slice()[..kept], count)?;
        self.sectors = Some(Rc::new(self.alloc, own)?);
        Ok(())
    }

    /// The same, and then puts a sector into one of the places.
    pub(crate) fn put(
        &mut self,
        kept: usize,
        count: usize,
        place: usize,
        sector: u32,
    ) -> Result<(), AllocError>
        requires kept { (kept ≤ length self.old) × (kept ≤ count) }
        requires within { place < count }
        ensures ok { OnOk result
            (self.new ≡ set (with_holes (take kept self.old) count) place (Some sector)) }
        ensures err { OnErr result (take kept self.new ≡ take kept self.old) }
        ensures len { OnErr result (kept ≤ length self.new) }
    {
        if let Some(sectors) = &mut self.sectors
            && let Some(own) = Rc::get_mut(sectors)
        {
            refill(own, kept, count)?;
            own[place] = Some(sector);
            return Ok(());
        }
        let mut own = copied(self.alloc, &self.as_slice()[..kept], count)?;
        own[place] = Some(sector);
        self.sectors = Some(Rc::new(self.alloc, own)?);
        Ok(())
    }
}

/// Keeps the first sectors, and puts holes after them up to `count`. An `Err` keeps the first ones.
fn refill(own: &mut Vec<Option<u32>>, kept: usize, count: usize) -> Result<(), AllocError>
    requires { (kept ≤ length own.old.items) × (kept ≤ count) }
    ensures ok { OnOk result (own.new.items ≡ with_holes (take kept own.old.items) count) }
    ensures err { OnErr result (own.new.items ≡ take kept own.old.items) }
{
    own.truncate(kept);
    own.resize(count, None)
}

/// These sectors, and holes after them up to `count`.
fn copied(
    alloc: Global,
    sectors: &[Option<u32>],
    count: usize,
) -> Result<Vec<Option<u32>>, AllocError>
    requires { length sectors.now ≤ count }
    ensures { IfOk result (λ own. own.items ≡ with_holes sectors.now count) }
{
    let mut own = Vec::with_capacity(alloc, count)?;
    own.extend_from_slice(sectors)?;
    own.resize(count, None)?;
    Ok(own)
}
