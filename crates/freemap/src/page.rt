//! One page of a shared bitmap: a sector, changed in place, unless another bitmap shares it.

ghost use Rattle.std.specs.Prelude.{◌≡◌, ◌<◌, ◌≤◌, length, IfOk, OnOk, OnErr};
ghost use Rattle.freemap.specs.Kept.{IsSetBelow, IsFirstClear, BitBecomes};

use crate::sectors::{self, SECTOR_PLACES};
use sector::SIZE;
use std::alloc::{AllocError, Global};
use std::marker::Model;
use std::rc::Rc;

/// The places of a page.
pub(crate) const PAGE_PLACES: usize = SECTOR_PLACES as usize;

/// A bitmap sector, and where its first free place is.
///
/// Contracts see the bytes.
#[derive(Drop)]
pub(crate) struct Page {
    bits: Vec<u8>,
    /// The first free place; `PAGE_PLACES` if none is free.
    first: usize,
}

impl Model for Page {
    ghost use Rattle.std.specs.Prelude.{ℕ, List};
    ghost use Rattle.freemap.specs.Kept.{IsPage};

    ghost Value = { List ℕ };

    ghost view = { λ page. page.bits.items };

    ghost invariant = { λ page. IsPage page.bits.items page.first };
}

impl Page {
    /// A page of these bytes.
    pub(crate) fn new(alloc: Global, bytes: &[u8]) -> Result<Page, AllocError>
        requires { length bytes.now ≡ SIZE }
        ensures { IfOk result (λ page. page ≡ bytes.now) }
    {
        let bits = Vec::from_slice(alloc, bytes)?;
        let first = first_clear(bytes, 0);
        Ok(Page { bits, first })
    }

    /// A copy, in its own memory.
    fn try_clone(&self) -> Result<Page, AllocError>
        ensures { IfOk result (λ page. page ≡ self.now) }
    {
        Ok(Page {
            bits: Vec::from_slice(*self.bits.allocator(), &self.bits)?,
            first: self.first,
        })
    }

    /// Its bytes.
    pub(crate) fn bytes(&self) -> &[u8]
        ensures { result.now ≡ self.now }
    {
        &self.bits
    }

    /// Its first free place; `PAGE_PLACES` if none is free.
    pub(crate) fn first(&self) -> usize
        ensures { IsFirstClear self.now SECTOR_PLACES result }
    {
        self.first
    }

    /// Takes a place.
    fn take(&mut self, place: usize)
        requires { place < SECTOR_PLACES }
        ensures bit { BitBecomes self.old self.new place 1 }
        ensures len { length self.new ≡ SIZE }
    {
        sectors::set_bit(&mut self.bits, place);
        self.first = first_clear(&self.bits, self.first);
    }

    /// Frees a place.
    fn give(&mut self, place: usize)
        requires { place < SECTOR_PLACES }
        ensures bit { BitBecomes self.old self.new place 0 }
        ensures len { length self.new ≡ SIZE }
    {
        sectors::clear_bit(&mut self.bits, place);
        self.first = self.first.min(place);
    }
}

/// Takes a place of a page.
pub(crate) fn take(alloc: Global, page: &mut Rc<Page>, place: usize) -> Result<(), AllocError>
    requires { place < SECTOR_PLACES }
    ensures bit { OnOk result (BitBecomes page.old.value page.new.value place 1) }
    ensures len { OnOk result (length page.new.value ≡ SIZE) }
    ensures unchanged { OnErr result (page.new.value ≡ page.old.value) }
{
    if let Some(own) = Rc::get_mut(page) {
        own.take(place);
        return Ok(());
    }
    let mut own = page.try_clone()?;
    own.take(place);
    *page = Rc::new(alloc, own)?;
    Ok(())
}

/// Frees a place of a page.
pub(crate) fn give(alloc: Global, page: &mut Rc<Page>, place: usize) -> Result<(), AllocError>
    requires { place < SECTOR_PLACES }
    ensures bit { OnOk result (BitBecomes page.old.value page.new.value place 0) }
    ensures len { OnOk result (length page.new.value ≡ SIZE) }
    ensures unchanged { OnErr result (page.new.value ≡ page.old.value) }
{
    if let Some(own) = Rc::get_mut(page) {
        own.give(place);
        return Ok(());
    }
    let mut own = page.try_clone()?;
    own.give(place);
    *page = Rc::new(alloc, own)?;
    Ok(())
}

/// The first clear bit of a sector, of which those below `from` are set; `PAGE_PLACES` if each is.
fn first_clear(bits: &[u8], from: usize) -> usize
    requires len { length bits.now ≡ SIZE }
    requires begins { from ≤ SECTOR_PLACES }
    requires below { IsSetBelow bits.now from }
    ensures { IsFirstClear bits.now SECTOR_PLACES result }
{
    match sectors::first_clear(bits, from, PAGE_PLACES) {
        Some(place) => place,
        None => PAGE_PLACES,
    }
}
