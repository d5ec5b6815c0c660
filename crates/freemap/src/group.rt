//! A group of pages of a shared bitmap, changed in place, unless another bitmap shares it.

ghost use Rattle.std.specs.Prelude.{◌≡◌, ◌<◌, ◌≤◌, ◌*◌, length, IfOk, OnOk, OnErr};
ghost use Rattle.freemap.specs.Kept.{IsSectorAt, IsFirstClear, BitBecomes};

use crate::page::{self, PAGE_PLACES, Page};
use crate::pages;
use sector::SIZE;
use std::alloc::{AllocError, Global};
use std::marker::Model;
use std::rc::Rc;

/// The pages of a group; the last one has fewer.
pub(crate) const GROUP_PAGES: usize = 128;

/// The places of a full group.
pub(crate) const GROUP_PLACES: usize = GROUP_PAGES * PAGE_PLACES;

/// Pages, and where their first free place is.
///
/// Contracts see the bytes, end to end.
#[derive(Drop)]
pub(crate) struct Group {
    pages: Vec<Rc<Page>>,
    /// The first free place; the end of the last page if none is free.
    first: usize,
}

impl Model for Group {
    ghost use Rattle.std.specs.Prelude.{ℕ, List, map};
    ghost use Rattle.std.specs.List.{concat};
    ghost use Rattle.freemap.specs.Kept.{IsGroup};

    ghost Value = { List ℕ };

    ghost view = { λ group. concat (map (λ page. page.value) group.pages.items) };

    ghost invariant = { λ group. IsGroup (map (λ page. page.value) group.pages.items) group.first };
}

impl Group {
    /// A group of this many sectors.
    pub(crate) fn new(alloc: Global, bytes: &[u8], count: usize) -> Result<Group, AllocError>
        requires few { count ≤ GROUP_PAGES }
        requires len { length bytes.now ≡ SIZE * count }
        ensures { IfOk result (λ group. group ≡ bytes.now) }
    {
        let pages = pages::cut(alloc, bytes, count)?;
        let first = pages::first_clear(&pages, 0);
        Ok(Group { pages, first })
    }

    /// A copy, which shares each page.
    fn try_clone(&self, alloc: Global) -> Result<Group, AllocError>
        ensures { IfOk result (λ group. group ≡ self.now) }
    {
        Ok(Group {
            pages: pages::share(alloc, &self.pages)?,
            first: self.first,
        })
    }

    /// The bytes of a page.
    pub(crate) fn page(&self, page: usize) -> &[u8]
        requires { SIZE * page < length self.now }
        ensures { IsSectorAt result.now self.now (SIZE * page) }
    {
        self.pages[page].bytes()
    }

    /// Its first free place; the end of its last page if none is free.
    pub(crate) fn first(&self) -> usize
        ensures { IsFirstClear self.now (8 * length self.now) result }
    {
        self.first
    }

    /// Takes a place, in place if nobody shares its page.
    fn take(&mut self, alloc: Global, place: usize) -> Result<(), AllocError>
        requires { place < 8 * length self.old }
        ensures bit { OnOk result (BitBecomes self.old self.new place 1) }
        ensures len { OnOk result (length self.new ≡ length self.old) }
        ensures unchanged { OnErr result (self.new ≡ self.old) }
    {
        let page = &mut self.pages[place / PAGE_PLACES];
        page::take(alloc, page, place % PAGE_PLACES)?;
        self.first = pages::first_clear(&self.pages, self.first);
        Ok(())
    }

    /// Frees a place, in place if nobody shares its page.
    fn give(&mut self, alloc: Global, place: usize) -> Result<(), AllocError>
        requires { place < 8 * length self.old }
        ensures bit { OnOk result (BitBecomes self.old self.new place 0) }
        ensures len { OnOk result (length self.new ≡ length self.old) }
        ensures unchanged { OnErr result (self.new ≡ self.old) }
    {
        let page = &mut self.pages[place / PAGE_PLACES];
        page::give(alloc, page, place % PAGE_PLACES)?;
        self.first = self.first.min(place);
        Ok(())
    }
}

/// Takes a place of a group.
pub(crate) fn take(alloc: Global, group: &mut Rc<Group>, place: usize) -> Result<(), AllocError>
    requires { place < 8 * length group.old.value }
    ensures bit { OnOk result (BitBecomes group.old.value group.new.value place 1) }
    ensures len { OnOk result (length group.new.value ≡ length group.old.value) }
    ensures unchanged { OnErr result (group.new.value ≡ group.old.value) }
{
    if let Some(own) = Rc::get_mut(group) {
        return own.take(alloc, place);
    }
    let mut own = group.try_clone(alloc)?;
    own.take(alloc, place)?;
    *group = Rc::new(alloc, own)?;
    Ok(())
}

/// Frees a place of a group.
pub(crate) fn give(alloc: Global, group: &mut Rc<Group>, place: usize) -> Result<(), AllocError>
    requires { place < 8 * length group.old.value }
    ensures bit { OnOk result (BitBecomes group.old.value group.new.value place 0) }
    ensures len { OnOk result (length group.new.value ≡ length group.old.value) }
    ensures unchanged { OnErr result (group.new.value ≡ group.old.value) }
{
    if let Some(own) = Rc::get_mut(group) {
        return own.give(alloc, place);
    }
    let mut own = group.try_clone(alloc)?;
    own.give(alloc, place)?;
    *group = Rc::new(alloc, own)?;
    Ok(())
}
