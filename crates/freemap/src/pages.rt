//! The pages of a group.

ghost use Rattle.std.specs.Prelude.{◌≡◌, ◌<◌, ◌≤◌, ◌*◌, length, map, IfOk};
ghost use Rattle.std.specs.List.{concat};
ghost use Rattle.freemap.specs.Kept.{IsSetBelow, IsFirstClear, AreSectors};

use crate::group::GROUP_PAGES;
use crate::page::{PAGE_PLACES, Page};
use crate::sectors::SECTOR_PLACES;
use sector::SIZE;
use std::alloc::{AllocError, Global};
use std::rc::Rc;

/// Pages of these sectors.
pub(crate) fn cut(alloc: Global, bits: &[u8], count: usize) -> Result<Vec<Rc<Page>>, AllocError>
    requires { length bits.now ≡ SIZE * count }
    ensures bytes { IfOk result (λ pages.
        concat (map (λ page. page.value) pages.items) ≡ bits.now) }
    ensures sectors { IfOk result (λ pages. AreSectors (map (λ page. page.value) pages.items)) }
{
    let mut pages = Vec::with_capacity(alloc, count)?;
    for part in 0..count {
        let first = SIZE * part;
        let page = Page::new(alloc, &bits[first..first + SIZE])?;
        pages.push(Rc::new(alloc, page)?)?;
    }
    Ok(pages)
}

/// The same list, in the same memory: pages or groups.
pub(crate) fn share<T: Drop>(alloc: Global, list: &[Rc<T>]) -> Result<Vec<Rc<T>>, AllocError>
    ensures { IfOk result (λ copy. map (λ one. one.value) copy.items
        ≡ map (λ one. one.value) list.now) }
{
    let mut copy = Vec::with_capacity(alloc, list.len())?;
    for one in list {
        copy.push(one.clone()?)?;
    }
    Ok(copy)
}

/// The lowest free place, if none below `from` is free; the end of the last page if none is free.
pub(crate) fn first_clear(pages: &[Rc<Page>], from: usize) -> usize
    requires few { length pages.now ≤ GROUP_PAGES }
    requires sectors { AreSectors (map (λ page. page.value) pages.now) }
    requires below { IsSetBelow (concat (map (λ page. page.value) pages.now)) from }
    ensures { IsFirstClear (concat (map (λ page. page.value) pages.now))
        (SECTOR_PLACES * length pages.now) result }
{
    let count = pages.len();
    for part in from / PAGE_PLACES..count {
        let place = pages[part].first();
        if place < PAGE_PLACES {
            return PAGE_PLACES * part + place;
        }
    }
    PAGE_PLACES * count
}
