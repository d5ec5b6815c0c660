//! The groups of a shared bitmap.

ghost use Rattle.std.specs.Prelude.{◌≡◌, ◌<◌, ◌≤◌, ◌*◌, length, map, IfOk};
ghost use Rattle.std.specs.List.{concat};
ghost use Rattle.freemap.specs.Places.{bit_of};
ghost use Rattle.freemap.specs.Kept.{IsSetBelow, IsSectorAt, AreGroups};

use crate::group::{GROUP_PAGES, GROUP_PLACES, Group};
use crate::sectors::MAX_BYTES;
use sector::SIZE;
use std::alloc::{AllocError, Global};
use std::rc::Rc;

/// The most groups: 2^32 places.
const MAX_GROUPS: usize = MAX_BYTES / (SIZE * GROUP_PAGES);

/// Groups of these sectors.
pub(crate) fn cut(alloc: Global, bits: &[u8], count: usize) -> Result<Vec<Rc<Group>>, AllocError>
    requires len { length bits.now ≡ SIZE * count }
    requires few { SIZE * count ≤ MAX_BYTES }
    ensures bytes { IfOk result (λ groups.
        concat (map (λ group. group.value) groups.items) ≡ bits.now) }
    ensures groups { IfOk result (λ groups. AreGroups (map (λ group. group.value) groups.items)) }
{
    let parts = count.div_ceil(GROUP_PAGES);
    let mut groups = Vec::with_capacity(alloc, parts)?;
    for part in 0..parts {
        let first = GROUP_PAGES * part;
        let end = count.min(first + GROUP_PAGES);
        let group = Group::new(alloc, &bits[SIZE * first..SIZE * end], end - first)?;
        groups.push(Rc::new(alloc, group)?)?;
    }
    Ok(groups)
}

/// The bytes of a page.
pub(crate) fn page(groups: &[Rc<Group>], page: usize) -> &[u8]
    requires groups { AreGroups (map (λ group. group.value) groups.now) }
    requires within { SIZE * page < length (concat (map (λ group. group.value) groups.now)) }
    ensures { IsSectorAt result.now (concat (map (λ group. group.value) groups.now)) (SIZE * page) }
{
    groups[page / GROUP_PAGES].page(page % GROUP_PAGES)
}

/// The lowest free place, if none below `from` is free; one past the last place if none is free.
pub(crate) fn first_clear(groups: &[Rc<Group>], from: usize) -> usize
    requires few { length groups.now ≤ MAX_GROUPS }
    requires groups { AreGroups (map (λ group. group.value) groups.now) }
    requires below { IsSetBelow (concat (map (λ group. group.value) groups.now)) from }
    // What it finds
    ensures below { IsSetBelow (concat (map (λ group. group.value) groups.now)) result }
    ensures clear { result < 8 * length (concat (map (λ group. group.value) groups.now))
        → bit_of (concat (map (λ group. group.value) groups.now)) result ≡ 0 }
{
    let count = groups.len();
    for part in from / GROUP_PLACES..count {
        let place = groups[part].first();
        if place < GROUP_PLACES {
            return GROUP_PLACES * part + place;
        }
    }
    GROUP_PLACES * count
}
