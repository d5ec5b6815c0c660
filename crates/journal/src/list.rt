//! What waits for a flush: updates of different sectors, and the sectors by themselves.

ghost use Rattle.std.specs.Prelude.{◌≡◌, ◌≢◌, ◌≤◌, ◌<◌, ◌↔◌, ◌∷◌, [], ℕ, length, unwrap_or, AllPairs, IsTrue, vec_capacity};
ghost use Rattle.disk.specs.Moments.{Image, applied, put as with};
ghost use Rattle.journal.specs.Layout.{targets};
ghost use Rattle.journal.specs.Transactions.{gathered};

use crate::index::SectorList;
use crate::layout::MAX_TARGETS;
use disk::{SECTOR, Update};

/// The newest content that the updates give sector `n`, or otherwise what was found before.
pub(crate) fn newer(
    updates: &[Update],
    n: u32,
    before: Option<[u8; SECTOR]>,
) -> Option<[u8; SECTOR]>
    ensures { (image base : Image) → image n ≡ unwrap_or before (base n)
        → applied updates.now image n ≡ unwrap_or result (base n) }
{
    let mut found = before;
    for update in updates {
        if update.target == n {
            found = Some(update.content);
        }
    }
    found
}

/// Whether the pending sectors and those of the updates are few enough for a payload of `sectors`
/// sectors.
pub(crate) fn fits(pending_sectors: &SectorList, updates: &[Update], sectors: usize) -> bool
    requires few { length pending_sectors.now.sectors.items ≤ MAX_TARGETS }
    requires short { length updates.now ≤ MAX_TARGETS }
    requires apart { AllPairs (λ a b. a ≢ b) (targets updates.now) }
    ensures { IsTrue result
        ↔ (length (gathered pending_sectors.now.sectors.items (targets updates.now)) ≤ sectors) }
{
    let mut fresh = 0;
    for update in updates {
        if !pending_sectors.contains(update.target) {
            fresh += 1;
        }
    }
    pending_sectors.sectors.len() + fresh <= sectors
}

/// Puts an update in the place of the one of its sector, or otherwise after the others.
pub(crate) fn put(pending: &mut Vec<Update>, pending_sectors: &mut SectorList, update: &Update)
    // There is room for it
    requires sectors_are { pending_sectors.old.sectors.items ≡ targets pending.old.items }
    requires room { length (gathered pending_sectors.old.sectors.items (update.now.target ∷ []))
        ≤ vec_capacity pending.old }
    requires sectors_room { length (gathered pending_sectors.old.sectors.items
        (update.now.target ∷ [])) ≤ vec_capacity pending_sectors.old.sectors }
    // What the list has then
    ensures applied { (image : Image) (n : ℕ) → applied pending.new.items image n
        ≡ with (applied pending.old.items image) update.now n }
    ensures targets { targets pending.new.items
        ≡ gathered (targets pending.old.items) (update.now.target ∷ []) }
    ensures sectors_are { pending_sectors.new.sectors.items ≡ targets pending.new.items }
    // It takes no memory
    ensures capacity { vec_capacity pending.new ≡ vec_capacity pending.old }
    ensures named_capacity { vec_capacity pending_sectors.new.sectors
        ≡ vec_capacity pending_sectors.old.sectors }
{
    match pending_sectors.find(update.target) {
        Some(place) => pending[place].content = update.content,
        None => {
            pending_sectors.push(update.target);
            pending.push_reserved(Update {
                target: update.target,
                content: update.content,
            });
        }
    }
}

/// Puts updates one after the other.
pub(crate) fn merge_into(
    pending: &mut Vec<Update>,
    pending_sectors: &mut SectorList,
    updates: &[Update],
)
    // There is room for it
    requires sectors_are { pending_sectors.old.sectors.items ≡ targets pending.old.items }
    requires room { length (gathered pending_sectors.old.sectors.items (targets updates.now))
        ≤ vec_capacity pending.old }
    requires sectors_room { length (gathered pending_sectors.old.sectors.items
        (targets updates.now)) ≤ vec_capacity pending_sectors.old.sectors }
    // What the list has then
    ensures applied { (image : Image) (n : ℕ) → applied pending.new.items image n
        ≡ applied updates.now (applied pending.old.items image) n }
    ensures targets { targets pending.new.items
        ≡ gathered (targets pending.old.items) (targets updates.now) }
    ensures sectors_are { pending_sectors.new.sectors.items ≡ targets pending.new.items }
    // It takes no memory
    ensures capacity { vec_capacity pending.new ≡ vec_capacity pending.old }
    ensures named_capacity { vec_capacity pending_sectors.new.sectors
        ≡ vec_capacity pending_sectors.old.sectors }
{
    for update in updates {
        put(pending, pending_sectors, update);
    }
}
