//! The record of calls that a device in memory keeps, and what can be derived from it.

ghost use Rattle.std.specs.Prelude.{◌≡◌, ◌+◌, ◌<◌, ◌≤◌, ℕ, ◌∷◌, length, slice_index_or, option_copied};
ghost use Rattle.disk.specs.Moments.{put, seen};
ghost use Rattle.disk.specs.Calls.{written, written_by, IsLastSync, image_of, history_of_calls};

use crate::{SECTOR, Update};

/// A call that changed what a crash may leave.
#[derive(Drop)]
pub enum Call {
    /// A sector was written.
    Write(Update),
    /// What reads give was fixed.
    Sync,
}

impl Call {
    /// What the call wrote to the sector, if it did.
    pub(crate) fn content_for(&self, sector: u32) -> Option<&[u8; SECTOR]>
        ensures { option_copied result ≡ written sector self.now }
    {
        match self {
            Call::Write(update) if update.target == sector => Some(&update.content),
            _ => None,
        }
    }
}

/// The number of calls up to and including the last sync; 0 if there is none.
pub(crate) fn synced_count(calls: &[Call]) -> usize
    ensures within { result ≤ length calls.now }
    ensures last { IsLastSync calls.now result }
{
    let mut count = 0;
    for (i, call) in calls.iter().enumerate() {
        match call {
            Call::Sync => count = i + 1,
            Call::Write(_) => {}
        }
    }
    count
}

/// How many contents the calls wrote to the sector.
pub(crate) fn count_written(calls: &[Call], sector: u32) -> usize
    ensures { result ≡ length (written_by sector calls.now) }
{
    let mut count = 0;
    for call in calls {
        match call.content_for(sector) {
            Some(_) => count += 1,
            None => {}
        }
    }
    count
}

/// The content of this number: 0 is the fixed one, k the k-th that the calls wrote to the sector.
/// The fixed one if there is no such content.
pub(crate) fn numbered_content(
    fixed: &[u8; SECTOR],
    calls: &[Call],
    sector: u32,
    number: usize,
) -> [u8; SECTOR]
    ensures { result ≡ slice_index_or (fixed.now ∷ written_by sector calls.now) number fixed.now }
{
    if number == 0 {
        return *fixed;
    }
    let mut left = number;
    for call in calls {
        match call.content_for(sector) {
            Some(content) if left == 1 => return *content,
            Some(_) => left -= 1,
            None => {}
        }
    }
    *fixed
}

/// Writes to the rows what the calls wrote, in their order.
pub(crate) fn replay(rows: &mut [[u8; SECTOR]], calls: &[Call])
    ensures { (n : ℕ) → n < length rows.old → image_of rows.new n
        ≡ seen (history_of_calls rows.old calls.now).now n }
{
    for call in calls {
        match call {
            Call::Write(update) => put_row(rows, update),
            Call::Sync => {}
        }
    }
}

/// Puts the update's content in its row, if there is one.
fn put_row(rows: &mut [[u8; SECTOR]], update: &Update)
    ensures { (n : ℕ) → n < length rows.old → image_of rows.new n
        ≡ put (image_of rows.old) update.now n }
{
    let place = update.target as usize;
    if place < rows.len() {
        rows[place] = update.content;
    }
}
