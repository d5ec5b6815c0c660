//! Entries of a tree.

ghost use Rattle.std.specs.Prelude.{◌≡◌, ◌≤◌, ◌↔◌, IsTrue};
ghost use Rattle.extent_tree.specs.Entries.{IsEntry, AreEntries};
ghost use Rattle.extent_tree.specs.Tree.{is_hole, is_index};

use crate::spans::{MAX_DEPTH, span};

/// How many entries an inode has.
pub const ROOT_ENTRIES: usize = 256;

/// How many entries an index sector has.
pub const INDEX_ENTRIES: usize = 512;

/// An entry, which names the sectors of the blocks that it spans: 512 to the power of its depth.
#[derive(Clone, Copy, Debug, PartialEq, Eq)]
pub struct Entry {
    /// The sector of the first block, or the index sector of the span; 0 if the span is a hole.
    pub sector: u32,
    /// How many blocks, from the first of the span on, are in consecutive sectors; 0 if the span is
    /// a hole or has an index sector.
    pub length: u32,
}

impl Entry {
    /// A span without a sector.
    pub const HOLE: Entry = Entry {
        sector: 0,
        length: 0,
    };

    /// Whether the span is a hole.
    pub fn is_hole(self) -> bool
        ensures { result ≡ is_hole self }
    {
        self.sector == 0 && self.length == 0
    }

    /// Whether the span has an index sector.
    pub fn is_index(self) -> bool
        ensures { result ≡ is_index self }
    {
        self.sector > 0 && self.length == 0
    }
}

/// Whether this is an entry at this depth, if the file has `count` of the blocks in its span.
pub fn is_entry(entry: Entry, depth: u8, count: u32) -> bool
    requires { depth ≤ MAX_DEPTH }
    ensures { IsTrue result ↔ IsEntry depth count entry }
{
    if entry.sector == 0 {
        return entry.length == 0;
    }
    if entry.length == 0 {
        return depth > 0 && count > 0;
    }
    entry.length <= span(depth)
        && entry.length <= count
        && u64::from(entry.sector) + u64::from(entry.length) <= 1 << 32
}

/// Whether these are consecutive entries at this depth, if the file has `count` blocks from the
/// first of their spans on.
pub fn are_entries(entries: &[Entry], depth: u8, count: u32) -> bool
    requires { depth ≤ MAX_DEPTH }
    ensures { IsTrue result ↔ AreEntries depth count entries.now }
{
    let span = span(depth);
    let mut left = count;
    for entry in entries {
        if !is_entry(*entry, depth, left.min(span)) {
            return false;
        }
        left = left.saturating_sub(span);
    }
    true
}
