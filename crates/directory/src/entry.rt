//! A name in a directory.

ghost use Rattle.std.specs.Prelude.{◌≡◌, ◌<◌, ◌^◌, IfOk};

use std::alloc::{AllocError, Global};
use std::rc::RcSlice;

/// A name, with its stamp and its node.
#[derive(Drop)]
pub struct Entry {
    /// 1 to 255 bytes, which copies of the entry share: a change of a record copies its block.
    pub name: RcSlice<u8>,
    /// The stamp of the change that put the name, its cookie.
    pub stamp: u64,
    /// The number of the node that it leads to.
    pub number: u64,
    // Their range, which a proof knows without a read.
    ghost stamp_fits: { stamp < 2 ^ 64 },
    ghost number_fits: { number < 2 ^ 64 },
}

impl Entry {
    ghost use Rattle.directory.specs.Records.{record_of, record_from};

    /// An entry of this name's bytes, whatever holds them.
    pub(crate) fn new(
        alloc: Global,
        name: &[u8],
        stamp: u64,
        number: u64,
    ) -> Result<Entry, AllocError>
        ensures { IfOk result
            (λ entry. record_of entry ≡ record_from stamp name.now number) }
    {
        let name = RcSlice::from_slice(alloc, name)?;
        Ok(Entry {
            name,
            stamp,
            number,
        })
    }

    /// A copy of the entry, which shares the name's bytes.
    pub fn try_clone(&self) -> Result<Entry, AllocError>
        ensures { IfOk result (λ entry. record_of entry ≡ record_of self.now) }
    {
        Ok(Entry {
            name: self.name.clone()?,
            stamp: self.stamp,
            number: self.number,
        })
    }
}
