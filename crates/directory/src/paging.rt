//! The law of the pages of a listing: the contract of a function that does nothing.

ghost use Rattle.directory.specs.Listing.{EveryPaging};

/// Over the calls of a listing, with any changes between them, no entry is shown twice, and one
/// that is there at every call is shown once.
pub fn every_paging()
    ensures { EveryPaging }
{}
