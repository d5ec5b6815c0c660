//! The laws of superblocks and of the parts of a volume: each is the contract of a function that
//! does nothing.

ghost use Rattle.geometry.specs.Places.{FitsIsTested, PartsLieEndToEnd};
ghost use Rattle.geometry.specs.Reading.{OneEncoding, SuperblocksReadBack};

/// Reading, which takes any sector, gives back the superblock and the restart count that were encoded
/// in it; so two different superblocks have different encodings.
#[tactic(auto, using(crate::proofs::ReadBack::reads_back, crate::proofs::ReadBack::one_encoding))]
pub fn reads_back()
    ensures back { SuperblocksReadBack }
    ensures one { OneEncoding }
{}

/// The parts of a volume do not overlap, and cover it.
#[tactic(auto, using(crate::proofs::PlaceLaws::end_to_end))]
pub fn end_to_end()
    ensures { PartsLieEndToEnd }
{}

/// Testing a geometry is exact.
#[tactic(auto, using(crate::proofs::PlaceLaws::fits_is_tested))]
pub fn fits_is_tested()
    ensures { FitsIsTested }
{}
