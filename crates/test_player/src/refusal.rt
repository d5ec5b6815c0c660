//! Why the server refuses, as rows have it.

use system::Refused;
use test_rows::Refusal;

/// The refusal of this name.
pub fn refusal(refused: Refused) -> Refusal {
    match refused {
        Refused::Open => Refusal::Open,
        Refused::Io => Refusal::Io,
        Refused::Memory => Refusal::Memory,
        Refused::Size => Refusal::Size,
        Refused::Device => Refusal::Device,
        Refused::NotVolume => Refusal::NotVolume,
        Refused::Damaged => Refusal::Damaged,
        Refused::Worn => Refusal::Worn,
        Refused::Full => Refusal::Full,
        Refused::NoConnection => Refusal::NoConnection,
        Refused::Closed => Refusal::Closed,
    }
}
