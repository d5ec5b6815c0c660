//! What lands in a crash, sector by sector.

ghost use Rattle.std.specs.Prelude.{◌≡◌};
ghost use Rattle.disk.specs.Landing.{number_for};

/// A sector with contents that no sync has fixed yet.
#[derive(Clone, Copy, Debug, PartialEq, Eq)]
pub struct Unsynced {
    /// The number of the sector.
    pub sector: u32,
    /// How many contents were written to it since the last sync; at least one.
    pub contents: usize,
}

/// Which content of a sector landed.
#[derive(Clone, Copy, Debug, PartialEq, Eq)]
pub struct Landed {
    /// The number of the sector.
    pub sector: u32,
    /// 0 for the fixed content, k for the k-th of those written since the last sync.
    pub content: usize,
}

/// The number of the content that the list chooses for the sector.
pub(crate) fn number_for_sector(landing: &[Landed], sector: u32) -> usize
    ensures { result ≡ number_for landing.now sector }
{
    for landed in landing {
        if landed.sector == sector {
            return landed.content;
        }
    }
    0
}
