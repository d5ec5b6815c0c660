/// Bytes of a sector.
pub const SECTOR: usize = sector::SIZE;

/// A new content for one sector.
#[derive(Drop)]
pub struct Update {
    /// The number of the sector.
    pub target: u32,
    /// All its bytes.
    pub content: [u8; SECTOR],
}
