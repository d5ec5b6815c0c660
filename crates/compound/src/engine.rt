//! What the operations of a turn work on.

use disk::Device;
use fs::Fs;
use opens::Opens;
use session::Table;

/// The file system, the clients and sessions of this run, and what these have open, at the moment
/// of the turn.
#[derive(Drop)]
pub struct Engine<'a, D: Device> {
    pub(crate) fs: &'a mut Fs<D>,
    pub(crate) table: &'a mut Table,
    pub(crate) opens: &'a mut Opens,
    /// In nanoseconds since 1970.
    pub(crate) moment: u64,
}
