//! What all connections work on.

ghost use Rattle.std.specs.Prelude.{◌≡◌, false};
ghost use Rattle.fs.specs.Views.{fs_of};
ghost use Rattle.session.specs.Views.{table_of};
ghost use Rattle.compound.specs.States.{Agrees};

use disk::Device;
use fs::Fs;
use opens::Opens;
use session::Table;
use std::alloc::Global;

/// What a turn works on: the file system, the clients and sessions of this run, and what these have
/// open, at the moment of the turn. The table has the volume's seats, unless the volume is down.
#[derive(Drop)]
pub struct Engine<'a, D: Device> {
    pub(crate) alloc: Global,
    pub(crate) fs: &'a mut Fs<D>,
    pub(crate) table: &'a mut Table,
    pub(crate) opens: &'a mut Opens,
    /// In nanoseconds since 1970.
    pub(crate) moment: u64,
    ghost agrees: { D.keeps_word → (fs_of fs.now).volume.is_down ≡ false
        → Agrees (fs_of fs.now) (table_of table.now) },
}
