//! What an operation reads.

ghost use Rattle.fs.specs.Views.{fs_of};
ghost use Rattle.compound.specs.States.{CanServe};
ghost use Rattle.compound.specs.Views.{in_progress_of};

use crate::running::Running;
use disk::Device;
use fs::Fs;

/// A COMPOUND and the file system, which is up, in the run in which the COMPOUND began.
#[derive(Drop)]
pub struct Reading<'a, 'b, D: Device> {
    pub(crate) running: &'a Running<'b>,
    pub(crate) fs: &'a Fs<D>,
    ghost ready: { CanServe (fs_of fs.now) (in_progress_of running.now) },
}
