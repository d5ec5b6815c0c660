//! What a row needs of a server.

use crate::answer::Turn;
use crate::refusal::Refusal;
use crate::rows::{Choices, Layout};
use crate::trials::TrialDevice;
use std::alloc::Global;

/// A server of the volume on a device.
pub trait Host: Sized + Drop {
    /// Makes a device a new volume of this layout with this number of nodes. It comes back if that is
    /// refused.
    fn format(
        alloc: Global,
        device: TrialDevice,
        layout: Layout,
        nodes: u32,
    ) -> Result<TrialDevice, Unmounted>;

    /// Mounts a device. It comes back if that is refused.
    fn mount(alloc: Global, device: TrialDevice, choices: Choices) -> Result<Self, Unmounted>;

    /// Its device, as it is now.
    fn into_device(self) -> TrialDevice;

    /// The number of this mount of the volume.
    fn run(&self) -> u32;

    /// Makes a new connection, and returns its number.
    fn connect(&mut self) -> Result<usize, Refusal>;

    /// Hangs a connection up.
    fn hang_up(&mut self, connection: usize) -> Result<(), Refusal>;

    /// Feeds a connection, and returns how many bytes it took.
    fn feed(&mut self, connection: usize, piece: &[u8]) -> Result<usize, Refusal>;

    /// Gives a connection one turn.
    fn turn(&mut self, connection: usize) -> Result<Turn, Refusal>;

    /// Gives a connection one turn, whose change may wait for a flush.
    fn turn_unflushed(&mut self, connection: usize) -> Result<Turn, Refusal>;

    /// Flushes what waits.
    fn flush(&mut self) -> Result<(), Refusal>;

    /// Takes the next reply of a connection.
    fn take_reply(&mut self, connection: usize) -> Result<Option<Vec<u8>>, Refusal>;
}

/// Why a device is not mounted, or not formatted, and the device.
#[derive(Drop)]
pub struct Unmounted {
    pub fault: Refusal,
    pub device: TrialDevice,
}
