//! The server of rows. Each of its calls is here once, in a function of its own: a call brings all
//! that it promises into the proof of its caller.

use crate::device::{RowDevice, Uncounted};
use crate::refusal::refusal;
use disk::Device;
use server::{Holding, MountFault, Server, Settings, Unmounted};
use std::alloc::{AllocError, Global};
use system::{LargeSize, Refused, format_large_device, standard_settings};
use test_rows::{Choices, Host, Layout, Refusal, TrialDevice, Turn};

/// The sectors of the log of a volume of version 3.
const LOG: u32 = 288;

/// The slots of its seats.
const SLOTS: u16 = 2;

/// The identity of such a volume.
const IDENTITY: [u8; 16] = *b"0123456789abcdef";

/// The moment of every turn.
const NOW: u64 = 5;

/// A server of the volume on a device.
#[derive(Drop)]
pub struct Mounted {
    server: Server<RowDevice>,
}

impl Host for Mounted {
    fn format(
        alloc: Global,
        device: TrialDevice,
        layout: Layout,
        nodes: u32,
    ) -> Result<TrialDevice, test_rows::Unmounted> {
        let mut device = Uncounted { inner: device };
        let formatted = match layout {
            Layout::Small => format_small(alloc, &mut device, nodes),
            Layout::Large => format_large(alloc, &mut device, nodes),
        };
        match formatted {
            Ok(()) => Ok(device.inner),
            Err(fault) => Err(test_rows::Unmounted {
                fault: refusal(fault),
                device: device.inner,
            }),
        }
    }

    fn mount(
        alloc: Global,
        device: TrialDevice,
        choices: Choices,
    ) -> Result<Mounted, test_rows::Unmounted> {
        match mount(alloc, device, choices) {
            Ok(server) => Ok(Mounted { server }),
            Err(Unmounted { fault, device }) => Err(test_rows::Unmounted {
                fault: refusal(fault.into()),
                device: device.inner,
            }),
        }
    }

    fn into_device(self) -> TrialDevice {
        self.server.into_device().inner
    }

    fn run(&self) -> u32 {
        self.server.restart_count()
    }

    fn connect(&mut self) -> Result<usize, Refusal> {
        match self.server.connect() {
            Ok(connection) => Ok(connection),
            Err(fault) => Err(refusal(fault.into())),
        }
    }

    fn hang_up(&mut self, connection: usize) -> Result<(), Refusal> {
        match self.server.hangup(connection, NOW) {
            Ok(()) => Ok(()),
            Err(fault) => Err(refusal(fault.into())),
        }
    }

    fn feed(&mut self, connection: usize, piece: &[u8]) -> Result<usize, Refusal> {
        match self.server.feed(connection, piece) {
            Ok(taken) => Ok(taken),
            Err(fault) => Err(refusal(fault.into())),
        }
    }

    fn turn(&mut self, connection: usize) -> Result<Turn, Refusal> {
        match self.server.turn(connection, NOW) {
            Ok(server::Turn::Idle) => Ok(Turn::Idle),
            Ok(server::Turn::Ran) => Ok(Turn::Ran),
            Ok(server::Turn::Answered) => Ok(Turn::Answered),
            Err(fault) => Err(refusal(fault.into())),
        }
    }

    fn turn_unflushed(&mut self, connection: usize) -> Result<Turn, Refusal> {
        match self.server.turn_unflushed(connection, NOW) {
            Ok(server::Turn::Idle) => Ok(Turn::Idle),
            Ok(server::Turn::Ran) => Ok(Turn::Ran),
            Ok(server::Turn::Answered) => Ok(Turn::Answered),
            Err(fault) => Err(refusal(fault.into())),
        }
    }

    fn flush(&mut self) -> Result<(), Refusal> {
        match self.server.flush() {
            Ok(()) => Ok(()),
            Err(fault) => Err(refusal(fault.into())),
        }
    }

    fn take_reply(&mut self, connection: usize) -> Result<Option<Vec<u8>>, Refusal> {
        match self.server.take_output(connection) {
            Ok(reply) => Ok(reply),
            Err(fault) => Err(refusal(fault.into())),
        }
    }
}

fn format_small(alloc: Global, device: &mut RowDevice, nodes: u32) -> Result<(), Refused> {
    Ok(Server::format(alloc, device, nodes)?)
}

/// With the shortest log.
fn format_large(alloc: Global, device: &mut RowDevice, nodes: u32) -> Result<(), Refused> {
    let size = LargeSize {
        log: LOG,
        nodes,
        slots: SLOTS,
        ..LargeSize::of_sectors(device.sectors())
    };
    format_large_device(alloc, device, size, IDENTITY)
}

/// Mounts a device under the standard name.
fn mount(
    alloc: Global,
    device: TrialDevice,
    choices: Choices,
) -> Result<Server<RowDevice>, Unmounted<RowDevice>> {
    let device = Uncounted { inner: device };
    match settings_of(alloc, choices) {
        Ok(settings) => Server::mount(alloc, device, settings),
        Err(_) => Err(Unmounted {
            fault: MountFault::Memory,
            device,
        }),
    }
}

fn settings_of(alloc: Global, choices: Choices) -> Result<Settings, AllocError> {
    let mut settings = standard_settings(alloc, holding_of(choices))?;
    settings.yields_when_full = choices.yields;
    Ok(settings)
}

/// Which replies are held.
pub fn holding_of(choices: Choices) -> Holding {
    if !choices.persistent {
        Holding::Nothing
    } else if choices.changes {
        Holding::Changes
    } else {
        Holding::All
    }
}
