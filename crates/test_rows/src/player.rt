//! Playing a row: on the server itself, and over sockets.

use crate::difference::{Difference, Differs, placed};
use crate::direct::Direct;
use crate::host::{Host, Unmounted};
use crate::refusal::Refusal;
use crate::rows::{Layout, Row, Step};
use crate::sockets::{Loop, Sockets};
use crate::trials::{TrialDevice, lasting};
use disk::MemDevice;
use std::alloc::Global;

/// The nodes of a volume.
const NODES: u32 = 16;

/// How many connections a row begins with.
pub const CONNECTIONS: usize = 3;

const WHOLE: usize = usize::MAX;

/// The sizes of the pieces of records that meet over sockets.
const PIECES: [usize; 4] = [WHOLE, 64, 7, 1];

/// The place at which a row is played.
#[derive(Clone, Copy, PartialEq, Eq)]
pub enum Place {
    /// On the server itself.
    Server,
    /// Over sockets, each change kept in its turn.
    Sockets,
    /// Over sockets, the changes of all peers kept by one flush.
    Shared,
}

/// What is done if a call is refused because memory ran out.
#[derive(Clone, Copy, PartialEq, Eq)]
pub enum Patience {
    /// It is a difference from the row.
    None,
    /// It is made once more.
    Once,
}

/// How records that meet arrive, and how a refusal is taken.
#[derive(Clone, Copy)]
pub struct Arrival {
    pub patience: Patience,
    /// The number of their order.
    pub order: usize,
    /// How many bytes of one come before some of the next.
    pub piece: usize,
    /// Whether peers share a flush.
    pub shared: bool,
}

/// A server, as a row is played on it.
pub trait Stage: Sized + Drop {
    /// Mounts a new volume, with the connections that a row begins with.
    fn begin(rt: &HostRuntime, device: TrialDevice, arrival: Arrival) -> Result<Self, Difference>;

    fn take(self, rt: &HostRuntime, step: &Step) -> Result<Self, Difference>;

    /// Nothing is left over. Returns how many calls were repeated.
    fn end(self) -> Result<u32, Difference>;
}

/// Plays a row in each order in which records that meet arrive. Returns how many calls were
/// repeated.
pub fn play_row<H: Host, L: Loop>(
    rt: &HostRuntime,
    row: &Row<'_>,
    place: Place,
    patience: Patience,
) -> Result<u32, Differs> {
    let mut again = 0_u32;
    for order in 0..row.orders {
        let arrival = Arrival {
            patience,
            order,
            piece: WHOLE,
            shared: place == Place::Shared,
        };
        let more = match place {
            Place::Server => play_on::<H, Direct<H>>(rt, row, arrival)?,
            Place::Sockets | Place::Shared => play_in_pieces::<H, L>(rt, row, arrival)?,
        };
        again = again.saturating_add(more);
    }
    Ok(again)
}

/// Plays a row over sockets, in pieces of each size if records meet.
fn play_in_pieces<H: Host, L: Loop>(
    rt: &HostRuntime,
    row: &Row<'_>,
    arrival: Arrival,
) -> Result<u32, Differs> {
    let mut again = 0_u32;
    for piece in PIECES {
        let more = play_on::<H, Sockets<L>>(rt, row, Arrival { piece, ..arrival })?;
        again = again.saturating_add(more);
        if row.orders == 1 {
            break;
        }
    }
    Ok(again)
}

fn play_on<H: Host, S: Stage>(
    rt: &HostRuntime,
    row: &Row<'_>,
    arrival: Arrival,
) -> Result<u32, Differs> {
    let mut line = 0;
    let mut stage = placed(line, begin::<H, S>(rt, row.layout, arrival))?;
    for step in row.steps.iter() {
        line = step.line;
        stage = placed(line, stage.take(rt, &step.step))?;
    }
    placed(line, stage.end())
}

fn begin<H: Host, S: Stage>(
    rt: &HostRuntime,
    layout: Layout,
    arrival: Arrival,
) -> Result<S, Difference> {
    let volume = new_volume::<H>(rt.alloc(), layout, arrival.patience)?;
    S::begin(rt, volume, arrival)
}

/// A new volume in memory.
pub fn new_volume<H: Host>(
    alloc: Global,
    layout: Layout,
    patience: Patience,
) -> Result<TrialDevice, Difference> {
    let device = lasting(alloc, MemDevice::new(alloc, layout.sectors())?);
    match format::<H>(alloc, device, layout, patience) {
        Ok(device) => Ok(device),
        Err(unmounted) => Err(Difference::Format(unmounted.fault)),
    }
}

fn format<H: Host>(
    alloc: Global,
    device: TrialDevice,
    layout: Layout,
    patience: Patience,
) -> Result<TrialDevice, Unmounted> {
    match H::format(alloc, device, layout, NODES) {
        Err(unmounted) if comes_again(unmounted.fault, patience) => {
            H::format(alloc, unmounted.device, layout, NODES)
        }
        formatted => formatted,
    }
}

/// Whether a call that was refused with this fault is made once more.
pub fn comes_again(fault: Refusal, patience: Patience) -> bool {
    fault == Refusal::Memory && patience == Patience::Once
}
