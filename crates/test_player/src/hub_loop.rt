//! The loop of rows over sockets: that of the program, over a stopped clock.

use crate::device::{RowDevice, Uncounted};
use crate::host::holding_of;
use crate::refusal::refusal;
use event_loop::{Counted, Door, Hub, Keeping, Lines, Pace, Settings};
use std::alloc::Global;
use std::io;
use std::io::Sink;
use std::net::{Ipv4Addr, SocketAddr};
use std::time::{Clock, Duration};
use system::Refused;
use test_rows::{Choices, Difference, Loop, Refusal, TrialDevice};

/// The moment of each turn, as of those on the server itself.
const MOMENT_NANOS: u64 = 5;

/// A clock that is stopped.
#[derive(Drop)]
struct Still;

impl Clock for Still {
    fn monotonic(&self) -> io::Result<Duration> {
        Ok(Duration::from_nanos(MOMENT_NANOS))
    }

    fn since_1970(&self) -> io::Result<Duration> {
        Ok(Duration::from_nanos(MOMENT_NANOS))
    }
}

/// A loop over a server's peers.
#[derive(Drop)]
pub struct HubLoop {
    hub: Hub<RowDevice, Counted>,
    address: SocketAddr,
    lines: Lines<Sink>,
    clock: (Still, Global),
}

impl Loop for HubLoop {
    fn begin(
        rt: &HostRuntime,
        device: TrialDevice,
        choices: Choices,
    ) -> Result<HubLoop, Difference> {
        match begin(rt, device, choices) {
            Ok((hub, address)) => Ok(HubLoop {
                hub,
                address,
                lines: Lines::nowhere(rt.alloc()),
                clock: (Still, rt.alloc()),
            }),
            Err(refused) => Err(Difference::Loop(refusal(refused))),
        }
    }

    fn into_device(self) -> TrialDevice {
        self.hub.into_device().inner
    }

    fn address(&self) -> SocketAddr {
        self.address
    }

    fn go_on(&mut self, timeout: Duration) -> Result<bool, Refusal> {
        match self.hub.go_on(&self.clock, Some(timeout), &mut self.lines) {
            Ok(pace) => Ok(pace == Pace::Goes),
            Err(refused) => Err(refusal(refused)),
        }
    }
}

/// A loop over a device's volume, and the address at which it listens.
fn begin(
    rt: &HostRuntime,
    device: TrialDevice,
    choices: Choices,
) -> Result<(Hub<RowDevice, Counted>, SocketAddr), Refused> {
    let door = Door::listen(rt, SocketAddr::from((Ipv4Addr::LOCALHOST, 0)))?;
    let address = door.address()?;
    let mut settings = Settings::standard(rt.alloc());
    settings.holding = holding_of(choices);
    settings.yields_when_full = choices.yields;
    settings.keeping = if choices.shared {
        Keeping::Later
    } else {
        Keeping::AtOnce
    };
    let hub = Hub::new(rt, Uncounted { inner: device }, door, settings)?;
    Ok((hub, address))
}
