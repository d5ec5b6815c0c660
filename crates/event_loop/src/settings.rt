//! How a volume is served.

ghost use Rattle.std.specs.Prelude.{◌≡◌, IfOk};
ghost use Rattle.session.specs.Views.{name_of, settings_of};
ghost use Rattle.event_loop.specs.Settled.{name_served, settings_served};

use daemon::{Admission, Guests};
use peer::Keeping;
use server::{Holding, NameFault, ServerName};
use std::alloc::Global;
use std::net::SocketAddr;
use std::time::Duration;
use system::Refused;

/// How a volume is served.
#[derive(Drop)]
pub struct Settings {
    /// After how long without a peer a new run begins, without clients; None: never.
    pub forget_after: Option<Duration>,
    /// The name by which clients know this server from others; the standard one if it is empty.
    pub name: Vec<u8>,
    /// When the changes of a turn are kept on the device.
    pub keeping: Keeping,
    /// Which replies outlive a crash, and so whether sessions may be persistent. A held reply waits
    /// for a flush.
    pub holding: Holding,
    /// Whether the seats that the last runs have left are freed at the start: their clients get new
    /// sessions.
    pub free_seats: bool,
    /// Whether full tables give up unconfirmed records and dead seats for whoever asks.
    pub yields_when_full: bool,
    /// Which connections are accepted, and when.
    pub admission: Admission,
    /// Whose connections are served.
    pub guests: Guests,
    /// Whether only failures are printed.
    pub quiet: bool,
    /// The address at which counts are served; None: none are.
    pub metrics: Option<SocketAddr>,
}

impl Settings {
    /// Those of a server of the standard name that serves anybody and prints nothing: changes are
    /// kept in their turn, all replies on persistent sessions are held, and full tables give up
    /// nothing.
    pub fn standard(alloc: Global) -> Settings {
        Settings {
            forget_after: None,
            name: Vec::new(alloc),
            keeping: Keeping::AtOnce,
            holding: Holding::All,
            free_seats: false,
            yields_when_full: false,
            admission: Admission::Together,
            guests: Guests::anybody(alloc),
            quiet: true,
            metrics: None,
        }
    }

    /// Those of the server.
    pub fn of_server(&self, alloc: Global) -> Result<server::Settings, Refused>
        ensures { IfOk result (λ served. settings_of served ≡ settings_served self.now) }
    {
        Ok(server::Settings {
            name: name_of(alloc, &self.name)?,
            holding: self.holding,
            yields_when_full: self.yields_when_full,
        })
    }
}

fn name_of(alloc: Global, name: &[u8]) -> Result<ServerName, Refused>
    ensures { IfOk result (λ served. name_of served ≡ name_served name.now) }
{
    if name.is_empty() {
        return Ok(ServerName::standard(alloc)?);
    }
    match ServerName::new(alloc, name) {
        Ok(name) => Ok(name),
        Err(NameFault::TooLong) => Err(Refused::Size),
        Err(NameFault::Memory) => Err(Refused::Memory),
    }
}
