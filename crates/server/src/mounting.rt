//! Making a volume, and serving one.

use crate::server::{MAX_CONNECTIONS, Server};
use disk::Device;
use fs::{FormatFault, Fs, MountFault, Mounted, Unmounted};
use opens::Opens;
use session::{Settings, Table};
use slab::Slab;
use std::alloc::Global;
use std::num::NonZeroUsize;

#[tactic(auto, unfolding(crate::specs::Views::world_of, crate::specs::Views::volume_of, crate::specs::Views::server_failures, crate::specs::Connections::connections_of))]
impl<D: Device> Server<D> {
    ghost use Rattle.std.specs.Prelude.{IfOk, IfErr};
    ghost use Rattle.fs.specs.Formatting.{Formats};
    ghost use Rattle.volume.specs.MountAnswers.{MountGivesBack};
    ghost use Rattle.session.specs.Views.{settings_of};
    ghost use Rattle.server.specs.Headline.{BeginsServing};
    ghost use Rattle.server.specs.Views.{BeginsEmpty, MountsServer};

    /// Makes the device a new volume with this many nodes and an empty root: `Fs::format`.
    pub fn format(alloc: Global, device: &mut D, nodes: u32) -> Result<(), FormatFault>
        ensures { Formats D.keeps_word D.size D.failed D.history nodes
            device.old device.new result }
    {
        Fs::format(alloc, device, nodes)
    }

    /// Serves the volume on this device, without a client or a connection yet: `Fs::mount_seated`.
    /// Every image that a crash leaves from then on has the new restart count. The replies that the
    /// volume's seats hold are given again whatever the settings say.
    ///
    /// # Errors
    /// The device comes back with the reason. NotVolume, then Worn, by the first sector, and then
    /// nothing was written; then Damaged exactly if there is no tree; Device if the device failed,
    /// and Memory.
    pub fn mount(alloc: Global, device: D, settings: Settings) -> Result<Server<D>, Unmounted<D>>
        ensures world { IfOk result (BeginsEmpty (settings_of settings)) }
        ensures serves { IfOk result (MountsServer device) }
        ensures begins { D.keeps_word → IfOk result (BeginsServing (settings_of settings)) }
        ensures gives_back { IfErr result (MountGivesBack D.keeps_word D.size D.failed D.history
            device) }
    {
        Server::mount_with(alloc, device, None, settings)
    }

    /// The same, with a journal that keeps `cached` sectors in memory. Many connections at once
    /// work on more sectors than one does.
    ///
    /// # Errors
    /// As `mount`.
    pub fn mount_cached(
        alloc: Global,
        device: D,
        cached: NonZeroUsize,
        settings: Settings,
    ) -> Result<Server<D>, Unmounted<D>>
        ensures world { IfOk result (BeginsEmpty (settings_of settings)) }
        ensures serves { IfOk result (MountsServer device) }
        ensures begins { D.keeps_word → IfOk result (BeginsServing (settings_of settings)) }
        ensures gives_back { IfErr result (MountGivesBack D.keeps_word D.size D.failed D.history
            device) }
    {
        Server::mount_with(alloc, device, Some(cached), settings)
    }

    /// Mounts with `cached` sectors in memory, or with as many as a journal keeps by default.
    fn mount_with(
        alloc: Global,
        device: D,
        cached: Option<NonZeroUsize>,
        settings: Settings,
    ) -> Result<Server<D>, Unmounted<D>>
        ensures world { IfOk result (BeginsEmpty (settings_of settings)) }
        ensures serves { IfOk result (MountsServer device) }
        ensures begins { D.keeps_word → IfOk result (BeginsServing (settings_of settings)) }
        ensures gives_back { IfErr result (MountGivesBack D.keeps_word D.size D.failed D.history
            device) }
    {
        let connections = match Slab::with_capacity(alloc, MAX_CONNECTIONS) {
            Ok(connections) => connections,
            Err(_) => {
                return Err(Unmounted {
                    fault: MountFault::Memory,
                    device,
                });
            }
        };
        let Mounted { fs, seats } = Fs::mount_seated(alloc, device, cached)?;
        let table = Table::load(alloc, fs.restart_count(), settings, seats);
        let opens = Opens::new(alloc);
        Ok(Server {
            alloc,
            fs,
            table,
            opens,
            connections,
        })
    }
}
