//! Serving a volume.

use crate::fault::Fault;
use crate::name::default_name;
use crate::request::Serving;
use crate::version::RELEASE;
use disk::{Device, FileDevice};
use event_loop::{Admission, Door, Keeping, Settings, serve};
use std::net::SocketAddr;
use system::{Refused, identity_of, open_volume, served_version};

/// Serves the volume in a file. It is locked, and the socket there, before the mount raises the
/// restart count.
pub fn serve_volume(rt: &HostRuntime, serving: Serving<'_>) -> Result<(), Fault> {
    let mut device = open_volume(rt, serving.file)?;
    let version = served_version(&mut device)?;
    let name = name_of(rt, &serving, identity_of(rt.alloc(), version)?)?;
    let door = door_of(rt, serving.address)?;
    let title = title_of(rt, serving.file, version.number(), device.sectors())?;
    let settings = settings_of(serving, name);
    let mut out = rt.stdout();
    match serve(
        rt,
        &mut device,
        door,
        settings,
        &title,
        &mut out,
        rt.stderr(),
    ) {
        Err(Refused::Device) => Err(device_fault(&device)),
        outcome => Ok(outcome?),
    }
}

/// Why the device failed: which of its calls, and what the system said of it.
fn device_fault(device: &FileDevice) -> Fault {
    match device.last_failure() {
        Some(failure) => Fault::Device(failure.into()),
        None => Fault::Refused(Refused::Device),
    }
}

/// The name that is given, or else the identity of the volume, or else the name by default.
fn name_of(
    rt: &HostRuntime,
    serving: &Serving<'_>,
    identity: Option<String>,
) -> Result<Vec<u8>, Fault> {
    match (serving.name, identity) {
        (Some(name), _) => Ok(Vec::from_slice(rt.alloc(), name.as_bytes())?),
        (None, Some(identity)) => Ok(identity.into_bytes()),
        (None, None) => default_name(rt, serving.file),
    }
}

fn door_of(rt: &HostRuntime, address: Option<SocketAddr>) -> Result<Door, Refused> {
    match address {
        Some(address) => Ok(Door::listen(rt, address)?),
        None => Ok(Door::handed_over(rt, rt.process())?),
    }
}

/// What is served, and by which release.
fn title_of(rt: &HostRuntime, file: &str, layout: u32, sectors: u32) -> Result<String, Refused> {
    Ok(format!(in rt.alloc(); "nfs41d {RELEASE}, {file}, layout {layout}, {sectors} sectors")?)
}

fn settings_of(serving: Serving<'_>, name: Vec<u8>) -> Settings {
    Settings {
        forget_after: serving.forget_after,
        name,
        keeping: Keeping::Later,
        holding: serving.holding,
        free_seats: serving.free_seats,
        yields_when_full: true,
        admission: Admission::Together,
        guests: serving.guests,
        quiet: serving.quiet,
        metrics: serving.metrics,
    }
}
