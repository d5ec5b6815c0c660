//! Reporting to a service manager that the server is ready (sd_notify(3)).

use libc::net as c;
use os::FromRawFd;
use std::env;
use std::env::Env;
use std::net::Net;
use std::os::fd::{AsRawFd, OwnedFd};

/// The environment names the service manager's socket by this variable.
const SOCKET: &str = "NOTIFY_SOCKET";

const READY: &[u8] = b"READY=1";

/// `sun_family` and `sun_path` of a `sockaddr_un`, in bytes.
const FAMILY_BYTES: usize = 2;

const PATH_BYTES: usize = 108;

/// Reports to the service manager, if the environment names one, that the server is ready. If that
/// fails, the manager gives up on the service in time, and says so itself.
pub fn report_ready<R: Net + Env + AllocGlobal>(rt: &R) {
    let Ok(path) = env::var(rt, SOCKET) else {
        return;
    };
    let mut address = [0; c::_SS_SIZE];
    if let Some(length) = put_address(&mut address, path.as_bytes()) {
        send(&address, length);
    }
}

/// Makes this the address of a path. Returns how many of its bytes count; None if the path is too
/// long. A path that begins with `@` is of the abstract namespace, whose names begin with NUL
/// (unix(7)).
fn put_address(address: &mut [u8; c::_SS_SIZE], path: &[u8]) -> Option<u32> {
    if path.is_empty() || path.len() >= PATH_BYTES {
        return None;
    }
    address[..FAMILY_BYTES].copy_from_slice(&(c::AF_UNIX as u16).to_ne_bytes());
    address[FAMILY_BYTES..FAMILY_BYTES + path.len()].copy_from_slice(path);
    if path[0] == b'@' {
        address[FAMILY_BYTES] = 0;
    }
    Some((FAMILY_BYTES + path.len()) as u32)
}

fn send(address: &[u8; c::_SS_SIZE], length: u32) {
    if length > c::_SS_SIZE as u32 {
        return;
    }
    let fd = unsafe { c::socket(c::AF_UNIX, c::SOCK_DGRAM | c::SOCK_CLOEXEC, 0) };
    if fd < 0 {
        return;
    }
    // Nothing else uses the descriptor, and it is closed here.
    let socket = unsafe { OwnedFd::from_raw_fd(fd) };
    let _ = unsafe { c::sendto(socket.as_raw_fd(), READY, c::MSG_NOSIGNAL, address, length) };
}
