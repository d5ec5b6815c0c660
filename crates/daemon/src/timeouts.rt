//! For how long the system tolerates a peer that sends nothing, or takes nothing.

use libc::net as c;
use std::os::fd::AsRawFd;

/// Seconds of silence before the first probe, and between probes, and how many probes go unanswered
/// before the connection is reset.
const IDLE: i32 = 60;

const BETWEEN: i32 = 10;

const PROBES: i32 = 6;

/// Milliseconds for which a peer may leave what it was sent unacknowledged, or take none of it.
const UNTAKEN: i32 = 120_000;

/// Has the system end a connection whose peer is gone or takes no reply. Connections inherit this
/// from the socket that accepts them. If the system refuses, they are served all the same.
pub fn set_timeouts<S: AsRawFd>(listener: &S) {
    let fd = listener.as_raw_fd();
    let _ = unsafe { c::setsockopt(fd, c::SOL_SOCKET, c::SO_KEEPALIVE, &value_of(1), 4) };
    let _ = unsafe { c::setsockopt(fd, c::IPPROTO_TCP, c::TCP_KEEPIDLE, &value_of(IDLE), 4) };
    let _ = unsafe { c::setsockopt(fd, c::IPPROTO_TCP, c::TCP_KEEPINTVL, &value_of(BETWEEN), 4) };
    let _ = unsafe { c::setsockopt(fd, c::IPPROTO_TCP, c::TCP_KEEPCNT, &value_of(PROBES), 4) };
    let _ = unsafe {
        c::setsockopt(
            fd,
            c::IPPROTO_TCP,
            c::TCP_USER_TIMEOUT,
            &value_of(UNTAKEN),
            4,
        )
    };
}

fn value_of(number: i32) -> [u8; 16] {
    let mut value = [0u8; 16];
    value[..4].copy_from_slice(&number.to_ne_bytes());
    value
}
