//! Where connections come from, as far as places are counted.

use std::net::IpAddr;

/// The bits of an IPv6 address that one machine may choose freely.
const HOST_BITS: u32 = 64;

/// An IPv4 address, or the first 64 bits of an IPv6 address: one machine may have all the others.
#[derive(Clone, Copy, PartialEq, Eq)]
pub enum Origin {
    V4(u32),
    V6(u128),
}

impl Origin {
    /// The origin of a connection from this address.
    pub fn of(address: IpAddr) -> Origin {
        match address.to_canonical() {
            IpAddr::V4(address) => Origin::V4(address.to_bits()),
            IpAddr::V6(address) => Origin::V6(address.to_bits() >> HOST_BITS),
        }
    }
}
