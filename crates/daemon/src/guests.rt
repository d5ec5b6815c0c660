//! Who may connect.

use std::alloc::Global;
use std::net::{IpAddr, SocketAddr};

/// Ports below this one are those that a system gives only to its administrator's programs.
const FIRST_COMMON_PORT: u16 = 1024;

const BITS_OF_V4: u32 = 32;

const BITS_OF_V6: u32 = 128;

/// By how many bits an IPv4-mapped IPv6 address is longer than the IPv4 address.
const MAPPED_BITS: u32 = BITS_OF_V6 - BITS_OF_V4;

/// Whose connections are served.
#[derive(Drop)]
pub struct Guests {
    /// Those of these networks; anybody's if there is none.
    pub networks: Vec<Network>,
    /// Only those from ports below 1024.
    pub privileged_ports: bool,
}

/// The addresses that begin with the same bits. An IPv4-mapped IPv6 address is the IPv4 address.
#[derive(Clone, Copy, PartialEq, Eq)]
pub struct Network {
    address: IpAddr,
    bits: u32,
}

impl Guests {
    /// Anybody, from any port.
    pub fn anybody(alloc: Global) -> Guests {
        Guests {
            networks: Vec::new(alloc),
            privileged_ports: false,
        }
    }

    /// Whether a connection from there is served.
    pub fn admit(&self, from: SocketAddr) -> bool {
        let has_port = !self.privileged_ports || from.port() < FIRST_COMMON_PORT;
        has_port && (self.networks.is_empty() || self.has(from.ip()))
    }

    fn has(&self, address: IpAddr) -> bool {
        self.networks
            .iter()
            .any(|network| network.contains(address))
    }
}

impl Network {
    /// The network of an address, as `192.0.2.7`, or of its first bits, as `10.0.0.0/8` and
    /// `2001:db8::/32`; None if the text has neither form.
    pub fn parse(text: &str) -> Option<Network> {
        match text.split_once('/') {
            Some((address, bits)) => {
                Network::of(address.parse::<IpAddr>().ok()?, bits.parse::<u32>().ok()?)
            }
            None => {
                let address = text.parse::<IpAddr>().ok()?;
                Network::of(address, length_of(address))
            }
        }
    }

    /// The network of the address's first bits.
    fn of(address: IpAddr, bits: u32) -> Option<Network> {
        if length_of(address) < bits {
            return None;
        }
        let canonical = address.to_canonical();
        let mapped = if length_of(canonical) < length_of(address) {
            MAPPED_BITS
        } else {
            0
        };
        Some(Network {
            address: canonical,
            bits: bits.checked_sub(mapped)?,
        })
    }

    /// Whether the address begins with the network's bits.
    pub fn contains(&self, address: IpAddr) -> bool {
        match (self.address, address.to_canonical()) {
            (IpAddr::V4(ours), IpAddr::V4(theirs)) => agree(
                u128::from(ours.to_bits()),
                u128::from(theirs.to_bits()),
                BITS_OF_V4.saturating_sub(self.bits),
            ),
            (IpAddr::V6(ours), IpAddr::V6(theirs)) => agree(
                ours.to_bits(),
                theirs.to_bits(),
                BITS_OF_V6.saturating_sub(self.bits),
            ),
            _ => false,
        }
    }
}

/// How many bits an address has.
fn length_of(address: IpAddr) -> u32 {
    if address.is_ipv4() {
        BITS_OF_V4
    } else {
        BITS_OF_V6
    }
}

/// Whether two addresses are the same except for the last `last` bits.
fn agree(one: u128, other: u128, last: u32) -> bool {
    match (one ^ other).checked_shr(last) {
        Some(prefix) => prefix == 0,
        // All of their bits may differ.
        None => true,
    }
}
