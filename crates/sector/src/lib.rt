//! Fields of a sector of 4,096 bytes, numbers big-endian.
#![tactic(auto)]

ghost use Rattle.std.specs.Prelude.{◌≡◌, ◌≤◌, ◌+◌, length, replicate, drop};
ghost use Rattle.std.specs.Int.{w16, w32, w64, to_be_bytes, from_be_bytes};
ghost use Rattle.sector.specs.Placed.{Places, IsNumberAt};

use byteorder::{BigEndian, ByteOrder};

/// The size of a sector in bytes.
pub const SIZE: usize = 4096;

/// Writes a two-byte number at offset `at`.
pub fn put_u16(sector: &mut [u8; SIZE], at: usize, number: u16)
    requires { at + 2 ≤ SIZE }
    ensures { Places sector.old sector.new at (to_be_bytes w16 number) }
{
    let mut bytes = [0; 2];
    BigEndian::write_u16(&mut bytes, number);
    put_bytes(sector, at, &bytes);
}

/// Writes a four-byte number at offset `at`.
pub fn put_u32(sector: &mut [u8; SIZE], at: usize, number: u32)
    requires { at + 4 ≤ SIZE }
    ensures { Places sector.old sector.new at (to_be_bytes w32 number) }
{
    let mut bytes = [0; 4];
    BigEndian::write_u32(&mut bytes, number);
    put_bytes(sector, at, &bytes);
}

/// Writes an eight-byte number at offset `at`.
pub fn put_u64(sector: &mut [u8; SIZE], at: usize, number: u64)
    requires { at + 8 ≤ SIZE }
    ensures { Places sector.old sector.new at (to_be_bytes w64 number) }
{
    let mut bytes = [0; 8];
    BigEndian::write_u64(&mut bytes, number);
    put_bytes(sector, at, &bytes);
}

/// Writes bytes at offset `at`.
pub fn put_bytes(sector: &mut [u8; SIZE], at: usize, bytes: &[u8])
    requires { at + length bytes.now ≤ SIZE }
    ensures { Places sector.old sector.new at bytes.now }
{
    sector[at..at + bytes.len()].copy_from_slice(bytes);
}

/// Writes `count` zeros at offset `at`.
pub fn put_zeros(sector: &mut [u8; SIZE], at: usize, count: usize)
    requires { at + count ≤ SIZE }
    ensures { Places sector.old sector.new at (replicate count 0) }
{
    sector[at..at + count].fill(0);
}

/// The two-byte number at offset `at`.
pub fn u16_at(sector: &[u8; SIZE], at: usize) -> u16
    requires { at + 2 ≤ SIZE }
    ensures value { result ≡ from_be_bytes w16 (drop at sector.now) }
    ensures only { IsNumberAt 2 sector.now at result }
{
    BigEndian::read_u16(&sector[at..])
}

/// The four-byte number at offset `at`.
pub fn u32_at(sector: &[u8; SIZE], at: usize) -> u32
    requires { at + 4 ≤ SIZE }
    ensures value { result ≡ from_be_bytes w32 (drop at sector.now) }
    ensures only { IsNumberAt 4 sector.now at result }
{
    BigEndian::read_u32(&sector[at..])
}

/// The eight-byte number at offset `at`.
pub fn u64_at(sector: &[u8; SIZE], at: usize) -> u64
    requires { at + 8 ≤ SIZE }
    ensures value { result ≡ from_be_bytes w64 (drop at sector.now) }
    ensures only { IsNumberAt 8 sector.now at result }
{
    BigEndian::read_u64(&sector[at..])
}
