//! The gate, the sector of the commit record: zeros if it is cleared, and otherwise 1, the number
//! of targets, and the targets.

ghost use Rattle.std.specs.Prelude.{◌≡◌, ◌≤◌, ◌<◌, ◌+◌, ◌*◌, ◌^◌, ◌↔◌, ◌⊎◌, ℕ, List, [], ◌++◌, length, drop, false, IsTrue, vec_capacity};
ghost use Rattle.byteorder.specs.Endian.{big_number};
ghost use Rattle.journal.specs.Layout.{AreNamed, IsArea, NamesTargets, gate, home, words, gate_words, words_in};
ghost use Rattle.journal.specs.Behind.{goes_behind, meets};

use crate::layout::{FIRST_TARGET, LogArea, MAX_TARGETS};
use byteorder::{BigEndian, ByteOrder};
use disk::SECTOR;

/// The first word of a commit record that is set.
const OPEN: u32 = 1;

/// The commit record for these targets; for none it is cleared.
pub(crate) fn encode(targets: &[u32]) -> [u8; SECTOR]
    requires { length targets.now ≤ MAX_TARGETS }
    ensures { result ≡ gate targets.now }
{
    let mut sector = closed();
    if !targets.is_empty() {
        write_words(targets, &mut sector);
    }
    sector
}

/// The sector of a cleared commit record: zeros.
#[tactic(auto, unfolding(crate::specs::Layout::gate, disk::specs::Calls::zero_sector))]
pub(crate) fn closed() -> [u8; SECTOR]
    ensures { result ≡ gate [] }
{
    [0; SECTOR]
}

/// Writes the words of a commit record that is set at the beginning of a sector.
fn write_words(targets: &[u32], sector: &mut [u8])
    requires few { length targets.now ≤ MAX_TARGETS }
    requires long { length sector.old ≡ SECTOR }
    ensures { sector.new ≡ words (gate_words targets.now)
        ++ drop (4 * length (gate_words targets.now)) sector.old }
{
    BigEndian::write_u32(sector, OPEN);
    BigEndian::write_u32(&mut sector[4..], targets.len() as u32);
    BigEndian::write_u32_into(targets, &mut sector[8..8 + 4 * targets.len()]);
}

/// Whether a sector is a commit record, set or cleared: then `named` holds what it names.
pub(crate) fn decode(sector: &[u8; SECTOR], area: LogArea, named: &mut Vec<u32>) -> bool
    requires area { IsArea area }
    requires room { area.sectors ≤ vec_capacity named.old }
    ensures found { IsTrue result → NamesTargets area sector.now named.new.items }
    ensures missing { result ≡ false → (to : List ℕ) → ¬ NamesTargets area sector.now to }
    ensures capacity { vec_capacity named.new ≡ vec_capacity named.old }
{
    if !read_words(sector, area.sectors as usize, named) {
        return false;
    }
    are_targets(named, area) && encode(named).as_slice() == sector.as_slice()
}

/// Reads a commit record's words; false if they encode more than `most` targets.
fn read_words(sector: &[u8], most: usize, named: &mut Vec<u32>) -> bool
    requires few { most ≤ MAX_TARGETS }
    requires room { most ≤ vec_capacity named.old }
    requires long { length sector.now ≡ SECTOR }
    ensures many { result ≡ false → most < big_number 4 (drop 4 sector.now) }
    ensures named { IsTrue result
        → (length named.new.items ≤ most) × (named.new.items ≡ words_in sector.now) }
    ensures capacity { vec_capacity named.new ≡ vec_capacity named.old }
{
    named.clear();
    let count = BigEndian::read_u32(&sector[4..]) as usize;
    if count > most {
        return false;
    }
    for i in 0..count {
        named.push_reserved(BigEndian::read_u32(&sector[8 + 4 * i..]));
    }
    true
}

/// Whether a commit record may name these sectors: all from the first one on, below the end, and
/// different if each is named once.
pub(crate) fn are_targets(to: &[u32], area: LogArea) -> bool
    ensures { IsTrue result ↔ AreNamed area to.now }
{
    for (i, target) in to.iter().enumerate() {
        if *target < FIRST_TARGET || *target >= area.end {
            return false;
        }
        if area.once && to[..i].contains(target) {
            return false;
        }
    }
    true
}

/// The place of sector `n`, read through a commit record that names these targets.
pub(crate) fn place_of(named: &[u32], area: LogArea, n: u32) -> u32
    requires few { length named.now ≤ area.sectors }
    requires area { IsArea area }
    ensures place { result ≡ home named.now area.first n }
    ensures within { (result < area.first + area.sectors) ⊎ (result ≡ n) }
{
    let mut place = n;
    for (i, target) in named.iter().enumerate() {
        if *target == n {
            place = area.first + i as u32;
        }
    }
    place
}

/// Whether more targets go behind those that a commit record names: few enough together with them,
/// and all others than these if each is named once.
pub(crate) fn goes_behind(named: &[u32], area: LogArea, to: &[u32]) -> bool
    requires named { length named.now ≤ MAX_TARGETS }
    requires few { length to.now ≤ MAX_TARGETS }
    ensures { result ≡ goes_behind area named.now to.now }
{
    if area.once && meets(named, to) {
        return false;
    }
    named.len() + to.len() <= area.sectors as usize
}

/// Whether one of the targets is named.
fn meets(named: &[u32], to: &[u32]) -> bool
    ensures { result ≡ meets named.now to.now }
{
    for target in to {
        if named.contains(target) {
            return true;
        }
    }
    false
}

/// Puts targets after those that are named.
pub(crate) fn name_all(named: &mut Vec<u32>, to: &[u32])
    requires room { length named.old.items + length to.now ≤ vec_capacity named.old }
    ensures items { named.new.items ≡ named.old.items ++ to.now }
    ensures capacity { vec_capacity named.new ≡ vec_capacity named.old }
{
    for target in to {
        named.push_reserved(*target);
    }
}
