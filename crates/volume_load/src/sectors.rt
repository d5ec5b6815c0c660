//! One sector.

ghost use Rattle.std.specs.Prelude.{◌≡◌, ◌<◌, IfOk, OnErr, IsErrOf, Err, IsTrue, ◌↔◌};
ghost use Rattle.std.specs.Prelude.{length};
ghost use Rattle.freemap.specs.Places.{IsBytes};
ghost use Rattle.volume_load.specs.Sectors.{AreZeroFrom};
ghost use Rattle.layout.specs.Health.{FailsOrStays};

use crate::fault::ScanFault;
use disk::SECTOR;
use layout::sectors::Sectors;

/// The content of a sector.
pub(crate) fn fetch<S: Sectors>(sectors: &mut S, n: u32) -> Result<[u8; SECTOR], ScanFault>
    requires { n < S.size (S.kept sectors.old) }
    ensures content { S.keeps_word
        → IfOk result (λ content. content ≡ S.image (S.kept sectors.old) n) }
    ensures device { OnErr result (result ≡ Err ScanFault.Device) }
    ensures kept { S.kept sectors.new ≡ S.kept sectors.old }
    ensures health { FailsOrStays (S.health sectors.old) (S.health sectors.new)
        (IsErrOf result ScanFault.Device) }
{
    let content = sectors.read(n)?;
    Ok(content)
}

/// Whether all bytes from a place on are zero.
pub(crate) fn is_zero_from(content: &[u8; SECTOR], from: usize) -> bool
    ensures zero { IsTrue result ↔ AreZeroFrom content.now from }
    ensures whole { length content.now ≡ SECTOR }
{
    for at in from..SECTOR {
        if content[at] != 0 {
            return false;
        }
    }
    true
}

/// Whether two sectors are the same.
pub(crate) fn are_same(one: &[u8; SECTOR], other: &[u8; SECTOR]) -> bool
    ensures same { IsTrue result ↔ (one.now ≡ other.now) }
    ensures bytes { IsBytes one.now × IsBytes other.now }
    ensures whole { length one.now ≡ SECTOR }
{
    one == other
}
