//! The mark of a migration.

ghost use Rattle.std.specs.Prelude.{◌≡◌, ◌<◌, ◌^◌, ℕ, Option, IfOk, IsErrOf};
ghost use Rattle.layout.specs.Health.{FailsOrStays};
ghost use Rattle.layout.specs.Stands.{IsMark, mark_held, moved_by};

use crate::fault::ScanFault;
use crate::sectors::{are_same, fetch, is_zero_from};
use disk::SECTOR;
use layout::places::MARK;
use layout::sectors::Sectors;
use layout::versions::{VersionNumber, is_mark, mark_sector};
use sector::u32_at;

/// The only mark whose sector this may be; none if it is zero.
fn told_mark(content: &[u8; SECTOR]) -> Option<u32>
    ensures { (mark : Option ℕ) → moved_by mark < 2 ^ 32 → content.now ≡ mark_held mark
        → result ≡ mark }
{
    if is_zero_from(content, 0) {
        return None;
    }
    Some(u32_at(content, 4))
}

/// The mark whose sector this is, of a volume of this version with `nodes` nodes.
fn checked_mark(
    content: &[u8; SECTOR],
    number: VersionNumber,
    nodes: u32,
) -> Result<Option<u32>, ScanFault>
    ensures marked { IfOk result (IsMark number nodes) }
    ensures found { IfOk result (λ mark. content.now ≡ mark_held mark) }
    // If it fails
    ensures damaged { IsErrOf result ScanFault.Damaged → (mark : Option ℕ)
        → IsMark number nodes mark → ¬ (content.now ≡ mark_held mark) }
    ensures device { ¬ IsErrOf result ScanFault.Device }
{
    let mark = told_mark(content);
    if !is_mark(number, nodes, mark) || !are_same(content, &mark_sector(mark)) {
        return Err(ScanFault::Damaged);
    }
    Ok(mark)
}

/// The mark of such a volume.
pub(crate) fn read_mark<S: Sectors>(
    sectors: &mut S,
    number: VersionNumber,
    nodes: u32,
) -> Result<Option<u32>, ScanFault>
    requires within { MARK < S.size (S.kept sectors.old) }
    ensures marked { IfOk result (IsMark number nodes) }
    ensures found { IfOk result (λ mark. S.keeps_word
        → S.image (S.kept sectors.old) MARK ≡ mark_held mark) }
    // If it fails
    ensures damaged { S.keeps_word → IsErrOf result ScanFault.Damaged → (mark : Option ℕ)
        → IsMark number nodes mark → ¬ (S.image (S.kept sectors.old) MARK ≡ mark_held mark) }
    // It only reads
    ensures kept { S.kept sectors.new ≡ S.kept sectors.old }
    ensures health { FailsOrStays (S.health sectors.old) (S.health sectors.new)
        (IsErrOf result ScanFault.Device) }
{
    let content = fetch(sectors, MARK)?;
    checked_mark(&content, number, nodes)
}
