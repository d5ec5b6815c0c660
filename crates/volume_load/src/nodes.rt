//! The sector of a place of the node table.

ghost use Rattle.std.specs.Prelude.{◌≡◌, ◌<◌, Option, option_map, IfOk, OnOk, IsErrOf};
ghost use Rattle.inode.specs.Fields.{Fields, fields_of};
ghost use Rattle.volume_load.specs.Ahead.{IsAhead};
ghost use Rattle.volume_load.specs.Places.{FindsFields};
ghost use Rattle.layout.specs.CachedNodes.{node_sector};
ghost use Rattle.layout.specs.Health.{FailsOrStays};

use crate::ahead::Ahead;
use crate::fault::ScanFault;
use crate::sectors::is_zero_from;
use disk::SECTOR;
use inode::{Form, Inode};
use layout::sectors::Sectors;
use std::alloc::Global;

/// The node whose sector this is, in the form of its place; none if it is that of a free place.
fn node_in(alloc: Global, form: Form, content: &[u8; SECTOR]) -> Result<Option<Inode>, ScanFault>
    ensures found { IfOk result
        (λ node. FindsFields (Unit {0}) form content.now (option_map fields_of node)) }
    ensures damaged { IsErrOf result ScanFault.Damaged
        → (fields : Option Fields) → ¬ FindsFields (Unit {0}) form content.now fields }
    ensures device { ¬ IsErrOf result ScanFault.Device }
{
    if is_zero_from(content, 0) {
        return Ok(None);
    }
    let inode = inode::from_sector(alloc, form, content)?;
    if inode.number == 0 {
        return Err(ScanFault::Damaged);
    }
    Ok(Some(inode))
}

/// The node at a place, in this form; none if the place is free.
pub(crate) fn read_node<S: Sectors>(
    alloc: Global,
    sectors: &mut S,
    ahead: &mut Ahead,
    place: u32,
    form: Form,
) -> Result<Option<Inode>, ScanFault>
    requires place { place < ahead.old.nodes }
    requires ahead { IsAhead S.keeps_word (S.image (S.kept sectors.old))
        (S.size (S.kept sectors.old)) ahead.old.nodes ahead.old }
    ensures found { IfOk result (λ node. FindsFields S.keeps_word form
        (S.image (S.kept sectors.old) (node_sector place)) (option_map fields_of node)) }
    ensures ahead { OnOk result (IsAhead S.keeps_word (S.image (S.kept sectors.old))
        (S.size (S.kept sectors.old)) ahead.old.nodes ahead.new) }
    // If it fails
    ensures damaged { S.keeps_word → IsErrOf result ScanFault.Damaged → (fields : Option Fields)
        → ¬ FindsFields S.keeps_word form (S.image (S.kept sectors.old) (node_sector place))
        fields }
    // It only reads
    ensures kept { S.kept sectors.new ≡ S.kept sectors.old }
    ensures health { FailsOrStays (S.health sectors.old) (S.health sectors.new)
        (IsErrOf result ScanFault.Device) }
{
    let content = ahead.fetch(sectors, place)?;
    node_in(alloc, form, &content)
}
