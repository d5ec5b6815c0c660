//! The seats of persistent sessions, as the volume keeps them.

ghost use Rattle.std.specs.Prelude.{◌≡◌, false, OnOk};
ghost use Rattle.fs.specs.Views.{fs_of, AltersFs};
ghost use Rattle.model_tree.specs.Seats.SeatEdits.{AreEdits, edited_all, edits_view};
ghost use Rattle.volume.specs.SeatUpdates.{slots_by};
ghost use Rattle.compound.specs.Volumes.{IsSeated, HasSameTree, ending};

use crate::fault::Fault;
use disk::Device;
use fs::{Fs, FsFault};
use model_tree::seat_edits::SeatEdits;
use session::is_idle;

/// The volume keeps the seats, with these edits, or they wait for the next flush. Nothing is
/// written if each place stays.
///
/// # Errors
/// After `Memory` nothing changed; after `Device` the file system is down.
pub(crate) fn put_seats<D: Device>(fs: &mut Fs<D>, edits: &SeatEdits) -> Result<(), Fault>
    requires up { (fs_of fs.old).volume.is_down ≡ false }
    requires edits { D.keeps_word → AreEdits (fs_of fs.old).volume.run
        (slots_by (fs_of fs.old).volume.version) (edits_view edits.now)
        (fs_of fs.old).volume.seats }
    ensures same { D.keeps_word → OnOk result (HasSameTree (fs_of fs.old) (fs_of fs.new)) }
    ensures volume { AltersFs fs.old fs.new (IsSeated (fs_of fs.old).volume
        (edited_all (edits_view edits.now) (fs_of fs.old).volume.seats)) (ending result) }
{
    if is_idle(edits) {
        return Ok(());
    }
    match fs.put_seats(edits) {
        Ok(()) => Ok(()),
        Err(FsFault::Device) => Err(Fault::Device),
        Err(_) => Err(Fault::Memory),
    }
}
