//! The bytes of files.

ghost use Rattle.std.specs.Prelude.{◌≡◌};
ghost use Rattle.volume.specs.Reading.{reading_fault};

use crate::block_reads::read_bytes;
use crate::fault::{ReadingFault, VolumeFault};
use crate::volume::Volume;
use disk::Device;

impl From<ReadingFault> for VolumeFault {
    ghost from_gives = { λ refusal fault. fault ≡ reading_fault refusal };

    fn from(fault: ReadingFault) -> Self {
        match fault {
            ReadingFault::Device => VolumeFault::Device,
            ReadingFault::Memory => VolumeFault::Memory,
        }
    }
}

#[tactic(auto, unfolding(crate::specs::Views::volume_state, crate::specs::Views::volume_failures))]
impl<D: Device> Volume<D> {
    ghost use Rattle.std.specs.Prelude.{◌≡◌, ◌++◌, ◌⊎◌, ◌↔◌, true, take, drop};
    ghost use Rattle.std.specs.Prelude.{OnOk, OnErr, IfErr, IsErrOf};
    ghost use Rattle.model_tree.specs.Trees.Tree.{bytes_at};
    ghost use Rattle.volume.specs.Changes.{IsTree};
    ghost use Rattle.volume.specs.Reading.{HasFile, ending_of_reading};
    ghost use Rattle.volume.specs.Views.{volume_state, AltersVolume};

    /// Appends to `out` the bytes of a file from `offset` on: `len` of them, or fewer if the file
    /// ends before.
    ///
    /// # Errors
    ///
    /// [`VolumeFault::Device`] if the device failed, [`VolumeFault::Down`] after such a call, and
    /// [`VolumeFault::Memory`]: `out` is as it was.
    pub fn bytes(
        &mut self,
        number: u64,
        offset: u64,
        len: usize,
        out: &mut Vec<u8>,
    ) -> Result<(), VolumeFault>
        requires file { HasFile (volume_state self.old).tree number }
        ensures bytes { D.keeps_word → OnOk result (out.new.items ≡ out.old.items
            ++ take len (drop offset (bytes_at (volume_state self.old).tree number))) }
        ensures err { OnErr result (out.new.items ≡ out.old.items) }
        // It only reads
        ensures volume { AltersVolume self.old self.new
            (IsTree (volume_state self.old) (volume_state self.old).tree)
            (ending_of_reading result) }
        // If it fails
        ensures down { IsErrOf result VolumeFault.Down ↔ ((volume_state self.old).is_down ≡ true) }
        ensures refuses { IfErr result (λ fault. (fault ≡ VolumeFault.Device)
            ⊎ ((fault ≡ VolumeFault.Memory) ⊎ (fault ≡ VolumeFault.Down))) }
    {
        if self.store.journal.is_down() {
            return Err(VolumeFault::Down);
        }
        let place = self.table.find(number).unwrap();
        let cached = self.table.cached(place).unwrap();
        read_bytes(&mut self.store, cached, offset, len, out)?;
        Ok(())
    }
}
