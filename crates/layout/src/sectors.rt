//! Reading a volume.

ghost use Rattle.std.specs.Prelude.{◌≡◌, ◌≤◌, ◌<◌, ◌+◌, ◌^◌, ℕ, [], length, slice_index_or, IfOk, OnOk, is_err, IsTrue};
ghost use Rattle.disk.specs.Moments.{Image};
ghost use Rattle.layout.specs.Health.{Health, FailsOrStays};

use disk::SECTOR;
use thiserror::Error;

/// A sector was not read: the device failed, now or before.
#[derive(Clone, Copy, Debug, PartialEq, Eq, Error)]
#[error("the device failed")]
pub struct ReadFault;

/// Sectors that can be read: those of a volume as it is now, wherever they are kept.
pub trait Sectors {
    /// Holds if reading gives what they hold: no contract can say so of a real file.
    ghost keeps_word: { Type 0 };

    /// All that reading leaves unchanged; it determines what they hold and how many they are.
    ghost Kept: { Type 0 };

    ghost kept: { Self → Kept };

    ghost image: { Kept → Image };

    ghost size: { Kept → ℕ };

    /// How often the device under them has failed, and whether it is down.
    ghost health: { Self → Health };

    /// The content of sector `n`.
    ///
    /// # Errors
    ///
    /// [`ReadFault`] if the device failed, now or before.
    fn read(&mut self, n: u32) -> Result<[u8; SECTOR], ReadFault>
        requires { n < size (kept self.old) }
        ensures content { keeps_word → IfOk result (λ content. content ≡ image (kept self.old) n) }
        ensures kept { kept self.new ≡ kept self.old }
        ensures health { FailsOrStays (health self.old) (health self.new)
            (IsTrue (is_err result)) };

    /// Puts into `contents` those of as many sectors, from `first` on. If it fails it may hold
    /// anything. The default reads one sector after the other.
    ///
    /// # Errors
    ///
    /// [`ReadFault`] if the device failed, now or before.
    fn read_run(&mut self, first: u32, contents: &mut [[u8; SECTOR]]) -> Result<(), ReadFault>
        requires within { first + length contents.old ≤ size (kept self.old) }
        requires numbered { first + length contents.old < 2 ^ 32 }
        ensures contents { keeps_word → OnOk result ((i : ℕ) → i < length contents.old
            → slice_index_or contents.new i [] ≡ image (kept self.old) (first + i)) }
        ensures kept { kept self.new ≡ kept self.old }
        ensures health { FailsOrStays (health self.old) (health self.new)
            (IsTrue (is_err result)) }
    {
        for (i, content) in contents.iter_mut().enumerate() {
            *content = self.read(first + i as u32)?;
        }
        Ok(())
    }
}
