//! The sectors of a volume that is not mounted, read through a view.

use disk::{Device, SECTOR};
use journal::View;
use layout::sectors::{ReadFault, Sectors};

/// A view whose sectors are read: those that a mount would find.
#[derive(Drop)]
pub struct ViewStore<'a, D: Device> {
    pub(crate) view: View<'a, D>,
}

#[tactic(auto, unfolding(journal::specs::Views::view_of, journal::specs::Views::view_failures, journal::specs::Views::name_of))]
impl<'a, D: Device> Sectors for ViewStore<'a, D> {
    ghost use Rattle.std.specs.Prelude.{false};
    ghost use Rattle.journal.specs.Views.{view_of, view_failures, name_of};
    ghost use Rattle.volume.specs.Kept.{KeptView};

    ghost keeps_word = { D.keeps_word };

    ghost Kept = { KeptView };

    ghost kept = { λ store. record {
      log = record (view_of store.view) { is_down = false };
      device = name_of store.view;
    } };

    ghost image = { λ kept. kept.log.base };

    ghost size = { λ kept. kept.log.size };

    ghost health = { λ store. record {
      failed = view_failures store.view;
      is_down = (view_of store.view).is_down;
    } };

    fn read(&mut self, n: u32) -> Result<[u8; SECTOR], ReadFault> {
        let mut content = [0; SECTOR];
        if self.view.read(n, &mut content).is_err() {
            return Err(ReadFault);
        }
        Ok(content)
    }

    /// Its device reads them in one call, and by themselves those that are not at home.
    fn read_run(&mut self, first: u32, contents: &mut [[u8; SECTOR]]) -> Result<(), ReadFault> {
        if self.view.read_run(first, contents).is_err() {
            return Err(ReadFault);
        }
        Ok(())
    }
}
