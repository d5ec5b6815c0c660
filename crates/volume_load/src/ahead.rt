//! The sectors of the node table, read in runs.

ghost use Rattle.std.specs.Prelude.{◌≡◌, ◌≤◌, ◌<◌, ◌+◌, ◌↔◌, [], vec_len, IfOk, OnOk, IsErrOf, IsTrue};
ghost use Rattle.layout.specs.CachedNodes.{node_sector};
ghost use Rattle.layout.specs.Health.{FailsOrStays};

use crate::fault::ScanFault;
use disk::SECTOR;
use layout::places::NODES;
use layout::sectors::Sectors;
use std::alloc::{AllocError, Global};

/// The most sectors of a run, which are 256 KiB: they share the cost of one read of a file.
const RUN_SECTORS: usize = 64;

/// The sectors of neighbouring places of a node table, as they were read last.
#[derive(Drop)]
pub(crate) struct Ahead {
    /// How many places the table has.
    nodes: u32,
    /// The place whose sector is the first.
    first: u32,
    contents: Vec<[u8; SECTOR]>,
}

impl Ahead {
    ghost use Rattle.volume_load.specs.Ahead.{IsAhead};

    /// No sector yet of a table of this many places. It has memory for a whole run.
    pub(crate) fn new(alloc: Global, nodes: u32) -> Result<Ahead, AllocError>
        ensures { IfOk result (λ ahead. (ahead.nodes ≡ nodes) × (ahead.contents.items ≡ [])) }
    {
        let contents = Vec::with_capacity(alloc, RUN_SECTORS)?;
        Ok(Ahead {
            nodes,
            first: 0,
            contents,
        })
    }

    /// The sector of a place. If the run does not have it, the next one begins with it.
    pub(crate) fn fetch<S: Sectors>(
        &mut self,
        sectors: &mut S,
        place: u32,
    ) -> Result<[u8; SECTOR], ScanFault>
        requires place { place < self.old.nodes }
        requires ahead { IsAhead S.keeps_word (S.image (S.kept sectors.old))
            (S.size (S.kept sectors.old)) self.old.nodes self.old }
        ensures content { S.keeps_word → IfOk result
            (λ content. content ≡ S.image (S.kept sectors.old) (node_sector place)) }
        ensures ahead { OnOk result (IsAhead S.keeps_word (S.image (S.kept sectors.old))
            (S.size (S.kept sectors.old)) self.old.nodes self.new) }
        // If it fails
        ensures not_damaged { IsErrOf result ScanFault.Damaged → ⊥ }
        // It only reads
        ensures kept { S.kept sectors.new ≡ S.kept sectors.old }
        ensures health { FailsOrStays (S.health sectors.old) (S.health sectors.new)
            (IsErrOf result ScanFault.Device) }
    {
        self.hold(sectors, place)?;
        Ok(self.contents[(place - self.first) as usize])
    }

    /// Whether the run has the sector of a place.
    fn has(&self, place: u32) -> bool
        ensures { IsTrue result
            ↔ ((self.now.first ≤ place)
            × (place < self.now.first + vec_len self.now.contents)) }
    {
        place >= self.first && ((place - self.first) as usize) < self.contents.len()
    }

    /// Has the sector of a place in the run. If it is not there, it is read with those that follow
    /// it, as many as there is room for, up to the end of the table.
    fn hold<S: Sectors>(&mut self, sectors: &mut S, place: u32) -> Result<(), ScanFault>
        requires place { place < self.old.nodes }
        requires ahead { IsAhead S.keeps_word (S.image (S.kept sectors.old))
            (S.size (S.kept sectors.old)) self.old.nodes self.old }
        ensures there { OnOk result ((self.new.first ≤ place)
            × (place < self.new.first + vec_len self.new.contents)) }
        ensures ahead { OnOk result (IsAhead S.keeps_word (S.image (S.kept sectors.old))
            (S.size (S.kept sectors.old)) self.old.nodes self.new) }
        // If it fails
        ensures not_damaged { IsErrOf result ScanFault.Damaged → ⊥ }
        // It only reads
        ensures kept { S.kept sectors.new ≡ S.kept sectors.old }
        ensures health { FailsOrStays (S.health sectors.old) (S.health sectors.new)
            (IsErrOf result ScanFault.Device) }
    {
        if self.has(place) {
            return Ok(());
        }
        let count = RUN_SECTORS.min((self.nodes - place) as usize);
        self.first = place;
        self.contents.resize(count, [0; SECTOR])?;
        sectors.read_run(NODES + place, &mut self.contents)?;
        Ok(())
    }
}
