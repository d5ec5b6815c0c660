//! What an operator may want to know of a server: what its volume has left, how often it has
//! changed, and what runs.

ghost use Rattle.std.specs.Prelude.{◌≡◌};

use crate::begun::Begun;
use crate::connection::Connection;
use crate::server::Server;
use crate::stage::Stage;
use compound::Ahead;
use disk::Device;
use fs::Room;

/// The progress of a COMPOUND that has begun.
#[derive(Clone, Copy)]
pub struct UnderWay {
    /// How many of its operations have their results.
    pub answered: u32,
    /// What its next turn does.
    pub ahead: Ahead,
}

#[tactic(auto, unfolding(crate::specs::Views::world_of, crate::specs::Views::volume_of))]
impl<D: Device> Server<D> {
    ghost use Rattle.volume.specs.Rooms.{IsLeftOf};
    ghost use Rattle.server.specs.Refused.{connection_at, view};
    ghost use Rattle.server.specs.Views.{volume_of, world_of};
    ghost use Rattle.server.specs.Way.{under_way};

    /// How many sectors and nodes of the volume are left: `Fs::room`.
    pub fn room(&self) -> Room
        ensures { IsLeftOf (volume_of self.now) result }
    {
        self.fs.room()
    }

    /// How many changes of the tree this run has had: `Fs::change_count`.
    pub fn change_count(&self) -> u32
        ensures { result ≡ (world_of self.now).changes }
    {
        self.fs.change_count()
    }

    /// The progress of the connection's COMPOUND, if one has begun.
    pub fn under_way(&self, conn: usize) -> Option<UnderWay>
        ensures { result ≡ under_way (connection_at (view self.now) conn) }
    {
        match self.connections.get(conn) {
            Some(connection) => connection.under_way(),
            None => None,
        }
    }
}

#[tactic(auto, unfolding(crate::specs::Connections::connection_view))]
impl Connection {
    ghost use Rattle.std.specs.Prelude.{Some};
    ghost use Rattle.server.specs.Connections.{connection_view};
    ghost use Rattle.server.specs.Way.{under_way};

    /// The progress of its COMPOUND, if one has begun.
    fn under_way(&self) -> Option<UnderWay>
        ensures { result ≡ under_way (Some (connection_view self.now)) }
    {
        match &self.stage {
            Stage::Running(begun) => Some(begun.under_way(self.assembler.record()?)),
            Stage::Receiving | Stage::Replied(_) => None,
        }
    }
}

impl Begun {
    ghost use Rattle.std.specs.Prelude.{true};
    ghost use Rattle.server.specs.Stages.{fits_in, in_progress_at};
    ghost use Rattle.server.specs.Way.{way_of};

    /// The progress of the COMPOUND whose call is in this record.
    fn under_way(&self, request: &[u8]) -> UnderWay
        requires { fits_in request.now self.now.call self.now.progress ≡ true }
        ensures { result ≡ way_of (in_progress_at request.now self.now) }
    {
        let compound = self.call.place.compound(request);
        UnderWay {
            answered: self.progress.answered(),
            ahead: self.progress.ahead(compound.operations),
        }
    }
}
