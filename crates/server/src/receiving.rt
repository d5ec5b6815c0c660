//! The bytes that come over a connection, and the reply that goes.

ghost use Rattle.std.specs.Prelude.{◌≡◌};

use crate::connection::Connection;
use crate::stage::Stage;
use rpc::Assembler;
use std::alloc::{AllocError, Global};
use std::mem;
use xdr::Writer;

/// What a server asks of a connection.
#[tactic(auto, unfolding(crate::specs::Connections::connection_view))]
impl Connection {
    ghost use Rattle.std.specs.Prelude.{◌≡◌, ◌↔◌, Some, IsTrue};
    ghost use Rattle.model.specs.Server.World.{Closed, is_busy};
    ghost use Rattle.server.specs.Connections.{connection_view};

    /// Whether a refused header or record closed it.
    pub(crate) fn is_closed(&self) -> bool
        ensures { IsTrue result ↔ (connection_view self.now ≡ Closed) }
    {
        match &self.stage {
            Stage::Receiving => self.assembler.is_refused(),
            Stage::Running(_) | Stage::Replied(_) => false,
        }
    }

    /// Whether its request has begun.
    pub(crate) fn is_busy(&self) -> bool
        ensures { result ≡ is_busy (Some (connection_view self.now)) }
    {
        matches!(self.stage, Stage::Running(_))
    }
}

#[tactic(auto, unfolding(crate::specs::Connections::connection_view))]
impl Connection {
    ghost use Rattle.std.specs.Prelude.{◌≡◌, [], Some, option_map, IfOk};
    ghost use Rattle.model.specs.Server.World.{Quiet, arrives_at, taken_at, reply_in, without_reply};
    ghost use Rattle.rpc.specs.Assembly.{record_limits};
    ghost use Rattle.server.specs.Connections.{connection_view};

    /// Nothing has come. All memory that its records need is allocated here.
    pub fn new(alloc: Global) -> Result<Connection, AllocError>
        ensures { IfOk result (λ connection. connection_view connection ≡ Quiet []) }
    {
        let assembler = Assembler::new(alloc)?;
        Ok(Connection {
            assembler,
            results_buffer: Writer::new(alloc),
            stage: Stage::Receiving,
        })
    }

    /// Takes the prefix of a piece up to the end of the first whole record, and returns how many
    /// bytes that is: 0 while a whole request or a reply waits, and `None` once the connection is
    /// closed. A refused header closes it, and so does a whole record that is no call.
    #[tactic(auto, unfolding(crate::specs::Connections::connection_view, model::specs::Server::World::taken_at))]
    pub fn feed(&mut self, piece: &[u8]) -> Option<usize>
        ensures arrived { connection_view self.new
            ≡ arrives_at record_limits piece.now (connection_view self.old) }
        ensures taken { result ≡ taken_at record_limits piece.now (connection_view self.old) }
    {
        match &self.stage {
            Stage::Receiving => self.assembler.feed(piece).ok(),
            Stage::Running(_) | Stage::Replied(_) => Some(0),
        }
    }

    /// The reply record, once.
    pub fn take_output(&mut self) -> Option<Vec<u8>>
        ensures given { option_map (λ reply. reply.items) result
            ≡ reply_in (Some (connection_view self.old)) }
        ensures left { connection_view self.new ≡ without_reply (connection_view self.old) }
    {
        match mem::replace(&mut self.stage, Stage::Receiving) {
            Stage::Replied(reply) => Some(reply),
            stage => {
                self.stage = stage;
                None
            }
        }
    }
}
