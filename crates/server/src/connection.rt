//! What is kept of a connection. Its bytes come and go in `receiving`, its turns are in `running`.

ghost use Rattle.std.specs.Prelude.{◌≡◌, true};
ghost use Rattle.server.specs.Stages.{is_ready};

use crate::stage::Stage;
use rpc::Assembler;
use xdr::Writer;

/// A connection: bytes come in pieces, a whole record waits for its turn, its COMPOUND runs, and
/// its reply waits to be taken.
#[derive(Drop)]
pub struct Connection {
    /// Has the memory for each record that comes. It holds the record while its request runs, and
    /// nothing while a reply waits.
    pub(crate) assembler: Assembler,
    /// Memory that a COMPOUND left, for the results of the next one.
    pub(crate) results_buffer: Writer,
    pub(crate) stage: Stage,
    ghost ready: { is_ready stage assembler ≡ true },
}
