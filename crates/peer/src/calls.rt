//! The calls of the server that a step of a peer makes. Each says that the server made this one
//! call and no other, or why it was refused.

ghost use Rattle.std.specs.Prelude.{◌≡◌, false, IfOk, IfErr, OnOk, OnErr};
ghost use Rattle.model.specs.Server.Runs.{Arrives, Turns, Takes};
ghost use Rattle.server.specs.Connections.{turn_view};
ghost use Rattle.server.specs.Refused.{RefusesTurn, RefusesHangUp, connection_at, view};
ghost use Rattle.server.specs.Seen.{Did, Took, Turned};
ghost use Rattle.server.specs.Views.{gave, waits_of};
ghost use Rattle.peer.specs.Calls.{Goes, IsOne, IsHangUp, IsEndAt, AreTurns, HasGone, RefusesBytes, RefusesOutput};

use crate::keeping::Keeping;
use disk::Device;
use server::{Server, ServerFault, Turn};

/// How many of the bytes the server took.
pub fn feed<D: Device>(
    server: &mut Server<D>,
    conn: usize,
    bytes: &[u8],
) -> Result<usize, ServerFault>
    ensures ok { IfOk result (λ count. Goes D.keeps_word server.old server.new
        (IsOne (Did (Arrives conn bytes.now) (Took (Some count))))) }
    ensures refused { IfErr result
        (RefusesBytes D.keeps_word server.old server.new conn bytes.now) }
{
    server.feed(conn, bytes)
}

/// What the connection's turn at this moment did, in nanoseconds since 1970.
pub fn turn<D: Device>(
    server: &mut Server<D>,
    conn: usize,
    now: u64,
    keeping: Keeping,
) -> Result<Turn, ServerFault>
    ensures ok { IfOk result (λ turn. Goes D.keeps_word server.old server.new
        (IsOne (Did (Turns conn now) (Turned (turn_view turn))))) }
    ensures refused { IfErr result (RefusesTurn (view server.old) (view server.new) conn) }
{
    match keeping {
        Keeping::AtOnce => server.turn(conn, now),
        Keeping::Later => server.turn_unflushed(conn, now),
    }
}

/// The connection's reply, if there is one. Nothing waits for a flush.
pub fn take_output<D: Device>(
    server: &mut Server<D>,
    conn: usize,
) -> Result<Option<Vec<u8>>, ServerFault>
    requires { waits_of server.old ≡ false }
    ensures ok { IfOk result (λ output. Goes D.keeps_word server.old server.new
        (IsOne (Did (Takes conn) (gave output)))) }
    ensures refused { IfErr result (RefusesOutput server.old server.new conn) }
{
    server.take_output(conn)
}

/// Ends the connection at this moment, in nanoseconds since 1970. If memory runs out, it stays.
pub fn hangup<D: Device>(server: &mut Server<D>, conn: usize, now: u64) -> Result<(), ServerFault>
    ensures ok { OnOk result (Goes D.keeps_word server.old server.new (IsHangUp conn now)) }
    ensures hung { Goes D.keeps_word server.old server.new (IsEndAt conn now) }
    ensures turns { OnErr result (Goes D.keeps_word server.old server.new (AreTurns conn now)) }
    ensures gone { HasGone result (connection_at (view server.new) conn) }
    ensures refused { IfErr result (RefusesHangUp (view server.old) (view server.new) conn) }
{
    server.hangup(conn, now)
}
