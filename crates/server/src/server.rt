//! The server over a device.

ghost use Rattle.std.specs.Prelude.{◌≡◌, ◌≤◌, ℕ, false, Some};
ghost use Rattle.slab.specs.Slab.{slab_len};
ghost use Rattle.compound.specs.States.{Agrees};
ghost use Rattle.fs.specs.Views.{fs_of};
ghost use Rattle.model_tree.specs.Trees.Keyed.{at};
ghost use Rattle.model.specs.Server.World as world;
ghost use Rattle.session.specs.Views.{table_of};
ghost use Rattle.server.specs.Connections.{connections_of, IsOfRun};
ghost use Rattle.server.specs.declared.server.TheConstants.{MAX_CONNECTIONS};

use crate::connection::Connection;
use crate::engine::Engine;
use crate::fault::ServerFault;
use crate::turn::Turn;
use disk::Device;
use fs::Fs;
use model_tree::seats::Seats as KeptSeats;
use opens::Opens;
use session::Table;
use slab::Slab;
use std::alloc::Global;

/// The most connections at a time.
pub const MAX_CONNECTIONS: usize = 16;

/// A mounted volume, the clients and sessions of this run, and connections. The seats of the table
/// are those that the volume keeps.
#[derive(Drop)]
pub struct Server<D: Device> {
    pub(crate) alloc: Global,
    pub(crate) fs: Fs<D>,
    pub(crate) table: Table,
    pub(crate) opens: Opens,
    pub(crate) connections: Slab<Connection>,
    ghost few: { slab_len connections ≤ MAX_CONNECTIONS },
    ghost of_run: { (n : ℕ) (connection : world.Connection)
        → at n (connections_of connections) ≡ Some connection
        → IsOfRun (fs_of fs).volume.run connection },
    ghost agrees: { D.keeps_word → (fs_of fs).volume.is_down ≡ false
        → Agrees (fs_of fs) (table_of table) },
}

#[tactic(auto, unfolding(crate::specs::Views::world_of, crate::specs::Views::files_of, crate::specs::Views::volume_of, crate::specs::Views::waits_of, crate::specs::Views::server_failures))]
impl<D: Device> Server<D> {
    ghost use Rattle.std.specs.List.{list_any, find};
    ghost use Rattle.std.specs.Option.{option_map};
    ghost use Rattle.model.specs.Sessions.Session.{is_client, is_session};
    ghost use Rattle.model_tree.specs.Seats.SeatViews.{seats_view};
    ghost use Rattle.std.specs.Prelude.{◌≢◌, ◌≡◌, ◌≤◌, ◌↔◌, List, true, false, Some, None, length, OnOk, OnErr, IfOk, IfErr, IsErrOf};
    ghost use Rattle.model.specs.Server.Runs as runs;
    ghost use Rattle.model.specs.Server.World.{Closed, is_busy, can_connect};
    ghost use Rattle.server.specs.Connections.{turn_view};
    ghost use Rattle.volume.specs.VolumeState.{call_cost, checkpoint_cost, flush_cost};
    ghost use Rattle.server.specs.Refused.{view, IsUntouched, connection_at, HasKept, HasRunOn, HasTurned, RefusesCheckpoint, RefusesTurn, RefusesHangUp, UsesDevice};
    ghost use Rattle.server.specs.Seen.{Does, Breaks, Took, Turned, Done};
    ghost use Rattle.server.specs.Views.{world_of, files_of, volume_of, waits_of, server_failures, most_connections, seen_with, seen_down, gave, Serves, ServesLater, ServesAs, LetsWait, FlushesServer, ServerFails, GivesReply, Keeps, Turning};

    /// The run of this mount: the restart count that it wrote.
    pub fn restart_count(&self) -> u32
        ensures { result ≡ (world_of self.now).run }
    {
        self.fs.restart_count()
    }

    /// The seats, with what they hold.
    pub fn seats(&self) -> &KeptSeats
        ensures { seats_view result.now ≡ (world_of self.now).table.seats }
    {
        self.table.seats()
    }

    /// Whether there is a session of this id. The seat of a session that is not of this run is
    /// dead.
    pub fn has_session(&self, id: &[u8; 16]) -> bool
        ensures { result ≡ list_any (is_session id.now) (world_of self.now).table.sessions }
    {
        self.table.has_session(id)
    }

    /// The owner id of the client of this id, with which each id of its sessions begins.
    pub fn owner(&self, client: u64) -> Option<&[u8]>
        ensures { option_map (λ owner. owner.now) result
            ≡ option_map (λ client. client.owner)
            (find (is_client client) (world_of self.now).table.clients) }
    {
        self.table.owner(client)
    }

    /// How many connections there are.
    pub fn connection_count(&self) -> usize
        ensures { result ≡ length (world_of self.now).connections }
    {
        self.connections.len()
    }

    /// How many client records there are.
    pub fn client_count(&self) -> usize
        ensures { result ≡ length (world_of self.now).table.clients }
    {
        self.table.client_count()
    }

    /// How many sessions there are.
    pub fn session_count(&self) -> usize
        ensures { result ≡ length (world_of self.now).table.sessions }
    {
        self.table.session_count()
    }

    /// How many opens there are.
    pub fn open_count(&self) -> usize
        ensures { result ≡ length (world_of self.now).opens.known }
    {
        self.opens.len()
    }

    /// The device, as it is now: clients, sessions and connections are gone, and what is on it is
    /// there for the next mount.
    pub fn into_device(self) -> D
        ensures history { D.history result ≡ (volume_of self).history }
        ensures size { D.size result ≡ (volume_of self).sectors }
        ensures failures { D.failed result ≡ server_failures self }
    {
        self.fs.into_device()
    }

    /// The device, for inspection.
    pub fn device(&self) -> &D
        ensures history { D.history result.now ≡ (volume_of self.now).history }
        ensures size { D.size result.now ≡ (volume_of self.now).sectors }
        ensures failures { D.failed result.now ≡ server_failures self.now }
    {
        self.fs.device()
    }

    /// A new connection, and its number.
    ///
    /// # Errors
    /// Device if the file system is down; Full if there are 16 connections; Memory. Nothing changed
    /// then.
    pub fn connect(&mut self) -> Result<usize, ServerFault>
        ensures ok { D.keeps_word
            → IfOk result (λ conn. Serves self.old self.new (runs.Connects conn) Done) }
        ensures fresh { IfOk result (λ conn. can_connect (world_of self.old) conn ≡ true) }
        // If it fails
        ensures device { IsErrOf result ServerFault.Device ↔ ((volume_of self.old).is_down ≡ true) }
        ensures full { IsErrOf result ServerFault.Full
            → length (world_of self.old).connections ≡ most_connections }
        ensures is_full { (volume_of self.old).is_down ≡ false
            → length (world_of self.old).connections ≡ most_connections
            → IsErrOf result ServerFault.Full }
        ensures only { IfErr result (λ fault.
            (fault ≢ ServerFault.NoConnection) × (fault ≢ ServerFault.Closed)) }
        ensures err { OnErr result (world_of self.new ≡ world_of self.old) }
        ensures volume { files_of self.new ≡ files_of self.old }
        ensures failures { server_failures self.new ≡ server_failures self.old }
    {
        if self.fs.is_down() {
            return Err(ServerFault::Device);
        }
        if self.connections.len() >= MAX_CONNECTIONS {
            return Err(ServerFault::Full);
        }
        let connection = Connection::new(self.alloc)?;
        Ok(self.connections.insert(connection)?)
    }

    /// Takes the prefix of a piece up to the end of the connection's first whole record, and
    /// returns how many bytes that is; none while a whole request or a reply waits.
    ///
    /// # Errors
    /// Device if the file system is down; NoConnection; Closed if the piece brings a refused header
    /// or ends a record that is no call, and from then on. It allocates no memory.
    pub fn feed(&mut self, conn: usize, piece: &[u8]) -> Result<usize, ServerFault>
        ensures ok { D.keeps_word → IfOk result (λ n.
            Serves self.old self.new (runs.Arrives conn piece.now) (Took (Some n))) }
        ensures closed { D.keeps_word → IsErrOf result ServerFault.Closed
            → Serves self.old self.new (runs.Arrives conn piece.now) (Took None) }
        // If it fails
        ensures device { IsErrOf result ServerFault.Device ↔ ((volume_of self.old).is_down ≡ true) }
        ensures no_connection { IsErrOf result ServerFault.NoConnection
            → connection_at (view self.old) conn ≡ None }
        ensures is_none { (volume_of self.old).is_down ≡ false
            → connection_at (view self.old) conn ≡ None → IsErrOf result ServerFault.NoConnection }
        ensures only { IfErr result (λ fault.
            (fault ≢ ServerFault.Full) × (fault ≢ ServerFault.Memory)) }
        ensures err { IfErr result (λ fault.
            (fault ≢ ServerFault.Closed) → world_of self.new ≡ world_of self.old) }
        ensures volume { files_of self.new ≡ files_of self.old }
        ensures failures { server_failures self.new ≡ server_failures self.old }
    {
        if self.fs.is_down() {
            return Err(ServerFault::Device);
        }
        let Some(connection) = self.connections.get_mut(conn) else {
            return Err(ServerFault::NoConnection);
        };
        let Some(taken) = connection.feed(piece) else {
            return Err(ServerFault::Closed);
        };
        Ok(taken)
    }

    /// Gives the connection a turn at this time, in nanoseconds since 1970: one operation of its
    /// request runs, or after the last one a seat holds the reply. A change that has to last is kept
    /// on the device before its result is there, and a reply that a seat is to hold before it can be
    /// taken.
    ///
    /// # Errors
    /// Device if the file system is down, or goes down in this call: then no reply reports the
    /// operation. NoConnection; Closed if the connection was closed; Memory, and then nothing
    /// changed and the request stays.
    pub fn turn(&mut self, conn: usize, now: u64) -> Result<Turn, ServerFault>
        // If it succeeds
        ensures ok { D.keeps_word → IfOk result (λ turn.
            Serves self.old self.new (runs.Turns conn now) (Turned (turn_view turn))) }
        ensures turned { OnOk result
            (HasTurned D.keeps_word (view self.old) (view self.new) conn now) }
        ensures waits { waits_of self.new ≡ waits_of self.old }
        // If the device fails in it
        ensures fails { D.keeps_word → (volume_of self.old).is_down ≡ false
            → IsErrOf result ServerFault.Device
            → ServerFails self.old self.new (runs.Turns conn now) }
        // If it fails
        ensures refused { IfErr result (RefusesTurn (view self.old) (view self.new) conn) }
        ensures is_down { (volume_of self.old).is_down ≡ true
            → IsErrOf result ServerFault.Device × IsUntouched (view self.old) (view self.new) }
        ensures is_none { (volume_of self.old).is_down ≡ false
            → connection_at (view self.old) conn ≡ None → IsErrOf result ServerFault.NoConnection }
        ensures is_closed { (volume_of self.old).is_down ≡ false
            → connection_at (view self.old) conn ≡ Some Closed → IsErrOf result ServerFault.Closed }
        ensures device { UsesDevice D.keeps_word (call_cost (view self.old).volume)
            (view self.old) (view self.new) }
    {
        self.defer(false);
        self.take_turn(conn, now)
    }

    /// The same, but a change, a COMMIT and a reply that a seat is to hold may wait for
    /// [`Server::flush`]: until then a crash may lose them. While something waits,
    /// [`Server::take_output`] gives no reply on any connection. So one flush keeps the changes of
    /// many connections.
    ///
    /// # Errors
    /// Those of `turn`.
    pub fn turn_unflushed(&mut self, conn: usize, now: u64) -> Result<Turn, ServerFault>
        // If it succeeds
        ensures ok { D.keeps_word → IfOk result (λ turn.
            ServesLater self.old self.new (runs.Turns conn now) (Turned (turn_view turn))) }
        ensures turned { OnOk result
            (HasTurned D.keeps_word (view self.old) (view self.new) conn now) }
        ensures waits { LetsWait self.old self.new result }
        // If the device fails in it
        ensures fails { D.keeps_word → (volume_of self.old).is_down ≡ false
            → IsErrOf result ServerFault.Device
            → ServerFails self.old self.new (runs.Turns conn now) }
        // If it fails
        ensures refused { IfErr result (RefusesTurn (view self.old) (view self.new) conn) }
        ensures is_down { (volume_of self.old).is_down ≡ true
            → IsErrOf result ServerFault.Device × IsUntouched (view self.old) (view self.new) }
        ensures is_none { (volume_of self.old).is_down ≡ false
            → connection_at (view self.old) conn ≡ None → IsErrOf result ServerFault.NoConnection }
        ensures is_closed { (volume_of self.old).is_down ≡ false
            → connection_at (view self.old) conn ≡ Some Closed → IsErrOf result ServerFault.Closed }
        ensures device { UsesDevice D.keeps_word (call_cost (view self.old).volume)
            (view self.old) (view self.new) }
    {
        self.defer(true);
        self.take_turn(conn, now)
    }

    /// From now on what has to last may wait for a flush, or is kept at once.
    fn defer(&mut self, later: bool)
        ensures world { world_of self.new ≡ world_of self.old }
        ensures volume { volume_of self.new ≡ volume_of self.old }
        ensures waits { waits_of self.new ≡ waits_of self.old }
        ensures defers { (files_of self.new).defers ≡ later }
        ensures failures { server_failures self.new ≡ server_failures self.old }
    {
        self.fs.set_deferring(later);
    }

    /// A turn, in which what has to last is kept or waits.
    fn take_turn(&mut self, conn: usize, now: u64) -> Result<Turn, ServerFault>
        // If it succeeds
        ensures ok { D.keeps_word → IfOk result (λ turn. ServesAs (files_of self.old).defers
            self.old self.new (runs.Turns conn now) (Turned (turn_view turn))) }
        ensures turned { OnOk result
            (HasTurned D.keeps_word (view self.old) (view self.new) conn now) }
        ensures waits { LetsWait self.old self.new result
            × ((files_of self.old).defers ≡ false → waits_of self.new ≡ waits_of self.old) }
        // If the device fails in it
        ensures fails { D.keeps_word → (volume_of self.old).is_down ≡ false
            → IsErrOf result ServerFault.Device
            → ServerFails self.old self.new (runs.Turns conn now) }
        // If it fails
        ensures refused { IfErr result (RefusesTurn (view self.old) (view self.new) conn) }
        ensures is_down { (volume_of self.old).is_down ≡ true
            → IsErrOf result ServerFault.Device × IsUntouched (view self.old) (view self.new) }
        ensures is_none { (volume_of self.old).is_down ≡ false
            → connection_at (view self.old) conn ≡ None → IsErrOf result ServerFault.NoConnection }
        ensures is_closed { (volume_of self.old).is_down ≡ false
            → connection_at (view self.old) conn ≡ Some Closed → IsErrOf result ServerFault.Closed }
        ensures device { UsesDevice D.keeps_word (call_cost (view self.old).volume)
            (view self.old) (view self.new) }
    {
        if self.fs.is_down() {
            return Err(ServerFault::Device);
        }
        let Some(connection) = self.connections.get_mut(conn) else {
            return Err(ServerFault::NoConnection);
        };
        if connection.is_closed() {
            return Err(ServerFault::Closed);
        }
        let mut engine = Engine {
            alloc: self.alloc,
            fs: &mut self.fs,
            table: &mut self.table,
            opens: &mut self.opens,
            moment: now,
        };
        Ok(connection.turn(&mut engine)?)
    }

    /// Keeps on the device all that waits, with one flush; then replies can be taken again. If
    /// nothing waits, nothing is done.
    ///
    /// # Errors
    /// Device if the file system is down, or goes down in this call: then no reply reports what
    /// waited.
    pub fn flush(&mut self) -> Result<(), ServerFault>
        // If it succeeds
        ensures ok { D.keeps_word → waits_of self.old ≡ true
            → OnOk result (FlushesServer self.old self.new) }
        ensures none_waits { OnOk result (waits_of self.new ≡ false) }
        ensures kept { OnOk result (HasKept (view self.old) (view self.new)) }
        ensures nothing { waits_of self.old ≡ false → IsUntouched (view self.old) (view self.new) }
        // If the device fails in it
        ensures fails { D.keeps_word → (volume_of self.old).is_down ≡ false
            → OnErr result ((event : runs.Event) → ServerFails self.old self.new event) }
        ensures device { UsesDevice D.keeps_word
            (flush_cost (view self.old).volume.version (view self.old).volume.sectors)
            (view self.old) (view self.new) }
        // If it fails
        ensures refused { IfErr result (RefusesCheckpoint (view self.old) (view self.new)) }
        ensures waits { OnErr result (waits_of self.new ≡ waits_of self.old) }
        ensures is_down { (volume_of self.old).is_down ≡ true
            → IsErrOf result ServerFault.Device × IsUntouched (view self.old) (view self.new) }
    {
        if self.fs.is_down() {
            return Err(ServerFault::Device);
        }
        if !self.fs.waits() {
            return Ok(());
        }
        match self.fs.flush() {
            Ok(()) => Ok(()),
            Err(_) => Err(ServerFault::Device),
        }
    }

    /// Whether something waits for [`Server::flush`].
    pub fn waits(&self) -> bool
        ensures { result ≡ waits_of self.now }
    {
        self.fs.waits()
    }

    /// Drops the connection, and all that it holds. A request that has begun is run to its end
    /// first, and its slot keeps the reply, and its seat holds it.
    ///
    /// # Errors
    /// Device and NoConnection as in `turn`. After Memory what was run stays run, and the
    /// connection stays.
    pub fn hangup(&mut self, conn: usize, now: u64) -> Result<(), ServerFault>
        // If it succeeds
        ensures ok { D.keeps_word → OnOk result
            (Turning self.old conn now (λ between. (after : List runs.Left)
            × Does between (runs.HangsUp conn) Done (seen_with self.new after))) }
        ensures gone { OnOk result (connection_at (view self.new) conn ≡ None) }
        ensures on { OnOk result (HasRunOn (view self.old) (view self.new) conn) }
        ensures waits { waits_of self.new ≡ waits_of self.old }
        // Ended within its turns: no memory for one, or the device fails in one
        ensures memory { D.keeps_word → IsErrOf result ServerFault.Memory
            → Turning self.old conn now (λ between.
            (after : List runs.Left) × (between ≡ seen_with self.new after)) }
        ensures fails { D.keeps_word → (volume_of self.old).is_down ≡ false
            → IsErrOf result ServerFault.Device → Turning self.old conn now (λ between.
            (left : List runs.Left) × Breaks between (runs.Turns conn now)
            (seen_down self.new between.serving.world.tree left)) }
        // If it fails
        ensures refused { IfErr result (RefusesHangUp (view self.old) (view self.new) conn) }
        ensures is_down { (volume_of self.old).is_down ≡ true
            → IsErrOf result ServerFault.Device × IsUntouched (view self.old) (view self.new) }
        ensures is_none { (volume_of self.old).is_down ≡ false
            → connection_at (view self.old) conn ≡ None → IsErrOf result ServerFault.NoConnection }
        ensures later { server_failures self.old ≤ server_failures self.new }
    {
        if self.fs.is_down() {
            return Err(ServerFault::Device);
        }
        if !self.connections.contains(conn) {
            return Err(ServerFault::NoConnection);
        }
        while self.is_busy(conn) {
            self.turn(conn, now)?;
        }
        self.connections.try_remove(conn);
        Ok(())
    }

    /// Whether the connection's request has begun.
    fn is_busy(&self, conn: usize) -> bool
        ensures { result ≡ is_busy (connection_at (view self.now) conn) }
    {
        match self.connections.get(conn) {
            Some(connection) => connection.is_busy(),
            None => false,
        }
    }

    /// A checkpoint, for when no reply is due: copies home what the commit record names, and clears
    /// that, so that the next change waits for two syncs instead of four. Nothing that a client can
    /// observe changes, and a crash leaves what it might have left before.
    ///
    /// # Errors
    /// Device if the file system is down, or goes down in this call.
    pub fn checkpoint(&mut self) -> Result<(), ServerFault>
        // If it succeeds
        ensures ok { D.keeps_word → OnOk result (Keeps self.old self.new) }
        ensures kept { OnOk result (HasKept (view self.old) (view self.new)) }
        // If the device fails in it
        ensures fails { D.keeps_word → (volume_of self.old).is_down ≡ false
            → OnErr result ((event : runs.Event) → ServerFails self.old self.new event) }
        ensures device { UsesDevice D.keeps_word
            (checkpoint_cost (view self.old).volume.version (view self.old).volume.sectors)
            (view self.old) (view self.new) }
        // If it fails
        ensures refused { IfErr result (RefusesCheckpoint (view self.old) (view self.new)) }
        ensures is_down { (volume_of self.old).is_down ≡ true
            → IsErrOf result ServerFault.Device × IsUntouched (view self.old) (view self.new) }
    {
        if self.fs.is_down() {
            return Err(ServerFault::Device);
        }
        match self.fs.checkpoint() {
            Ok(()) => Ok(()),
            Err(_) => Err(ServerFault::Device),
        }
    }

    /// Hands out the connection's reply record, once; None if there is no reply, and on every
    /// connection while something waits for [`Server::flush`]. A server that is down does so too.
    ///
    /// # Errors
    /// NoConnection.
    pub fn take_output(&mut self, conn: usize) -> Result<Option<Vec<u8>>, ServerFault>
        ensures ok { D.keeps_word → (volume_of self.old).is_down ≡ false
            → waits_of self.old ≡ false
            → IfOk result (λ output. Serves self.old self.new (runs.Takes conn) (gave output)) }
        // While something waits
        ensures none { waits_of self.old ≡ true
            → IfOk result (λ output. (output ≡ None) × IsUntouched (view self.old) (view self.new)) }
        ensures down { D.keeps_word → (volume_of self.old).is_down ≡ true
            → waits_of self.old ≡ false
            → IfOk result (λ output. GivesReply self.old self.new conn (gave output)) }
        // If it fails
        ensures no_connection { IsErrOf result ServerFault.NoConnection
            ↔ (connection_at (view self.old) conn ≡ None) }
        ensures only { IfErr result (λ fault. fault ≡ ServerFault.NoConnection) }
        ensures err { OnErr result (world_of self.new ≡ world_of self.old) }
        ensures volume { files_of self.new ≡ files_of self.old }
        ensures failures { server_failures self.new ≡ server_failures self.old }
    {
        let waits = self.fs.waits();
        if waits {
            if self.connections.contains(conn) {
                return Ok(None);
            }
            return Err(ServerFault::NoConnection);
        }
        match self.connections.get_mut(conn) {
            Some(connection) => Ok(connection.take_output()),
            None => Err(ServerFault::NoConnection),
        }
    }
}
