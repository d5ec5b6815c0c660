//! A server and its peers, each on a connection of its own.

use crate::delayed::Answered;
use crate::inbox::Inbox;
use crate::keeping::Keeping;
use crate::peer::{Peer, Step};
use crate::stream::Stream;
use disk::Device;
use server::{MAX_CONNECTIONS, Server, ServerFault};
use slab::Slab;
use std::alloc::{AllocError, Global};
use std::time::Instant;
use system::{Refused, WallClock};

/// A server, and the peers that it is served to.
#[derive(Drop)]
pub struct Peers<D: Device, S: Stream + Drop> {
    server: Server<D>,
    peers: Slab<Peer<S>>,
    /// When the changes of a turn are kept.
    keeping: Keeping,
}

/// What a step of a peer has left.
#[derive(Drop)]
pub struct Stepped<S: Drop> {
    pub step: Step,
    /// Its reply, if one was made in this step.
    pub answered: Option<Answered>,
    /// The stream of a peer that has ended.
    pub closed: Option<S>,
}

/// A stream that is not served, and why.
#[derive(Drop)]
pub struct NotAdmitted<S: Drop> {
    pub fault: ServerFault,
    pub stream: S,
}

impl<D: Device, S: Stream + Drop> Peers<D, S> {
    ghost use Rattle.std.specs.Prelude.{◌≡◌, [], ℕ, false, IfOk, IfErr, OnOk, OnErr, option_copied};
    ghost use Rattle.slab.specs.Slab.{get, slab_len};
    ghost use Rattle.server.specs.Views.{waits_of};
    ghost use Rattle.std.specs.Option.{option_map};
    ghost use Rattle.peer.specs.Between.{AddsPeer, ChangesPeer, IsDismissed, IsWoken, LeavesPeers};
    ghost use Rattle.peer.specs.Rounds.{EveryRound, StepsKey};
    ghost use Rattle.peer.specs.Served.{EveryWire, ServesFurther, ServesNone, ServesOneMore};

    /// No peer yet.
    pub fn new(
        alloc: Global,
        server: Server<D>,
        keeping: Keeping,
    ) -> Result<Peers<D, S>, AllocError>
        ensures { IfOk result (λ all. (all.server ≡ server)
            × ServesNone D.keeps_word server (get all.peers)) }
    {
        Ok(Peers {
            server,
            peers: Slab::with_capacity(alloc, MAX_CONNECTIONS)?,
            keeping,
        })
    }

    /// Takes the memory for one more peer, whose bytes the result takes.
    pub fn make_room(&mut self, alloc: Global) -> Result<Inbox, AllocError>
        ensures serves { ServesFurther D.keeps_word self.old.server self.new.server
            (get self.old.peers) (get self.new.peers) }
        ensures leaves { LeavesPeers D.keeps_word self.old.server self.new.server
            (get self.old.peers) (get self.new.peers) }
        ensures empty { IfOk result (λ inbox. inbox ≡ []) }
    {
        self.peers.reserve(1)?;
        Inbox::new(alloc)
    }

    /// Has a peer served that came by this stream, and returns its key.
    ///
    /// # Errors
    /// Those of [`Server::connect`]: the stream is the caller's, and all is as before.
    pub fn admit(&mut self, inbox: Inbox, stream: S, now: Instant) -> Result<usize, NotAdmitted<S>>
        requires { inbox ≡ [] }
        ensures ok { IfOk result (λ key. ServesOneMore D.keeps_word self.old.server
            self.new.server stream (get self.old.peers) (get self.new.peers)) }
        ensures err { OnErr result (ServesFurther D.keeps_word self.old.server self.new.server
            (get self.old.peers) (get self.new.peers)) }
        ensures adds { IfOk result (λ key. AddsPeer D.keeps_word key stream now self.old.server
            self.new.server (get self.old.peers) (get self.new.peers)) }
        ensures leaves { OnErr result (LeavesPeers D.keeps_word self.old.server self.new.server
            (get self.old.peers) (get self.new.peers)) }
        ensures key { IfOk result (λ key. key ≡ self.old.peers.vacant_key) }
        ensures back { IfErr result (λ refused. refused.stream ≡ stream) }
    {
        let Ok(()) = self.peers.reserve(1) else {
            return Err(NotAdmitted {
                fault: ServerFault::Memory,
                stream,
            });
        };
        match self.server.connect() {
            Ok(conn) => {
                let peer = Peer::new(conn, stream, inbox, self.keeping, now);
                Ok(self.peers.insert_reserved(peer))
            }
            Err(fault) => Err(NotAdmitted { fault, stream }),
        }
    }

    /// The peer of this key has a step, if there is one: see [`Peer::step`]. One that has ended is
    /// no longer there.
    ///
    /// # Errors
    /// What ends the program: a failure of the device or the clock.
    pub fn step<C: WallClock>(
        &mut self,
        key: usize,
        clock: &C,
        now: Instant,
    ) -> Result<Option<Stepped<S>>, Refused>
        ensures serves { ServesFurther D.keeps_word self.old.server self.new.server
            (get self.old.peers) (get self.new.peers) }
        // A peer that has bytes is fed them and given a turn
        ensures fair { IfOk result (λ done. StepsKey D.keeps_word key self.old.server
            self.new.server (get self.old.peers) (get self.new.peers)
            (option_map (λ stepped. stepped.step) done)) }
    {
        let Some(peer) = self.peers.get_mut(key) else {
            return Ok(None);
        };
        let step = peer.step(&mut self.server, clock, now)?;
        let answered = peer.take_answered();
        match step {
            Step::Stays(_) => Ok(Some(Stepped {
                step,
                answered,
                closed: None,
            })),
            Step::Ended => {
                let gone = self.peers.try_remove(key);
                Ok(Some(Stepped {
                    step,
                    answered,
                    closed: stream_of(gone),
                }))
            }
        }
    }

    /// Keeps what waits of the changes of all peers, with one flush: then their replies can be
    /// taken. Returns whether something waited.
    ///
    /// # Errors
    /// Those of [`Server::flush`].
    pub fn flush(&mut self) -> Result<bool, ServerFault>
        ensures serves { ServesFurther D.keeps_word self.old.server self.new.server
            (get self.old.peers) (get self.new.peers) }
        ensures leaves { LeavesPeers D.keeps_word self.old.server self.new.server
            (get self.old.peers) (get self.new.peers) }
        ensures kept { OnOk result (waits_of self.new.server ≡ false) }
        ensures waited { IfOk result (λ waited. waited ≡ waits_of self.old.server) }
    {
        let waited = self.server.waits();
        if waited {
            self.server.flush()?;
        }
        Ok(waited)
    }

    /// See [`Server::checkpoint`].
    pub fn checkpoint(&mut self) -> Result<(), ServerFault>
        ensures serves { ServesFurther D.keeps_word self.old.server self.new.server
            (get self.old.peers) (get self.new.peers) }
        ensures leaves { LeavesPeers D.keeps_word self.old.server self.new.server
            (get self.old.peers) (get self.new.peers) }
    {
        self.server.checkpoint()
    }

    /// Takes what the system reported of a peer's stream.
    pub fn wake(&mut self, key: usize, can_read: bool, can_write: bool)
        ensures serves { ServesFurther D.keeps_word self.old.server self.new.server
            (get self.old.peers) (get self.new.peers) }
        ensures wakes { ChangesPeer key (IsWoken can_read can_write) self.old.server
            self.new.server (get self.old.peers) (get self.new.peers) }
    {
        if let Some(peer) = self.peers.get_mut(key) {
            peer.wake(can_read, can_write);
        }
    }

    /// Ends a peer with its next step.
    pub fn dismiss(&mut self, key: usize)
        ensures serves { ServesFurther D.keeps_word self.old.server self.new.server
            (get self.old.peers) (get self.new.peers) }
        ensures dismisses { ChangesPeer key IsDismissed self.old.server self.new.server
            (get self.old.peers) (get self.new.peers) }
    {
        if let Some(peer) = self.peers.get_mut(key) {
            peer.dismiss();
        }
    }

    /// What its peers were served is of a run of the server, of which `server::every_run` and
    /// `server::every_life` speak.
    pub fn every_wire(&self)
        ensures { EveryWire D.keeps_word self.now.server (get self.now.peers) }
    {}

    /// If each key has a step, one after the other, each peer that had bytes before is given a
    /// turn, and those that waited are shown to the server, or it ends, unless there was no memory
    /// for it.
    pub fn every_round(&self)
        ensures { EveryRound D.keeps_word self.now.server (get self.now.peers) }
    {}

    /// How many peers there are.
    pub fn count(&self) -> usize
        ensures { result ≡ slab_len self.now.peers }
    {
        self.peers.len()
    }

    /// The key that the next peer will have.
    pub fn next_key(&self) -> usize
        ensures { result ≡ self.now.peers.vacant_key }
    {
        self.peers.vacant_key()
    }

    /// A peer, for inspection.
    pub fn get(&self, key: usize) -> Option<&Peer<S>>
        ensures { option_copied result ≡ get self.now.peers key }
    {
        self.peers.get(key)
    }

    /// The server, for inspection.
    pub fn server(&self) -> &Server<D>
        ensures { result.now ≡ self.now.server }
    {
        &self.server
    }

    /// The server: the peers are gone.
    pub fn into_server(self) -> Server<D>
        ensures { result ≡ self.server }
    {
        let Peers { server, .. } = self;
        server
    }
}

fn stream_of<S: Stream + Drop>(peer: Option<Peer<S>>) -> Option<S> {
    Some(peer?.into_stream())
}
