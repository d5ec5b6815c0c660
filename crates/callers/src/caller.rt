//! Who calls the server: a client of it, and the connection that it uses.

ghost use Rattle.std.specs.Prelude.{All};
ghost use Rattle.wire_client.specs.ArgumentFits.{ArgumentFits};

use crate::fault::ScriptFault;
use crate::link;
use crate::loopback::Connection;
use client::{Client, ClientFault};
use disk::Device;
use model_tree::acl::{Cred, Gids};
use model_tree::status::Status;
use server::{Server, Turn};
use std::alloc::Global;
use std::io::{Read, Write};
use wire::{Argument, Outcome};

/// The number of a client's first record.
const FIRST_XID: u32 = 1;

/// The time of each turn and of each end of a caller's connection.
const MOMENT: u64 = 0;

/// A caller.
#[derive(Drop)]
pub struct Caller<S> {
    client: Client,
    /// None after a restart of the server.
    connection: Option<Connection<S>>,
}

/// The results of a reply: of the operations that ended well, and the status of the one that did
/// not.
#[derive(Drop)]
pub struct Results<'a> {
    /// In their order.
    pub done: Vec<Outcome<'a>>,
    /// None if all ended well.
    pub refusal: Option<Status>,
}

impl<S: Read + Write + Drop> Caller<S> {
    /// A caller that sent nothing.
    pub fn new(
        alloc: Global,
        uid: u32,
        gid: u32,
        connection: Connection<S>,
    ) -> Result<Caller<S>, ScriptFault> {
        let cred = Cred {
            uid,
            gid,
            gids: Gids::new(),
        };
        Ok(Caller {
            client: Client::new(alloc, &cred, b"", FIRST_XID)?,
            connection: Some(connection),
        })
    }

    /// Ends its connection, if it has one.
    pub fn hang_up<D: Device>(self, server: &mut Server<D>) -> Result<(), ScriptFault> {
        match self.number() {
            Some(number) => link::hangup(server, number, MOMENT),
            None => Ok(()),
        }
    }

    /// The number of its connection at the server, if it has one.
    fn number(&self) -> Option<usize> {
        match &self.connection {
            Some(connection) => Some(connection.number),
            None => None,
        }
    }

    /// The server was mounted again: connections, and what was sent over them, are gone.
    pub fn disconnect(&mut self) {
        self.connection = None;
    }

    /// Sends the record of these arguments, and runs turns until the reply to it is there.
    ///
    /// # Errors
    /// Those of `ask` and of `await_reply`.
    pub fn call<D: Device>(
        &mut self,
        server: &mut Server<D>,
        arguments: &[Argument<'_>],
    ) -> Result<Vec<u8>, ScriptFault>
        requires { All ArgumentFits arguments.now }
    {
        self.ask(server, arguments)?;
        self.await_reply(server)
    }

    /// Sends the record of these arguments.
    ///
    /// # Errors
    /// Script without a connection; Pending if a reply is to come; Io if a socket fails; Closed,
    /// Device and Memory as the server returns them.
    pub fn ask<D: Device>(
        &mut self,
        server: &mut Server<D>,
        arguments: &[Argument<'_>],
    ) -> Result<(), ScriptFault>
        requires { All ArgumentFits arguments.now }
    {
        if self.connection.is_none() {
            return Err(ScriptFault::Script);
        }
        link::request(&mut self.client, arguments)?;
        self.begin();
        self.send(server)
    }

    /// Sends the last record again, over this connection, which is the caller's from now on.
    ///
    /// # Errors
    /// Pending if there is no record; else those of `ask`.
    pub fn ask_again<D: Device>(
        &mut self,
        server: &mut Server<D>,
        connection: Connection<S>,
    ) -> Result<(), ScriptFault> {
        self.connection = Some(connection);
        self.begin();
        self.send(server)
    }

    fn begin(&mut self) {
        if let Some(connection) = &mut self.connection {
            connection.begin();
        }
    }

    /// Sends what the server did not take yet of the record whose reply is to come.
    fn send<D: Device>(&mut self, server: &mut Server<D>) -> Result<(), ScriptFault> {
        match &mut self.connection {
            Some(connection) => connection.send(server, link::last_record(&self.client)?),
            None => Err(ScriptFault::Script),
        }
    }

    /// Gives its connection a turn.
    ///
    /// # Errors
    /// Script without a connection; else those of `ask`.
    pub fn turn<D: Device>(&mut self, server: &mut Server<D>) -> Result<Turn, ScriptFault> {
        self.send(server)?;
        match self.number() {
            Some(number) => link::turn(server, number, MOMENT),
            None => Err(ScriptFault::Script),
        }
    }

    /// Runs turns until the reply is there, and takes it.
    ///
    /// # Errors
    /// Script if no reply is to come; Garbled if a turn finds nothing to do before it is there;
    /// else those of `turn`.
    pub fn await_reply<D: Device>(
        &mut self,
        server: &mut Server<D>,
    ) -> Result<Vec<u8>, ScriptFault> {
        if !self.awaits_reply() {
            return Err(ScriptFault::Script);
        }
        for _ in 0..u64::MAX {
            if let Some(reply) = self.receive(server)? {
                return Ok(reply);
            }
            if self.turn(server)? == Turn::Idle {
                break;
            }
        }
        Err(ScriptFault::Garbled)
    }

    /// Whether a reply is to come.
    fn awaits_reply(&self) -> bool {
        match &self.connection {
            Some(connection) => connection.awaits_reply,
            None => false,
        }
    }

    fn receive<D: Device>(
        &mut self,
        server: &mut Server<D>,
    ) -> Result<Option<Vec<u8>>, ScriptFault> {
        match &mut self.connection {
            Some(connection) => connection.receive(server),
            None => Err(ScriptFault::Script),
        }
    }

    /// The results in the reply to its record.
    ///
    /// # Errors
    /// Garbled if the bytes are no reply to it; Rpc if the call was denied or not accepted; Memory.
    pub fn read_reply<'a>(&mut self, reply: &'a [u8]) -> Result<Results<'a>, ScriptFault> {
        match self.client.reply(reply) {
            Ok(done) => Ok(Results {
                done,
                refusal: None,
            }),
            Err(ClientFault::Status { status, before, .. }) => Ok(Results {
                done: before,
                refusal: Some(status),
            }),
            Err(fault) => Err(fault.into()),
        }
    }
}
