//! One open.

ghost use Rattle.std.specs.Prelude.{◌<◌, ◌^◌};

use crate::access::Access;
use crate::found::StateIdContext;
use bitflags::Flags;
use std::alloc::{AllocError, Global};

/// Who opened which file, and how.
#[derive(Drop)]
pub struct Open {
    pub client: u64,
    /// The client's name of its owner.
    pub owner: Vec<u8>,
    /// The file's node.
    pub number: u64,
    pub access: Access,
    /// How often it was opened: after `u32::MAX` comes 1.
    pub seqid: u32,
    ghost numbered: { number < 2 ^ 64 },
}

/// An open in the table, under its serial.
#[derive(Drop)]
pub struct Entry {
    pub serial: u64,
    pub state: Open,
    // no node has the number 0
    ghost numbered: { 0 < state.number },
}

impl Open {
    ghost use Rattle.std.specs.Prelude.{◌≡◌, IfOk};
    ghost use Rattle.model.specs.Sessions.StateIds.{upgraded, new_open};
    ghost use Rattle.opens.specs.Views.{open_of};

    /// What a client asks for. The owner is copied.
    pub fn new(
        alloc: Global,
        client: u64,
        owner: &[u8],
        number: u64,
        access: Access,
    ) -> Result<Open, AllocError>
        ensures { IfOk result (λ asked. open_of asked ≡ new_open client owner.now number access.0) }
    {
        Ok(Open {
            client,
            owner: Vec::from_slice(alloc, owner)?,
            number,
            access,
            seqid: 1,
        })
    }

    /// Adds the access that is asked for once more.
    pub(crate) fn join(&mut self, access: Access)
        ensures { open_of self.new ≡ upgraded access.0 (open_of self.old) }
    {
        self.access = self.access.union(access);
        self.seqid = if self.seqid == u32::MAX {
            1
        } else {
            self.seqid + 1
        };
    }
}

impl Entry {
    ghost use Rattle.std.specs.Prelude.{◌≡◌, ◌==◌, ◌&&◌};
    ghost use Rattle.model.specs.Sessions.StateIds.{is_like};
    ghost use Rattle.opens.specs.Views.{entry_of, open_of};

    /// Whether it is an open of the same client and owner on the same file.
    pub(crate) fn is_like(&self, asked: &Open) -> bool
        ensures { result ≡ is_like (open_of asked.now) (entry_of self.now) }
    {
        self.state.client == asked.client
            && self.state.owner.as_slice() == asked.owner.as_slice()
            && self.state.number == asked.number
    }

    /// Whether it is an open of the client on the file of the context.
    pub(crate) fn is_of(&self, id_context: &StateIdContext) -> bool
        ensures { result ≡ (self.now.state.client == id_context.now.client
            && self.now.state.number == id_context.now.number) }
    {
        self.state.client == id_context.client && self.state.number == id_context.number
    }
}
