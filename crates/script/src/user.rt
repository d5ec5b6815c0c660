//! A user of the script.

use callers::{Caller, ScriptFault};
use std::alloc::Global;

/// What EXCHANGE_ID returns about a client.
#[derive(Clone, Copy)]
pub struct Known {
    /// The client's number.
    pub id: u64,
    /// The sequence that its CREATE_SESSION is to have.
    pub sequence: u32,
}

/// A user, which the server knows.
#[derive(Drop)]
pub struct User<S> {
    pub name: String,
    /// What the server last returned about it.
    pub known: Known,
    /// Whether it may send operations.
    pub has_session: bool,
    /// The words for what its last record asks for.
    pub words: Vec<&'static str>,
    pub caller: Caller<S>,
}

impl<S: Drop> User<S> {
    /// A user that has just made itself known.
    pub fn new(
        alloc: Global,
        name: &str,
        known: Known,
        caller: Caller<S>,
    ) -> Result<User<S>, ScriptFault> {
        Ok(User {
            name: String::from_str(alloc, name)?,
            known,
            has_session: false,
            words: vec![in alloc; "hello"]?,
            caller,
        })
    }
}
