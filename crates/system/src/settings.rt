//! The settings of a server that is given none.

use server::{Holding, ServerName, Settings};
use std::alloc::{AllocError, Global};

/// A server of the standard name that holds these replies, whose full tables give up nothing.
pub fn standard_settings(alloc: Global, holding: Holding) -> Result<Settings, AllocError> {
    Ok(Settings {
        name: ServerName::standard(alloc)?,
        holding,
        yields_when_full: false,
    })
}
