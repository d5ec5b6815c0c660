//! Access control lists as modes set them and as new nodes get them (RFC 8881, sections 6.3 and
//! 6.4).
//!
//! Each call returns exactly what `model_tree`'s definitions give.
#![tactic(auto)]

pub use acl_eval::{Ace, AceFlags, AceKind, Acl, Mask, NodeKind, Who};
pub use fault::AclFault;
pub use inheritance::{Given, are_flags_for, at_creation, first_refused, inherit};
pub use lists::is_list_for;
pub use modes::{MAX_MODE, mode_of, with_mode};

mod fault;
mod inheritance;
mod lists;
mod modes;
