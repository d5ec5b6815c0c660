//! Why there is no list.

use std::alloc::AllocError;
use thiserror::Error;

/// Why a call returns no list.
#[derive(Debug, Drop, Error)]
pub enum AclFault {
    #[error("out of memory")]
    Memory,
    /// The index of the first entry that the node may not have.
    #[error("entry {0} of the list is not allowed on this node")]
    Ace(usize),
}

impl From<AllocError> for AclFault {
    ghost use Rattle.std.specs.Prelude.{◌≡◌};
    ghost use Rattle.acl_set.specs.declared.fault.AclFault.TheVariants.{Memory};

    ghost from_gives = { λ _ fault. fault ≡ Memory };

    fn from(_error: AllocError) -> AclFault {
        AclFault::Memory
    }
}
