//! Why cached nodes do not make a table.

ghost use Rattle.std.specs.Prelude.{◌≡◌};
ghost use Rattle.node_table.specs.declared.fault.TableFault.TheVariants.{Memory};

use std::alloc::AllocError;
use thiserror::Error;

/// Why cached nodes do not make a table.
#[derive(Clone, Copy, Debug, PartialEq, Eq, Error)]
pub enum TableFault {
    /// Two nodes have the same number.
    #[error("two nodes have one number")]
    SameNumber,
    /// Memory ran out.
    #[error("out of memory")]
    Memory,
}

impl From<AllocError> for TableFault {
    ghost from_gives = { λ _ e. e ≡ Memory };

    fn from(_e: AllocError) -> TableFault {
        TableFault::Memory
    }
}
