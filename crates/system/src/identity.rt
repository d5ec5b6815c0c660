//! The identity of a volume of version 3, as text.

ghost use Rattle.std.specs.Prelude.{◌≡◌, None, Some, IfOk, MatchOption};
ghost use Rattle.std.specs.String.{string_bytes};
ghost use Rattle.system.specs.Identity.{digits_of};

use hex::encode;
use layout::versions::VersionNumber;
use std::alloc::{AllocError, Global};

/// The identity of a volume, as 32 hexadecimal digits in lower case; None: its version has none.
pub fn identity_of(alloc: Global, version: VersionNumber) -> Result<Option<String>, AllocError>
    ensures { IfOk result (λ found. MatchOption found (digits_of version ≡ None)
        (λ text. digits_of version ≡ Some (string_bytes text))) }
{
    match version {
        VersionNumber::One | VersionNumber::Two => Ok(None),
        VersionNumber::Three(superblock) => Ok(Some(encode(alloc, superblock.identity)?)),
    }
}
