//! What a file was opened for.

ghost use Rattle.std.specs.Prelude.{⊤, [], ◌∷◌, codes};

use bitflags::{Flag, Flags, bitflag_items};

/// The access of an open (RFC 8881, section 18.16.3, `share_access`).
#[derive(Clone, Copy, PartialEq, Eq)]
pub struct Access(u32);

bitflag_items! {
    impl Access: u32 {
        const READ = 1;
        const WRITE = 2;
    }
}

impl Flags for Access {
    type Bits = u32;

    ghost exact = { ⊤ };

    ghost table = { (codes "READ", 1) ∷ (codes "WRITE", 2) ∷ [] };

    ghost set_of = { λ access. access.0 };

    fn flags<'a>() -> &'a [Flag<Access>] {
        Access::FLAGS
    }

    fn bits(&self) -> u32 {
        self.0
    }

    fn from_bits_retain(bits: u32) -> Access {
        Access(bits)
    }
}
