//! The flags of EXCHANGE_ID and of CREATE_SESSION (RFC 8881, sections 18.35 and 18.36).

ghost use Rattle.std.specs.Prelude.{⊤, ◌≡◌, [], ◌∷◌, codes};
ghost use Rattle.model.specs.Sessions.Session.{exchange_flags, has_only, session_flags};

use bitflags::{Flag, Flags, bitflag_items};

/// The flags of EXCHANGE_ID (`EXCHGID4_FLAG_`).
#[derive(Clone, Copy, PartialEq, Eq)]
pub struct ExchangeFlags(u32);

bitflag_items! {
    impl ExchangeFlags: u32 {
        const SUPP_MOVED_REFER = 0x1;
        const SUPP_MOVED_MIGR = 0x2;
        const BIND_PRINC_STATEID = 0x100;
        const USE_NON_PNFS = 0x10000;
        const USE_PNFS_MDS = 0x20000;
        const USE_PNFS_DS = 0x40000;
        /// Only in a result: the client's record is confirmed.
        const CONFIRMED = 0x80000000;
    }
}

impl Flags for ExchangeFlags {
    type Bits = u32;

    ghost exact = { ⊤ };

    ghost table = { (codes "SUPP_MOVED_REFER", 0x1) ∷ (codes "SUPP_MOVED_MIGR", 0x2)
        ∷ (codes "BIND_PRINC_STATEID", 0x100) ∷ (codes "USE_NON_PNFS", 0x10000)
        ∷ (codes "USE_PNFS_MDS", 0x20000) ∷ (codes "USE_PNFS_DS", 0x40000)
        ∷ (codes "CONFIRMED", 0x80000000) ∷ [] };

    ghost set_of = { λ flags. flags.0 };

    fn flags<'a>() -> &'a [Flag<ExchangeFlags>] {
        ExchangeFlags::FLAGS
    }

    fn bits(&self) -> u32 {
        self.0
    }

    fn from_bits_retain(bits: u32) -> ExchangeFlags {
        ExchangeFlags(bits)
    }
}

impl ExchangeFlags {
    /// Whether a client may set them: each but CONFIRMED, and none without a name here.
    pub fn may_be_asked(self) -> bool
        ensures { result ≡ has_only exchange_flags self.0 }
    {
        ExchangeFlags::all()
            .difference(ExchangeFlags::CONFIRMED)
            .contains(self)
    }
}

/// The flags of CREATE_SESSION (`CREATE_SESSION4_FLAG_`).
#[derive(Clone, Copy, PartialEq, Eq)]
pub struct SessionFlags(u32);

bitflag_items! {
    impl SessionFlags: u32 {
        const PERSIST = 0x1;
        const CONN_BACK_CHAN = 0x2;
        const CONN_RDMA = 0x4;
    }
}

impl Flags for SessionFlags {
    type Bits = u32;

    ghost exact = { ⊤ };

    ghost table = { (codes "PERSIST", 0x1) ∷ (codes "CONN_BACK_CHAN", 0x2)
        ∷ (codes "CONN_RDMA", 0x4) ∷ [] };

    ghost set_of = { λ flags. flags.0 };

    fn flags<'a>() -> &'a [Flag<SessionFlags>] {
        SessionFlags::FLAGS
    }

    fn bits(&self) -> u32 {
        self.0
    }

    fn from_bits_retain(bits: u32) -> SessionFlags {
        SessionFlags(bits)
    }
}

impl SessionFlags {
    /// Whether a client may set them: none without a name here.
    pub fn may_be_asked(self) -> bool
        ensures { result ≡ has_only session_flags self.0 }
    {
        SessionFlags::all().contains(self)
    }
}
