//! What an operation returns (RFC 8881, section 15.1).

ghost use Rattle.std.specs.Prelude.{◌≡◌};
ghost use Rattle.model_tree.specs.Refusals.Status.{code_of};

/// The statuses that this server returns, with their numbers on the wire.
#[derive(Clone, Copy, Debug, PartialEq, Eq)]
pub enum Status {
    Ok = 0,
    NoEnt = 2,
    Access = 13,
    Exist = 17,
    NotDir = 20,
    IsDir = 21,
    Inval = 22,
    FBig = 27,
    NoSpc = 28,
    NameTooLong = 63,
    NotEmpty = 66,
    Stale = 70,
    BadHandle = 10001,
    NotSupp = 10004,
    TooSmall = 10005,
    ServerFault = 10006,
    BadType = 10007,
    Delay = 10008,
    ShareDenied = 10015,
    ClidInUse = 10017,
    NoFileHandle = 10020,
    MinorVersMismatch = 10021,
    StaleClientId = 10022,
    OldStateId = 10024,
    BadStateId = 10025,
    NotSame = 10027,
    AttrNotSupp = 10032,
    BadXdr = 10036,
    OpenMode = 10038,
    BadOwner = 10039,
    BadChar = 10040,
    BadName = 10041,
    OpIllegal = 10044,
    BadSession = 10052,
    BadSlot = 10053,
    CompleteAlready = 10054,
    SeqMisordered = 10063,
    SequencePos = 10064,
    RepTooBig = 10066,
    TooManyOps = 10070,
    OpNotInSession = 10071,
    ClientIdBusy = 10074,
    SeqFalseRetry = 10076,
    DeadSession = 10078,
    NotOnlyOp = 10081,
}

impl Status {
    /// The number on the wire.
    pub fn code(self) -> u32
        ensures { result ≡ code_of self }
    {
        self as u32
    }
}
