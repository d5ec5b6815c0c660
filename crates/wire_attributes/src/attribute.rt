//! The attributes that this server has: their numbers, and which operation may set which.

ghost use Rattle.std.specs.Prelude.{◌≡◌, map};
ghost use Rattle.model.specs.Attributes.Attribute.{has_one_outside, is_among};
ghost use Rattle.wire_attributes.specs.NodeValues.{attribute_number};

/// An attribute (RFC 8881, sections 5.6 to 5.8, and 6), with its number.
#[derive(Clone, Copy, PartialEq, Eq)]
pub enum Attribute {
    SupportedAttrs = 0,
    Kind = 1,
    FhExpireType = 2,
    Change = 3,
    Size = 4,
    LinkSupport = 5,
    SymlinkSupport = 6,
    NamedAttr = 7,
    Fsid = 8,
    UniqueHandles = 9,
    LeaseTime = 10,
    RdattrError = 11,
    Acl = 12,
    AclSupport = 13,
    FileHandle = 19,
    FileId = 20,
    MaxFileSize = 27,
    MaxName = 29,
    MaxRead = 30,
    MaxWrite = 31,
    Mode = 33,
    NumLinks = 35,
    Owner = 36,
    OwnerGroup = 37,
    TimeModify = 53,
    SuppattrExclcreat = 75,
}

/// All of them, by rising number.
pub(crate) const EVERY: [Attribute; 26] = [
    Attribute::SupportedAttrs,
    Attribute::Kind,
    Attribute::FhExpireType,
    Attribute::Change,
    Attribute::Size,
    Attribute::LinkSupport,
    Attribute::SymlinkSupport,
    Attribute::NamedAttr,
    Attribute::Fsid,
    Attribute::UniqueHandles,
    Attribute::LeaseTime,
    Attribute::RdattrError,
    Attribute::Acl,
    Attribute::AclSupport,
    Attribute::FileHandle,
    Attribute::FileId,
    Attribute::MaxFileSize,
    Attribute::MaxName,
    Attribute::MaxRead,
    Attribute::MaxWrite,
    Attribute::Mode,
    Attribute::NumLinks,
    Attribute::Owner,
    Attribute::OwnerGroup,
    Attribute::TimeModify,
    Attribute::SuppattrExclcreat,
];

impl Attribute {
    /// Its number: bit n % 32 of word n / 32 of a bitmap asks for it.
    pub fn number(self) -> u32
        ensures { result ≡ attribute_number self }
    {
        self as u32
    }
}

/// Those that SETATTR may set.
pub const SETTABLE_AT_SETATTR: [Attribute; 5] = [
    Attribute::Size,
    Attribute::Acl,
    Attribute::Mode,
    Attribute::Owner,
    Attribute::OwnerGroup,
];

/// Those that OPEN may set on a file that it makes.
pub const SETTABLE_AT_OPEN: [Attribute; 3] = [Attribute::Size, Attribute::Acl, Attribute::Mode];

/// Those that CREATE may set.
pub const SETTABLE_AT_CREATION: [Attribute; 2] = [Attribute::Acl, Attribute::Mode];

/// Whether one of these attributes has this number.
fn have_number(attributes: &[Attribute], number: u32) -> bool
    ensures { result ≡ is_among (map attribute_number attributes.now) number }
{
    match attributes.split_first() {
        Some((first, rest)) => number == first.number() || have_number(rest, number),
        None => false,
    }
}

/// Whether one of the numbers is that of none of these attributes.
pub(crate) fn has_one_outside(attributes: &[Attribute], numbers: &[u32]) -> bool
    ensures { result ≡ has_one_outside (map attribute_number attributes.now) numbers.now }
{
    numbers
        .iter()
        .any(|&number| !have_number(attributes, number))
}

/// Whether the attribute's number is among these.
pub fn is_among(numbers: &[u32], attribute: Attribute) -> bool
    ensures { result ≡ is_among numbers.now (attribute_number attribute) }
{
    let asked = attribute.number();
    numbers.iter().any(|&number| asked == number)
}
