//! Attributes as a client gives them (RFC 8881, section 3.3.9, `fattr4`).

ghost use Rattle.std.specs.Prelude.{◌≤◌, length};

use bitflags::Flags;
use model_tree::acl::{Ace, AceFlags, AceKind, Acl, Mask, Who};
use std::alloc::Global;
use wire_attributes::{Attribute, text_of};
use xdr::{Refusal, Writer};

/// What a node is to have.
#[derive(Drop)]
pub(crate) struct Wanted {
    pub(crate) owner: u32,
    pub(crate) group: u32,
    /// The nine permission bits, which count if there is no list.
    pub(crate) mode: u32,
    pub(crate) acl: Option<Acl>,
    /// When it was modified last, in nanoseconds since 1970.
    pub(crate) time: u64,
}

/// Attributes, encoded.
#[derive(Drop)]
pub(crate) struct Encoded {
    bitmap: [u32; 2],
    values: Vec<u8>,
}

/// The bit of an attribute in its word of a bitmap.
fn bit(attribute: Attribute) -> u32 {
    1 << (attribute.number() % 32)
}

impl Encoded {
    pub(crate) fn bitmap(&self) -> &[u32]
        ensures { length result.now ≤ 8 }
    {
        &self.bitmap
    }

    pub(crate) fn values(&self) -> &[u8] {
        &self.values
    }

    /// A list by which only the owner has rights, and all of them.
    pub(crate) fn owner_only(alloc: Global) -> Result<Encoded, Refusal> {
        let all = Ace {
            kind: AceKind::Allow,
            flags: AceFlags::empty(),
            mask: Mask::all(),
            who: Who::Owner,
        };
        let mut w = Writer::new(alloc);
        write_list(alloc, &mut w, &[all])?;
        Ok(Encoded {
            bitmap: [bit(Attribute::Acl), 0],
            values: w.into_vec(),
        })
    }

    /// What a node is to have, and of a file its size, which sets its time.
    pub(crate) fn of(
        alloc: Global,
        size: Option<u64>,
        wanted: &Wanted,
    ) -> Result<Encoded, Refusal> {
        let mut w = Writer::new(alloc);
        let mut bitmap = [0, bit(Attribute::Owner) | bit(Attribute::OwnerGroup)];
        if let Some(size) = size {
            bitmap[0] |= bit(Attribute::Size);
            w.write_u64(size)?;
        }
        match &wanted.acl {
            Some(acl) => {
                bitmap[0] |= bit(Attribute::Acl);
                write_list(alloc, &mut w, acl.as_slice())?;
            }
            None => {
                bitmap[1] |= bit(Attribute::Mode);
                w.write_u32(wanted.mode)?;
            }
        }
        write_text(&mut w, &text_of(alloc, Who::User(wanted.owner))?)?;
        write_text(&mut w, &text_of(alloc, Who::NamedGroup(wanted.group))?)?;
        Ok(Encoded {
            bitmap,
            values: w.into_vec(),
        })
    }
}

fn write_list(alloc: Global, w: &mut Writer, entries: &[Ace]) -> Result<(), Refusal> {
    let count = u32::try_from(entries.len()).map_err(|_| Refusal::Long)?;
    w.write_u32(count)?;
    for ace in entries {
        write_entry(alloc, w, ace)?;
    }
    Ok(())
}

fn write_entry(alloc: Global, w: &mut Writer, ace: &Ace) -> Result<(), Refusal> {
    let flags = match ace.who {
        Who::NamedGroup(_) => ace.flags.union(AceFlags::IDENTIFIER_GROUP),
        Who::Owner | Who::Group | Who::Everyone | Who::User(_) => ace.flags,
    };
    w.write_u32(ace.kind as u32)?;
    w.write_u32(flags.bits())?;
    w.write_u32(ace.mask.bits())?;
    write_text(w, &text_of(alloc, ace.who)?)
}

fn write_text(w: &mut Writer, text: &str) -> Result<(), Refusal> {
    let length = u32::try_from(text.len()).map_err(|_| Refusal::Long)?;
    w.write_u32(length)?;
    w.write_fixed(text.as_bytes())
}
