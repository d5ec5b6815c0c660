//! OPEN of a file by its name (RFC 8881, section 18.16, `CLAIM_NULL`).

ghost use Rattle.std.specs.Prelude.{◌≡◌, ◌≤◌, IsTrue, length};
ghost use Rattle.fs.specs.Opening.{set_by, type_of};
ghost use Rattle.model.specs.Operations.Open.{given_by, size_alone};
ghost use Rattle.model.specs.Operations.Operation as operations;
ghost use Rattle.wire_attributes.specs.Given.{given_of};
ghost use Rattle.wire.specs.ArgumentViews.{open_type_view, opening_view};
ghost use Rattle.wire.specs.SmallViews.{attributes_view};
ghost use Rattle.xdr.specs.Forms.{is_trimmed};

use crate::engine::Engine;
use crate::executed::Executed;
use crate::fault::Fault;
use crate::opening::{OpenDone, share_of};
use crate::removing::change_info;
use crate::running::Running;
use crate::setting::was_set;
use disk::Device;
use fs::{How, OpenEffect, OpenRoom, Opening};
use wire::{Attributes, Bitmap, OpenArguments, OpenType, Operation};
use wire_attributes::GivenAttributes;

/// The attribute size, as a bitmap: all that a cut sets.
const SIZE: u32 = 0x10;

/// An OPEN of a file by its name.
#[derive(Drop)]
pub(crate) struct NamedOpen<'a> {
    pub(crate) arguments: &'a OpenArguments<'a>,
    pub(crate) how: &'a OpenType<'a>,
    pub(crate) name: &'a [u8],
    ghost opening: { opening_view arguments.now.opening
        ≡ operations.Opens (open_type_view how.now) (operations.ByName name.now) },
}

impl Running<'_> {
    ghost use Rattle.model.specs.Operations.Operation as operations;
    ghost use Rattle.wire.specs.ArgumentViews.{open_type_view, open_view};
    ghost use Rattle.compound.specs.Beside.{HasOpenRoom};
    ghost use Rattle.compound.specs.Engines.{Changes, files_in};
    ghost use Rattle.compound.specs.States.{CanServe};
    ghost use Rattle.compound.specs.Views.{in_progress_of};

    /// OPEN of a file by its name. No file is opened, created or truncated if the reply has no room
    /// for the result.
    pub(crate) fn open_named<D: Device>(
        &self,
        engine: &mut Engine<'_, D>,
        named: NamedOpen<'_>,
    ) -> Result<Executed, Fault>
        requires { CanServe (files_in engine.old) (in_progress_of self.now) }
        ensures { Changes engine.old engine.new (in_progress_of self.now)
            (operations.Argument.Open (open_view named.entry.arguments.now)) result }
    {
        let directory = match self.current_node() {
            Ok(number) => number,
            Err(status) => return Ok(self.refuse(Operation::Open, status)),
        };
        let opening = Opening {
            directory,
            name: named.name,
            share: share_of(named.arguments),
            how: how_of(named.how),
        };
        let number = engine.fs.file_to_open(opening);
        let asked = self.asked_open(named.arguments, number)?;
        engine.opens.reserve()?;
        let is_full = engine.opens.is_full(engine.fs.limits().opens, &asked);
        let room = self.open_room(named.how);
        match engine
            .fs
            .open_file(self.cred, engine.moment, opening, is_full, room)
        {
            Ok(made) => {
                let done = OpenDone {
                    change: change_info(made.directory.before, made.directory.after),
                    was_set: set_by(made.effect, named.how),
                };
                Ok(self.give_open(engine.opens, asked, done))
            }
            Err(fault) => self.tell_fault(Operation::Open, fault),
        }
    }

    /// Whether the reply has room for the result, by what the open does to its file.
    fn open_room(&self, how: &OpenType<'_>) -> OpenRoom
        ensures { HasOpenRoom (in_progress_of self.now) (open_type_view how.now) result }
    {
        OpenRoom {
            nothing: self.has_opened_room(set_by(OpenEffect::Nothing, how)),
            cut: self.has_opened_room(set_by(OpenEffect::Cut, how)),
            made: self.has_opened_room(set_by(OpenEffect::Made, how)),
        }
    }
}

/// How the file is opened, as a file system is asked.
fn how_of<'a>(how: &'a OpenType<'a>) -> How<'a>
    ensures is { type_of result ≡ open_type_view how.now }
    ensures few { length (given_by (type_of result)).bitmap ≤ 8 }
{
    match how {
        OpenType::NoCreate => How::NoCreate,
        OpenType::Unchecked(given) => How::Unchecked(given_of(given)),
        OpenType::Guarded(given) => How::Guarded(given_of(given)),
    }
}

/// The attributes that are given, as a file system is asked.
fn given_of<'a>(given: &'a Attributes<'a>) -> GivenAttributes<'a>
    ensures is { given_of result ≡ attributes_view given.now }
    ensures few { length result.bitmap.now ≤ 8 }
{
    GivenAttributes {
        bitmap: given.bitmap.as_slice(),
        values: given.values,
    }
}

/// The attributes that an open set, by what it did to its file.
fn set_by(effect: OpenEffect, how: &OpenType<'_>) -> Bitmap
    ensures is { result ≡ set_by effect (open_type_view how.now) }
    ensures trimmed { IsTrue (is_trimmed result) }
{
    match effect {
        OpenEffect::Nothing => Bitmap::new(),
        OpenEffect::Cut => size_alone(),
        OpenEffect::Made => match how {
            OpenType::NoCreate => Bitmap::new(),
            OpenType::Unchecked(given) | OpenType::Guarded(given) => was_set(&given.bitmap),
        },
    }
}

fn size_alone() -> Bitmap
    ensures is { result ≡ size_alone }
    ensures trimmed { IsTrue (is_trimmed result) }
{
    let mut bitmap = Bitmap::new();
    bitmap.push(SIZE);
    bitmap
}
