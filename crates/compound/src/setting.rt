//! SETATTR (RFC 8881, section 18.30).

ghost use Rattle.std.specs.Prelude.{◌≡◌, IsTrue};
ghost use Rattle.xdr.specs.Forms.{is_trimmed};
ghost use Rattle.model.specs.Operations.Answer.{Answer as Answered};
ghost use Rattle.model.specs.Attributes.Attribute.{trimmed};
ghost use Rattle.compound.specs.Operates.{IsShortOutcome};

use crate::engine::Engine;
use crate::executed::{Effect, Executed};
use crate::fault::Fault;
use crate::removing::change_info;
use crate::results::MAX_REPLY_BYTES;
use crate::running::Running;
use disk::Device;
use fs::Setting;
use opens::Access;
use wire::{Answer, Bitmap, CreateAnswer, Operation, Outcome, SetAttrArguments};
use wire_attributes::GivenAttributes;

impl Running<'_> {
    ghost use Rattle.std.specs.Prelude.{◌≡◌, nat_le, length};
    ghost use Rattle.model.specs.Operations.Answer.{Answer as Answered, Done};
    ghost use Rattle.model.specs.Attributes.Attribute.{trimmed};
    ghost use Rattle.model.specs.Operations.Operation as operations;
    ghost use Rattle.model.specs.Server.World.{reply_with};
    ghost use Rattle.wire.specs.ArgumentViews.{set_attr_view};
    ghost use Rattle.compound.specs.Engines.{Changes, files_in};
    ghost use Rattle.compound.specs.States.{CanServe};
    ghost use Rattle.compound.specs.Views.{in_progress_of};

    /// SETATTR: nothing is set if the reply has no room for the result.
    pub(crate) fn set_attributes<D: Device>(
        &self,
        engine: &mut Engine<'_, D>,
        arguments: &SetAttrArguments<'_>,
    ) -> Result<Executed, Fault>
        requires { CanServe (files_in engine.old) (in_progress_of self.now) }
        ensures { Changes engine.old engine.new (in_progress_of self.now)
            (operations.Argument.SetAttr (set_attr_view arguments.now)) result }
    {
        let number = match self.current_node() {
            Ok(number) => number,
            Err(status) => return Ok(self.refuse(Operation::SetAttr, status)),
        };
        let has_room = self.has_set_room(&arguments.attributes.bitmap);
        let verdict = self.verdict(engine.opens, &arguments.state, Access::WRITE);
        let asked = Setting {
            number,
            verdict,
            attributes: GivenAttributes {
                bitmap: arguments.attributes.bitmap.as_slice(),
                values: arguments.attributes.values,
            },
        };
        match engine
            .fs
            .set_attributes(self.cred, engine.moment, asked, has_room)
        {
            Ok(()) => Ok(Executed::Gives {
                outcome: attributes_set(&arguments.attributes.bitmap),
                effect: Effect::Stays,
            }),
            Err(fault) => self.tell_fault(Operation::SetAttr, fault),
        }
    }

    /// Whether the reply has room for the result of a SETATTR.
    fn has_set_room(&self, bitmap: &Bitmap) -> bool
        ensures { result ≡ nat_le (length (reply_with (in_progress_of self.now)
            (Done (Answered.SetAttr (trimmed bitmap.now))))) MAX_REPLY_BYTES }
    {
        self.has_room(&attributes_set(bitmap))
    }
}

/// The result of a SETATTR: which attributes were set.
fn attributes_set(bitmap: &Bitmap) -> Outcome<'static>
    ensures { IsShortOutcome (Answered.SetAttr (trimmed bitmap.now)) result }
{
    Outcome::short(Answer::SetAttr(was_set(bitmap)))
}

/// The bitmap of what was set, given this one: it ends in no zero word.
pub(crate) fn was_set(given: &Bitmap) -> Bitmap
    ensures is { result ≡ trimmed given.now }
    ensures trimmed { IsTrue (is_trimmed result) }
{
    CreateAnswer::new(change_info(0, 0), given).was_set
}
