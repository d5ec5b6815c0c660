//! CREATE, LOOKUP and LOOKUPP (RFC 8881, sections 18.4, 18.13 and 18.14).

ghost use Rattle.std.specs.Prelude.{◌≡◌};

use crate::engine::Engine;
use crate::executed::{Effect, Executed};
use crate::fault::Fault;
use crate::reading::Reading;
use crate::results::MAX_REPLY_BYTES;
use crate::running::Running;
use disk::Device;
use fs::{FsFault, NewDirectory};
use model_tree::status::Status;
use wire::{
    Answer, Attributes, Bitmap, ChangeInfo, CreateAnswer, CreateArguments, Operation, Outcome,
};
use wire_attributes::GivenAttributes;

impl<D: Device> Reading<'_, '_, D> {
    ghost use Rattle.std.specs.Prelude.{IfErr};
    ghost use Rattle.model.specs.Operations.Operation as operations;
    ghost use Rattle.wire.specs.Short.{IsRefusal};
    ghost use Rattle.compound.specs.Readings.{ReadsAs, files_read, request_read};
    ghost use Rattle.compound.specs.Trees.{TestsHandle};

    /// The tests of the current filehandle: NOFILEHANDLE if there is none, STALE if its node is
    /// gone.
    pub(crate) fn check_current(&self) -> Result<(), Status>
        ensures tests { TestsHandle (files_read self.now) (request_read self.now) result }
        ensures refused { IfErr result IsRefusal }
    {
        let number = match self.running.current_node() {
            Ok(number) => number,
            Err(status) => return Err(status),
        };
        match self.fs.check_node(number) {
            Ok(()) => Ok(()),
            Err(fault) => Err(status_of(fault)),
        }
    }

    /// LOOKUP (section 18.13): the node that the name leads to is the current one.
    pub(crate) fn look_up(&self, name: &[u8]) -> Executed
        ensures { ReadsAs self.now (operations.Argument.Lookup name.now) result }
    {
        let running = self.running;
        let directory = match running.current_node() {
            Ok(number) => number,
            Err(status) => return running.refuse(Operation::Lookup, status),
        };
        match self.fs.lookup(running.cred, directory, name) {
            Ok(number) => running.settle(Answer::Lookup, Effect::Moves(number)),
            Err(fault) => running.refuse(Operation::Lookup, status_of(fault)),
        }
    }

    /// LOOKUPP (section 18.14): the directory that has the name of the current one is the current
    /// node.
    pub(crate) fn look_up_parent(&self) -> Executed
        ensures { ReadsAs self.now operations.Argument.LookupParent result }
    {
        let running = self.running;
        let directory = match running.current_node() {
            Ok(number) => number,
            Err(status) => return running.refuse(Operation::LookupParent, status),
        };
        match self.fs.parent(running.cred, directory) {
            Ok(number) => running.settle(Answer::LookupParent, Effect::Moves(number)),
            Err(fault) => running.refuse(Operation::LookupParent, status_of(fault)),
        }
    }

    /// CREATE of anything except a directory, which is refused.
    fn create_other(&self, kind: u32) -> Executed
        ensures { ReadsAs self.now (operations.Argument.Create (operations.OtherType kind)) result }
    {
        match self.check_current() {
            Ok(()) => self.running.refuse(Operation::Create, Status::BadType),
            Err(status) => self.running.refuse(Operation::Create, status),
        }
    }
}

impl Running<'_> {
    ghost use Rattle.std.specs.Prelude.{◌≡◌, nat_le, length};
    ghost use Rattle.fs.specs.Operations.{new_directory};
    ghost use Rattle.model.specs.Operations.Operation as operations;
    ghost use Rattle.model.specs.Operations.Answer.{Done};
    ghost use Rattle.model.specs.Attributes.Attribute.{trimmed};
    ghost use Rattle.model.specs.Server.World.{reply_with};
    ghost use Rattle.wire.specs.ArgumentViews.{create_view};
    ghost use Rattle.wire.specs.SmallViews.{attributes_view};
    ghost use Rattle.compound.specs.Engines.{Changes, files_in};
    ghost use Rattle.compound.specs.States.{CanServe};
    ghost use Rattle.compound.specs.Trees.{made_answer};
    ghost use Rattle.compound.specs.Views.{in_progress_of};

    /// CREATE (section 18.4).
    pub(crate) fn create<D: Device>(
        &self,
        engine: &mut Engine<'_, D>,
        arguments: &CreateArguments<'_>,
    ) -> Result<Executed, Fault>
        requires { CanServe (files_in engine.old) (in_progress_of self.now) }
        ensures { Changes engine.old engine.new (in_progress_of self.now)
            (operations.Argument.Create (create_view arguments.now)) result }
    {
        match arguments {
            CreateArguments::NewDirectory { name, attributes } => {
                self.create_directory(engine, name, attributes)
            }
            CreateArguments::OtherType(kind) => {
                let reading = Reading {
                    running: self,
                    fs: engine.fs,
                };
                Ok(reading.create_other(*kind))
            }
        }
    }

    /// CREATE of a directory (section 18.4): it is the current node. Nothing is created if the
    /// reply has no room for the result.
    fn create_directory<D: Device>(
        &self,
        engine: &mut Engine<'_, D>,
        name: &[u8],
        attributes: &Attributes<'_>,
    ) -> Result<Executed, Fault>
        requires { CanServe (files_in engine.old) (in_progress_of self.now) }
        ensures { Changes engine.old engine.new (in_progress_of self.now)
            (new_directory name.now (attributes_view attributes.now)) result }
    {
        let parent = match self.current_node() {
            Ok(number) => number,
            Err(status) => return Ok(self.refuse(Operation::Create, status)),
        };
        let has_room = self.has_created_room(&attributes.bitmap);
        let asked = NewDirectory {
            parent,
            name,
            attributes: GivenAttributes {
                bitmap: attributes.bitmap.as_slice(),
                values: attributes.values,
            },
        };
        match engine
            .fs
            .make_dir(self.cred, engine.moment, asked, has_room)
        {
            Ok(made) => Ok(Executed::Gives {
                outcome: created(&attributes.bitmap, made.before, made.number),
                effect: Effect::Moves(made.number),
            }),
            Err(FsFault::Status(status)) => Ok(self.refuse(Operation::Create, status)),
            Err(FsFault::NoRoom) => Ok(self.refuse(Operation::Create, Status::RepTooBig)),
            Err(FsFault::Memory) => Err(Fault::Memory),
            Err(FsFault::Device) => Err(Fault::Device),
            Err(FsFault::Down) => unreachable!(),
        }
    }

    /// Whether the reply has room for the result of a CREATE of a directory. The change values do
    /// not matter.
    fn has_created_room(&self, bitmap: &Bitmap) -> bool
        ensures { result ≡ nat_le (length (reply_with (in_progress_of self.now)
            (Done (made_answer 0 0 (trimmed bitmap.now))))) MAX_REPLY_BYTES }
    {
        self.has_room(&created(bitmap, 0, 0))
    }
}

ghost use Rattle.model.specs.Attributes.Attribute.{trimmed};
ghost use Rattle.compound.specs.Operates.{IsShortOutcome};
ghost use Rattle.compound.specs.Trees.{IsStatus, made_answer};
ghost use Rattle.fs.specs.declared.fault.FsFault.TheVariants as faults;

/// The result of a CREATE that made a directory: its parent's change value before and after.
fn created(bitmap: &Bitmap, before: u64, after: u64) -> Outcome<'static>
    ensures { IsShortOutcome (made_answer before after (trimmed bitmap.now)) result }
{
    let change = ChangeInfo {
        is_atomic: true,
        before,
        after,
    };
    Outcome::short(Answer::Create(CreateAnswer::new(change, bitmap)))
}

/// The status of a fault that has one.
pub(crate) fn status_of(fault: FsFault) -> Status
    requires { IsStatus fault }
    ensures { fault ≡ faults.Status result }
{
    match fault {
        FsFault::Status(status) => status,
        _ => unreachable!(),
    }
}
