//! The operation that was read, by its kind.

use crate::engine::Engine;
use crate::executed::Executed;
use crate::fault::Fault;
use crate::reading::Reading;
use crate::running::Running;
use disk::Device;
use wire::Argument;

impl Running<'_> {
    ghost use Rattle.std.specs.Prelude.{◌≡◌, true};
    ghost use Rattle.wire.specs.ArgumentView.{argument_view};
    ghost use Rattle.compound.specs.Engines.{Runs, files_in, state_in};
    ghost use Rattle.compound.specs.Operates.{comes_first};
    ghost use Rattle.compound.specs.States.{Agrees, CanServe};
    ghost use Rattle.compound.specs.Views.{in_progress_of};

    /// Runs an operation, and then tests whether the reply has room for its result.
    ///
    /// # Errors
    /// After `Memory` nothing changed; after `Device` the file system is down, and the table is as
    /// it was.
    pub(crate) fn operate<D: Device>(
        &self,
        engine: &mut Engine<'_, D>,
        argument: &Argument<'_>,
    ) -> Result<Executed, Fault>
        requires ready { CanServe (files_in engine.old) (in_progress_of self.now) }
        requires agrees { D.keeps_word
            → Agrees (files_in engine.old) (state_in engine.old).table }
        requires first { comes_first (argument_view argument.now) ≡ true
            → (in_progress_of self.now).answered ≡ 0 }
        ensures { Runs engine.old engine.new (in_progress_of self.now)
            (argument_view argument.now) result }
    {
        let reading = Reading {
            running: self,
            fs: engine.fs,
        };
        match argument {
            Argument::Access(asked) => Ok(reading.access(*asked)),
            Argument::Close(arguments) => Ok(reading.close(engine.opens, arguments)),
            Argument::Commit(_) => self.commit(engine),
            Argument::Create(arguments) => self.create(engine, arguments),
            Argument::GetAttr(asked) => reading.get_attributes(asked),
            Argument::GetFh => reading.get_handle(),
            Argument::Lookup(name) => Ok(reading.look_up(name)),
            Argument::LookupParent => Ok(reading.look_up_parent()),
            Argument::Open(arguments) => self.open(engine, arguments),
            Argument::PutFh(handle) => Ok(reading.put_handle(handle)),
            Argument::PutRootFh => Ok(self.put_root()),
            Argument::Read(arguments) => self.read(engine, arguments),
            Argument::ReadDir(arguments) => reading.read_dir(arguments),
            Argument::Remove(name) => self.remove(engine, name),
            Argument::Rename(arguments) => self.rename(engine, arguments),
            Argument::RestoreFh => Ok(self.restore_handle()),
            Argument::SaveFh => Ok(reading.save_handle()),
            Argument::SetAttr(arguments) => self.set_attributes(engine, arguments),
            Argument::Write(arguments) => self.write(engine, arguments),
            Argument::ExchangeId(arguments) => {
                self.exchange_id(engine.fs.version(), engine.table, engine.opens, arguments)
            }
            Argument::CreateSession(arguments) => self.create_session(engine, arguments),
            Argument::DestroySession(id) => self.destroy_session(engine, id),
            Argument::DestroyClientId(client) => {
                self.destroy_clientid(engine.table, engine.opens, *client)
            }
            Argument::Sequence(arguments) => Ok(self.sequence(engine.table, arguments)),
            Argument::ReclaimComplete(one_fs) => Ok(reading.reclaim(engine.table, *one_fs)),
        }
    }
}
