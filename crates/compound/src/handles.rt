//! The current and the saved filehandle (RFC 8881, section 16.2.3.1).

ghost use Rattle.std.specs.Prelude.{◌≡◌};

use crate::executed::{Effect, Executed};
use crate::fault::Fault;
use crate::reading::Reading;
use crate::running::Running;
use crate::tree::status_of;
use disk::Device;
use model_tree::node::ROOT;
use model_tree::status::Status;
use std::alloc::Global;
use wire::{Answer, Operation};
use xdr::Writer;

#[tactic(auto, unfolding(crate::specs::Views::in_progress_of, model::specs::Server::World::outcome_text))]
impl Running<'_> {
    ghost use Rattle.std.specs.Prelude.{◌≡◌, true, false, IfOk, IfErr};
    ghost use Rattle.fs.specs.FileSystem.{FileSystem};
    ghost use Rattle.model.specs.Operations.Context.{has_current, current_number, has_saved, saved_number};
    ghost use Rattle.model.specs.Operations.Operation as operations;
    ghost use Rattle.model_tree.specs.declared.status.Status.TheVariants as status;
    ghost use Rattle.compound.specs.Operates.{Reads};
    ghost use Rattle.compound.specs.Views.{in_progress_of};

    /// PUTROOTFH (section 18.21): the root is the current node, whether it is there or not.
    pub(crate) fn put_root(&self) -> Executed
        ensures { (files : FileSystem)
            → Reads files (in_progress_of self.now) operations.Argument.PutRootFh result }
    {
        self.settle(Answer::PutRootFh, Effect::Moves(ROOT))
    }

    /// RESTOREFH (section 18.27): the saved node becomes the current one too, whether it is there
    /// or not. NOFILEHANDLE if there is no saved node.
    pub(crate) fn restore_handle(&self) -> Executed
        ensures { (files : FileSystem)
            → Reads files (in_progress_of self.now) operations.Argument.RestoreFh result }
    {
        match self.saved_node() {
            Ok(_) => self.settle(Answer::RestoreFh, Effect::Restores),
            Err(status) => self.refuse(Operation::RestoreFh, status),
        }
    }

    /// The number of the current node.
    ///
    /// # Errors
    /// NOFILEHANDLE if there is none: this is the error of each operation that takes the current
    /// filehandle.
    pub(crate) fn current_node(&self) -> Result<u64, Status>
        ensures ok { IfOk result (λ number.
            (has_current (in_progress_of self.now).context ≡ true)
            × (current_number (in_progress_of self.now).context ≡ number)) }
        ensures err { IfErr result (λ reason. (reason ≡ status.NoFileHandle)
            × (has_current (in_progress_of self.now).context ≡ false)) }
    {
        match self.progress.current {
            Some(place) => Ok(place.number),
            None => Err(Status::NoFileHandle),
        }
    }

    /// The number of the saved node.
    ///
    /// # Errors
    /// NOFILEHANDLE if there is none.
    pub(crate) fn saved_node(&self) -> Result<u64, Status>
        ensures ok { IfOk result (λ number.
            (has_saved (in_progress_of self.now).context ≡ true)
            × (saved_number (in_progress_of self.now).context ≡ number)) }
        ensures err { IfErr result (λ reason. (reason ≡ status.NoFileHandle)
            × (has_saved (in_progress_of self.now).context ≡ false)) }
    {
        match self.progress.saved {
            Some(place) => Ok(place.number),
            None => Err(Status::NoFileHandle),
        }
    }
}

#[tactic(auto, unfolding(crate::specs::Views::in_progress_of, model::specs::Server::World::outcome_text))]
impl<D: Device> Reading<'_, '_, D> {
    ghost use Rattle.model.specs.Operations.Operation as operations;
    ghost use Rattle.compound.specs.Memory.{OrMemory};
    ghost use Rattle.compound.specs.Readings.{ReadsAs};

    /// PUTFH (section 18.19): the node that the filehandle names is the current one.
    pub(crate) fn put_handle(&self, handle: &[u8]) -> Executed
        ensures { ReadsAs self.now (operations.Argument.PutFh handle.now) result }
    {
        match self.fs.put_handle(handle) {
            Ok(number) => self.running.settle(Answer::PutFh, Effect::Moves(number)),
            Err(fault) => self.running.refuse(Operation::PutFh, status_of(fault)),
        }
    }

    /// GETFH (section 18.8).
    pub(crate) fn get_handle(&self) -> Result<Executed, Fault>
        ensures { OrMemory result (ReadsAs self.now operations.Argument.GetFh) }
    {
        let running = self.running;
        let number = match running.current_node() {
            Ok(number) => number,
            Err(status) => return Ok(running.refuse(Operation::GetFh, status)),
        };
        match self.fs.handle(number) {
            Ok(handle) => {
                let values = encode(running.alloc, &handle)?;
                Ok(running.settle_encoded(Operation::GetFh, values))
            }
            Err(fault) => Ok(running.refuse(Operation::GetFh, status_of(fault))),
        }
    }

    /// SAVEFH (section 18.28): the current node is the saved one too.
    pub(crate) fn save_handle(&self) -> Executed
        ensures { ReadsAs self.now operations.Argument.SaveFh result }
    {
        match self.check_current() {
            Ok(()) => self.running.settle(Answer::SaveFh, Effect::Saves),
            Err(status) => self.running.refuse(Operation::SaveFh, status),
        }
    }
}

ghost use Rattle.xdr.specs.Forms.{counted};
ghost use Rattle.compound.specs.Memory.{OrMemory};

/// A filehandle, as the result of GETFH has it.
fn encode(alloc: Global, handle: &[u8; 8]) -> Result<Vec<u8>, Fault>
    ensures { OrMemory result (λ values. values.items ≡ counted handle.now) }
{
    let mut out = Writer::new(alloc);
    out.write_opaque(handle)?;
    Ok(out.into_vec())
}
