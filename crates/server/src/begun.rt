//! A COMPOUND that has begun: what is kept of it from turn to turn, beside the record of its call.

use crate::engine::Engine;
use compound::{Call, Fault, Progress, Running, Stepped};
use disk::Device;
use model_tree::acl::Cred;
use rpc::CompoundPlace;
use std::alloc::Global;
use xdr::Writer;

/// What a call says, which its first turn reads. The COMPOUND's bytes are in the record.
#[derive(Drop)]
pub struct KeptCall {
    pub(crate) xid: u32,
    pub(crate) cred: Cred,
    pub(crate) place: CompoundPlace,
}

/// A COMPOUND that has begun: its call, and its progress.
#[derive(Drop)]
pub struct Begun {
    pub(crate) call: KeptCall,
    pub(crate) progress: Progress,
}

/// What a turn of a call leaves.
#[derive(Drop)]
pub enum TurnEnd {
    /// The COMPOUND goes on.
    Begun(Begun),
    /// The whole record of the reply.
    Answered(Vec<u8>),
}

/// A COMPOUND of which a turn was not done, as it was before, and why.
#[derive(Drop)]
pub struct FailedStep {
    pub fault: Fault,
    pub begun: Begun,
}

impl Begun {
    ghost use Rattle.std.specs.Prelude.{◌≡◌, false, IfOk, IfErr, OnErr};
    ghost use Rattle.compound.specs.Steps.{stepped_on};
    ghost use Rattle.compound.specs.Volumes.{TurnGives};
    ghost use Rattle.server.specs.Connections.{RecordGoesOn, RecordSteps};
    ghost use Rattle.server.specs.Engines.{AltersFiles, BorrowsSame, KeepsRest, files_in, state_in};
    ghost use Rattle.server.specs.Stages.{CanGoOn, in_progress_at, failed_turn_ending};

    /// A turn of the COMPOUND whose call is in this record.
    ///
    /// # Errors
    /// Those of `Running::step`.
    pub fn step<D: Device>(
        self,
        request: &[u8],
        engine: &mut Engine<'_, D>,
        results_buffer: &mut Writer,
    ) -> Result<TurnEnd, FailedStep>
        requires goes_on { CanGoOn (files_in engine.old).volume.run request.now self }
        requires up { (files_in engine.old).volume.is_down ≡ false }
        // If it succeeds
        ensures step { D.keeps_word
            → IfOk result (RecordSteps engine.old.moment (state_in engine.old)
            (state_in engine.new) request.now self) }
        ensures goes_on { IfOk result
            (RecordGoesOn (files_in engine.old).volume.run request.now self) }
        // If it fails
        ensures back { IfErr result (λ failed. failed.begun ≡ self) }
        ensures others { OnErr result (KeepsRest engine.old engine.new) }
        // However it ends
        ensures volume { AltersFiles engine.old engine.new (TurnGives (state_in engine.old)
            (λ world number. stepped_on world number engine.old.moment
            (in_progress_at request.now self))) (failed_turn_ending result) }
        ensures same { BorrowsSame engine.old engine.new }
    {
        let Begun { call, progress } = self;
        match call.resume(engine.alloc, request, progress).step(
            engine.fs,
            engine.table,
            engine.opens,
            engine.moment,
            results_buffer,
        ) {
            Ok(done) => Ok(call.left(done)),
            Err(failed) => Err(FailedStep {
                fault: failed.fault,
                begun: Begun {
                    call,
                    progress: failed.progress,
                },
            }),
        }
    }
}

impl KeptCall {
    ghost use Rattle.std.specs.Prelude.{◌≡◌, true};
    ghost use Rattle.compound.specs.Views.{in_progress_of, asked_of, resumed};
    ghost use Rattle.server.specs.Stages.{asked_at, fits_in, left_of};

    /// The COMPOUND that is in this record, continued from this progress.
    fn resume<'a>(&'a self, alloc: Global, request: &'a [u8], progress: Progress) -> Running<'a>
        requires { fits_in request.now self.now progress ≡ true }
        ensures asked { asked_of result ≡ asked_at request.now self.now }
        ensures progress { result.progress ≡ progress }
        ensures request { in_progress_of result ≡ resumed (asked_at request.now self.now) progress }
    {
        let call = Call {
            xid: self.xid,
            cred: &self.cred,
            compound: self.place.compound(request),
        };
        Running::resume(alloc, call, progress)
    }

    /// What a step of its COMPOUND leaves.
    fn left(self, done: Stepped) -> TurnEnd
        ensures { result ≡ left_of self done }
    {
        match done {
            Stepped::Ran(progress) => TurnEnd::Begun(Begun {
                call: self,
                progress,
            }),
            Stepped::Answered(reply) => TurnEnd::Answered(reply),
        }
    }
}
