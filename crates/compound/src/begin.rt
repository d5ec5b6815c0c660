//! A COMPOUND before its first operation, and between two.

ghost use Rattle.std.specs.Prelude.{◌≡◌, ◌≤◌, []};
ghost use Rattle.compound.specs.Memory.{OrMemory};
ghost use Rattle.compound.specs.declared.progress.TheConstants.{RESULT_BUFFER};

use crate::fault::Fault;
use crate::progress::{Progress, RECORD_BUFFER, RESULT_BUFFER};
use crate::running::Running;
use model_tree::acl::Cred;
use rpc::Compound;
use std::alloc::Global;
use std::mem;
use xdr::Writer;

impl Progress {
    ghost use Rattle.compound.specs.Memory.{OrMemory};
    ghost use Rattle.compound.specs.Views.{IsBegin};

    /// Before the first operation, in this run of the server. All memory for the reply is allocated
    /// here, and that for the results only if `results_buffer`, which an earlier COMPOUND left, has
    /// too little.
    pub fn begin(alloc: Global, run: u32, results_buffer: &mut Writer) -> Result<Progress, Fault>
        ensures { OrMemory result (IsBegin run) }
    {
        let reply = Writer::with_capacity(alloc, RECORD_BUFFER)?;
        let results = take_memory(alloc, results_buffer)?;
        Ok(Progress {
            position: 0,
            answered: 0,
            results,
            reply,
            client: 0,
            run,
            current: None,
            saved: None,
            slot: None,
            altered: false,
            ended: None,
        })
    }
}

/// Memory for the results: what an earlier COMPOUND left, or more if that is too little.
fn take_memory(alloc: Global, results_buffer: &mut Writer) -> Result<Writer, Fault>
    ensures { OrMemory result (λ results.
        (results.bytes ≡ []) × (RESULT_BUFFER ≤ results.capacity)) }
{
    results_buffer.truncate(0);
    results_buffer.reserve(RESULT_BUFFER)?;
    Ok(mem::replace(results_buffer, Writer::new(alloc)))
}

/// The call of a COMPOUND, by this caller.
#[derive(Drop)]
pub struct Call<'a> {
    pub xid: u32,
    pub cred: &'a Cred,
    pub compound: Compound<'a>,
}

impl<'a> Running<'a> {
    ghost use Rattle.std.specs.Prelude.{◌≡◌, true};
    ghost use Rattle.compound.specs.Views.{in_progress_of, asked_by, asked_of, resumed, fits_operations};

    /// The COMPOUND of this call, continued from this progress.
    #[tactic(auto, unfolding(crate::specs::Views::in_progress_of))]
    pub fn resume(alloc: Global, call: Call<'a>, progress: Progress) -> Running<'a>
        requires { fits_operations (asked_by call) progress ≡ true }
        ensures asked { asked_of result ≡ asked_by call.entry }
        ensures progress { result.progress ≡ progress }
        ensures request { in_progress_of result ≡ resumed (asked_by call.entry) progress }
    {
        let Call {
            xid,
            cred,
            compound,
        } = call;
        Running {
            alloc,
            xid,
            cred,
            compound,
            progress,
        }
    }
}
