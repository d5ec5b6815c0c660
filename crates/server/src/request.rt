//! A whole record: its call gets its reply at once, or its COMPOUND begins.

ghost use Rattle.std.specs.Prelude.{◌≡◌, Some, [], true, false, IfOk, IfErr, OnErr};
ghost use Rattle.model.specs.Wire.Record.{framed};
ghost use Rattle.model.specs.Wire.Rpc as rpc;
ghost use Rattle.model.specs.Wire.Rpc.{is_call_read, reply_text};
ghost use Rattle.model.specs.Server.World.{called};
ghost use Rattle.rpc.specs.Views.{reply_view, tail_of};
ghost use Rattle.compound.specs.Volumes.{TurnGives, ending};
ghost use Rattle.compound.specs.declared.fault.Fault.TheVariants.{Memory};
ghost use Rattle.server.specs.Connections.{OpensRecord, Leads};
ghost use Rattle.server.specs.Engines.{AltersFiles, BorrowsSame, KeepsRest, files_in, state_in};
ghost use Rattle.server.specs.Stages.{IsLeftInRun, turn_of_end, left_by_turn, can_follow};

use crate::begun::{Begun, KeptCall, TurnEnd};
use crate::engine::Engine;
use compound::{Fault, Progress};
use disk::Device;
use rpc::{CallRead, CompoundPlace, Reply, Request, read_call, write_reply};
use std::alloc::Global;
use xdr::Writer;

/// The bytes of a record's header.
const HEADER_SIZE: usize = 4;

/// What a call comes to before an operation runs.
#[derive(Drop)]
pub enum Opened {
    /// The whole record of a reply.
    Answers(Vec<u8>),
    /// A COMPOUND whose first operation runs next.
    Begins(Begun),
}

/// The first turn of a whole record: its call gets its reply at once, or the first operation of its
/// COMPOUND runs, in the memory that an earlier one left.
pub fn first_turn<D: Device>(
    request: &[u8],
    engine: &mut Engine<'_, D>,
    results_buffer: &mut Writer,
) -> Result<TurnEnd, Fault>
    requires up { (files_in engine.old).volume.is_down ≡ false }
    requires call { is_call_read (rpc.read_call request.now) ≡ true }
    ensures turn { D.keeps_word → IfOk result (λ done. Leads (λ world number.
        called world number engine.old.moment (rpc.read_call request.now))
        (state_in engine.old) (state_in engine.new)
        (left_by_turn (Some request.now) done) (turn_of_end done)) }
    ensures stays { IfOk result (IsLeftInRun (files_in engine.old).volume.run) }
    ensures follows { IfOk result (λ done. can_follow (Some request.now) done ≡ true) }
    // If it fails
    ensures back { OnErr result (KeepsRest engine.old engine.new) }
    // However it ends
    ensures volume { AltersFiles engine.old engine.new (TurnGives (state_in engine.old)
        (λ world number. called world number engine.old.moment (rpc.read_call request.now)))
        (ending result) }
    ensures same { BorrowsSame engine.old engine.new }
{
    match open(
        engine.alloc,
        engine.fs.restart_count(),
        request,
        results_buffer,
    )? {
        Opened::Answers(reply) => Ok(TurnEnd::Answered(reply)),
        Opened::Begins(begun) => match begun.step(request, engine, results_buffer) {
            Ok(done) => Ok(done),
            Err(failed) => {
                *results_buffer = failed.begun.progress.into_memory();
                Err(failed.fault)
            }
        },
    }
}

/// Reads the call of a whole record, and tests it. All memory for its reply is allocated here, or
/// comes from `results_buffer`.
pub fn open(
    alloc: Global,
    run: u32,
    request: &[u8],
    results_buffer: &mut Writer,
) -> Result<Opened, Fault>
    requires { is_call_read (rpc.read_call request.now) ≡ true }
    ensures ok { IfOk result (OpensRecord run request.now) }
    ensures err { IfErr result (λ fault. fault ≡ Memory) }
{
    let call = match read_call(request) {
        Ok(CallRead::Calls(call)) => call,
        Ok(CallRead::OtherVersion { xid }) => {
            let reply = record_of(alloc, xid, &Reply::VersionRefused)?;
            return Ok(Opened::Answers(reply));
        }
        Err(_) => unreachable!(),
    };
    match call.request() {
        Request::Answers(reply) => Ok(Opened::Answers(record_of(alloc, call.xid, &reply)?)),
        Request::Runs(cred, compound) => {
            let progress = Progress::begin(alloc, run, results_buffer)?;
            let place = CompoundPlace::of(request, call.body, &compound);
            let call = KeptCall {
                xid: call.xid,
                cred,
                place,
            };
            Ok(Opened::Begins(Begun { call, progress }))
        }
    }
}

/// The whole record of a reply.
fn record_of(alloc: Global, xid: u32, reply: &Reply<'_>) -> Result<Vec<u8>, Fault>
    requires { tail_of reply.now ≡ [] }
    ensures ok { IfOk result (λ bytes.
        bytes.items ≡ framed (reply_text xid (reply_view reply.now))) }
    ensures err { IfErr result (λ fault. fault ≡ Memory) }
{
    let size = reply.size().saturating_add(HEADER_SIZE);
    let Ok(out) = Writer::with_capacity(alloc, size) else {
        return Err(Fault::Memory);
    };
    match write_reply(out, xid, reply) {
        Ok(bytes) => Ok(bytes),
        Err(_) => Err(Fault::Memory),
    }
}
