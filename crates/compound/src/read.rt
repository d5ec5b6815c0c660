//! READ (RFC 8881, section 18.22).

ghost use Rattle.std.specs.Prelude.{◌≡◌, ◌≤◌, ◌<◌, ◌^◌, ◌++◌, List, ℕ, length, drop, replicate};
ghost use Rattle.std.specs.Int.{w32};
ghost use Rattle.model.specs.Wire.WireAnswers.{read_answer};
ghost use Rattle.xdr.specs.Forms.{code_of, padding};
ghost use Rattle.xdr.specs.Grammar.{number};
ghost use Rattle.compound.specs.Memory.{OrMemory};

use crate::engine::Engine;
use crate::executed::Executed;
use crate::fault::Fault;
use crate::running::Running;
use disk::Device;
use opens::Access;
use std::alloc::Global;
use wire::{Operation, ReadArguments};

/// The bytes of the values before those of the file: whether its end was reached, and how many
/// there are.
const PREFIX: usize = 8;

/// The most bytes of a file that memory is allocated for: those that one READ gives.
const PART_BYTES: usize = 8_192;

/// The most zero bytes after those of the file.
const MAX_PAD: usize = 3;

impl Running<'_> {
    ghost use Rattle.model.specs.Operations.Operation as operations;
    ghost use Rattle.wire.specs.ArgumentViews.{read_view};
    ghost use Rattle.compound.specs.Engines.{Changes, files_in};
    ghost use Rattle.compound.specs.States.{CanServe};
    ghost use Rattle.compound.specs.Views.{in_progress_of};

    /// READ: bytes of the current file. They are put directly into the result, and are not copied
    /// again.
    pub(crate) fn read<D: Device>(
        &self,
        engine: &mut Engine<'_, D>,
        arguments: &ReadArguments,
    ) -> Result<Executed, Fault>
        requires { CanServe (files_in engine.old) (in_progress_of self.now) }
        ensures { Changes engine.old engine.new (in_progress_of self.now)
            (operations.Argument.Read (read_view arguments.now)) result }
    {
        let number = match self.current_node() {
            Ok(number) => number,
            Err(status) => return Ok(self.refuse(Operation::Read, status)),
        };
        let verdict = self.verdict(engine.opens, &arguments.state, Access::READ);
        let ReadArguments { offset, count, .. } = *arguments;
        let mut values = room_for(self.alloc, count)?;
        match engine
            .fs
            .read(self.cred, number, verdict, offset, count, &mut values)
        {
            Ok(is_end) => {
                finish(&mut values, is_end)?;
                Ok(self.settle_encoded(Operation::Read, values))
            }
            Err(fault) => self.tell_fault(Operation::Read, fault),
        }
    }
}

/// Memory for the values of a READ, with zeros in place of what comes before the bytes.
fn room_for(alloc: Global, count: u32) -> Result<Vec<u8>, Fault>
    ensures count { count < 2 ^ 32 }
    ensures values { OrMemory result (λ values. length values.items ≡ 8) }
{
    let most = (count as usize).min(PART_BYTES);
    let mut values = Vec::with_capacity(alloc, PREFIX + most + MAX_PAD)?;
    values.extend_from_slice(&[0; PREFIX])?;
    Ok(values)
}

/// Writes what comes before the bytes of the file, and the zeros after them.
fn finish(values: &mut Vec<u8>, is_end: bool) -> Result<(), Fault>
    ensures { OrMemory result (λ _. (prefix part : List ℕ) → values.old.items ≡ prefix ++ part
        → length prefix ≡ 8 → length part < 2 ^ 32
        → values.new.items ≡ read_answer.encoding (record { is_end = is_end; data_bytes = part })) }
{
    let len = values.len().saturating_sub(PREFIX);
    let prefix = prefix_of(is_end, len.min(u32::MAX as usize) as u32);
    put_prefix(values.as_mut_slice(), &prefix);
    pad(values, len)
}

/// The words before this many bytes of a file.
fn prefix_of(is_end: bool, len: u32) -> [u8; 8]
    ensures { result ≡ number w32 (code_of is_end) ++ number w32 len }
{
    let truth: u32 = if is_end { 1 } else { 0 };
    let mut prefix = [0; PREFIX];
    prefix[..4].copy_from_slice(&truth.to_be_bytes());
    prefix[4..].copy_from_slice(&len.to_be_bytes());
    prefix
}

/// Puts these bytes over the first ones.
fn put_prefix(values: &mut [u8], prefix: &[u8; 8])
    ensures { 8 ≤ length values.old → values.new ≡ prefix.now ++ drop 8 values.old }
{
    if values.len() >= PREFIX {
        values[..PREFIX].copy_from_slice(prefix);
    }
}

/// Zeros after this many bytes.
fn pad(values: &mut Vec<u8>, len: usize) -> Result<(), Fault>
    ensures { OrMemory result (λ _. values.new.items
        ≡ values.old.items ++ replicate (padding len) 0) }
{
    let count = (4 - len % 4) % 4;
    values.extend_from_slice(&[0; MAX_PAD][..count])?;
    Ok(())
}
