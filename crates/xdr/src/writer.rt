//! Writing, by appending.

ghost use Rattle.std.specs.Prelude.{◌≡◌, ◌≤◌, ◌<◌, ◌^◌, ◌+◌, length, take, IfOk, OnOk, OnErr};
ghost use Rattle.std.specs.Int.{w32, w64};
ghost use Rattle.xdr.specs.Grammar.{number};
ghost use Rattle.xdr.specs.Forms.{padded, counted, code_of};
ghost use Rattle.xdr.specs.Clauses.{Wrote};

use crate::reader::pad_len;
use crate::refusal::Refusal;
use byteorder::{BigEndian, ByteOrder};
use std::alloc::{AllocError, Global};
use std::marker::Model;

/// The bytes written so far. In a contract it is these bytes, and the number of bytes for which
/// there is memory.
///
/// A write that fails for lack of memory leaves the bytes as they were; no write fails if there is
/// memory for it.
#[derive(Drop)]
pub struct Writer {
    bytes: Vec<u8>,
}

impl Model for Writer {
    ghost use Rattle.std.specs.Prelude.{vec_capacity};
    ghost use Rattle.xdr.specs.Clauses.{Written};

    ghost Value = { Written };

    ghost view = { λ w. record { bytes = w.bytes.items; capacity = vec_capacity w.bytes } };
}

impl Writer {
    ghost use Rattle.std.specs.Prelude.{[], vec_capacity};

    /// An empty writer, with no memory allocated.
    pub fn new(alloc: Global) -> Writer
        ensures { result.bytes ≡ [] }
    {
        Writer {
            bytes: Vec::new(alloc),
        }
    }

    /// An empty writer with memory for `capacity` bytes.
    pub fn with_capacity(alloc: Global, capacity: usize) -> Result<Writer, Refusal>
        ensures bytes { IfOk result (λ w. w.bytes ≡ []) }
        ensures capacity { IfOk result (λ w. w.capacity ≡ capacity) }
    {
        Ok(Writer {
            bytes: Vec::with_capacity(alloc, capacity)?,
        })
    }

    /// A writer that appends to the bytes of a vector.
    pub fn from_vec(bytes: Vec<u8>) -> Writer
        ensures bytes { result.bytes ≡ bytes.items }
        ensures capacity { result.capacity ≡ vec_capacity bytes }
    {
        Writer { bytes }
    }

    /// The bytes that were written.
    pub fn into_vec(self) -> Vec<u8>
        ensures bytes { result.items ≡ self.bytes }
        ensures capacity { vec_capacity result ≡ self.capacity }
    {
        self.bytes
    }

    /// How many bytes were written.
    pub fn len(&self) -> usize
        ensures { result ≡ length self.now.bytes }
    {
        self.bytes.len()
    }

    /// The bytes that were written.
    pub fn as_slice(&self) -> &[u8]
        ensures { result.now ≡ self.now.bytes }
    {
        self.bytes.as_slice()
    }

    /// Reserves memory for at least `additional` more bytes.
    pub fn reserve(&mut self, additional: usize) -> Result<(), Refusal>
        ensures bytes { self.new.bytes ≡ self.old.bytes }
        ensures ok { OnOk result (length self.new.bytes + additional ≤ self.new.capacity) }
        ensures err { OnErr result (self.old.capacity < length self.old.bytes + additional) }
        ensures keeps { self.old.capacity ≤ self.new.capacity }
    {
        self.bytes.reserve(additional)?;
        Ok(())
    }

    /// Drops all but the first `len` bytes. The memory is kept.
    pub fn truncate(&mut self, len: usize)
        ensures bytes { self.new.bytes ≡ take len self.old.bytes }
        ensures capacity { self.new.capacity ≡ self.old.capacity }
    {
        self.bytes.truncate(len);
    }

    /// Appends the bytes as they are.
    #[tactic(auto, using(crate::proofs::Writing::begins_same, crate::proofs::Writing::begins_on))]
    fn append(&mut self, bytes: &[u8]) -> Result<(), Refusal>
        ensures wrote { Wrote self.old self.new result bytes.now }
        ensures err { OnErr result (self.new.bytes ≡ self.old.bytes) }
    {
        self.bytes.extend_from_slice(bytes)?;
        Ok(())
    }

    /// Writes a number of 4 bytes (RFC 4506, section 4.2).
    #[tactic(auto, unfolding(crate::specs::Grammar::number))]
    pub fn write_u32(&mut self, n: u32) -> Result<(), Refusal>
        ensures wrote { Wrote self.old self.new result (number w32 n) }
        ensures err { OnErr result (self.new.bytes ≡ self.old.bytes) }
    {
        let mut bytes = [0; 4];
        BigEndian::write_u32(&mut bytes, n);
        self.append(&bytes)
    }

    /// Writes a number of 8 bytes (RFC 4506, section 4.5).
    #[tactic(auto, unfolding(crate::specs::Grammar::number))]
    pub fn write_u64(&mut self, n: u64) -> Result<(), Refusal>
        ensures wrote { Wrote self.old self.new result (number w64 n) }
        ensures err { OnErr result (self.new.bytes ≡ self.old.bytes) }
    {
        let mut bytes = [0; 8];
        BigEndian::write_u64(&mut bytes, n);
        self.append(&bytes)
    }

    /// Writes a boolean: 0 or 1 (RFC 4506, section 4.4).
    pub fn write_bool(&mut self, truth: bool) -> Result<(), Refusal>
        ensures wrote { Wrote self.old self.new result (number w32 (code_of truth)) }
        ensures err { OnErr result (self.new.bytes ≡ self.old.bytes) }
    {
        self.write_u32(if truth { 1 } else { 0 })
    }

    /// Writes the bytes, and zero bytes up to a multiple of 4 (RFC 4506, section 4.9).
    #[tactic(auto, using(crate::proofs::Writing::failed_write, crate::proofs::Writing::unchanged))]
    pub fn write_fixed(&mut self, bytes: &[u8]) -> Result<(), Refusal>
        ensures wrote { Wrote self.old self.new result (padded bytes.now) }
        ensures err { OnErr result (self.new.bytes ≡ self.old.bytes) }
    {
        let mark = self.len();
        let result = self.append_padded(bytes);
        self.undo(mark, result)
    }

    /// Writes the length, the bytes, and zero bytes up to a multiple of 4 (RFC 4506, sections 4.10
    /// and 4.11).
    #[tactic(auto, using(crate::proofs::Writing::failed_write, crate::proofs::Writing::unchanged))]
    pub fn write_opaque(&mut self, bytes: &[u8]) -> Result<(), Refusal>
        requires { length bytes.now < 2 ^ 32 }
        ensures wrote { Wrote self.old self.new result (counted bytes.now) }
        ensures err { OnErr result (self.new.bytes ≡ self.old.bytes) }
    {
        let mark = self.len();
        let result = self.append_counted(bytes);
        self.undo(mark, result)
    }

    /// Returns `outcome`; if it is an error, all but the first `mark` bytes are dropped first.
    ///
    /// This makes several writes one: with the length before them as `mark`, a failure leaves the
    /// bytes as they were.
    pub fn undo(&mut self, mark: usize, outcome: Result<(), Refusal>) -> Result<(), Refusal>
        ensures same { result ≡ outcome }
        ensures ok { OnOk result (self.new.bytes ≡ self.old.bytes) }
        ensures err { OnErr result (self.new.bytes ≡ take mark self.old.bytes) }
        ensures capacity { self.new.capacity ≡ self.old.capacity }
    {
        if outcome.is_err() {
            self.truncate(mark);
        }
        outcome
    }

    #[tactic(auto, unfolding(crate::specs::Forms::padded), using(crate::proofs::Writing::wrote_padded, crate::proofs::Writing::wrote_exit))]
    fn append_padded(&mut self, bytes: &[u8]) -> Result<(), Refusal>
        ensures { Wrote self.old self.new result (padded bytes.now) }
    {
        self.append(bytes)?;
        let pad = pad_len(bytes.len());
        self.append(&[0; 3][..pad])
    }

    #[tactic(auto, unfolding(crate::specs::Forms::counted), using(crate::proofs::Writing::wrote_on, crate::proofs::Writing::wrote_exit, crate::proofs::Writing::wrote_end))]
    fn append_counted(&mut self, bytes: &[u8]) -> Result<(), Refusal>
        requires { length bytes.now < 2 ^ 32 }
        ensures { Wrote self.old self.new result (counted bytes.now) }
    {
        self.write_u32(bytes.len() as u32)?;
        self.append_padded(bytes)?;
        Ok(())
    }
}

/// How many bytes `write_opaque` writes for these.
#[tactic(auto, using(crate::proofs::Sizes::counted_length))]
pub fn opaque_size(bytes: &[u8]) -> usize
    requires { length bytes.now < 2 ^ 32 }
    ensures value { result ≡ length (counted bytes.now) }
    ensures bound { result < 2 ^ 32 + 8 }
{
    4 + bytes.len() + pad_len(bytes.len())
}
