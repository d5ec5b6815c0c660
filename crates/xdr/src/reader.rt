//! Reading, from the first byte on.

ghost use Rattle.std.specs.Prelude.{◌≡◌, ◌<◌, ◌↔◌, IsTrue, length};
ghost use Rattle.xdr.specs.Grammar.{unsigned_int, unsigned_hyper};
ghost use Rattle.xdr.specs.Forms.{below, always, boolean, fixed_opaque, opaque, padding, are_zeros};
ghost use Rattle.xdr.specs.Laws.{IsBytes};
ghost use Rattle.xdr.specs.Clauses.{Scans};

use crate::refusal::Refusal;
use byteorder::{BigEndian, ByteOrder};
use std::marker::Model;

/// A position in bytes. In a contract it is the bytes that are left to read.
///
/// A read that fails leaves the reader unchanged.
#[derive(Drop)]
pub struct Reader<'a> {
    rest: &'a [u8],
}

impl<'a> Model for Reader<'a> {
    ghost use Rattle.std.specs.Prelude.{ℕ, List};

    ghost Value = { List ℕ };

    ghost use Rattle.xdr.specs.Laws.{IsBytes};

    ghost view = { λ r. r.rest.now };

    ghost invariant = { λ r. IsBytes r.rest.now };
}

impl<'a> Reader<'a> {
    /// A reader at the start of the bytes.
    pub fn new(bytes: &'a [u8]) -> Reader<'a>
        ensures { result ≡ bytes.now }
    {
        Reader { rest: bytes }
    }

    /// A second reader at the same position.
    pub fn fork(&self) -> Reader<'a>
        ensures same { result ≡ self.now }
        ensures bytes { IsBytes self.now }
    {
        Reader { rest: self.rest }
    }

    /// Reads a number of 4 bytes (RFC 4506, section 4.2).
    #[tactic(auto, using(crate::proofs::Reading::short_int, crate::proofs::Reading::found_int))]
    pub fn read_u32(&mut self) -> Result<u32, Refusal>
        ensures { Scans (λ n. n) (unsigned_int.read) self.old self.new result }
    {
        let rest = self.rest;
        if rest.len() < 4 {
            return Err(Refusal::Short);
        }
        let (prefix, rest) = rest.split_at(4);
        self.rest = rest;
        Ok(BigEndian::read_u32(prefix))
    }

    /// Reads a number of 8 bytes (RFC 4506, section 4.5).
    #[tactic(auto, using(crate::proofs::Reading::short_hyper, crate::proofs::Reading::found_hyper))]
    pub fn read_u64(&mut self) -> Result<u64, Refusal>
        ensures { Scans (λ n. n) (unsigned_hyper.read) self.old self.new result }
    {
        let rest = self.rest;
        if rest.len() < 8 {
            return Err(Refusal::Short);
        }
        let (prefix, rest) = rest.split_at(8);
        self.rest = rest;
        Ok(BigEndian::read_u64(prefix))
    }

    /// How many bytes are left.
    pub fn len(&self) -> usize
        ensures { result ≡ length self.now }
    {
        self.rest.len()
    }

    /// Whether no byte is left.
    pub fn is_empty(&self) -> bool
        ensures { IsTrue result ↔ (length self.now ≡ 0) }
    {
        self.rest.is_empty()
    }

    /// The bytes that are left.
    pub fn rest(&self) -> &'a [u8]
        ensures { result.now ≡ self.now }
    {
        self.rest
    }

    /// Reads a number below `n` (RFC 4506, section 4.3).
    pub fn read_below(&mut self, n: u32) -> Result<u32, Refusal>
        ensures { Scans (λ k. k) ((below n).read) self.old self.new result }
    {
        let mut at = self.fork();
        let number = at.read_u32()?;
        if number >= n {
            return Err(Refusal::Value);
        }
        *self = at;
        Ok(number)
    }

    /// Reads the number `k` and no other.
    pub fn read_always(&mut self, k: u32) -> Result<(), Refusal>
        ensures { Scans (λ u. u) ((always k unsigned_int).read) self.old self.new result }
    {
        let mut at = self.fork();
        let number = at.read_u32()?;
        if number != k {
            return Err(Refusal::Value);
        }
        *self = at;
        Ok(())
    }

    /// Reads the number `k` of 8 bytes and no other.
    pub fn read_always_u64(&mut self, k: u64) -> Result<(), Refusal>
        ensures { Scans (λ u. u) ((always k unsigned_hyper).read) self.old self.new result }
    {
        let mut at = self.fork();
        let hyper = at.read_u64()?;
        if hyper != k {
            return Err(Refusal::Value);
        }
        *self = at;
        Ok(())
    }

    /// Reads a boolean: 0 or 1 (RFC 4506, section 4.4).
    pub fn read_bool(&mut self) -> Result<bool, Refusal>
        ensures { Scans (λ b. b) (boolean.read) self.old self.new result }
    {
        let mut at = self.fork();
        let truth = match at.read_u32()? {
            0 => false,
            1 => true,
            _ => return Err(Refusal::Value),
        };
        *self = at;
        Ok(truth)
    }

    /// Reads `n` bytes, and zero bytes up to a multiple of 4 (RFC 4506, section 4.9).
    #[tactic(auto, using(crate::proofs::Reading::short_bytes, crate::proofs::Reading::short_pad, crate::proofs::Reading::other_pad, crate::proofs::Reading::found_padded))]
    pub fn read_fixed(&mut self, n: usize) -> Result<&'a [u8], Refusal>
        ensures { Scans (λ bytes. bytes.now) ((fixed_opaque n).read) self.old self.new result }
    {
        let rest = self.rest;
        if rest.len() < n {
            return Err(Refusal::Short);
        }
        let (bytes, behind) = rest.split_at(n);
        let pad = pad_len(n);
        if behind.len() < pad {
            return Err(Refusal::Short);
        }
        let (zeros, behind) = behind.split_at(pad);
        if !are_zero(zeros) {
            return Err(Refusal::Value);
        }
        self.rest = behind;
        Ok(bytes)
    }

    /// Reads `N` bytes as an array (RFC 4506, section 4.9).
    #[tactic(auto, using(crate::proofs::Reading::padded_len))]
    pub fn read_array<const N: usize>(&mut self) -> Result<[u8; N], Refusal>
        ensures { Scans (λ bytes. bytes) ((fixed_opaque N).read) self.old self.new result }
    {
        let bytes = self.read_fixed(N)?;
        let mut array = [0; N];
        array.copy_from_slice(bytes);
        Ok(array)
    }

    /// Reads a length of at most `limit`, that many bytes, and zero bytes up to a multiple of 4
    /// (RFC 4506, sections 4.10 and 4.11). A greater length is `Long`, whatever follows.
    #[tactic(auto, unfolding(crate::specs::Forms::counted_at))]
    pub fn read_opaque(&mut self, limit: u32) -> Result<&'a [u8], Refusal>
        ensures { Scans (λ bytes. bytes.now) ((opaque limit).read) self.old self.new result }
    {
        let mut at = self.fork();
        let len = at.read_u32()?;
        if len > limit {
            return Err(Refusal::Long);
        }
        let bytes = at.read_fixed(len as usize)?;
        *self = at;
        Ok(bytes)
    }
}

/// How many zero bytes follow `n` bytes.
pub(crate) fn pad_len(n: usize) -> usize
    ensures value { result ≡ padding n }
    ensures small { result < 4 }
{
    (4 - n % 4) % 4
}

fn are_zero(bytes: &[u8]) -> bool
    ensures { result ≡ are_zeros bytes.now }
{
    bytes.iter().all(|byte| *byte == 0)
}
