//! Short arrays of numbers.

ghost use Rattle.std.specs.Prelude.{◌≡◌, ◌<◌, ◌≤◌, ◌+◌, ◌*◌, ◌^◌, ◌++◌, ◌∷◌, [], length, OnErr};
ghost use Rattle.xdr.specs.Grammar.{number, unsigned_int};
ghost use Rattle.xdr.specs.Forms.{array, elements};
ghost use Rattle.std.specs.Int.{w32};
ghost use Rattle.std.specs.List.{flat_map};
ghost use Rattle.xdr.specs.Clauses.{Scans, Wrote};
ghost use Rattle.xdr.specs.Filling.{Fills};

use crate::reader::Reader;
use crate::refusal::Refusal;
use crate::writer::Writer;
use std::marker::Model;

/// At most `N` numbers. In a contract it is their list.
#[derive(Drop)]
pub struct Words<const N: usize> {
    words: [u32; N],
    count: usize,
}

impl<const N: usize> Model for Words<N> {
    ghost use Rattle.std.specs.Prelude.{ℕ, List, take, ◌≤◌, length};

    ghost Value = { List ℕ };

    ghost view = { λ w. take w.count w.words };

    ghost invariant = { λ w. w.count ≤ length w.words };
}

impl<const N: usize> Words<N> {
    /// An empty array.
    pub fn new() -> Words<N>
        ensures { result ≡ [] }
    {
        Words {
            words: [0; N],
            count: 0,
        }
    }

    /// The numbers.
    pub fn as_slice(&self) -> &[u32]
        ensures numbers { result.now ≡ self.now }
        ensures limit { length result.now ≤ N }
    {
        &self.words[..self.count]
    }

    /// Reads a count and that many numbers (RFC 4506, section 4.13). A count above `N` is `Long`,
    /// whatever follows.
    #[tactic(auto, unfolding(crate::specs::Forms::elements_at))]
    pub fn read(r: &mut Reader<'_>) -> Result<Words<N>, Refusal>
        ensures { Scans (λ words. words) ((array N unsigned_int).read) r.old r.new result }
    {
        let mut at = r.fork();
        let count = at.read_u32()? as usize;
        if count > N {
            return Err(Refusal::Long);
        }
        let mut words = [0; N];
        let at = fill_words(at, &mut words[..count])?;
        *r = at;
        Ok(Words { words, count })
    }

    /// Appends a number.
    pub fn push(&mut self, word: u32)
        requires { length self.old < N }
        ensures { self.new ≡ self.old ++ word ∷ [] }
    {
        self.words[self.count] = word;
        self.count += 1;
    }

    /// How many bytes `write` writes.
    #[tactic(auto, using(crate::proofs::Sizes::elements_length))]
    pub fn size(&self) -> usize
        requires { N < 2 ^ 32 }
        ensures value { result ≡ length (elements (λ n. number w32 n) self.now) }
        ensures bound { result ≤ 4 + 4 * N }
    {
        4 + 4 * self.as_slice().len()
    }

    /// Writes the count and the numbers (RFC 4506, section 4.13).
    #[tactic(auto, using(crate::proofs::Writing::failed_write, crate::proofs::Writing::unchanged))]
    pub fn write(&self, w: &mut Writer) -> Result<(), Refusal>
        requires { N < 2 ^ 32 }
        ensures wrote { Wrote w.old w.new result (elements (λ n. number w32 n) self.now) }
        ensures err { OnErr result (w.new.bytes ≡ w.old.bytes) }
    {
        let mark = w.len();
        let result = write_counted(w, self.as_slice());
        w.undo(mark, result)
    }
}

#[tactic(auto, unfolding(crate::specs::Forms::elements), using(crate::proofs::Writing::wrote_on, crate::proofs::Writing::wrote_exit, crate::proofs::Writing::wrote_end))]
fn write_counted(w: &mut Writer, words: &[u32]) -> Result<(), Refusal>
    requires { length words.now < 2 ^ 32 }
    ensures { Wrote w.old w.new result (elements (λ n. number w32 n) words.now) }
{
    w.write_u32(words.len() as u32)?;
    write_each(w, words)
}

fn write_each(w: &mut Writer, words: &[u32]) -> Result<(), Refusal>
    ensures { Wrote w.old w.new result (flat_map (λ n. number w32 n) words.now) }
{
    for word in words {
        w.write_u32(*word)?;
    }
    Ok(())
}

/// Reads a number for each place of `words`, and returns the reader after them.
fn fill_words<'a>(at: Reader<'a>, words: &mut [u32]) -> Result<Reader<'a>, Refusal>
    ensures { Fills at.entry (length words.old) words.new result }
{
    let mut at = at;
    for word in words.iter_mut() {
        *word = at.read_u32()?;
    }
    Ok(at)
}
