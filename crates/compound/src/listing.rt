//! READDIR (RFC 8881, section 18.23).

ghost use Rattle.std.specs.Prelude.{◌≡◌, All};
ghost use Rattle.fs.specs.Listing.{PageFits, list_arguments, page_view};
ghost use Rattle.model.specs.Wire.WireAnswers.{read_dir_answer};
ghost use Rattle.wire.specs.ArgumentViews.{read_dir_view};
ghost use Rattle.wire_attributes.specs.Listed.{EntryFits};
ghost use Rattle.xdr.specs.Clauses.{Wrote};
ghost use Rattle.compound.specs.Memory.{OrMemory};
ghost use Rattle.compound.specs.Pages.{chain_of, link_of, links_of};

use crate::executed::Executed;
use crate::fault::Fault;
use crate::reading::Reading;
use disk::Device;
use fs::{Listing, Page};
use std::alloc::Global;
use wire::{Operation, ReadDirArguments};
use wire_attributes::ListedEntry;
use xdr::{Refusal, Writer};

/// The memory that is allocated for a page, in bytes: the size of the largest one.
const PAGE_BYTES: usize = 8_192;

impl<D: Device> Reading<'_, '_, D> {
    ghost use Rattle.model.specs.Operations.Operation as operations;
    ghost use Rattle.wire.specs.ArgumentViews.{read_dir_view};
    ghost use Rattle.compound.specs.Memory.{OrMemory};
    ghost use Rattle.compound.specs.Readings.{ReadsAs};

    /// READDIR: a page of the current directory, of the entries after a cookie.
    pub(crate) fn read_dir(&self, arguments: &ReadDirArguments) -> Result<Executed, Fault>
        ensures { OrMemory result (ReadsAs self.now
            (operations.Argument.ReadDir (read_dir_view arguments.now))) }
    {
        let running = self.running;
        let directory = match running.current_node() {
            Ok(number) => number,
            Err(status) => return Ok(running.refuse(Operation::ReadDir, status)),
        };
        match self
            .fs
            .read_dir(running.cred, listing(directory, arguments))
        {
            Ok(page) => {
                let values = encode(running.alloc, &page)?;
                Ok(running.settle_encoded(Operation::ReadDir, values))
            }
            Err(fault) => running.tell_fault(Operation::ReadDir, fault),
        }
    }
}

/// What is asked of the directory of this number.
fn listing(directory: u64, arguments: &ReadDirArguments) -> Listing<'_>
    ensures directory { result.directory ≡ directory }
    ensures arguments { list_arguments result arguments.entry.now.dir_count
        ≡ read_dir_view arguments.entry.now }
{
    Listing {
        directory,
        cookie: arguments.cookie,
        verifier: arguments.verifier,
        max_count: arguments.max_count,
        asked: arguments.bitmap.as_slice(),
    }
}

/// The page as the result has it.
fn encode(alloc: Global, page: &Page<'_>) -> Result<Vec<u8>, Fault>
    requires { PageFits page.now }
    ensures { OrMemory result (λ values.
        values.items ≡ read_dir_answer.encoding (page_view page.now)) }
{
    let mut out = Writer::with_capacity(alloc, PAGE_BYTES)?;
    write_page(&mut out, page)?;
    Ok(out.into_vec())
}

/// Writes a page, with a verifier of zero bytes. A refusal may leave a prefix of it.
#[tactic(auto, using(xdr::proofs::Writing::wrote_on, xdr::proofs::Writing::wrote_exit, xdr::proofs::Writing::wrote_end))]
fn write_page(w: &mut Writer, page: &Page<'_>) -> Result<(), Refusal>
    requires { PageFits page.now }
    ensures { Wrote w.old w.new result (read_dir_answer.encoding (page_view page.now)) }
{
    w.write_u64(0)?;
    write_chain(w, &page.entries)?;
    w.write_bool(page.is_end)
}

/// Writes entries, with the end of their chain. A refusal may leave a prefix of them.
#[tactic(auto, unfolding(crate::specs::Pages::chain_of), using(xdr::proofs::Writing::wrote_on, xdr::proofs::Writing::wrote_exit, xdr::proofs::Writing::wrote_end))]
fn write_chain(w: &mut Writer, entries: &[ListedEntry<'_>]) -> Result<(), Refusal>
    requires { All EntryFits entries.now }
    ensures { Wrote w.old w.new result (chain_of entries.now) }
{
    write_links(w, entries)?;
    w.write_bool(false)
}

fn write_links(w: &mut Writer, entries: &[ListedEntry<'_>]) -> Result<(), Refusal>
    requires { All EntryFits entries.now }
    ensures { Wrote w.old w.new result (links_of entries.now) }
{
    for entry in entries {
        write_link(w, entry)?;
    }
    Ok(())
}

#[tactic(auto, using(xdr::proofs::Writing::wrote_on, xdr::proofs::Writing::wrote_exit, xdr::proofs::Writing::wrote_end))]
fn write_link(w: &mut Writer, entry: &ListedEntry<'_>) -> Result<(), Refusal>
    requires { EntryFits entry.now }
    ensures { Wrote w.old w.new result (link_of entry.now) }
{
    w.write_bool(true)?;
    entry.write(w)
}
