//! Arguments of the operations on directories (RFC 8881, section 18).

ghost use Rattle.xdr.specs.Clauses.{Wrote};
ghost use Rattle.model.specs.Wire.WireArguments.{read_dir_arguments, rename_arguments, create_arguments};
ghost use Rattle.wire.specs.ArgumentViews.{read_dir_view, rename_view, create_view};
ghost use Rattle.wire_client.specs.Rests.{read_dir_rest};
ghost use Rattle.wire_client.specs.ArgumentFits.{CreateFits, RenameFits};

use wire::{CreateArguments, ReadDirArguments, RenameArguments};
use xdr::{Refusal, Writer};

/// The number of NF4DIR among the types of `nfs_ftype4`.
const DIRECTORY: u32 = 2;

/// Writes `CREATE4args`. On an error a prefix of them may have been written.
#[tactic(auto, using(xdr::proofs::Writing::wrote_on, xdr::proofs::Writing::wrote_exit, xdr::proofs::Writing::wrote_end, crate::proofs::Alone::wrote_alone))]
pub(crate) fn write_create(w: &mut Writer, a: &CreateArguments<'_>) -> Result<(), Refusal>
    requires { CreateFits a.now }
    ensures { Wrote w.old w.new result (create_arguments.encoding (create_view a.now)) }
{
    match a {
        CreateArguments::NewDirectory { name, attributes } => {
            w.write_u32(DIRECTORY)?;
            w.write_opaque(name)?;
            attributes.write(w)
        }
        CreateArguments::OtherType(number) => w.write_u32(*number),
    }
}

/// Writes `READDIR4args`. On an error a prefix of them may have been written.
pub(crate) fn write_read_dir(w: &mut Writer, a: &ReadDirArguments) -> Result<(), Refusal>
    ensures { Wrote w.old w.new result (read_dir_arguments.encoding (read_dir_view a.now)) }
{
    w.write_u64(a.cookie)?;
    w.write_fixed(&a.verifier)?;
    write_read_dir_rest(w, a)
}

fn write_read_dir_rest(w: &mut Writer, a: &ReadDirArguments) -> Result<(), Refusal>
    ensures { Wrote w.old w.new result (read_dir_rest a.now) }
{
    w.write_u32(a.dir_count)?;
    w.write_u32(a.max_count)?;
    a.bitmap.write(w)
}

/// Writes `RENAME4args`. On an error a prefix of them may have been written.
pub(crate) fn write_rename(w: &mut Writer, a: &RenameArguments<'_>) -> Result<(), Refusal>
    requires { RenameFits a.now }
    ensures { Wrote w.old w.new result (rename_arguments.encoding (rename_view a.now)) }
{
    w.write_opaque(a.old_name)?;
    w.write_opaque(a.new_name)
}
