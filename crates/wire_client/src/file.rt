//! Arguments of the operations on files and their attributes (RFC 8881, section 18).

ghost use Rattle.xdr.specs.Clauses.{Wrote};
ghost use Rattle.model.specs.Wire.WireArguments.{close_arguments, commit_arguments, read_arguments, write_arguments, set_attr_arguments};
ghost use Rattle.wire.specs.ArgumentViews.{close_view, commit_view, read_view, write_view, set_attr_view};
ghost use Rattle.wire_client.specs.ArgumentFits.{AttributesFit, WriteFits};

use wire::{CloseArguments, CommitArguments, ReadArguments, SetAttrArguments, WriteArguments};
use xdr::{Refusal, Writer};

/// Writes `CLOSE4args`. On an error a prefix of them may have been written.
pub(crate) fn write_close(w: &mut Writer, a: &CloseArguments) -> Result<(), Refusal>
    ensures { Wrote w.old w.new result (close_arguments.encoding (close_view a.now)) }
{
    w.write_u32(a.seqid)?;
    a.state.write(w)
}

/// Writes `COMMIT4args`. On an error a prefix of them may have been written.
pub(crate) fn write_commit(w: &mut Writer, a: &CommitArguments) -> Result<(), Refusal>
    ensures { Wrote w.old w.new result (commit_arguments.encoding (commit_view a.now)) }
{
    w.write_u64(a.offset)?;
    w.write_u32(a.count)
}

/// Writes `READ4args`. On an error a prefix of them may have been written.
pub(crate) fn write_read(w: &mut Writer, a: &ReadArguments) -> Result<(), Refusal>
    ensures { Wrote w.old w.new result (read_arguments.encoding (read_view a.now)) }
{
    a.state.write(w)?;
    w.write_u64(a.offset)?;
    w.write_u32(a.count)
}

/// Writes `WRITE4args`. On an error a prefix of them may have been written.
pub(crate) fn write_write(w: &mut Writer, a: &WriteArguments<'_>) -> Result<(), Refusal>
    requires { WriteFits a.now }
    ensures { Wrote w.old w.new result (write_arguments.encoding (write_view a.now)) }
{
    a.state.write(w)?;
    w.write_u64(a.offset)?;
    a.stable.write(w)?;
    w.write_opaque(a.data)
}

/// Writes `SETATTR4args`. On an error a prefix of them may have been written.
pub(crate) fn write_set_attr(w: &mut Writer, a: &SetAttrArguments<'_>) -> Result<(), Refusal>
    requires { AttributesFit a.now.attributes }
    ensures { Wrote w.old w.new result (set_attr_arguments.encoding (set_attr_view a.now)) }
{
    a.state.write(w)?;
    a.attributes.write(w)
}
