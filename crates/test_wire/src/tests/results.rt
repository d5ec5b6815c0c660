//! What no program writes or reads as a client does: arguments and results that are written back
//! as they were read, values of attributes, and the names of owners.

ghost use Rattle.std.specs.Prelude.{All};
ghost use Rattle.wire_attributes.specs.Views.{ValueFits};
ghost use Rattle.wire_client.specs.ArgumentFits.{ArgumentFits};

use super::asking::bytes_of;
use model_tree::acl::Who;
use std::alloc::Global;
use std::test::*;
use wire::{Argument, Attributes};
use wire_attributes::{Value, text_of, values_of, write_values};
use wire_client::{read_outcome, write_argument};
use xdr::{Reader, Refusal, Writer};

/// GETATTR of mode and owner, READDIR from the first name on, DESTROY_SESSION, DESTROY_CLIENTID and
/// RECLAIM_COMPLETE.
const CALLS: &str = "9 2 0 12
    1a 0 0 0 0 0 2c 0
    2c 1 1 0 1
    39 1 1
    3a 0";

/// Mode 755 and the owner `7`, the name `a` and no more, and that the others were done.
const RESULTS: &str = "9 0 2 0 12 c 1ed 1 37000000
    1a 0 0 0 1 1 1 1 61000000 0 0 0 1
    2c 0
    39 0
    3a 0";

const COUNT: usize = 5;

// The calls are here once, since each brings all that it promises to its caller.

fn write(w: &mut Writer, call: Argument<'_>) -> Result<(), Refusal>
    requires { ArgumentFits call }
{
    write_argument(w, &call)
}

/// Writes the operations again.
#[tactic(auto, using(wire_client::proofs::Fitting::argument_fits))]
fn rewrite_calls(alloc: Global, r: &mut Reader<'_>, w: &mut Writer) -> Result<(), Refusal> {
    for _ in 0..COUNT {
        write(w, Argument::read_numbered(alloc, r)?)?;
    }
    Ok(())
}

/// Writes the results again.
fn rewrite(alloc: Global, r: &mut Reader<'_>, w: &mut Writer) -> Result<(), Refusal> {
    for _ in 0..COUNT {
        read_outcome(alloc, r)?.write(w)?;
    }
    Ok(())
}

#[test]
fn arguments_are_written_back(rt: HostRuntime) -> Result<(), Fail> {
    let calls = bytes_of(rt.alloc(), CALLS)?;
    let mut w = Writer::new(rt.alloc());
    let mut r = Reader::new(&calls);
    rewrite_calls(rt.alloc(), &mut r, &mut w)?;
    assert!(rt; r.is_empty() && w.as_slice() == calls.as_slice());
    Ok(())
}

#[test]
fn results_are_written_back(rt: HostRuntime) -> Result<(), Fail> {
    let results = bytes_of(rt.alloc(), RESULTS)?;
    let mut w = Writer::new(rt.alloc());
    let mut r = Reader::new(&results);
    rewrite(rt.alloc(), &mut r, &mut w)?;
    assert!(rt; r.is_empty() && w.as_slice() == results.as_slice());
    Ok(())
}

/// Mode and owner after their bitmap and their length, and only the values.
const GIVEN: &str = "2 0 12 c 1ed 1 37000000";

const VALUES: &str = "1ed 1 37000000";

/// The values that come after their bitmap.
fn given_in(alloc: Global, bytes: &[u8]) -> Result<Vec<Value<'_>>, Refusal> {
    values_of(alloc, &Attributes::read(&mut Reader::new(bytes))?)
}

/// The bytes of values.
fn encoded(alloc: Global, values: &[Value<'_>]) -> Result<Vec<u8>, Refusal>
    requires { All ValueFits values.now }
{
    let mut w = Writer::new(alloc);
    write_values(&mut w, values)?;
    Ok(w.into_vec())
}

fn are_mode_and_owner(values: &[Value<'_>]) -> bool {
    values.len() == 2
        && matches!(values[0], Value::Mode(0o755))
        && matches!(values[1], Value::Owner(b"7"))
}

#[test]
fn mode_and_owner_are_read(rt: HostRuntime) -> Result<(), Fail> {
    let given = bytes_of(rt.alloc(), GIVEN)?;
    let is_read = are_mode_and_owner(&given_in(rt.alloc(), &given)?);
    assert!(rt; is_read);
    Ok(())
}

#[test]
fn mode_and_owner_are_written(rt: HostRuntime) -> Result<(), Fail> {
    let written = encoded(rt.alloc(), &[Value::Mode(0o755), Value::Owner(b"7")])?;
    let expected = bytes_of(rt.alloc(), VALUES)?;
    assert!(rt; written.as_slice() == expected.as_slice());
    Ok(())
}

fn text_is(alloc: Global, who: Who, name: &str) -> Result<bool, Refusal> {
    Ok(text_of(alloc, who)?.as_str() == name)
}

#[test]
fn owners_have_names(rt: HostRuntime) -> Result<(), Fail> {
    let are_so = text_is(rt.alloc(), Who::NamedGroup(1000), "1000")?
        && text_is(rt.alloc(), Who::Everyone, "EVERYONE@")?;
    assert!(rt; are_so);
    Ok(())
}
