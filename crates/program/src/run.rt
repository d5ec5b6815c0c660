//! One run of the program, apart from the process around it.

use crate::serve::serve;
use crate::words::{Request, read_words};
use callers::ScriptFault;
use disk::MemDevice;
use script::run_script;
use server::Server;
use std::alloc::Global;
use std::convert::AsStr;
use std::fs::read_to_string;
use std::io::{BufRead, ErrorKind, Write};
use system::{
    Machine, Refused, check_file, format_file, open_refusal, open_volume, tell_outcome, tell_usage,
};

/// The words that there may be.
pub(crate) const USAGE: &str =
    "nfs41 [format FILE SECTORS NODES | run FILE SCRIPT | check FILE | serve FILE PORT COUNT]";

/// The volume in memory.
const MEMORY_SECTORS: u32 = 256;

const MEMORY_NODES: u32 = 16;

/// Does what the words ask for, and returns the exit status: 0 done; 1 refused, and then the name
/// of the refusal is printed on `err`; 2 if the words have no form.
pub fn command<R, S, I, O, E>(rt: &R, words: &[S], input: &mut I, out: &mut O, err: &mut E) -> u8
where
    R: Machine,
    S: AsStr,
    I: BufRead,
    O: Write,
    E: Write,
{
    match read_words(rt.alloc(), words) {
        Ok(Request::Usage) => tell_usage(err, USAGE),
        Ok(request) => tell_outcome(err, do_request(rt, request, input, out)),
        Err(error) => tell_outcome(err, Err(Refused::from(error))),
    }
}

fn do_request<R, I, O>(
    rt: &R,
    request: Request<'_>,
    input: &mut I,
    out: &mut O,
) -> Result<(), ScriptFault>
where
    R: Machine,
    I: BufRead,
    O: Write,
{
    match request {
        Request::Usage => Ok(()),
        Request::Script => script_in_memory(rt, input, out),
        Request::Format { file, size } => Ok(format_file(rt, file, size, out)?),
        Request::Run { file, script } => run_file(rt, file, script, out),
        Request::Check { file } => Ok(check_file(rt, file, out)?),
        Request::Serve { file, port, count } => Ok(serve_file(rt, file, port, count, out)?),
    }
}

fn script_in_memory<R, I, O>(rt: &R, input: &mut I, out: &mut O) -> Result<(), ScriptFault>
where
    R: Machine,
    I: BufRead,
    O: Write,
{
    let mut device = volume_in_memory(rt.alloc())?;
    run_script(rt, &mut device, input, out)
}

fn volume_in_memory(alloc: Global) -> Result<MemDevice, Refused> {
    let mut device = MemDevice::new(alloc, MEMORY_SECTORS)?;
    Server::format(alloc, &mut device, MEMORY_NODES)?;
    Ok(device)
}

fn run_file<R, O>(rt: &R, file: &str, script_file: &str, out: &mut O) -> Result<(), ScriptFault>
where
    R: Machine,
    O: Write,
{
    match read_to_string(rt, script_file) {
        Ok(text) => run_text(rt, file, &text, out),
        Err(error) => Err(read_refusal(error.kind())),
    }
}

/// Runs the script of this text on the volume in a file.
fn run_text<R, O>(rt: &R, file: &str, text: &str, out: &mut O) -> Result<(), ScriptFault>
where
    R: Machine,
    O: Write,
{
    let mut device = open_volume(rt, file)?;
    run_script(rt, &mut device, &mut text.as_bytes(), out)
}

/// Serves the volume in a file. The server borrows its device, as that of a script does: it is
/// compiled once for each type of device.
fn serve_file<R, O>(rt: &R, file: &str, port: u16, count: u32, out: &mut O) -> Result<(), Refused>
where
    R: Machine,
    O: Write,
{
    let mut device = open_volume(rt, file)?;
    serve(rt, &mut device, port, count, out)
}

/// Why a script is not read.
fn read_refusal(kind: ErrorKind) -> ScriptFault {
    match kind {
        ErrorKind::InvalidData => ScriptFault::Script,
        _ => open_refusal(kind).into(),
    }
}
