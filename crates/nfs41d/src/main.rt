//! The program `nfs41d`: it serves the volume in a file over TCP, to up to 16 connections at a
//! time, until it is ended; it formats and checks volumes; and it gets files out of a volume that
//! is not served, and into an empty one.
#![tactic(auto)]

mod archives;
mod arguments;
mod fault;
mod format;
mod name;
mod request;
mod serve;
mod version;

use archives::{get_file, list_path, put_archive, write_archive};
use fault::Fault;
use format::format_volume;
use request::{Request, read_request};
use serve::serve_volume;
use std::io::Write;
use std::process::ExitCode;
use system::{begin, check_file, tell_outcome, tell_usage};

fn main(rt: HostRuntime) -> ExitCode {
    ExitCode::from(run(&rt))
}

fn run(rt: &HostRuntime) -> u8 {
    let mut err = rt.stderr();
    match obey(rt) {
        Err(Fault::Usage(usage)) => tell_usage(&mut err, usage.text()),
        outcome => tell_outcome(&mut err, outcome),
    }
}

/// Does what the words of the command line ask for.
fn obey(rt: &HostRuntime) -> Result<(), Fault> {
    let begun = begin(rt)?;
    let mut out = rt.stdout();
    match read_request(rt.alloc(), &begun.words)? {
        Request::Print(text) => Ok(write!(out, "{text}")?),
        Request::Serve(serving) => serve_volume(rt, serving),
        Request::Format { file, size, force } => format_volume(rt, file, size, force, &mut out),
        Request::Check { file } => Ok(check_file(rt, file, &mut out)?),
        Request::List { file, path } => list_path(rt, file, path, out),
        Request::Get { file, path } => get_file(rt, file, path, &mut out),
        Request::Tar { file } => write_archive(rt, file, &mut out),
        Request::Put { file, archive } => put_archive(rt, file, archive),
    }
}
