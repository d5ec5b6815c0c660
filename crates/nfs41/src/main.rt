//! The program `nfs41`: what `program` does, in a process.
#![tactic(auto)]

use program::run_process;
use std::process::ExitCode;

fn main(rt: HostRuntime) -> ExitCode {
    let status = run_process(&rt, rt.stdin(), &mut rt.stdout(), &mut rt.stderr());
    ExitCode::from(status)
}
