//! The program `bench`: how many calls a second one core takes on a small and on a large volume.
#![tactic(auto)]

mod calls;
mod figures;
mod rows;
mod volumes;
mod work;

use std::process::ExitCode;
use std::{env, io};

/// The exit status if the words have no form.
const USAGE: u8 = 2;

fn main(rt: HostRuntime) -> ExitCode {
    match run(&rt) {
        Ok(status) => status,
        Err(error) => {
            let _ = eprintln!(rt; "refused: {error}");
            ExitCode::FAILURE
        }
    }
}

/// Without words each kind of work is done once, and what it did is printed.
fn run(rt: &HostRuntime) -> anyhow::Result<ExitCode> {
    let words: Vec<String> = env::args(rt)?.skip(1).collect(rt.alloc())?;
    match words.as_slice() {
        [] => {
            figures::print_counts(rt, rt.alloc())?;
            Ok(ExitCode::SUCCESS)
        }
        [word, path] if word.as_str() == "volumes" => {
            figures::print_figures(rt, rt.alloc(), path)?;
            Ok(ExitCode::SUCCESS)
        }
        _ => {
            eprintln!(rt; "usage: bench [volumes FILE]")?;
            Ok(ExitCode::from(USAGE))
        }
    }
}
