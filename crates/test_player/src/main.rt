//! The program `test_player`: rows of records, each played on a new server in memory, and cases of
//! the program `nfs41`.
#![tactic(auto)]

mod device;
mod host;
mod hub_loop;
mod nfs41;
mod refusal;
mod run;

use run::{run, run_again};
use std::env;
use std::process::ExitCode;

/// The exit status if a file cannot be read or has no form.
const REFUSED: u8 = 2;

fn main(rt: HostRuntime) -> ExitCode {
    match play_words(&rt) {
        Ok(true) => ExitCode::SUCCESS,
        Ok(false) => ExitCode::FAILURE,
        Err(error) => {
            let _ = eprintln!(rt; "refused: {error}");
            ExitCode::from(REFUSED)
        }
    }
}

/// Plays the files that the words of the command line name. Returns whether all went as written.
fn play_words(rt: &HostRuntime) -> anyhow::Result<bool> {
    let words: Vec<String> = env::args(rt)?.skip(1).collect(rt.alloc())?;
    match words.as_slice() {
        [again, records, file] if again.as_str() == "again" => run_again(rt, records, file),
        [records, files @ ..] => run(rt, records, files),
        [] => anyhow::bail!("usage: test_player RECORDS FILE .. | again RECORDS FILE"),
    }
}
