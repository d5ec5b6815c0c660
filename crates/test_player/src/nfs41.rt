//! The program of cases.

use program::command;
use test_rows::{Output, Program};

/// The program `nfs41`.
pub struct Nfs41;

impl Program for Nfs41 {
    fn command(
        rt: &HostRuntime,
        words: &[String],
        input: &mut &[u8],
        output: &mut Output<'_>,
        errors: &mut Vec<u8>,
    ) -> u8 {
        command(rt, words, input, output, errors)
    }
}
