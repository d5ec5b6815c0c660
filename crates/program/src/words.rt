//! The words of a command line.

use clap::error::ErrorKind;
use clap::{Arg, ArgMatches, Command};
use std::alloc::{AllocError, Global};
use std::convert::AsStr;
use system::{VolumeSize, decimal};

/// What the program is asked for.
#[derive(Clone, Copy)]
pub enum Request<'a> {
    /// Run the script of the standard input on a volume in memory.
    Script,
    /// Make a file a volume.
    Format {
        file: &'a str,
        size: VolumeSize,
    },
    /// Run a script on the volume in a file.
    Run {
        file: &'a str,
        script: &'a str,
    },
    /// Print what is on the volume in a file.
    Check {
        file: &'a str,
    },
    /// Serve the volume in a file to `count` connections on this port.
    Serve {
        file: &'a str,
        port: u16,
        count: u32,
    },
    /// The words have no form.
    Usage,
}

/// The commands, and the words that each has after it.
const COMMANDS: [(&str, &[&str]); 4] = [
    ("format", &["FILE", "SECTORS", "NODES"]),
    ("run", &["FILE", "SCRIPT"]),
    ("check", &["FILE"]),
    ("serve", &["FILE", "PORT", "COUNT"]),
];

/// Reads the words after the program's name.
pub fn read_words<'a, S: AsStr>(alloc: Global, words: &'a [S]) -> Result<Request<'a>, AllocError> {
    request_in(whole_command(alloc)?, words)
}

/// What the words ask for, as the command reads them.
fn request_in<'a, S: AsStr>(
    command: Command<'a>,
    words: &'a [S],
) -> Result<Request<'a>, AllocError> {
    match command.try_get_matches_from(words) {
        Ok(matches) => Ok(request_of(&matches)),
        Err(error) => match error.kind() {
            ErrorKind::OutOfMemory => Err(AllocError),
            _ => Ok(Request::Usage),
        },
    }
}

fn whole_command<'a>(alloc: Global) -> Result<Command<'a>, AllocError> {
    let mut command = Command::new(alloc, "nfs41").no_binary_name(true);
    for (name, words) in COMMANDS {
        command = with_command(command, command_of(alloc, name, words)?)?;
    }
    Ok(command)
}

fn with_command<'a>(command: Command<'a>, other: Command<'a>) -> Result<Command<'a>, AllocError> {
    command.subcommand(other)
}

/// The command of this name, which has to be followed by all of these words.
fn command_of<'a>(
    alloc: Global,
    name: &'a str,
    words: &[&'a str],
) -> Result<Command<'a>, AllocError> {
    let mut command = Command::new(alloc, name);
    for word in words {
        command = with_word(alloc, command, *word)?;
    }
    Ok(command)
}

fn with_word<'a>(
    alloc: Global,
    command: Command<'a>,
    word: &'a str,
) -> Result<Command<'a>, AllocError> {
    command.arg(Arg::new(alloc, word).required(true))
}

fn request_of<'a>(matches: &ArgMatches<'a>) -> Request<'a> {
    if let Some(words) = command_in(matches, "format") {
        return format_of(words);
    }
    if let Some(words) = command_in(matches, "run") {
        return run_of(words);
    }
    if let Some(words) = command_in(matches, "check") {
        return check_of(words);
    }
    if let Some(words) = command_in(matches, "serve") {
        return serve_of(words);
    }
    Request::Script
}

/// What follows the command of this name, if that is the one that is given.
fn command_in<'a, 'b>(matches: &'b ArgMatches<'a>, name: &str) -> Option<&'b ArgMatches<'a>> {
    matches.subcommand_matches(name)
}

fn word_in<'a>(words: &ArgMatches<'a>, name: &str) -> Option<&'a str> {
    words.get_str(name)
}

fn number_in(words: &ArgMatches<'_>, name: &str) -> Option<u32> {
    decimal(word_in(words, name)?)
}

fn format_of<'a>(words: &ArgMatches<'a>) -> Request<'a> {
    match (word_in(words, "FILE"), size_in(words)) {
        (Some(file), Some(size)) => Request::Format { file, size },
        _ => Request::Usage,
    }
}

fn size_in(words: &ArgMatches<'_>) -> Option<VolumeSize> {
    VolumeSize::parse(word_in(words, "SECTORS")?, word_in(words, "NODES")?)
}

fn run_of<'a>(words: &ArgMatches<'a>) -> Request<'a> {
    match (word_in(words, "FILE"), word_in(words, "SCRIPT")) {
        (Some(file), Some(script)) => Request::Run { file, script },
        _ => Request::Usage,
    }
}

fn check_of<'a>(words: &ArgMatches<'a>) -> Request<'a> {
    match word_in(words, "FILE") {
        Some(file) => Request::Check { file },
        None => Request::Usage,
    }
}

fn serve_of<'a>(words: &ArgMatches<'a>) -> Request<'a> {
    match (
        word_in(words, "FILE"),
        port_in(words),
        number_in(words, "COUNT"),
    ) {
        (Some(file), Some(port), Some(count)) => Request::Serve { file, port, count },
        _ => Request::Usage,
    }
}

fn port_in(words: &ArgMatches<'_>) -> Option<u16> {
    u16::try_from(number_in(words, "PORT")?).ok()
}
