//! The command line as `clap` has it: its arguments, and what help says of each.

use crate::version::VERSION;
use clap::{Arg, ArgAction, Command};
use std::alloc::{AllocError, Global};

pub const SERVE: &str = "serve";

pub const FORMAT: &str = "format";

pub const CHECK: &str = "check";

pub const LS: &str = "ls";

pub const GET: &str = "get";

pub const TAR: &str = "tar";

pub const PUT: &str = "put";

pub const FILE: &str = "FILE";

pub const PATH: &str = "PATH";

pub const ARCHIVE: &str = "TAR";

pub const ADDRESS: &str = "ADDRESS:PORT";

pub const SIZE: &str = "SIZE";

pub const NODES: &str = "NODES";

pub const FORCE: &str = "force";

pub const WITH_NODES: &str = "nodes";

pub const LOG: &str = "log";

pub const SEATS: &str = "seats";

pub const FORGET_AFTER: &str = "forget-after";

pub const HOLD: &str = "hold";

pub const NO_PERSISTENT_SESSIONS: &str = "no-persistent-sessions";

pub const NAME: &str = "name";

pub const FREE_SEATS: &str = "free-seats";

pub const ALLOW: &str = "allow";

pub const PRIVILEGED_PORTS: &str = "privileged-ports";

pub const QUIET: &str = "quiet";

pub const METRICS: &str = "metrics";

/// The whole command. What `serve` takes may be given without that word.
pub fn command<'a>(alloc: Global) -> Result<Command<'a>, AllocError> {
    let command = Command::new(alloc, "nfs41d")
        .bin_name("nfs41d")?
        .no_binary_name(true)
        .version(VERSION)
        .about(
            "Serves the volume in a file by NFS 4.1; formats volumes and checks them; gets files \
             out of a volume that is not served, and into an empty one.",
        )
        .args_conflicts_with_subcommands(true)
        .subcommand_negates_reqs(true);
    with_serving(alloc, command)?
        .subcommand(serve(alloc)?)?
        .subcommand(format(alloc)?)?
        .subcommand(check(alloc)?)?
        .subcommand(ls(alloc)?)?
        .subcommand(get(alloc)?)?
        .subcommand(tar(alloc)?)?
        .subcommand(put(alloc)?)
}

fn serve<'a>(alloc: Global) -> Result<Command<'a>, AllocError> {
    let command = Command::new(alloc, SERVE).about(
        "Serve the volume in a file, until a signal ends it",
    );
    with_serving(alloc, command)
}

fn format<'a>(alloc: Global) -> Result<Command<'a>, AllocError> {
    Command::new(alloc, FORMAT)
        .about("Make a file, which only its owner may read, or a block device a new volume")
        .arg(flag(alloc, FORCE, "Overwrite a file that is a volume already"))?
        .arg(option(
            alloc,
            WITH_NODES,
            "N",
            "How many files and directories it can hold; by default one for each 64 KiB, at most \
             1048576",
        ))?
        .arg(option(
            alloc,
            LOG,
            "SECTORS",
            "How many sectors of 4096 bytes its log gets, from 288 to 1022, as by default",
        ))?
        .arg(option(
            alloc,
            SEATS,
            "P",
            "How many machines can have replies held that outlive a crash, from 1 to 64; by default 5",
        ))?
        .arg(word(alloc, FILE, "The file, which is made if it is absent"))?
        .arg(word(
            alloc,
            SIZE,
            "How large it is, as 512M, 64G or 2T; or how many sectors it gets, if NODES follows",
        ))?
        .arg(Arg::new(alloc, NODES).help(
            "Make a volume of layout 2, of at most 65536 sectors and 16384 nodes, with this many \
             nodes",
        ))
}

fn check<'a>(alloc: Global) -> Result<Command<'a>, AllocError> {
    Command::new(alloc, CHECK)
        .about("Print what a mount would find, and write nothing")
        .arg(word(alloc, FILE, "The volume"))
}

fn ls<'a>(alloc: Global) -> Result<Command<'a>, AllocError> {
    Command::new(alloc, LS)
        .about("List a directory of a volume, or a file, as ls -l does")
        .arg(word(alloc, FILE, "The volume, which is not written"))?
        .arg(word(alloc, PATH, "The path within the volume, as / or /home/a"))
}

fn get<'a>(alloc: Global) -> Result<Command<'a>, AllocError> {
    Command::new(alloc, GET)
        .about("Write the bytes of a file of a volume to the standard output")
        .arg(word(alloc, FILE, "The volume, which is not written"))?
        .arg(word(alloc, PATH, "The path of the file within the volume"))
}

fn tar<'a>(alloc: Global) -> Result<Command<'a>, AllocError> {
    Command::new(alloc, TAR)
        .about("Write all of a volume to the standard output, as a tar archive")
        .arg(word(alloc, FILE, "The volume, which is not written"))
}

fn put<'a>(alloc: Global) -> Result<Command<'a>, AllocError> {
    Command::new(alloc, PUT)
        .about("Put all that a tar archive has into an empty volume")
        .arg(word(alloc, FILE, "The volume, as it was formatted"))?
        .arg(word(alloc, ARCHIVE, "The archive; - is the standard input"))
}

/// The command with all that `serve` takes.
fn with_serving<'a>(alloc: Global, command: Command<'a>) -> Result<Command<'a>, AllocError> {
    let command = command.arg(word(alloc, FILE, "The volume"))?.arg(Arg::new(alloc, ADDRESS).help(
        "Where to listen; port 0 is one that the system picks. Without it, at the socket that \
             systemd hands over",
    ))?;
    let command = with_sessions(alloc, command)?;
    let command = with_door(alloc, command)?;
    with_reports(alloc, command)
}

/// Options on clients and their sessions.
fn with_sessions<'a>(alloc: Global, command: Command<'a>) -> Result<Command<'a>, AllocError> {
    command
        .arg(option(
            alloc,
            NAME,
            "NAME",
            "What distinguishes this server from others, the same at each start; by default the \
             identity of the volume, or of one of layout 2 the name of the host, a colon, and its \
             path",
        ))?
        .arg(option(
            alloc,
            FORGET_AFTER,
            "SECONDS",
            "Forget all clients after this time without a connection",
        ))?
        .arg(option(
            alloc,
            HOLD,
            "WHICH",
            "Which replies outlive a crash: those to requests that changed something ('changes', \
             as by default), 'all', or 'none', which is fastest",
        ))?
        .arg(flag(alloc, NO_PERSISTENT_SESSIONS, "The same as '--hold none'"))?
        .arg(flag(
            alloc,
            FREE_SEATS,
            "Free the seats of sessions that are gone, at the start",
        ))
}

/// Options on who may connect.
fn with_door<'a>(alloc: Global, command: Command<'a>) -> Result<Command<'a>, AllocError> {
    command
        .arg(option(
            alloc,
            ALLOW,
            "ADDRESS/BITS",
            "Serve only the machines of this network, or of any of these if it is repeated",
        )
        .action(ArgAction::Append))?
        .arg(flag(
            alloc,
            PRIVILEGED_PORTS,
            "Serve only connections from ports below 1024",
        ))
}

/// Options on what it prints and counts.
fn with_reports<'a>(alloc: Global, command: Command<'a>) -> Result<Command<'a>, AllocError> {
    command
        .arg(flag(alloc, QUIET, "Print failures only"))?
        .arg(option(
            alloc,
            METRICS,
            ADDRESS,
            "Serve counters for Prometheus there",
        ))
}

/// A word that has to be there.
fn word<'a>(alloc: Global, name: &'a str, help: &'a str) -> Arg<'a> {
    Arg::new(alloc, name).required(true).help(help)
}

/// An option without a value.
fn flag<'a>(alloc: Global, name: &'a str, help: &'a str) -> Arg<'a> {
    Arg::new(alloc, name)
        .long(name)
        .action(ArgAction::SetTrue)
        .help(help)
}

/// An option with a value.
fn option<'a>(alloc: Global, name: &'a str, value: &'a str, help: &'a str) -> Arg<'a> {
    Arg::new(alloc, name)
        .long(name)
        .value_name(value)
        .help(help)
}
