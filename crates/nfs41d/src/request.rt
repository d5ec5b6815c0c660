//! What the words of the command line ask for.

use crate::arguments::{
    ADDRESS, ALLOW, ARCHIVE, CHECK, FILE, FORCE, FORGET_AFTER, FORMAT, FREE_SEATS, GET, HOLD, LOG,
    LS, METRICS, NAME, NO_PERSISTENT_SESSIONS, NODES, PATH, PRIVILEGED_PORTS, PUT, QUIET, SEATS,
    SERVE, SIZE, TAR, WITH_NODES, command,
};
use crate::fault::{Fault, Usage};
use crate::name::is_name;
use clap::error::ErrorKind;
use clap::{ArgMatches, Error};
use event_loop::{Guests, Network};
use server::Holding;
use std::alloc::Global;
use std::net::SocketAddr;
use std::time::Duration;
use system::{LargeSize, Refused, VolumeSize, decimal, sectors_in};

/// What the program is asked for.
#[derive(Drop)]
pub enum Request<'a> {
    /// Print this: help, or the version.
    Print(Error),
    /// Serve the volume in a file.
    Serve(Serving<'a>),
    /// Make a file a volume, one that is a volume already only by force.
    Format {
        file: &'a str,
        size: Size,
        force: bool,
    },
    /// Print what a mount would find in a file.
    Check {
        file: &'a str,
    },
    /// List a path of a volume.
    List {
        file: &'a str,
        path: &'a str,
    },
    /// Write the bytes of a file of a volume.
    Get {
        file: &'a str,
        path: &'a str,
    },
    /// Write all of a volume as an archive.
    Tar {
        file: &'a str,
    },
    /// Put what an archive has into an empty volume.
    Put {
        file: &'a str,
        archive: &'a str,
    },
}

/// How large a volume is to be made.
#[derive(Clone, Copy)]
pub enum Size {
    /// Of layout 2.
    Small(VolumeSize),
    /// Of layout 3.
    Large(LargeSize),
}

/// How a volume is to be served.
#[derive(Drop)]
pub struct Serving<'a> {
    /// The volume's.
    pub file: &'a str,
    /// The address to listen at; None: the socket that a service manager hands over.
    pub address: Option<SocketAddr>,
    /// What distinguishes this server from others; None: the volume's identity, or without one the
    /// host and the file.
    pub name: Option<&'a str>,
    pub forget_after: Option<Duration>,
    /// Which replies outlive a crash.
    pub holding: Holding,
    pub free_seats: bool,
    pub guests: Guests,
    pub quiet: bool,
    pub metrics: Option<SocketAddr>,
}

/// Reads the words after the program's name.
///
/// # Errors
/// Usage if they have no form; Memory.
pub fn read_request<'a>(alloc: Global, words: &'a [String]) -> Result<Request<'a>, Fault> {
    match command(alloc)?.try_get_matches_from(words) {
        Ok(matches) => request_in(alloc, &matches),
        Err(error) => match error.kind() {
            ErrorKind::OutOfMemory => Err(Refused::Memory.into()),
            ErrorKind::DisplayHelp | ErrorKind::DisplayVersion => Ok(Request::Print(error)),
            _ => Err(Fault::Usage(Usage::Form)),
        },
    }
}

fn request_in<'a>(alloc: Global, matches: &ArgMatches<'a>) -> Result<Request<'a>, Fault> {
    if let Some(words) = matches.subcommand_matches(FORMAT) {
        return format_in(words);
    }
    if let Some(words) = matches.subcommand_matches(CHECK) {
        let file = word_in(words, FILE)?;
        return Ok(Request::Check { file });
    }
    if let Some(request) = archive_request_in(matches)? {
        return Ok(request);
    }
    let words = matches.subcommand_matches(SERVE).unwrap_or(matches);
    Ok(Request::Serve(serving_in(alloc, words)?))
}

/// What is asked of a volume that is not served.
fn archive_request_in<'a>(matches: &ArgMatches<'a>) -> Result<Option<Request<'a>>, Fault> {
    if let Some(words) = matches.subcommand_matches(LS) {
        let (file, path) = (word_in(words, FILE)?, word_in(words, PATH)?);
        return Ok(Some(Request::List { file, path }));
    }
    if let Some(words) = matches.subcommand_matches(GET) {
        let (file, path) = (word_in(words, FILE)?, word_in(words, PATH)?);
        return Ok(Some(Request::Get { file, path }));
    }
    if let Some(words) = matches.subcommand_matches(TAR) {
        let file = word_in(words, FILE)?;
        return Ok(Some(Request::Tar { file }));
    }
    if let Some(words) = matches.subcommand_matches(PUT) {
        let (file, archive) = (word_in(words, FILE)?, word_in(words, ARCHIVE)?);
        return Ok(Some(Request::Put { file, archive }));
    }
    Ok(None)
}

fn format_in<'a>(words: &ArgMatches<'a>) -> Result<Request<'a>, Fault> {
    let size = match words.get_str(NODES) {
        Some(nodes) => small_size(words, nodes),
        None => large_size(words),
    };
    Ok(Request::Format {
        file: word_in(words, FILE)?,
        size: size.ok_or(Fault::Usage(Usage::Form))?,
        force: words.get_flag(FORCE),
    })
}

/// The size of a volume of layout 2, whose log is always the same.
fn small_size(words: &ArgMatches<'_>, nodes: &str) -> Option<Size> {
    if [WITH_NODES, LOG, SEATS]
        .iter()
        .any(|option| words.get_str(option).is_some())
    {
        return None;
    }
    Some(Size::Small(VolumeSize::parse(words.get_str(SIZE)?, nodes)?))
}

fn large_size(words: &ArgMatches<'_>) -> Option<Size> {
    let mut size = LargeSize::of_sectors(sectors_in(words.get_str(SIZE)?)?);
    if let Some(nodes) = words.get_str(WITH_NODES) {
        size.nodes = decimal(nodes)?;
    }
    if let Some(log) = words.get_str(LOG) {
        size.log = decimal(log)?;
    }
    if let Some(seats) = words.get_str(SEATS) {
        size.seats = u16::try_from(decimal(seats)?).ok()?;
    }
    Some(Size::Large(size))
}

fn serving_in<'a>(alloc: Global, words: &ArgMatches<'a>) -> Result<Serving<'a>, Fault> {
    Ok(Serving {
        file: word_in(words, FILE)?,
        address: words.try_get_one::<SocketAddr>(ADDRESS)?,
        name: name_in(words)?,
        forget_after: time_in(words)?,
        holding: holding_in(words)?,
        free_seats: words.get_flag(FREE_SEATS),
        guests: guests_in(alloc, words)?,
        quiet: words.get_flag(QUIET),
        metrics: words.try_get_one::<SocketAddr>(METRICS)?,
    })
}

fn word_in<'a>(words: &ArgMatches<'a>, name: &str) -> Result<&'a str, Fault> {
    words.get_str(name).ok_or(Fault::Usage(Usage::Form))
}

fn name_in<'a>(words: &ArgMatches<'a>) -> Result<Option<&'a str>, Fault> {
    match words.get_str(NAME) {
        Some(name) if !is_name(name.as_bytes()) => Err(Fault::Usage(Usage::Form)),
        name => Ok(name),
    }
}

/// Which replies are held; `--no-persistent-sessions` says that none is.
fn holding_in(words: &ArgMatches<'_>) -> Result<Holding, Fault> {
    let none = words.get_flag(NO_PERSISTENT_SESSIONS);
    match words.get_str(HOLD) {
        None if none => Ok(Holding::Nothing),
        None => Ok(Holding::Changes),
        Some("none") => Ok(Holding::Nothing),
        Some("changes") if !none => Ok(Holding::Changes),
        Some("all") if !none => Ok(Holding::All),
        Some(_) => Err(Fault::Usage(Usage::Form)),
    }
}

fn time_in(words: &ArgMatches<'_>) -> Result<Option<Duration>, Fault> {
    let Some(word) = words.get_str(FORGET_AFTER) else {
        return Ok(None);
    };
    let seconds = decimal(word).ok_or(Fault::Usage(Usage::Form))?;
    Ok(Some(Duration::from_secs(u64::from(seconds))))
}

fn guests_in(alloc: Global, words: &ArgMatches<'_>) -> Result<Guests, Fault> {
    let mut networks = Vec::new(alloc);
    for word in words.get_strs(ALLOW).unwrap_or_default() {
        let network = Network::parse(word).ok_or(Fault::Usage(Usage::Form))?;
        networks.push(network)?;
    }
    Ok(Guests {
        networks,
        privileged_ports: words.get_flag(PRIVILEGED_PORTS),
    })
}
