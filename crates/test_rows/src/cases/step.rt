//! The steps of a case.

use super::text::{Texts, byte_of};
use crate::fault::Fault;
use crate::number::{decimal, hexadecimal};
use crate::shown::Stream;
use std::alloc::Global;

/// What a case does, or finds.
#[derive(Drop)]
pub enum Step<'a> {
    /// A command leaves this exit status and these texts.
    Runs {
        status: u8,
        words: Vec<&'a str>,
        texts: Texts,
        way: Way,
    },
    /// Makes a file of this text.
    Writes {
        file: &'a str,
        text: Vec<u8>,
    },
    /// Makes a file of this number of zeros.
    Zeros {
        file: &'a str,
        length: usize,
    },
    /// Puts bytes in the place of those in a file, from the byte of this number on.
    Puts {
        file: &'a str,
        place: usize,
        bytes: Vec<u8>,
    },
    /// Makes a file a copy of another one.
    Copies {
        file: &'a str,
        copy: &'a str,
    },
    /// A file is as another one.
    Same {
        file: &'a str,
        other: &'a str,
    },
    /// A file has this number of bytes.
    Length {
        file: &'a str,
        length: usize,
    },
    /// There is no such file.
    Absent {
        file: &'a str,
    },
    /// Removes a file.
    Removes {
        file: &'a str,
    },
    /// Takes away the right to write a file.
    Protects {
        file: &'a str,
    },
    /// Locks a file as another program does, up to the case's next lock or its end.
    Locks {
        file: &'a str,
        hold: Hold,
    },
}

/// How another program has a file.
#[derive(Clone, Copy)]
pub enum Hold {
    /// It writes it.
    Writes,
    /// It reads it.
    Reads,
}

/// What a command's standard output is.
#[derive(Drop)]
pub enum Way {
    /// It takes everything.
    Takes,
    /// It fails.
    Fails,
    /// Its output takes only a port, to which these connect as soon as it is there.
    Serves(Vec<Peer>),
}

/// A peer of a server: what it sends, after which it only reads, and the reply that it gets.
#[derive(Drop)]
pub struct Peer {
    pub sends: Vec<u8>,
    pub gets: Vec<u8>,
}

impl Step<'_> {
    /// The text of this stream, if the step has one.
    pub fn text(&mut self, stream: Stream) -> Option<&mut Vec<u8>> {
        match (self, stream) {
            (Step::Runs { texts, .. }, _) => Some(texts.by(stream)),
            (Step::Writes { text, .. }, Stream::Input) => Some(text),
            _ => None,
        }
    }

    /// Adds what a peer of the command does.
    pub fn go_on(&mut self, alloc: Global, verb: &str, words: &str) -> Result<(), Fault> {
        match self {
            Step::Runs {
                way: Way::Serves(peers),
                ..
            } => add_to(alloc, peers, verb, words),
            _ => Err(Fault::Place),
        }
    }
}

fn add_to(alloc: Global, peers: &mut Vec<Peer>, verb: &str, words: &str) -> Result<(), Fault> {
    if verb == "peer" {
        return add_peer(alloc, peers, words);
    }
    let Some(peer) = peers.last_mut() else {
        return Err(Fault::Place);
    };
    if verb == "sends" {
        add_words(&mut peer.sends, words)
    } else {
        add_words(&mut peer.gets, words)
    }
}

fn add_peer(alloc: Global, peers: &mut Vec<Peer>, words: &str) -> Result<(), Fault> {
    if !words.is_empty() {
        return Err(Fault::Step);
    }
    peers.push(Peer {
        sends: Vec::new(alloc),
        gets: Vec::new(alloc),
    })?;
    Ok(())
}

/// Appends numbers of four bytes.
fn add_words(bytes: &mut Vec<u8>, words: &str) -> Result<(), Fault> {
    for word in words.split_whitespace() {
        let number = hexadecimal(word).ok_or(Fault::Word)?;
        bytes.extend_from_slice(&number.to_be_bytes())?;
    }
    Ok(())
}

/// Reads a step. What each command of its case reads and writes begins so.
pub fn read_step<'a>(
    alloc: Global,
    prefix: &Texts,
    verb: &str,
    words: &'a str,
) -> Result<Step<'a>, Fault> {
    let words: Vec<&str> = words.split(' ').collect(alloc)?;
    match verb {
        "runs" => runs(alloc, prefix, Way::Takes, &words),
        "breaks" => runs(alloc, prefix, Way::Fails, &words),
        "serves" => runs(alloc, prefix, Way::Serves(Vec::new(alloc)), &words),
        "puts" => puts(alloc, &words),
        "writes" => writes(alloc, &words),
        _ => file_step(verb, &words),
    }
}

fn runs<'a>(alloc: Global, prefix: &Texts, way: Way, words: &[&'a str]) -> Result<Step<'a>, Fault> {
    let [status, words @ ..] = words else {
        return Err(Fault::Step);
    };
    let Ok(status) = u8::try_from(number_of(*status)?) else {
        return Err(Fault::Step);
    };
    let mut command = Vec::new(alloc);
    for word in words {
        command.push(word_of(*word))?;
    }
    Ok(Step::Runs {
        status,
        words: command,
        texts: prefix.copy()?,
        way,
    })
}

/// A word of a command; `""` is the word of no letters.
fn word_of(word: &str) -> &str {
    if word == "\"\"" { "" } else { word }
}

fn puts<'a>(alloc: Global, words: &[&'a str]) -> Result<Step<'a>, Fault> {
    let [file, place, digits @ ..] = words else {
        return Err(Fault::Step);
    };
    let mut bytes = Vec::new(alloc);
    for byte in digits {
        bytes.push(byte_of(*byte).ok_or(Fault::Step)?)?;
    }
    Ok(Step::Puts {
        file: *file,
        place: number_of(*place)?,
        bytes,
    })
}

fn writes<'a>(alloc: Global, words: &[&'a str]) -> Result<Step<'a>, Fault> {
    let [file] = words else {
        return Err(Fault::Step);
    };
    Ok(Step::Writes {
        file: *file,
        text: Vec::new(alloc),
    })
}

/// Reads a step that has a file, and one word more at most.
fn file_step<'a>(verb: &str, words: &[&'a str]) -> Result<Step<'a>, Fault> {
    match words {
        [file] => step_on(verb, *file),
        [file, word] => step_with(verb, *file, *word),
        _ => Err(Fault::Step),
    }
}

fn step_on<'a>(verb: &str, file: &'a str) -> Result<Step<'a>, Fault> {
    match verb {
        "absent" => Ok(Step::Absent { file }),
        "removes" => Ok(Step::Removes { file }),
        "protects" => Ok(Step::Protects { file }),
        "locks" => Ok(locks(file, Hold::Writes)),
        "shares" => Ok(locks(file, Hold::Reads)),
        _ => Err(Fault::Step),
    }
}

fn locks<'a>(file: &'a str, hold: Hold) -> Step<'a> {
    Step::Locks { file, hold }
}

fn step_with<'a>(verb: &str, file: &'a str, word: &'a str) -> Result<Step<'a>, Fault> {
    match verb {
        "zeros" => Ok(Step::Zeros {
            file,
            length: number_of(word)?,
        }),
        "length" => Ok(Step::Length {
            file,
            length: number_of(word)?,
        }),
        "copies" => Ok(Step::Copies { file, copy: word }),
        "same" => Ok(Step::Same { file, other: word }),
        _ => Err(Fault::Step),
    }
}

fn number_of(word: &str) -> Result<usize, Fault> {
    match decimal(word) {
        Some(number) => Ok(number as usize),
        None => Err(Fault::Step),
    }
}
