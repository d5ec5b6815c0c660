//! A port on which another program listens.

use std::alloc::AllocError;
use std::io;
use std::net::{Ipv4Addr, TcpListener};

/// The word of a command in whose place such a port goes.
const TAKEN: &str = "<taken>";

/// A port that is taken, as long as this is kept.
#[derive(Drop)]
pub struct TakenPort {
    digits: String,
    listener: TcpListener,
}

/// Takes a port, if one of the words is for one.
pub fn take_port(rt: &HostRuntime, words: &[&str]) -> io::Result<Option<TakenPort>> {
    if !words.iter().any(|word| *word == TAKEN) {
        return Ok(None);
    }
    let listener = TcpListener::bind(rt, (Ipv4Addr::LOCALHOST, 0))?;
    let digits = format!(in rt.alloc(); "{}", listener.local_addr()?.port())?;
    Ok(Some(TakenPort { digits, listener }))
}

/// The words of a command, with the port in the place of that word.
pub fn fill(
    rt: &HostRuntime,
    words: &[&str],
    port: &Option<TakenPort>,
) -> Result<Vec<String>, AllocError> {
    let mut filled = Vec::new(rt.alloc());
    for word in words {
        let text = match port {
            Some(port) if *word == TAKEN => port.digits.as_str(),
            _ => *word,
        };
        filled.push(String::from_str(rt.alloc(), text)?)?;
    }
    Ok(filled)
}
