//! Texts: what a command reads and writes, and what a file has.

use crate::fault::Fault;
use crate::shown::Stream;
use std::alloc::{AllocError, Global};

/// What goes in and comes out by each stream.
#[derive(Drop)]
pub struct Texts {
    pub input: Vec<u8>,
    pub output: Vec<u8>,
    pub errors: Vec<u8>,
}

impl Texts {
    /// Nothing by any stream.
    pub fn new(alloc: Global) -> Texts {
        Texts {
            input: Vec::new(alloc),
            output: Vec::new(alloc),
            errors: Vec::new(alloc),
        }
    }

    /// The same texts once more.
    pub fn copy(&self) -> Result<Texts, AllocError> {
        Ok(Texts {
            input: self.input.clone()?,
            output: self.output.clone()?,
            errors: self.errors.clone()?,
        })
    }

    /// What goes by this stream.
    pub fn by(&mut self, stream: Stream) -> &mut Vec<u8> {
        match stream {
            Stream::Input => &mut self.input,
            Stream::Output => &mut self.output,
            Stream::Errors => &mut self.errors,
        }
    }
}

/// Appends a line and its end.
pub fn add_line(bytes: &mut Vec<u8>, text: &str) -> Result<(), Fault> {
    append(bytes, text)?;
    Ok(bytes.push(b'\n')?)
}

/// Appends to the last line.
pub fn extend_line(bytes: &mut Vec<u8>, text: &str) -> Result<(), Fault> {
    bytes.pop();
    add_line(bytes, text)
}

/// Appends the bytes of a text, in which `\` and two hexadecimal digits are the byte of this
/// number.
fn append(bytes: &mut Vec<u8>, text: &str) -> Result<(), Fault> {
    for (place, part) in text.split('\\').enumerate() {
        let plain = if place == 0 {
            part
        } else {
            let (Some(digits), Some(rest)) = (part.get(..2), part.get(2..)) else {
                return Err(Fault::Escape);
            };
            bytes.push(byte_of(digits).ok_or(Fault::Escape)?)?;
            rest
        };
        bytes.extend_from_slice(plain.as_bytes())?;
    }
    Ok(())
}

/// A byte by its two hexadecimal digits.
pub fn byte_of(digits: &str) -> Option<u8> {
    if digits.len() != 2 || digits.starts_with('+') {
        return None;
    }
    u8::from_str_radix(digits, 16).ok()
}
