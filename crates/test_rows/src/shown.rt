//! How bytes are shown: replies as words, texts as letters.

use std::fmt;

/// The streams of a command.
#[derive(Clone, Copy)]
pub enum Stream {
    Input,
    Output,
    Errors,
}

impl fmt::Display for Stream {
    fn fmt<W: fmt::Write>(&self, f: &mut fmt::Formatter<W>) -> fmt::Result {
        f.write_str(match self {
            Stream::Input => "input",
            Stream::Output => "output",
            Stream::Errors => "errors",
        })
    }
}

/// Bytes, shown as words of four bytes in hex, each after a blank. Replies are whole words.
#[derive(Drop)]
pub struct Words(pub Vec<u8>);

impl fmt::Display for Words {
    fn fmt<W: fmt::Write>(&self, f: &mut fmt::Formatter<W>) -> fmt::Result {
        write_words(f, &self.0)
    }
}

/// Replies, each on a line of its own.
#[derive(Drop)]
pub struct Answers(pub Vec<Vec<u8>>);

impl fmt::Display for Answers {
    fn fmt<W: fmt::Write>(&self, f: &mut fmt::Formatter<W>) -> fmt::Result {
        for answer in self.0.iter() {
            f.write_str("\n ")?;
            write_words(f, answer)?;
        }
        Ok(())
    }
}

fn write_words<W: fmt::Write>(f: &mut fmt::Formatter<W>, bytes: &[u8]) -> fmt::Result {
    for word in bytes.chunks(4) {
        let number = number_of(word);
        write!(f, " {number:x}")?;
    }
    Ok(())
}

fn number_of(word: &[u8]) -> u32 {
    let mut number = 0_u32;
    for byte in word {
        number = number.wrapping_mul(256).wrapping_add(u32::from(*byte));
    }
    number
}

/// A line, shown with `\` and two hexadecimal digits for each byte that is no plain letter.
#[derive(Drop)]
pub struct Text(pub Vec<u8>);

impl fmt::Display for Text {
    fn fmt<W: fmt::Write>(&self, f: &mut fmt::Formatter<W>) -> fmt::Result {
        for byte in self.0.iter() {
            show_byte(f, *byte)?;
        }
        Ok(())
    }
}

fn show_byte<W: fmt::Write>(f: &mut fmt::Formatter<W>, byte: u8) -> fmt::Result {
    if (b' '..=b'~').contains(&byte) && byte != b'\\' {
        f.write_char(char::from(byte))
    } else {
        write!(f, "\\{byte:02x}")
    }
}
