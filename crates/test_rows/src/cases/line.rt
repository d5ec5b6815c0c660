//! The lines of a file of cases.

use crate::shown::Stream;

/// What a line says.
#[derive(Clone, Copy)]
pub enum Line<'a> {
    /// Nothing: it is empty, or a comment.
    Nothing,
    /// A case of this name begins.
    Case(&'a str),
    /// A line of what a command reads or writes, or of what a file has.
    Text { stream: Stream, text: &'a str },
    /// The line of text above goes on.
    More(&'a str),
    /// What a peer does, by its verb and the words after it.
    Peer { verb: &'a str, words: &'a str },
    /// A step, by its verb and the words after it.
    Step { verb: &'a str, words: &'a str },
}

/// Reads a line without its end.
pub fn read_line(text: &str) -> Line<'_> {
    if text.is_empty() || text.starts_with('#') {
        return Line::Nothing;
    }
    let (verb, words) = text.split_once(" ").unwrap_or((text, ""));
    match verb {
        "case" => Line::Case(words),
        "<" => text_line(Stream::Input, words),
        ">" => text_line(Stream::Output, words),
        "!" => text_line(Stream::Errors, words),
        "+" => Line::More(words),
        "peer" | "sends" | "gets" => Line::Peer { verb, words },
        _ => Line::Step { verb, words },
    }
}

fn text_line(stream: Stream, text: &str) -> Line<'_> {
    Line::Text { stream, text }
}
