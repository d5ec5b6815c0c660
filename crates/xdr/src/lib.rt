//! XDR (RFC 4506): a reader and a writer of bytes, specified by the grammars of `specs/`.
//!
//! A grammar says which values have an encoding, which bytes it is, and what is read from bytes.
//! The grammars are exact: the bytes from which a value is read are its encoding, and from its
//! encoding a value is read back, whatever follows. So each value has one encoding, and no encoding
//! is a prefix of another.
#![tactic(auto)]

mod laws;
mod reader;
mod refusal;
mod words;
mod writer;

pub use laws::{bitmaps_are_exact, booleans_are_exact, numbers_are_exact, opaques_are_exact};
pub use reader::Reader;
pub use refusal::Refusal;
pub use words::Words;
pub use writer::{Writer, opaque_size};
