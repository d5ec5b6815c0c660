//! A list whose copies share its chunks.
#![tactic(auto)]

mod chunk;
mod ends;
mod fault;
mod list;
mod search;

pub use fault::ChunksFault;
pub use list::{Chunks, MAX_LEN};
pub use search::Test;
