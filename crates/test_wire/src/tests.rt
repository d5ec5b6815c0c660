//! What no contract says: the bytes of worked records, what a client makes of streams that fail,
//! and that a call succeeds if there is memory.

mod asking;
mod exchanges;
mod replies;
mod results;
