//! The server: connections, and one operation of one COMPOUND a turn, on a volume that survives a
//! crash at any moment.
#![tactic(auto)]

mod begun;
mod connection;
mod engine;
mod fault;
mod laws;
mod mounting;
mod receiving;
mod request;
mod running;
mod server;
mod stage;
mod statistics;
mod turn;

pub use compound::Ahead;
pub use fault::ServerFault;
pub use fs::{FormatFault, MountFault, Room, Unmounted, is_volume_size};
pub use laws::{every_life, every_run};
pub use model::holding::Holding;
pub use server::{MAX_CONNECTIONS, Server};
pub use session::{MAX_NAME_BYTES, NameFault, STANDARD_NAME, ServerName, Settings};
pub use statistics::UnderWay;
pub use turn::Turn;
