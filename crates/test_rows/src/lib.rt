//! Rows and cases: text files of what comes in and what is to come out, and how they are played on
//! whatever server, loop and program implement [`Host`], [`Loop`] and [`Program`].
#![tactic(auto)]

mod answer;
mod cases;
mod difference;
mod direct;
mod fault;
mod host;
mod number;
mod peers;
mod player;
mod refusal;
mod rows;
mod served;
mod shown;
mod sockets;
mod trials;

pub use answer::{Answer, Turn};
pub use cases::{Case, Output, Program, play_case, read_cases};
pub use difference::{Difference, Differs};
pub use fault::{Fault, Misread};
pub use host::{Host, Unmounted};
pub use player::{Patience, Place, play_row};
pub use refusal::Refusal;
pub use rows::{Choices, Layout, Row, Sheet};
pub use sockets::Loop;
pub use trials::{Tally, TrialDevice, crash};
