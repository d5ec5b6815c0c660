//! Rows of records: what comes in, the turns that it takes, and the replies.

mod aftermath;
mod call;
mod choices;
mod cuts;
mod line;
mod records;
mod row;
mod sheet;
mod step;

pub use aftermath::{Aftermath, Left, Look, Mark, Sequel};
pub use call::{Call, in_order};
pub use choices::Choices;
pub use row::{Layout, Placed, Row};
pub use sheet::Sheet;
pub use step::Step;
