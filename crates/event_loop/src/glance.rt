//! What a peer's steps have done, by what is seen of the server before and after them.

use crate::counts::Counts;
use crate::watched::Watched;
use peer::{Answered, Ran};
use server::{Server, UnderWay};

/// How far the COMPOUND of a connection had come when its operations were last counted.
#[derive(Clone, Copy)]
pub struct Glance {
    under_way: Option<UnderWay>,
}

impl Glance {
    /// That of a connection of which nothing has run.
    pub const FIRST: Glance = Glance { under_way: None };

    /// Counts the operation that ran since, if one did; `answered` is the reply, if it was taken.
    /// An operation whose reply is made is counted once that is taken, since it has the status.
    pub fn count<D: Watched>(
        &mut self,
        server: &Server<D>,
        conn: usize,
        answered: Option<Answered>,
        counts: &mut Counts,
    ) {
        let under_way = server.under_way(conn);
        if let Some(ran) = Ran::between(self.under_way, under_way, answered) {
            counts.run(ran);
        }
        self.under_way = under_way;
    }
}

/// How often a mount writes if the log names nothing and the volume is of the current layout: the
/// commit record and the first sector.
const RESTING_WRITES: u64 = 2;

/// Whether a mount has written more than that, if nothing else has written yet.
pub fn has_replayed<D: Watched>(server: &Server<D>) -> bool {
    match server.device().calls() {
        Some(calls) => RESTING_WRITES < calls.writes,
        None => false,
    }
}

/// How often the device was synced, if it counts.
pub fn syncs_of<D: Watched>(server: &Server<D>) -> u64 {
    match server.device().calls() {
        Some(calls) => calls.syncs,
        None => 0,
    }
}
