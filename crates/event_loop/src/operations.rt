//! How often each operation ran, and how often it failed.

use crate::counts::raise;
use metrics::{Kind, Page};
use model_tree::status::Status;
use peer::Ran;
use std::alloc::AllocError;
use wire::Operation;

/// A row for each operation that is served, and one for all other numbers.
const ROWS: usize = Operation::ALL.len() + 1;

const OTHER: usize = Operation::ALL.len();

/// How often an operation ran, and how often its status was not OK.
#[derive(Clone, Copy)]
struct Row {
    ran: u64,
    failed: u64,
}

/// The counts of all operations.
#[derive(Clone, Copy)]
pub struct Operations {
    rows: [Row; ROWS],
}

impl Operations {
    /// None has run.
    pub const NONE: Operations = Operations {
        rows: [Row { ran: 0, failed: 0 }; ROWS],
    };

    /// Counts an operation that ran or was refused.
    pub fn count(&mut self, ran: Ran) {
        if let Some(row) = self.rows.get_mut(row_of(ran.number)) {
            raise(&mut row.ran);
            if ran.status != Status::Ok.code() {
                raise(&mut row.failed);
            }
        }
    }

    /// Adds both counts of each operation to the page.
    pub fn show(&self, page: &mut Page) -> Result<(), AllocError> {
        let name = "nfs41_operations_total";
        page.begin(Kind::Counter, name, "Operations that ran or were refused.")?;
        for (i, row) in self.rows.iter().enumerate() {
            page.sample(name, "operation", name_of(i), row.ran)?;
        }
        let name = "nfs41_operations_failed_total";
        page.begin(Kind::Counter, name, "Operations whose status was not OK.")?;
        for (i, row) in self.rows.iter().enumerate() {
            page.sample(name, "operation", name_of(i), row.failed)?;
        }
        Ok(())
    }
}

/// The row of the operation of this number.
fn row_of(number: u32) -> usize {
    Operation::ALL
        .iter()
        .position(|operation| operation.number() == number)
        .unwrap_or(OTHER)
}

/// The name of a row.
fn name_of(row: usize) -> &'static str {
    match Operation::ALL.get(row) {
        Some(operation) => label_of(*operation),
        None => "other",
    }
}

/// The name that the standard gives an operation, without `OP_` (RFC 8881, section 16.2.3).
fn label_of(operation: Operation) -> &'static str {
    match operation {
        Operation::Access => "ACCESS",
        Operation::Close => "CLOSE",
        Operation::Commit => "COMMIT",
        Operation::Create => "CREATE",
        Operation::GetAttr => "GETATTR",
        Operation::GetFh => "GETFH",
        Operation::Lookup => "LOOKUP",
        Operation::LookupParent => "LOOKUPP",
        Operation::Open => "OPEN",
        Operation::PutFh => "PUTFH",
        Operation::PutRootFh => "PUTROOTFH",
        Operation::Read => "READ",
        Operation::ReadDir => "READDIR",
        Operation::Remove => "REMOVE",
        Operation::Rename => "RENAME",
        Operation::RestoreFh => "RESTOREFH",
        Operation::SaveFh => "SAVEFH",
        Operation::SetAttr => "SETATTR",
        Operation::Write => "WRITE",
        Operation::ExchangeId => "EXCHANGE_ID",
        Operation::CreateSession => "CREATE_SESSION",
        Operation::DestroySession => "DESTROY_SESSION",
        Operation::Sequence => "SEQUENCE",
        Operation::DestroyClientId => "DESTROY_CLIENTID",
        Operation::ReclaimComplete => "RECLAIM_COMPLETE",
    }
}
