//! What a reply says of its client's session.

use model_tree::status::Status;
use wire::Operation;
use xdr::{Reader, Refusal};

/// CREATE_SESSION4_FLAG_PERSIST (RFC 8881, section 18.36.2).
const PERSISTENT: u32 = 0x1;

/// What the first result of a reply says of a session. A session's id begins with that of its
/// client.
#[derive(Clone, Copy)]
pub enum SessionNews {
    /// CREATE_SESSION gave this client one.
    Created { client: u64, persistent: bool },
    /// A request of a session of this client ran.
    Used { client: u64 },
    /// DESTROY_SESSION ended one.
    Ended,
}

/// What the result of this operation says, given its bytes after its status.
pub fn read_news(
    number: u32,
    status: u32,
    body: &mut Reader<'_>,
) -> Result<Option<SessionNews>, Refusal> {
    if status != Status::Ok.code() {
        return Ok(None);
    }
    match Operation::from_number(number) {
        Some(Operation::CreateSession) => Ok(Some(read_created(body)?)),
        Some(Operation::Sequence) => Ok(Some(SessionNews::Used {
            client: body.read_u64()?,
        })),
        Some(Operation::DestroySession) => Ok(Some(SessionNews::Ended)),
        _ => Ok(None),
    }
}

fn read_created(body: &mut Reader<'_>) -> Result<SessionNews, Refusal> {
    let client = body.read_u64()?;
    let _serial = body.read_u64()?;
    let _sequence = body.read_u32()?;
    let flags = body.read_u32()?;
    Ok(SessionNews::Created {
        client,
        persistent: flags & PERSISTENT != 0,
    })
}
