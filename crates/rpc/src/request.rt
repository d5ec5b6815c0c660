//! The tests of a call, in their order (RFC 5531, section 9; RFC 8881, section 16.2).

ghost use Rattle.std.specs.Prelude.{◌≡◌, []};
ghost use Rattle.xdr.specs.Clauses.{Scans};
ghost use Rattle.model.specs.Wire.Rpc.{request_of, compound_head, compound_request, by_head, Success, compound_text};
ghost use Rattle.rpc.specs.Places.{IsOfBody};
ghost use Rattle.rpc.specs.Views.{head_view, call_view, reply_view, request_view, tail_of, IsBrief};

use crate::auth::{cred_from, read_auth_sys};
use crate::call::Call;
use crate::compound::Compound;
use crate::numbers::{AUTH_NONE, AUTH_SYS, COMPOUND, MINOR_VERSION, NFS_VERSION, NULL, PROGRAM};
use crate::reply::{AuthStat, CompoundResult, Reply};
use crate::tag::{MAX_TAG_BYTES, Tag};
use model_tree::acl::Cred;
use model_tree::status::Status;
use xdr::{Reader, Refusal};

/// What a call asks for.
#[derive(Drop)]
pub enum Request<'a> {
    /// It is answered at once, and no operation runs.
    Answers(Reply<'a>),
    /// A COMPOUND, for this caller.
    Runs(Cred, Compound<'a>),
}

/// What comes before the operations of a COMPOUND of any minor version.
#[derive(Clone, Copy)]
pub struct Head<'a> {
    pub tag: Tag<'a>,
    pub minor: u32,
    pub count: u32,
}

impl<'a> Call<'a> {
    /// What the call asks for, by the tests in their order: program, version and procedure; the
    /// credential; the head of the COMPOUND, its minor version, and that no bytes follow if it
    /// counts no operation.
    #[tactic(auto, unfolding(model::specs::Wire::Rpc::request_of))]
    pub fn request(self) -> Request<'a>
        ensures request { request_of (call_view self.entry) ≡ request_view result }
        ensures brief { IsBrief result }
        ensures stands { IsOfBody self.entry.body.now result }
    {
        let reply = if self.program != PROGRAM {
            Reply::ProgramUnavailable
        } else if self.version != NFS_VERSION {
            Reply::ProgramMismatch
        } else if self.procedure == COMPOUND {
            return self.compound();
        } else if self.procedure != NULL {
            Reply::ProcedureUnavailable
        } else if self.body.is_empty() {
            Reply::Success(&[])
        } else {
            Reply::GarbageArguments
        };
        Request::Answers(reply)
    }

    fn compound(self) -> Request<'a>
        ensures request { compound_request (call_view self.entry) ≡ request_view result }
        ensures brief { IsBrief result }
        ensures stands { IsOfBody self.entry.body.now result }
    {
        if self.flavour == AUTH_NONE {
            return Request::Answers(Reply::AuthRefused(AuthStat::TooWeak));
        }
        if self.flavour == AUTH_SYS {
            if let Some(found) = read_auth_sys(self.credential) {
                return compound_of(cred_from(found), self.body);
            }
        }
        Request::Answers(Reply::AuthRefused(AuthStat::BadCredential))
    }
}

/// What the arguments of a COMPOUND ask for.
fn compound_of<'a>(cred: Cred, body: &'a [u8]) -> Request<'a>
    ensures request { by_head cred (compound_head.read body.now) ≡ request_view result }
    ensures brief { IsBrief result }
    ensures stands { IsOfBody body.now result }
{
    let mut at = Reader::new(body);
    let head = match read_head(&mut at) {
        Ok(head) => head,
        Err(_) => return Request::Answers(Reply::GarbageArguments),
    };
    let reply = if head.minor != MINOR_VERSION {
        without_results(Status::MinorVersMismatch, head.tag)
    } else if head.count != 0 {
        let compound = Compound {
            tag: head.tag,
            count: head.count,
            operations: at.rest(),
        };
        return Request::Runs(cred, compound);
    } else if at.is_empty() {
        without_results(Status::Ok, head.tag)
    } else {
        Reply::GarbageArguments
    };
    Request::Answers(reply)
}

fn without_results(status: Status, tag: Tag<'_>) -> Reply<'_>
    ensures reply { reply_view result ≡ Success (compound_text status tag.entry.bytes.now 0 []) }
    ensures brief { tail_of result ≡ [] }
{
    Reply::Compound(CompoundResult {
        status,
        tag,
        count: 0,
        results: &[],
    })
}

fn read_head<'a>(r: &mut Reader<'a>) -> Result<Head<'a>, Refusal>
    ensures { Scans head_view (compound_head.read) r.old r.new result }
{
    let mut at = r.fork();
    let bytes = at.read_opaque(MAX_TAG_BYTES)?;
    let minor = at.read_u32()?;
    let count = at.read_u32()?;
    *r = at;
    Ok(Head {
        tag: Tag { bytes },
        minor,
        count,
    })
}
