//! The caller, as AUTH_SYS encodes it (RFC 5531, appendix A).

ghost use Rattle.std.specs.Prelude.{◌≡◌, Some, None, MatchOption};
ghost use Rattle.model.specs.Wire.Rpc.{encoded_cred, credential_in};
ghost use Rattle.wire.specs.SmallViews.{credential_view};

use model_tree::acl::Cred;
use wire::SystemCredential;
use xdr::Reader;

/// The credential of AUTH_SYS, if the body is exactly its form: a stamp, a machine name of at most
/// 255 bytes, a uid, a gid, and at most 16 further gids.
pub(crate) fn read_auth_sys(body: &[u8]) -> Option<SystemCredential<'_>>
    ensures { MatchOption result (credential_in body.now ≡ None)
        (λ found. credential_in body.now ≡ Some (credential_view found)) }
{
    let mut at = Reader::new(body);
    match SystemCredential::read(&mut at) {
        Ok(found) if at.is_empty() => Some(found),
        _ => None,
    }
}

/// The caller that the credential names.
pub fn cred_from(found: SystemCredential<'_>) -> Cred
    ensures { result ≡ encoded_cred (credential_view found.entry) }
{
    Cred {
        uid: found.uid,
        gid: found.gid,
        gids: found.gids.into(),
    }
}
