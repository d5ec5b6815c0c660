//! The tests of a name that a client gives (RFC 8881, sections 14.5 and 15.1.7).

ghost use Rattle.std.specs.Prelude.{◌≡◌, None, Some, OnOk, IfErr};
ghost use Rattle.std.specs.Str.{is_utf8};
ghost use Rattle.model_tree.specs.Refusals.Name.{name_refusals, parts_a_path, is_dot_or_dots};
ghost use Rattle.model_tree.specs.Refusals.Refusal.{first_refusal};

use model_tree::limits::Limits;
use model_tree::status::Status;

fn is_utf8(name: &[u8]) -> bool
    ensures { result ≡ is_utf8 name.now }
{
    str::from_utf8(name).is_ok()
}

fn parts_a_path(name: &[u8]) -> bool
    ensures { result ≡ parts_a_path name.now }
{
    name.iter().any(|&byte| byte == b'/' || byte == 0)
}

fn is_dot_or_dots(name: &[u8]) -> bool
    ensures { result ≡ is_dot_or_dots name.now }
{
    name == b".".as_slice() || name == b"..".as_slice()
}

/// The tests of a name that a client gives, in their order (RFC 8881, section 15.1.7).
///
/// # Errors
///
/// `Inval` for an empty name, then `NameTooLong`, `Inval` for bytes that are no UTF-8 text,
/// `BadChar` for `/` or a zero byte, and `BadName` for `.` and `..`.
#[tactic(auto, unfolding(model_tree::specs::Refusals::Name::name_refusals))]
pub fn check_name(name: &[u8], limits: &Limits) -> Result<(), Status>
    ensures allowed { OnOk result (first_refusal (name_refusals limits.now name.now) ≡ None) }
    ensures refused { IfErr result (λ status.
        first_refusal (name_refusals limits.now name.now) ≡ Some status) }
{
    if name.is_empty() {
        return Err(Status::Inval);
    }
    if name.len() > limits.name_bytes {
        return Err(Status::NameTooLong);
    }
    if !is_utf8(name) {
        return Err(Status::Inval);
    }
    if parts_a_path(name) {
        return Err(Status::BadChar);
    }
    if is_dot_or_dots(name) {
        return Err(Status::BadName);
    }
    Ok(())
}
