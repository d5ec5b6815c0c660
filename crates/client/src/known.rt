//! What a client knows from the results of its record (RFC 8881, sections 2.10.6.1 and 18.36).

ghost use Rattle.std.specs.Prelude.{◌≡◌, Some, None, map, fold};
ghost use Rattle.std.specs.Option.{option_map};
ghost use Rattle.wire.specs.OutcomeView.{outcome_view};
ghost use Rattle.client.specs.Replies.{session_after, is_run, is_delayed, joined, next_request, session_learnt, sent_learnt, answered_sent};
ghost use Rattle.client.specs.Views.{session_of, sent_of};

use crate::sent::{Sent, Session};
use model_tree::status::Status;
use wire::{Answer, Operation, Outcome};

/// Whether the record's own SEQUENCE ended well.
fn is_run(results: &[Outcome<'_>]) -> bool
    ensures { result ≡ is_run (map outcome_view results.now) }
{
    match results.first() {
        Some(Outcome::Done(answer)) => matches!(answer, Answer::Sequence(_)),
        _ => false,
    }
}

/// Whether the record is to be sent again: DELAY at its SEQUENCE.
pub(crate) fn is_delayed(results: &[Outcome<'_>]) -> bool
    ensures { result ≡ is_delayed (map outcome_view results.now) }
{
    match results.first() {
        Some(Outcome::Refused { operation, status }) => {
            *operation == Operation::Sequence.number() && matches!(status, Status::Delay)
        }
        _ => false,
    }
}

/// The session after one result.
fn session_after(session: Option<Session>, one: &Outcome<'_>) -> Option<Session>
    ensures { option_map session_of result
        ≡ session_after (option_map session_of session) (outcome_view one.now) }
{
    match one {
        Outcome::Done(Answer::CreateSession(answer)) => {
            let id = answer.session;
            Some(joined(session, id))
        }
        _ => session,
    }
}

fn joined(session: Option<Session>, id: [u8; 16]) -> Session
    ensures { session_of result ≡ joined (option_map session_of session) id }
{
    if let Some(session) = session {
        if session.id == id {
            return session;
        }
    }
    Session { id, number: 1 }
}

fn session_after_all(session: Option<Session>, results: &[Outcome<'_>]) -> Option<Session>
    ensures { option_map session_of result
        ≡ fold session_after (option_map session_of session) (map outcome_view results.now) }
{
    let mut session = session;
    for one in results {
        session = session_after(session, one);
    }
    session
}

/// The session and the record after results.
pub(crate) fn learn(
    session: Option<Session>,
    sent: Option<Sent>,
    results: &[Outcome<'_>],
) -> (Option<Session>, Option<Sent>)
    ensures session { option_map session_of result.0
        ≡ session_learnt (option_map sent_of sent) (map outcome_view results.now)
        (option_map session_of session) }
    ensures sent { option_map sent_of result.1
        ≡ sent_learnt (option_map sent_of sent) (map outcome_view results.now) }
{
    let Some(mut sent) = sent else {
        return (session, None);
    };
    let is_run = is_run(results);
    let mut session = session;
    if is_run && !sent.is_counted {
        session = next_request(session);
    }
    sent.is_answered = true;
    sent.is_counted = sent.is_counted || is_run;
    (session_after_all(session, results), Some(sent))
}

fn next_request(session: Option<Session>) -> Option<Session>
    ensures { option_map session_of result
        ≡ option_map next_request (option_map session_of session) }
{
    let session = session?;
    let id = session.id;
    Some(Session {
        id,
        number: session.number.wrapping_add(1),
    })
}

/// The record, once it has its reply.
pub(crate) fn was_answered(sent: Option<Sent>) -> Option<Sent>
    ensures { option_map sent_of result ≡ option_map answered_sent (option_map sent_of sent) }
{
    let Some(mut sent) = sent else {
        return None;
    };
    sent.is_answered = true;
    Some(sent)
}
