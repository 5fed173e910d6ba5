//! What the results of a session's calls are replied.

ghost use Rattle.std.specs.Prelude.{◌≡◌};
ghost use Rattle.xa_requests.specs.declared.response.Response.TheVariants as responses;
ghost use Rattle.xa_server.specs.Replies.{response_of};

use xa_base::{Gtrid, Refusal};
use xa_requests::Response;

/// The reply to a step that is taken, or its refusal.
pub(super) fn reply_of(taken: Result<(), Refusal>, reply: Response) -> Response
    ensures { result ≡ response_of (λ _. reply) taken }
{
    match taken {
        Ok(()) => reply,
        Err(refusal) => Response::Refused(refusal),
    }
}

/// The reply to a begin.
pub(super) fn begun_reply(begun: Result<Gtrid, Refusal>) -> Response
    ensures { result ≡ response_of responses.Begun begun }
{
    match begun {
        Ok(gtrid) => Response::Begun(gtrid),
        Err(refusal) => Response::Refused(refusal),
    }
}

/// The reply to a recovery.
pub(super) fn resolved_reply(resolved: Result<usize, Refusal>) -> Response
    ensures { result ≡ response_of responses.Resolved resolved }
{
    match resolved {
        Ok(count) => Response::Resolved(count),
        Err(refusal) => Response::Refused(refusal),
    }
}
