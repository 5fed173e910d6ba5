//! Requests that only look.

ghost use Rattle.std.specs.Prelude.{◌≡◌};
ghost use Rattle.xa_server.specs.Looks.{status_of, waiting_reply};

use super::Server;
use xa_base::Refusal;
use xa_log::DecisionLog;
use xa_requests::Response;

impl<L: DecisionLog + Drop> Server<L> {
    /// The call that waits first on a line.
    pub(super) fn waiting(&self, thread: u32, rm: u32) -> Response
        ensures { result ≡ waiting_reply thread rm self.now }
    {
        if !self.session.has_line(thread, rm) {
            return Response::Refused(Refusal::Limit);
        }
        match self.session.waiting(thread, rm) {
            Some(call) => Response::Waits(call.copy()),
            None => Response::Nothing,
        }
    }

    /// How the session stands.
    pub(super) fn status(&self) -> Response
        ensures { result ≡ status_of self.now }
    {
        Response::Status {
            up: self.session.is_up(),
            happened: self.session.happenings() as usize,
        }
    }
}
