//! Requests of recovery.

ghost use Rattle.xa_server.specs.Recoveries.{PerformsOwed, PerformsResolve, PerformsResolveOpen};
ghost use Rattle.xa_session.specs.Logging.{KeepsLog};
ghost use Rattle.xa_session.specs.Session.{IsReady};

use super::Server;
use super::replies::resolved_reply;
use xa_base::Refusal;
use xa_log::DecisionLog;
use xa_requests::Response;

impl<L: DecisionLog + Drop> Server<L> {
    /// The calls wait that end what a resource manager listed last.
    pub(super) fn resolve(&mut self, rm: u32) -> Response
        requires { IsReady self.old.session }
        ensures ready { IsReady self.new.session }
        ensures performs { PerformsResolve rm self.old result self.new }
        ensures keeps { KeepsLog L.moment
            self.old.session.manager self.new.session.manager }
    {
        let resolved = self.session.resolve(rm);
        resolved_reply(resolved)
    }

    /// The same; and before that what is open of what is listed is rolled back.
    pub(super) fn resolve_open(&mut self, rm: u32) -> Response
        requires { IsReady self.old.session }
        ensures ready { IsReady self.new.session }
        ensures performs { PerformsResolveOpen rm self.old result self.new }
        ensures keeps { KeepsLog L.moment
            self.old.session.manager self.new.session.manager }
    {
        let resolved = self.session.resolve_open(rm);
        resolved_reply(resolved)
    }

    /// The branches at a resource manager that rows of earlier incarnations wait for.
    pub(super) fn owed(&self, rm: u32) -> Response
        ensures { PerformsOwed rm self.now result }
    {
        if rm >= self.session.rms() {
            return Response::Refused(Refusal::Limit);
        }
        match self.session.owed(rm) {
            Ok(xids) => Response::Owed(xids),
            Err(refusal) => Response::Refused(refusal),
        }
    }
}
