//! Lines that are lost.

ghost use Rattle.xa_server.specs.Crashes.{LosesOne, PerformsCrashLine, PerformsCrashRm};
ghost use Rattle.xa_session.specs.Logging.{KeepsLog};
ghost use Rattle.xa_session.specs.Session.{IsReady};

use super::Server;
use super::replies::reply_of;
use xa_base::Refusal;
use xa_log::DecisionLog;
use xa_requests::Response;

impl<L: DecisionLog + Drop> Server<L> {
    /// The line of a thread to a resource manager is lost.
    fn lose(&mut self, thread: u32, rm: u32) -> Result<(), Refusal>
        requires { IsReady self.old.session }
        ensures ready { IsReady self.new.session }
        ensures loses { LosesOne thread rm self.old result self.new }
        ensures keeps { KeepsLog L.moment
            self.old.session.manager self.new.session.manager }
    {
        self.session.lose_line(thread, rm)
    }

    /// The connection of a thread to a resource manager is lost.
    pub(super) fn crash_line(&mut self, thread: u32, rm: u32) -> Response
        requires { IsReady self.old.session }
        ensures ready { IsReady self.new.session }
        ensures performs { PerformsCrashLine thread rm self.old result self.new }
        ensures keeps { KeepsLog L.moment
            self.old.session.manager self.new.session.manager }
    {
        let lost = self.lose(thread, rm);
        reply_of(lost, Response::Crashed)
    }

    /// All connections to a resource manager are lost: the line of each thread in turn, up to the first that is refused.
    pub(super) fn crash_rm(&mut self, rm: u32) -> Response
        requires { IsReady self.old.session }
        ensures ready { IsReady self.new.session }
        ensures performs { PerformsCrashRm rm self.old result self.new }
    {
        let threads = self.session.threads();
        for thread in 0..threads {
            if let Err(refusal) = self.lose(thread, rm) {
                return Response::Refused(refusal);
            }
        }
        Response::Crashed
    }
}
