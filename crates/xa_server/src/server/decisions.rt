//! Requests that begin and end transactions.

ghost use Rattle.std.specs.Prelude.{◌≡◌, ◌∷◌, []};
ghost use Rattle.xa_base.specs.declared.step.Outcome.TheVariants as Outcomes;
ghost use Rattle.xa_server.specs.Decisions.{PerformsAbandon, PerformsBegin, PerformsClaim, PerformsDecide, PerformsDone, PerformsSettle};
ghost use Rattle.xa_server.specs.Rows.{LogsRows};
ghost use Rattle.xa_session.specs.Logging.{KeepsLog};
ghost use Rattle.xa_session.specs.Session.{IsReady};

use super::Server;
use super::replies::{begun_reply, reply_of};
use xa_base::{Gtrid, Outcome};
use xa_log::DecisionLog;
use xa_requests::Response;

impl<L: DecisionLog + Drop> Server<L> {
    /// A transaction of a thread begins.
    pub(super) fn begin(&mut self, thread: u32) -> Response
        requires { IsReady self.old.session }
        ensures ready { IsReady self.new.session }
        ensures performs { PerformsBegin thread self.old result self.new }
        ensures keeps { KeepsLog L.moment
            self.old.session.manager self.new.session.manager }
    {
        let begun = self.session.begin(thread);
        begun_reply(begun)
    }

    /// Transactions are decided: all of them, or none.
    pub(super) fn decide(&mut self, gtrids: &[Gtrid], outcome: Outcome) -> Response
        requires { IsReady self.old.session }
        ensures ready { IsReady self.new.session }
        ensures performs { PerformsDecide gtrids.now outcome self.old result self.new }
        ensures keeps { KeepsLog L.moment
            self.old.session.manager self.new.session.manager }
        ensures rows { outcome ≡ Outcomes.Commit →
            LogsRows L.moment gtrids.now self.old.session result self.new.session }
    {
        let taken = self.session.decide_all(self.alloc, gtrids, outcome);
        reply_of(taken, Response::Decided)
    }

    /// A transaction is kept from recovery.
    pub(super) fn claim(&mut self, gtrid: Gtrid) -> Response
        requires { IsReady self.old.session }
        ensures ready { IsReady self.new.session }
        ensures performs { PerformsClaim gtrid self.old result self.new }
        ensures keeps { KeepsLog L.moment
            self.old.session.manager self.new.session.manager }
    {
        let taken = self.session.claim(gtrid);
        reply_of(taken, Response::Claimed)
    }

    /// A claimed transaction is committed.
    pub(super) fn settle(&mut self, gtrid: Gtrid) -> Response
        requires { IsReady self.old.session }
        ensures ready { IsReady self.new.session }
        ensures performs { PerformsSettle gtrid self.old result self.new }
        ensures keeps { KeepsLog L.moment
            self.old.session.manager self.new.session.manager }
        ensures rows { LogsRows L.moment (gtrid ∷ []) self.old.session result self.new.session }
    {
        let taken = self.session.settle(gtrid);
        reply_of(taken, Response::Decided)
    }

    /// A claimed transaction is rolled back.
    pub(super) fn abandon(&mut self, gtrid: Gtrid) -> Response
        requires { IsReady self.old.session }
        ensures ready { IsReady self.new.session }
        ensures performs { PerformsAbandon gtrid self.old result self.new }
        ensures keeps { KeepsLog L.moment
            self.old.session.manager self.new.session.manager }
    {
        let taken = self.session.abandon(gtrid);
        reply_of(taken, Response::Decided)
    }

    /// The rows of committed transactions leave the log, and their branches are owed no more: of all of them, or of none.
    pub(super) fn done(&mut self, gtrids: &[Gtrid]) -> Response
        requires { IsReady self.old.session }
        ensures ready { IsReady self.new.session }
        ensures performs { PerformsDone gtrids.now self.old result self.new }
        ensures keeps { KeepsLog L.moment
            self.old.session.manager self.new.session.manager }
    {
        let done = self.session.done_all(gtrids);
        reply_of(done, Response::Noted)
    }
}
