//! Transactions that begin, are claimed, and are settled or abandoned.

ghost use Rattle.xa_session.specs.Logging.{KeepsLog};
ghost use Rattle.xa_session.specs.Session.{IsReady};
ghost use Rattle.xa_session.specs.Steps.{Abandons, Begins, Claims, Settles};

use super::Session;
use crate::laws::books_have_headroom;
use xa_base::{Gtrid, Refusal};
use xa_log::DecisionLog;

impl<L: DecisionLog + Drop> Session<L> {
    /// A thread begins a transaction. As long as anything may happen in the session, none is one
    /// too many.
    pub fn begin(&mut self, thread: u32) -> Result<Gtrid, Refusal>
        requires { IsReady self.old }
        ensures ready { IsReady self.new }
        ensures begins { Begins thread self.old self.new result }
        ensures keeps { KeepsLog L.moment self.old.manager self.new.manager }
    {
        books_have_headroom();
        if self.is_over() {
            return Err(Refusal::Limit);
        }
        match self.manager.begin_in_service(thread) {
            Ok(gtrid) => {
                self.happenings += 1;
                Ok(gtrid)
            }
            Err(refusal) => Err(refusal),
        }
    }

    /// Claims a transaction: from then on no recovery rolls it back.
    pub fn claim(&mut self, gtrid: Gtrid) -> Result<(), Refusal>
        requires { IsReady self.old }
        ensures ready { IsReady self.new }
        ensures claims { Claims gtrid self.old self.new result }
        ensures keeps { KeepsLog L.moment self.old.manager self.new.manager }
    {
        books_have_headroom();
        if self.is_over() {
            return Err(Refusal::Limit);
        }
        match self.manager.claim(gtrid) {
            Ok(()) => {
                self.happenings += 1;
                Ok(())
            }
            Err(refusal) => Err(refusal),
        }
    }

    /// Commits a claimed transaction. If the log fails, the manager is down and all lines break.
    pub fn settle(&mut self, gtrid: Gtrid) -> Result<(), Refusal>
        requires { IsReady self.old }
        ensures ready { IsReady self.new }
        ensures settles { Settles gtrid self.old self.new result }
        ensures keeps { KeepsLog L.moment self.old.manager self.new.manager }
    {
        books_have_headroom();
        if self.is_over() {
            return Err(Refusal::Limit);
        }
        let reply = self.manager.settle(gtrid);
        self.conclude(reply, 1)
    }

    /// Rolls a claimed transaction back. The log is not asked.
    pub fn abandon(&mut self, gtrid: Gtrid) -> Result<(), Refusal>
        requires { IsReady self.old }
        ensures ready { IsReady self.new }
        ensures abandons { Abandons gtrid self.old self.new result }
        ensures keeps { KeepsLog L.moment self.old.manager self.new.manager }
    {
        books_have_headroom();
        if self.is_over() {
            return Err(Refusal::Limit);
        }
        match self.manager.abandon(gtrid) {
            Ok(()) => {
                self.happenings += 1;
                Ok(())
            }
            Err(refusal) => Err(refusal),
        }
    }
}
