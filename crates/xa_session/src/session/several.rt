//! Transactions that are decided, or done, by one write of the log.

ghost use Rattle.xa_session.specs.Logging.{KeepsLog};
ghost use Rattle.xa_session.specs.Session.{IsReady};
ghost use Rattle.xa_session.specs.Steps.{Decides, Finishes};

use super::Session;
use crate::laws::books_have_headroom;
use std::alloc::Global;
use xa_base::{Gtrid, Outcome, Refusal};
use xa_log::DecisionLog;

impl<L: DecisionLog + Drop> Session<L> {
    /// Decides these transactions so, in turn: all of them, or none if one is refused. Their rows
    /// are in one write of the log. If that fails, the manager is down and all lines break; all of
    /// the rows may be there, or none.
    pub fn decide_all(
        &mut self,
        alloc: Global,
        gtrids: &[Gtrid],
        outcome: Outcome,
    ) -> Result<(), Refusal>
        requires { IsReady self.old }
        ensures ready { IsReady self.new }
        ensures decides { Decides gtrids.now outcome self.old self.new result }
        ensures keeps { KeepsLog L.moment self.old.manager self.new.manager }
    {
        books_have_headroom();
        if !self.has_room_for(gtrids.len()) {
            return Err(Refusal::Limit);
        }
        let reply = self.manager.decide_all(alloc, gtrids, outcome);
        self.conclude(reply, gtrids.len())
    }

    /// Takes the rows of these transactions away, in turn: all of them, or none if one is refused.
    /// They go by one write of the log. If that fails, the manager is down and all lines break; all
    /// of the rows may be there, or none.
    pub fn done_all(&mut self, gtrids: &[Gtrid]) -> Result<(), Refusal>
        requires { IsReady self.old }
        ensures ready { IsReady self.new }
        ensures finishes { Finishes gtrids.now self.old self.new result }
        ensures keeps { KeepsLog L.moment self.old.manager self.new.manager }
    {
        books_have_headroom();
        if !self.has_room_for(gtrids.len()) {
            return Err(Refusal::Limit);
        }
        let reply = self.manager.done_all(gtrids);
        self.conclude(reply, gtrids.len())
    }
}
