//! The manager ends what a resource manager lists.

ghost use Rattle.std.specs.Prelude.{◌≡◌, IfErr, IfOk};
ghost use Rattle.std.specs.Result.{result_err};
ghost use Rattle.xa_base.specs.declared.refusal.Refusal.TheVariants as Refusals;
ghost use Rattle.xa_session.specs.Logging.{KeepsLog};
ghost use Rattle.xa_session.specs.Session.{IsReady, awaits_page, recovery_refusal};
ghost use Rattle.xa_session.specs.Steps.{Resolves, ResolvesOpen};
ghost use Rattle.xa_tm.specs.Calls.{book_in};
ghost use Rattle.xa_tm.specs.Owed.{AreOwed};

use super::Session;
use crate::laws::books_have_headroom;
use crate::session_line::SessionLine;
use xa_base::{Call, Refusal, Xid};
use xa_log::DecisionLog;
use xa_tm::laws::recoveries_are_read;

impl<L: DecisionLog + Drop> Session<L> {
    /// Says why no recovery of so many calls may begin at a resource manager: the first reason that
    /// applies.
    fn check_recovery(&self, rm: u32, count: usize) -> Result<(), Refusal>
        ensures { result_err result ≡ recovery_refusal self.now rm count }
    {
        self.check_line(0, rm)?;
        let line = self.lines.line(0, rm);
        line.check_open()?;
        if awaits_page(line) {
            return Err(Refusal::Busy);
        }
        line.check_room(count)
    }

    /// The identifiers of the branches at a resource manager that rows of earlier incarnations wait
    /// for, in their order.
    pub fn owed(&self, rm: u32) -> Result<Vec<Xid>, Refusal>
        ensures ok { IfOk result (λ list. AreOwed (book_in self.now.manager) rm list.items) }
        ensures err { IfErr result (λ n. n ≡ Refusals.Memory) }
    {
        self.manager.owed(rm)
    }

    /// Lets the calls wait, on the line of the first thread, that end what a resource manager
    /// listed last. Gives their number. It is refused as Busy while an xa_recover waits first on
    /// that line: after a page that was refused, too.
    pub fn resolve(&mut self, rm: u32) -> Result<usize, Refusal>
        requires { IsReady self.old }
        ensures ready { IsReady self.new }
        ensures resolves { Resolves rm self.old self.new result }
        ensures keeps { KeepsLog L.moment self.old.manager self.new.manager }
    {
        books_have_headroom();
        recoveries_are_read();
        let count = self.manager.resolve_len(rm);
        self.check_recovery(rm, count)?;
        let calls = self.manager.resolve(rm)?;
        self.lines.line_mut(0, rm).issue_all(calls);
        self.happenings += 1;
        Ok(count)
    }

    /// The same; and before that what is open of what is listed is rolled back.
    pub fn resolve_open(&mut self, rm: u32) -> Result<usize, Refusal>
        requires { IsReady self.old }
        ensures ready { IsReady self.new }
        ensures resolves { ResolvesOpen rm self.old self.new result }
        ensures keeps { KeepsLog L.moment self.old.manager self.new.manager }
    {
        books_have_headroom();
        recoveries_are_read();
        let count = self.manager.resolve_open_len(rm);
        self.check_recovery(rm, count)?;
        let calls = self.manager.resolve_open(rm)?;
        self.lines.line_mut(0, rm).issue_all(calls);
        self.happenings += 1;
        Ok(count)
    }
}

/// Whether the call that waits first on a line is an xa_recover, of which no page was heard.
fn awaits_page(line: &SessionLine) -> bool
    ensures { result ≡ awaits_page line.now }
{
    matches!(line.front(), Some(Call::Recover { .. }))
}
