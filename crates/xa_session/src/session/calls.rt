//! Calls that wait on a line.

ghost use Rattle.std.specs.Prelude.{◌≡◌};
ghost use Rattle.std.specs.Option.{option_copied};
ghost use Rattle.std.specs.Result.{result_err};
ghost use Rattle.xa_session.specs.Logging.{KeepsLog};
ghost use Rattle.xa_session.specs.Session.{IsReady, first_waiting, issue_refusal, line_refusal};
ghost use Rattle.xa_session.specs.Steps.{Issues};

use super::Session;
use crate::laws::books_have_headroom;
use xa_base::{Call, Refusal};
use xa_log::DecisionLog;

impl<L: DecisionLog + Drop> Session<L> {
    /// Says why nothing is told of a line now, whatever it is.
    pub(super) fn check_line(&self, thread: u32, rm: u32) -> Result<(), Refusal>
        ensures { result_err result ≡ line_refusal self.now thread rm }
    {
        if self.is_over() || !self.lines.has(thread, rm) {
            return Err(Refusal::Limit);
        }
        if !self.manager.is_up() {
            return Err(Refusal::ManagerDown);
        }
        Ok(())
    }

    /// Says why a call may not wait on a line now: the first reason that applies.
    pub fn check_issue(&self, thread: u32, rm: u32, call: &Call) -> Result<(), Refusal>
        ensures { result_err result ≡ issue_refusal self.now thread rm call.now }
    {
        self.check_line(thread, rm)?;
        let line = self.lines.line(thread, rm);
        line.check(call)?;
        self.manager.check_issue(thread, rm, call)?;
        line.check_room(1)
    }

    /// The call that waits first on a line, if there is one.
    pub fn waiting(&self, thread: u32, rm: u32) -> Option<&Call>
        ensures { option_copied result ≡ first_waiting self.now.lines thread rm }
    {
        if !self.lines.has(thread, rm) {
            return None;
        }
        self.lines.line(thread, rm).front()
    }

    /// Lets a call wait on a line, after those that do already.
    pub fn issue(&mut self, thread: u32, rm: u32, call: &Call) -> Result<(), Refusal>
        requires { IsReady self.old }
        ensures ready { IsReady self.new }
        ensures issues { Issues thread rm call.now self.old self.new result }
        ensures keeps { KeepsLog L.moment self.old.manager self.new.manager }
    {
        books_have_headroom();
        self.check_issue(thread, rm, call)?;
        let Ok(room) = self.lines.room(thread, rm) else {
            return Err(Refusal::Memory);
        };
        self.manager.note_issued(call)?;
        let _ = self.lines.line_mut(thread, rm).issue(call.copy(), room);
        self.happenings += 1;
        Ok(())
    }
}
