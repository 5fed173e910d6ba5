//! Lines that are lost.

ghost use Rattle.xa_session.specs.Logging.{KeepsLog};
ghost use Rattle.xa_session.specs.Session.{IsReady};
ghost use Rattle.xa_session.specs.Steps.{Loses};

use super::Session;
use crate::laws::books_have_headroom;
use xa_base::{Part, Refusal};
use xa_log::DecisionLog;

impl<L: DecisionLog + Drop> Session<L> {
    /// The connection of a thread to a resource manager is lost: what waits on the line is lost,
    /// and the line isn't open. The crash of a resource manager is the loss of each thread's line
    /// to it. If memory is refused, the line isn't lost yet: tell it again.
    pub fn lose_line(&mut self, thread: u32, rm: u32) -> Result<(), Refusal>
        requires { IsReady self.old }
        ensures ready { IsReady self.new }
        ensures loses { Loses thread rm self.old self.new result }
        ensures keeps { KeepsLog L.moment self.old.manager self.new.manager }
    {
        books_have_headroom();
        self.check_line(thread, rm)?;
        let call = self.lines.line(thread, rm).front();
        let Ok(()) = self.monitor.lose_line(thread, rm, call) else {
            return Err(Refusal::Memory);
        };
        self.lines.line_mut(thread, rm).renew();
        self.manager.crash(Part::Line { thread, rm });
        self.happenings += 1;
        Ok(())
    }
}
