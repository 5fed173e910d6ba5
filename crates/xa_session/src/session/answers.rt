//! Answers that the driver tells.

ghost use Rattle.std.specs.Prelude.{◌≡◌};
ghost use Rattle.xa_session.specs.Logging.{KeepsLog};
ghost use Rattle.xa_session.specs.Session.{IsReady};
ghost use Rattle.xa_session.specs.Steps.{Hears};

use super::Session;
use crate::hearing::can_hear;
use crate::laws::books_have_headroom;
use xa_base::{Answer, Branch, Refusal};
use xa_log::DecisionLog;

/// Why an answer is not heard.
#[derive(Clone, Copy, Debug, PartialEq, Eq)]
pub enum Unfit {
    /// A rule refuses it, memory is short, or the log failed.
    Refused(Refusal),
    /// No call waits on the line.
    NothingWaits,
    /// The call that waits first has no such answer: xa_open and xa_close are answered XA_OK,
    /// xa_recover by a page of no more identifiers than were asked for or by XAER_INVAL, and any
    /// other call by a code. (Its branch must be this manager's, with numbers that fit a row.)
    NoSuchAnswer,
    /// No state of XA's table in which this branch may be, by all that was answered, explains the
    /// answer (XA, chapter 6, State Tables): the branch of the call, or one that the page lists.
    NoSuchState(Branch),
}

impl From<Refusal> for Unfit {
    ghost use Rattle.xa_session.specs.declared.session.answers.Unfit.TheVariants as Unfits;

    ghost from_gives = { λ refusal unfit. unfit ≡ Unfits.Refused refusal };

    fn from(refusal: Refusal) -> Unfit {
        Unfit::Refused(refusal)
    }
}

impl<L: DecisionLog + Drop> Session<L> {
    /// The call that waits first on a line was done, and answered so. What is answered is heard by
    /// the manager and by the monitor, or by neither. If the log fails, the manager is down and all
    /// lines break.
    pub fn answer(&mut self, thread: u32, rm: u32, answer: Answer) -> Result<(), Unfit>
        requires { IsReady self.old }
        ensures ready { IsReady self.new }
        ensures hears { Hears thread rm answer self.old self.new result }
        ensures keeps { KeepsLog L.moment self.old.manager self.new.manager }
    {
        books_have_headroom();
        self.check_line(thread, rm)?;
        let Some(front) = self.lines.line(thread, rm).front() else {
            return Err(Unfit::NothingWaits);
        };
        let call = front.copy();
        if !can_hear(&call, &answer) {
            return Err(Unfit::NoSuchAnswer);
        }
        if let Some(b) = self.monitor.unexplained(rm, &call, &answer) {
            return Err(Unfit::NoSuchState(b));
        }
        let Ok(()) = self.monitor.make_room(&call, &answer) else {
            return Err(Unfit::Refused(Refusal::Memory));
        };
        match self.manager.hear(thread, rm, &call, &answer) {
            Ok(()) => {
                self.monitor.follow(&call, &answer);
                self.lines.line_mut(thread, rm).answer_first(answer);
                self.happenings += 1;
                Ok(())
            }
            Err(refusal) => {
                self.monitor.drop_room();
                let _ = self.conclude(Err(refusal), 1);
                Err(Unfit::Refused(refusal))
            }
        }
    }
}
