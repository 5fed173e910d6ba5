//! A part crashes.

ghost use Rattle.std.specs.Prelude.{◌≡◌};
ghost use Rattle.xa_model.specs.Trace.{Happening.Crashed};
ghost use Rattle.xa_tm.specs.Book.{after};
ghost use Rattle.xa_tm.specs.Calls.{book_in, log_in};
ghost use Rattle.xa_tm.specs.Ties.{StaysTiedToAny};

use crate::manager::Manager;
use xa_base::Part;
use xa_log::DecisionLog;

impl<L: DecisionLog + Drop> Manager<L> {
    /// A part crashes: a line, a resource manager with all its lines, or the manager with all
    /// lines.
    pub fn crash(&mut self, part: Part)
        ensures book { book_in self.new ≡ after (book_in self.old) (Crashed part) }
        ensures log { log_in self.new ≡ log_in self.old }
        ensures tied { StaysTiedToAny (book_in self.old) (book_in self.new) }
    {
        self.ledger.crash(part);
    }
}
