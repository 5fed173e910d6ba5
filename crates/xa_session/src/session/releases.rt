//! Transactions that are over are forgotten.

ghost use Rattle.std.specs.Prelude.{◌≡◌, true, false};
ghost use Rattle.xa_tm.specs.Calls.{book_in};
ghost use Rattle.xa_tm.specs.Release.{IsOver};
ghost use Rattle.xa_session.specs.Logging.{KeepsLog};
ghost use Rattle.xa_session.specs.Session.{IsReady};
ghost use Rattle.xa_session.specs.Steps.{Forgets};

use super::Session;
use crate::laws::books_have_headroom;
use xa_base::Gtrid;
use xa_log::DecisionLog;

impl<L: DecisionLog + Drop> Session<L> {
    /// Forgets all that is noted of a transaction that is over (`IsOver`), and says whether it was.
    /// Nothing happens in this: wherever the session stood, it still stands.
    pub fn release(&mut self, gtrid: Gtrid) -> bool
        requires { IsReady self.old }
        ensures ready { IsReady self.new }
        ensures forgets { result ≡ true → Forgets gtrid self.old self.new }
        // One that isn't over stays.
        ensures owed { result ≡ false → IsOver (book_in self.old.manager) gtrid → ⊥ }
        ensures same { result ≡ false → self.new ≡ self.old }
        ensures keeps { KeepsLog L.moment self.old.manager self.new.manager }
    {
        books_have_headroom();
        self.manager.release(gtrid)
    }
}
