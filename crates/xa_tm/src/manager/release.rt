//! What the manager need not remember of a transaction that is over.

ghost use Rattle.std.specs.Prelude.{◌≡◌, true, false};
ghost use Rattle.xa_tm.specs.Calls.{book_in, log_in};
ghost use Rattle.xa_tm.specs.Release.{HoldsNothingOf, IsOver, book_without};
ghost use Rattle.xa_tm.specs.Ties.{StaysTiedToAny};

use crate::manager::Manager;
use xa_base::Gtrid;
use xa_log::DecisionLog;

impl<L: DecisionLog + Drop> Manager<L> {
    /// Forgets all that is noted of a transaction that is over (`IsOver`), and says whether it was.
    ///
    /// A transaction is over once it is decided or handed over to its one resource manager, has no
    /// row in the log (after [`Manager::done`], or if it never had one), and each of its branches
    /// has given its last answer. One of whose branches a heuristic outcome is recorded is not
    /// over, nor is any while the manager is down.
    ///
    /// Without releases the manager remembers each transaction since its start. A step that names a
    /// transaction after its release is refused as one that was never begun; all else goes on as
    /// before ([`released_books_go_on`](crate::laws::released_books_go_on)).
    pub fn release(&mut self, g: Gtrid) -> bool
        ensures over { result ≡ true → IsOver (book_in self.old) g }
        ensures released { result ≡ true → book_in self.new ≡ book_without g (book_in self.old) }
        ensures forgotten { result ≡ true → HoldsNothingOf g self.new }
        ensures owed { result ≡ false → IsOver (book_in self.old) g → ⊥ }
        ensures same { result ≡ false → self.new ≡ self.old }
        ensures log { log_in self.new ≡ log_in self.old }
        ensures tied { StaysTiedToAny (book_in self.old) (book_in self.new) }
    {
        let is_over = self.ledger.is_over(g);
        if is_over {
            self.ledger.release(g);
        }
        is_over
    }
}
