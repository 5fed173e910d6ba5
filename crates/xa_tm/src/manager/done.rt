//! The row of a transaction is taken away, once it waits for nothing more.

ghost use Rattle.std.specs.Prelude.{◌≡◌, ◌≢◌, [], ◌∷◌, Some, None, Err, IfErr, OnOk};
ghost use Rattle.xa_base.specs.declared.refusal.Refusal.TheVariants as Refusals;
ghost use Rattle.xa_base.specs.declared.step.Step.TheVariants as Steps;
ghost use Rattle.xa_model.specs.Trace.{Fault.InDone, Happening.Done, Happening.Failed};
ghost use Rattle.xa_tm.specs.Book.{Doubt.Drops, after, book_after};
ghost use Rattle.xa_tm.specs.BookAndLog.{changed_by};
ghost use Rattle.xa_tm.specs.Calls.{AsksFor, book_in, log_in};
ghost use Rattle.xa_tm.specs.LedgerBook.{IsSound};
ghost use Rattle.xa_tm.specs.Refusing.{refusal_in};
ghost use Rattle.xa_tm.specs.Ties.{StaysTied};

use crate::manager::Manager;
use xa_base::{Gtrid, Refusal};
use xa_log::DecisionLog;

impl<L: DecisionLog + Drop> Manager<L> {
    /// Takes the row of a transaction away that waits for nothing more.
    pub fn done(&mut self, g: Gtrid) -> Result<(), Refusal>
        requires { IsSound (book_in self.old) }
        // A rule that refuses changes nothing.
        ensures refused { (n : Refusal) → refusal_in (book_in self.old) (Steps.Done g) ≡ Some n →
            (result ≡ Err n) × (self.new ≡ self.old) }
        ensures allowed { OnOk result (refusal_in (book_in self.old) (Steps.Done g) ≡ None) }
        // What the book then says.
        ensures ok { OnOk result (book_in self.new ≡ after (book_in self.old) (Done g)) }
        ensures err { refusal_in (book_in self.old) (Steps.Done g) ≡ None →
            IfErr result (λ n. (n ≡ Refusals.LogFault) ×
            (book_in self.new ≡ book_after (book_in self.old) (Drops (g ∷ []))
            (Failed (InDone (g ∷ []))))) }
        // What becomes of the log.
        ensures tied { StaysTied L.moment self.old self.new }
        ensures kept { IfErr result
            (λ n. n ≢ Refusals.LogFault → log_in self.new ≡ log_in self.old) }
        ensures asks { AsksFor (changed_by (Drops (g ∷ [])))
            (L.moment (log_in self.old)) (L.moment (log_in self.new)) result }
    {
        self.ledger.check_done(g)?;
        let alloc = self.ledger.alloc();
        self.take_rows(&[g], g, Vec::new(alloc))
    }
}
