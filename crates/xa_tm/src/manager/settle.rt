//! A claimed transaction is committed.

ghost use Rattle.std.specs.Prelude.{◌≡◌, ◌≢◌, [], ◌∷◌, Some, None, Err, IfErr, OnOk};
ghost use Rattle.xa_base.specs.declared.refusal.Refusal.TheVariants as Refusals;
ghost use Rattle.xa_base.specs.declared.step.Outcome.TheVariants as Outcomes;
ghost use Rattle.xa_base.specs.declared.step.Step.TheVariants as Steps;
ghost use Rattle.xa_model.specs.Trace.{Fault.InDecide, Happening.Decided};
ghost use Rattle.xa_tm.specs.Book.{Doubt.Adds, after, rows_for};
ghost use Rattle.xa_tm.specs.BookAndLog.{changed_by};
ghost use Rattle.xa_tm.specs.Calls.{AddsRow, AsksFor, FailsBy, book_in, log_in};
ghost use Rattle.xa_tm.specs.LedgerBook.{IsSound};
ghost use Rattle.xa_tm.specs.Refusing.{refusal_in};
ghost use Rattle.xa_tm.specs.Ties.{StaysTied};

use crate::manager::Manager;
use xa_base::{Gtrid, Outcome, Refusal};
use xa_log::DecisionLog;

impl<L: DecisionLog + Drop> Manager<L> {
    /// Commits a claimed transaction.
    pub fn settle(&mut self, g: Gtrid) -> Result<(), Refusal>
        requires { IsSound (book_in self.old) }
        // A rule that refuses changes nothing.
        ensures refused { (n : Refusal) → refusal_in (book_in self.old) (Steps.Settle g) ≡ Some n →
            (result ≡ Err n) × (self.new ≡ self.old) }
        ensures allowed { OnOk result (refusal_in (book_in self.old) (Steps.Settle g) ≡ None) }
        // What the book then says.
        ensures ok { OnOk result
            (book_in self.new ≡ after (book_in self.old) (Decided g Outcomes.Commit)) }
        ensures err { refusal_in (book_in self.old) (Steps.Settle g) ≡ None →
            IfErr result (FailsBy (Adds (rows_for (book_in self.old) (g ∷ []))) (InDecide (g ∷ []))
            (book_in self.old) (book_in self.new)) }
        ensures asked { refusal_in (book_in self.old) (Steps.Settle g) ≡ None →
            result ≡ Err Refusals.LogFault →
            AddsRow Outcomes.Commit ((book_in self.old).transaction g) }
        // What becomes of the log.
        ensures tied { StaysTied L.moment self.old self.new }
        ensures kept { IfErr result
            (λ n. n ≢ Refusals.LogFault → log_in self.new ≡ log_in self.old) }
        ensures asks { AsksFor (changed_by (Adds (rows_for (book_in self.old) (g ∷ []))))
            (L.moment (log_in self.old)) (L.moment (log_in self.new)) result }
    {
        self.ledger.check_settle(g)?;
        self.conclude(g, Outcome::Commit)
    }
}
