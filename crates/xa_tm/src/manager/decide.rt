//! A transaction is decided: the step, and what settling and abandoning share with it (XA, section
//! 2.3, Transaction Completion and Recovery).

ghost use Rattle.std.specs.Prelude.{◌≡◌, ◌≢◌, ◌&&◌, [], ◌∷◌, Bool, Some, None, Err, IfErr, OnOk};
ghost use Rattle.xa_base.specs.declared.refusal.Refusal.TheVariants as Refusals;
ghost use Rattle.xa_base.specs.declared.step.Outcome.TheVariants as Outcomes;
ghost use Rattle.xa_base.specs.declared.step.Step.TheVariants as Steps;
ghost use Rattle.xa_model.specs.Trace.{Fault.InDecide, Happening.Decided};
ghost use Rattle.xa_tm.specs.Book.{Doubt.Adds, after, rows_for};
ghost use Rattle.xa_tm.specs.BookAndLog.{changed_by};
ghost use Rattle.xa_tm.specs.Calls.{AddsRow, AsksFor, FailsBy, IsOpenIn, book_in, log_in};
ghost use Rattle.xa_tm.specs.LedgerBook.{IsSound};
ghost use Rattle.xa_tm.specs.Outcomes.{is_commit};
ghost use Rattle.xa_tm.specs.Refusing.{refusal_in};
ghost use Rattle.xa_tm.specs.Ties.{StaysTied, StaysTiedToAny};

use crate::manager::Manager;
use xa_base::{Gtrid, Outcome, Refusal};
use xa_log::DecisionLog;

impl<L: DecisionLog + Drop> Manager<L> {
    /// Decides a transaction. A commit writes its row if some branch voted XA_OK. No other decision
    /// asks the log.
    pub fn decide(&mut self, g: Gtrid, outcome: Outcome) -> Result<(), Refusal>
        requires { IsSound (book_in self.old) }
        // A rule that refuses changes nothing.
        ensures refused { (n : Refusal) →
            refusal_in (book_in self.old) (Steps.Decide g outcome) ≡ Some n →
            (result ≡ Err n) × (self.new ≡ self.old) }
        ensures allowed { OnOk result
            (refusal_in (book_in self.old) (Steps.Decide g outcome) ≡ None) }
        // What the book then says.
        ensures ok { OnOk result (book_in self.new ≡ after (book_in self.old) (Decided g outcome)) }
        ensures err { refusal_in (book_in self.old) (Steps.Decide g outcome) ≡ None →
            IfErr result (FailsBy (Adds (rows_for (book_in self.old) (g ∷ []))) (InDecide (g ∷ []))
            (book_in self.old) (book_in self.new)) }
        ensures asked { refusal_in (book_in self.old) (Steps.Decide g outcome) ≡ None →
            result ≡ Err Refusals.LogFault →
            AddsRow outcome ((book_in self.old).transaction g) }
        // What becomes of the log.
        ensures tied { StaysTied L.moment self.old self.new }
        ensures kept { IfErr result
            (λ n. n ≢ Refusals.LogFault → log_in self.new ≡ log_in self.old) }
        ensures without_row { ¬ AddsRow outcome ((book_in self.old).transaction g) →
            log_in self.new ≡ log_in self.old }
        ensures asks { AsksFor (changed_by (Adds (rows_for (book_in self.old) (g ∷ []))))
            (L.moment (log_in self.old)) (L.moment (log_in self.new)) result }
    {
        self.ledger.check_decide(g, outcome)?;
        self.conclude(g, outcome)
    }

    /// Decides what no rule refuses to decide.
    pub(super) fn conclude(&mut self, g: Gtrid, outcome: Outcome) -> Result<(), Refusal>
        requires sound { IsSound (book_in self.old) }
        requires open { IsOpenIn (book_in self.old) g }
        // What the book then says.
        ensures ok { OnOk result (book_in self.new ≡ after (book_in self.old) (Decided g outcome)) }
        ensures err { IfErr result
            (FailsBy (Adds (rows_for (book_in self.old) (g ∷ []))) (InDecide (g ∷ []))
            (book_in self.old)
            (book_in self.new)) }
        ensures asked { result ≡ Err Refusals.LogFault →
            AddsRow outcome ((book_in self.old).transaction g) }
        // What becomes of the log.
        ensures tied { StaysTied L.moment self.old self.new }
        ensures kept { IfErr result
            (λ n. n ≢ Refusals.LogFault → log_in self.new ≡ log_in self.old) }
        ensures without_row { ¬ AddsRow outcome ((book_in self.old).transaction g) →
            log_in self.new ≡ log_in self.old }
        ensures asks { AsksFor (changed_by (Adds (rows_for (book_in self.old) (g ∷ []))))
            (L.moment (log_in self.old)) (L.moment (log_in self.new)) result }
    {
        if self.ledger.transaction(g).adds_row(outcome) {
            self.commit(g)
        } else {
            self.decide_without_row(g, outcome)
        }
    }

    /// Decides a transaction of which no row is written.
    pub(super) fn decide_without_row(&mut self, g: Gtrid, outcome: Outcome) -> Result<(), Refusal>
        requires open { IsOpenIn (book_in self.old) g }
        requires no_row { (is_commit (Some outcome)
            && ((book_in self.old).transaction g).has_yes) ≡ Bool.false }
        ensures ok { OnOk result (book_in self.new ≡ after (book_in self.old) (Decided g outcome)) }
        ensures err { IfErr result
            (λ n. (n ≡ Refusals.Memory) × (book_in self.new ≡ book_in self.old)) }
        ensures log { log_in self.new ≡ log_in self.old }
        ensures tied { StaysTiedToAny (book_in self.old) (book_in self.new) }
    {
        Ok(self.ledger.decide(g, outcome)?)
    }

    /// Commits a transaction of which some branch voted XA_OK: its row names those that did.
    fn commit(&mut self, g: Gtrid) -> Result<(), Refusal>
        requires sound { IsSound (book_in self.old) }
        requires open { IsOpenIn (book_in self.old) g }
        requires yes { ((book_in self.old).transaction g).has_yes ≡ Bool.true }
        // What the book then says.
        ensures ok { OnOk result
            (book_in self.new ≡ after (book_in self.old) (Decided g Outcomes.Commit)) }
        ensures err { IfErr result
            (FailsBy (Adds (rows_for (book_in self.old) (g ∷ []))) (InDecide (g ∷ []))
            (book_in self.old)
            (book_in self.new)) }
        // What becomes of the log.
        ensures tied { StaysTied L.moment self.old self.new }
        ensures kept { IfErr result
            (λ n. n ≢ Refusals.LogFault → log_in self.new ≡ log_in self.old) }
        ensures asks { AsksFor (changed_by (Adds (rows_for (book_in self.old) (g ∷ []))))
            (L.moment (log_in self.old)) (L.moment (log_in self.new)) result }
    {
        let alloc = self.ledger.alloc();
        self.conclude_all(alloc, &[g], Outcome::Commit)
    }
}
