//! A claimed transaction is rolled back.

ghost use Rattle.std.specs.Prelude.{◌≡◌, Some, None, Err, IfErr, OnOk};
ghost use Rattle.xa_base.specs.declared.refusal.Refusal.TheVariants as Refusals;
ghost use Rattle.xa_base.specs.declared.step.Outcome.TheVariants as Outcomes;
ghost use Rattle.xa_base.specs.declared.step.Step.TheVariants as Steps;
ghost use Rattle.xa_model.specs.Trace.{Happening.Decided};
ghost use Rattle.xa_tm.specs.Book.{after};
ghost use Rattle.xa_tm.specs.Calls.{book_in, log_in};
ghost use Rattle.xa_tm.specs.Refusing.{refusal_in};
ghost use Rattle.xa_tm.specs.Ties.{StaysTiedToAny};

use crate::manager::Manager;
use xa_base::{Gtrid, Outcome, Refusal};
use xa_log::DecisionLog;

impl<L: DecisionLog + Drop> Manager<L> {
    /// Rolls a claimed transaction back. The log is not asked.
    pub fn abandon(&mut self, g: Gtrid) -> Result<(), Refusal>
        ensures refused { (n : Refusal) → refusal_in (book_in self.old) (Steps.Abandon g) ≡ Some n →
            (result ≡ Err n) × (self.new ≡ self.old) }
        ensures allowed { OnOk result (refusal_in (book_in self.old) (Steps.Abandon g) ≡ None) }
        ensures ok { OnOk result
            (book_in self.new ≡ after (book_in self.old) (Decided g Outcomes.Rollback)) }
        ensures err { refusal_in (book_in self.old) (Steps.Abandon g) ≡ None →
            IfErr result (λ n. (n ≡ Refusals.Memory) × (book_in self.new ≡ book_in self.old)) }
        ensures log { log_in self.new ≡ log_in self.old }
        ensures tied { StaysTiedToAny (book_in self.old) (book_in self.new) }
    {
        self.ledger.check_settle(g)?;
        self.decide_without_row(g, Outcome::Rollback)
    }
}
