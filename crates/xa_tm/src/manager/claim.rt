//! A transaction is claimed: from then on no recovery rolls it back.

ghost use Rattle.std.specs.Prelude.{◌≡◌, Some, None, Err, IfErr, OnOk};
ghost use Rattle.xa_base.specs.declared.refusal.Refusal.TheVariants as Refusals;
ghost use Rattle.xa_base.specs.declared.step.Step.TheVariants as Steps;
ghost use Rattle.xa_model.specs.Trace.{Happening.Claimed};
ghost use Rattle.xa_tm.specs.Book.{after};
ghost use Rattle.xa_tm.specs.Calls.{book_in, log_in};
ghost use Rattle.xa_tm.specs.Refusing.{refusal_in};

use crate::manager::Manager;
use xa_base::{Gtrid, Refusal};
use xa_log::DecisionLog;

impl<L: DecisionLog + Drop> Manager<L> {
    /// Claims a transaction, so that no recovery rolls it back before it is settled or abandoned.
    pub fn claim(&mut self, g: Gtrid) -> Result<(), Refusal>
        ensures refused { (n : Refusal) → refusal_in (book_in self.old) (Steps.Claim g) ≡ Some n →
            (result ≡ Err n) × (self.new ≡ self.old) }
        ensures allowed { OnOk result (refusal_in (book_in self.old) (Steps.Claim g) ≡ None) }
        ensures ok { OnOk result (book_in self.new ≡ after (book_in self.old) (Claimed g)) }
        ensures err { refusal_in (book_in self.old) (Steps.Claim g) ≡ None →
            IfErr result (λ n. (n ≡ Refusals.Memory) × (book_in self.new ≡ book_in self.old)) }
        ensures log { log_in self.new ≡ log_in self.old }
    {
        self.ledger.check_claim(g)?;
        self.ledger.claim(g)?;
        Ok(())
    }
}
