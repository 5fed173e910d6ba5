//! What the end of several rows makes of the manager's book.

ghost use Rattle.std.specs.Result.{result_err};
ghost use Rattle.std.specs.Prelude.{◌≡◌, true, is_some, map, if◌then◌else◌};
ghost use Rattle.xa_base.specs.declared.refusal.Refusal.TheVariants as Refusals;
ghost use Rattle.xa_base.specs.declared.step.Step.TheVariants as Steps;
ghost use Rattle.xa_model.specs.Facts.Distinct.{EachOnce};
ghost use Rattle.xa_model.specs.Trace.{Happening.Done};
ghost use Rattle.xa_tm.specs.Book.{after_all};
ghost use Rattle.xa_tm.specs.LedgerBook.{as_book, row_at};
ghost use Rattle.xa_tm.specs.Refusing.{refusal_in_turn};

use crate::ledger::Ledger;
use crate::ledger::compare::is_named;
use xa_base::{Gtrid, Refusal};

impl Ledger {
    /// The refusal of Done for a transaction whose row has left.
    fn refusal_without_row(&self, g: Gtrid) -> Refusal
        ensures { result ≡ (if ((as_book self.now).transaction g).begun then Refusals.NotDecided
            else Refusals.UnknownTransaction) }
    {
        if self.is_begun(g) {
            Refusal::NotDecided
        } else {
            Refusal::UnknownTransaction
        }
    }

    /// The refusal of the first Done of these transactions that is refused, each after the ones
    /// before it.
    pub(crate) fn check_done_all(&self, gtrids: &[Gtrid]) -> Result<(), Refusal>
        ensures { result_err result ≡ refusal_in_turn (λ g. Steps.Done g) (λ g. Done g)
            (as_book self.now) gtrids.now }
    {
        for (i, g) in gtrids.iter().enumerate() {
            if is_named(&gtrids[..i], *g) {
                return Err(self.refusal_without_row(*g));
            }
            self.check_done(*g)?;
        }
        Ok(())
    }

    /// The rows of these transactions leave.
    pub(crate) fn done_all(&mut self, gtrids: &[Gtrid])
        requires { EachOnce (λ g. is_some (row_at self.old.rows g) ≡ true) gtrids.now }
        ensures { as_book self.new ≡
            after_all (as_book self.old) (map (λ g. Done g) gtrids.now) }
    {
        for g in gtrids {
            self.done(*g);
        }
    }
}
