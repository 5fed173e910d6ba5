//! The refusals that the manager finds in its book, each before those with a higher number.

ghost use Rattle.std.specs.Result.{result_err};
ghost use Rattle.std.specs.Prelude.{◌≡◌};
ghost use Rattle.xa_base.specs.declared.step.Step.TheVariants as Steps;
ghost use Rattle.xa_model.specs.Facts.{each_of_some};
ghost use Rattle.xa_tm.specs.LedgerBook.{as_book};
ghost use Rattle.xa_tm.specs.Refusing.{has_row_in, row_settled_in, is_settled_lately_in, waits_for_none, is_shut_in};
ghost use Rattle.xa_tm.specs.Refusing.{is_taken_up_in, live_in, outlived_in, refusal_in, service_refusal_in};

use crate::ledger::Ledger;
use xa_base::{BEGIN_LIMIT, Branch, Gtrid, Outcome, Refusal};

impl Ledger {
    /// Whether a transaction has a row in the log.
    pub(crate) fn has_row(&self, g: Gtrid) -> bool
        ensures { result ≡ has_row_in (as_book self.now) g }
    {
        matches!(self.rows.get(&g), Some(Some(_)))
    }

    /// Whether a transaction's row has outlived its incarnation.
    pub(crate) fn is_outlived(&self, g: Gtrid) -> bool
        ensures { result ≡ outlived_in (as_book self.now) g }
    {
        g.incarnation < self.incarnation && self.has_row(g)
    }

    /// Whether a transaction is decided or handed over.
    fn is_taken_up(&self, g: Gtrid) -> bool
        ensures { result ≡ is_taken_up_in (as_book self.now) g }
    {
        self.transaction(g).is_over() || self.is_outlived(g)
    }

    /// Whether a transaction is decided, handed over or claimed.
    pub(crate) fn is_shut(&self, g: Gtrid) -> bool
        ensures { result ≡ is_shut_in (as_book self.now) g }
    {
        self.is_taken_up(g) || (self.is_begun(g) && self.transaction(g).is_claimed)
    }

    /// Whether a transaction was begun in this incarnation, and is neither decided nor handed over.
    pub(crate) fn is_live(&self, g: Gtrid) -> bool
        ensures { result ≡ live_in (as_book self.now) g }
    {
        self.is_begun(g) && !self.transaction(g).is_over()
    }

    /// The refusal of a thread's begin, however many transactions were begun before.
    pub(crate) fn check_begin_in_service(&self, thread: u32) -> Result<(), Refusal>
        ensures { result_err result ≡ service_refusal_in (as_book self.now) thread }
    {
        if thread >= self.threads {
            return Err(Refusal::Limit);
        }
        if !self.is_up {
            return Err(Refusal::ManagerDown);
        }
        Ok(())
    }

    /// The refusal of a thread's Begin.
    pub(crate) fn check_begin(&self, thread: u32) -> Result<(), Refusal>
        ensures { result_err result ≡ refusal_in (as_book self.now) (Steps.Begin thread) }
    {
        self.check_begin_in_service(thread)?;
        if self.begins >= BEGIN_LIMIT {
            return Err(Refusal::Limit);
        }
        Ok(())
    }

    /// The refusal of a decision.
    pub(crate) fn check_decide(&self, g: Gtrid, outcome: Outcome) -> Result<(), Refusal>
        ensures { result_err result ≡ refusal_in (as_book self.now) (Steps.Decide g outcome) }
    {
        if !self.is_up {
            return Err(Refusal::ManagerDown);
        }
        if !self.is_begun(g) {
            return Err(Refusal::UnknownTransaction);
        }
        if self.is_shut(g) {
            return Err(Refusal::Decided);
        }
        if outcome == Outcome::Commit && self.transaction(g).unvoted != 0 {
            return Err(Refusal::Votes);
        }
        Ok(())
    }

    /// The refusal of a claim.
    pub(crate) fn check_claim(&self, g: Gtrid) -> Result<(), Refusal>
        ensures { result_err result ≡ refusal_in (as_book self.now) (Steps.Claim g) }
    {
        if !self.is_up {
            return Err(Refusal::ManagerDown);
        }
        if !self.is_begun(g) {
            return Err(Refusal::UnknownTransaction);
        }
        if self.is_shut(g) {
            return Err(Refusal::Decided);
        }
        if self.transaction(g).unvoted != 0 {
            return Err(Refusal::Votes);
        }
        Ok(())
    }

    /// The refusal of the end of a claim, by commit or by rollback.
    pub(crate) fn check_settle(&self, g: Gtrid) -> Result<(), Refusal>
        ensures settle { result_err result ≡ refusal_in (as_book self.now) (Steps.Settle g) }
        ensures abandon { result_err result ≡ refusal_in (as_book self.now) (Steps.Abandon g) }
    {
        if !self.is_up {
            return Err(Refusal::ManagerDown);
        }
        if !self.is_begun(g) {
            return Err(Refusal::UnknownTransaction);
        }
        if self.is_taken_up(g) {
            return Err(Refusal::Decided);
        }
        if !self.transaction(g).is_claimed {
            return Err(Refusal::NotDecided);
        }
        Ok(())
    }

    /// Whether each participant of a transaction's row is settled since the manager came up, and
    /// there is one.
    fn waits_for_none(&self, g: Gtrid) -> bool
        ensures { result ≡ waits_for_none (as_book self.now) ((as_book self.now).row g) }
    {
        match self.rows.get(&g) {
            Some(Some(participants)) => self.are_settled_lately(participants),
            _ => false,
        }
    }

    /// Whether each of some branches is settled since the manager came up, and there is one.
    fn are_settled_lately(&self, branches: &[Branch]) -> bool
        ensures { result ≡ each_of_some (is_settled_lately_in (as_book self.now)) branches.now }
    {
        !branches.is_empty() && branches.iter().all(|b| self.branch(*b).is_settled_lately())
    }

    /// Whether a transaction's row waits for nothing more: all its branches are settled or, if it
    /// has outlived its incarnation, its participants.
    fn is_row_settled(&self, g: Gtrid) -> bool
        ensures { result ≡ row_settled_in (as_book self.now) g }
    {
        if self.is_begun(g) {
            self.transaction(g).unsettled == 0
        } else {
            self.waits_for_none(g)
        }
    }

    /// The refusal of Done.
    pub(crate) fn check_done(&self, g: Gtrid) -> Result<(), Refusal>
        ensures { result_err result ≡ refusal_in (as_book self.now) (Steps.Done g) }
    {
        if !self.is_up {
            return Err(Refusal::ManagerDown);
        }
        if !self.is_begun(g) && !self.is_outlived(g) {
            return Err(Refusal::UnknownTransaction);
        }
        if !self.has_row(g) {
            return Err(Refusal::NotDecided);
        }
        if !self.is_row_settled(g) {
            return Err(Refusal::Busy);
        }
        Ok(())
    }
}
