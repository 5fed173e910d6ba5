//! The rows of several transactions are taken away by one write of the log, once none waits for
//! anything more.

ghost use Rattle.std.specs.Prelude.{◌≡◌, ◌≢◌, [], ◌∷◌, map, true, is_some, Bool, Some, None, Err, IfErr, OnOk};
ghost use Rattle.std.specs.List.{AllByRecursion};
ghost use Rattle.xa_base.specs.declared.refusal.Refusal.TheVariants as Refusals;
ghost use Rattle.xa_log.specs.Content.{without_decisions};
ghost use Rattle.xa_log.specs.Contract.{Changes, FitsRow};
ghost use Rattle.xa_model.specs.Facts.Distinct.{EachOnce};
ghost use Rattle.xa_model.specs.Trace.{Fault.InDone, Happening.Done, Happening.Failed};
ghost use Rattle.xa_tm.specs.Book.{Doubt.Drops, after_all, book_after};
ghost use Rattle.xa_tm.specs.BookAndLog.{changed_by};
ghost use Rattle.xa_tm.specs.Calls.{AsksFor, FailsBy, book_in, log_in};
ghost use Rattle.xa_tm.specs.InTurn.{done_refusal};
ghost use Rattle.xa_tm.specs.LedgerBook.{IsSound};
ghost use Rattle.xa_tm.specs.Ties.{StaysTied};

use crate::change::Change;
use crate::manager::Manager;
use xa_base::{Gtrid, Refusal};
use xa_log::{DecisionLog, LogFault};

impl<L: DecisionLog + Drop> Manager<L> {
    /// Takes the rows of these transactions away, as [`done`](Manager::done) of each in turn. All
    /// go at once: a crash, or a failure of the log, leaves all of them or none. If one is refused,
    /// none goes.
    pub fn done_all(&mut self, gtrids: &[Gtrid]) -> Result<(), Refusal>
        requires { IsSound (book_in self.old) }
        // A rule that refuses changes nothing.
        ensures refused { (n : Refusal) →
            done_refusal (book_in self.old) gtrids.now ≡ Some n →
            (result ≡ Err n) × (self.new ≡ self.old) }
        ensures allowed { OnOk result (done_refusal (book_in self.old) gtrids.now ≡ None) }
        // What the book then says.
        ensures ok { OnOk result (book_in self.new ≡
            after_all (book_in self.old) (map (λ g. Done g) gtrids.now)) }
        ensures err { done_refusal (book_in self.old) gtrids.now ≡ None →
            IfErr result (FailsBy (Drops gtrids.now) (InDone gtrids.now)
            (book_in self.old) (book_in self.new)) }
        ensures asked { result ≡ Err Refusals.LogFault → gtrids.now ≢ [] }
        // What becomes of the log.
        ensures tied { StaysTied L.moment self.old self.new }
        ensures kept { IfErr result
            (λ n. n ≢ Refusals.LogFault → log_in self.new ≡ log_in self.old) }
        ensures without_row { gtrids.now ≡ [] → log_in self.new ≡ log_in self.old }
        ensures asks { AsksFor (changed_by (Drops gtrids.now))
            (L.moment (log_in self.old)) (L.moment (log_in self.new)) result }
    {
        self.ledger.check_done_all(gtrids)?;
        self.conclude_done(gtrids)
    }

    /// Takes the rows of these transactions away, which no rule refuses.
    fn conclude_done(&mut self, gtrids: &[Gtrid]) -> Result<(), Refusal>
        requires sound { IsSound (book_in self.old) }
        requires may { done_refusal (book_in self.old) gtrids.now ≡ None }
        // What the book then says.
        ensures ok { OnOk result (book_in self.new ≡
            after_all (book_in self.old) (map (λ g. Done g) gtrids.now)) }
        ensures err { IfErr result (FailsBy (Drops gtrids.now) (InDone gtrids.now)
            (book_in self.old) (book_in self.new)) }
        ensures asked { result ≡ Err Refusals.LogFault → gtrids.now ≢ [] }
        // What becomes of the log.
        ensures tied { StaysTied L.moment self.old self.new }
        ensures kept { IfErr result
            (λ n. n ≢ Refusals.LogFault → log_in self.new ≡ log_in self.old) }
        ensures without_row { gtrids.now ≡ [] → log_in self.new ≡ log_in self.old }
        ensures asks { AsksFor (changed_by (Drops gtrids.now))
            (L.moment (log_in self.old)) (L.moment (log_in self.new)) result }
    {
        match gtrids {
            [] => Ok(()),
            [first, others @ ..] => match others.iter().copied().collect(self.ledger.alloc()) {
                Err(_) => Err(Refusal::Memory),
                Ok(others) => self.take_rows(gtrids, *first, others),
            },
        }
    }

    /// Takes the rows of these transactions away: of a first one and of others. All room is made.
    pub(super) fn take_rows(
        &mut self,
        gtrids: &[Gtrid],
        first: Gtrid,
        others: Vec<Gtrid>,
    ) -> Result<(), Refusal>
        requires sound { IsSound (book_in self.old) }
        requires up { (book_in self.old).up ≡ Bool.true }
        requires rows { EachOnce (λ g. is_some ((book_in self.old).row g) ≡ true) gtrids.now }
        requires all { gtrids.now ≡ first ∷ others.items }
        // What the book then says.
        ensures ok { OnOk result (book_in self.new ≡
            after_all (book_in self.old) (map (λ g. Done g) gtrids.now)) }
        ensures err { IfErr result (λ n. (n ≡ Refusals.LogFault) × (book_in self.new ≡
            book_after (book_in self.old) (Drops gtrids.now) (Failed (InDone gtrids.now)))) }
        // What becomes of the log.
        ensures tied { StaysTied L.moment self.old self.new }
        ensures asks { AsksFor (changed_by (Drops gtrids.now))
            (L.moment (log_in self.old)) (L.moment (log_in self.new)) result }
    {
        match drop_rows(&mut self.log, gtrids) {
            Ok(()) => {
                self.ledger.done_all(gtrids);
                Ok(())
            }
            Err(_) => {
                self.ledger.fail(Change::DropRows(first, others));
                Err(Refusal::LogFault)
            }
        }
    }
}

/// Takes the rows of these transactions away: of one alone by the log's call for one.
fn drop_rows<L: DecisionLog>(log: &mut L, gtrids: &[Gtrid]) -> Result<(), LogFault>
    requires { AllByRecursion FitsRow gtrids.now }
    ensures { Changes (without_decisions gtrids.now) (L.moment log.old) (L.moment log.new) result }
{
    match gtrids {
        [only] => {
            log.done(*only)?;
            Ok(())
        }
        several => log.done_all(several),
    }
}
