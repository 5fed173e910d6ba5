//! Several transactions are decided by one write of the log (XA, section 2.3, Transaction
//! Completion and Recovery).

ghost use Rattle.std.specs.Prelude.{◌≡◌, ◌≢◌, ◌<◌, ◌+◌, ◌^◌, [], length, map, Some, None, Err, IfErr, OnOk};
ghost use Rattle.std.specs.List.{AllByRecursion};
ghost use Rattle.xa_base.specs.declared.refusal.Refusal.TheVariants as Refusals;
ghost use Rattle.xa_log.specs.Content.{with_commits};
ghost use Rattle.xa_log.specs.Contract.{Changes, FitsRow};
ghost use Rattle.xa_model.specs.Facts.Distinct.{EachOnce};
ghost use Rattle.xa_model.specs.Trace.{Fault.InDecide, Happening.Decided};
ghost use Rattle.xa_tm.specs.Book.{after_all, rows_for};
ghost use Rattle.xa_tm.specs.BookAndLog.{changed_by};
ghost use Rattle.xa_tm.specs.Calls.{AsksFor, FailsBy, IsOpenIn, book_in, log_in, written_by};
ghost use Rattle.xa_tm.specs.Concluding.{Concludes};
ghost use Rattle.xa_tm.specs.InTurn.{decide_refusal, rows_added};
ghost use Rattle.xa_tm.specs.LedgerBook.{HasRoomForDecisions, IsSound, NamesOwn, decided_rows};
ghost use Rattle.xa_tm.specs.Ties.{StaysTied};

use crate::change::Change;
use crate::manager::Manager;
use std::alloc::Global;
use xa_base::{Gtrid, Outcome, Refusal};
use xa_log::{Decision, DecisionLog, LogFault};

impl<L: DecisionLog + Drop> Manager<L> {
    /// Decides these transactions, as [`decide`](Manager::decide) of each in turn. All rows are
    /// written at once: a crash, or a failure of the log, leaves all of them or none. If one is
    /// refused, none is decided.
    pub fn decide_all(
        &mut self,
        alloc: Global,
        gtrids: &[Gtrid],
        outcome: Outcome,
    ) -> Result<(), Refusal>
        requires sound { IsSound (book_in self.old) }
        requires room { (book_in self.old).rows + length gtrids.now < 2 ^ 64 }
        // A rule that refuses changes nothing.
        ensures refused { (n : Refusal) →
            decide_refusal outcome (book_in self.old) gtrids.now ≡ Some n →
            (result ≡ Err n) × (self.new ≡ self.old) }
        ensures allowed { OnOk result
            (decide_refusal outcome (book_in self.old) gtrids.now ≡ None) }
        // What the book then says.
        ensures ok { OnOk result (book_in self.new ≡
            after_all (book_in self.old) (map (λ g. Decided g outcome) gtrids.now)) }
        ensures err { decide_refusal outcome (book_in self.old) gtrids.now ≡ None →
            IfErr result (FailsBy (rows_added outcome (book_in self.old) gtrids.now)
            (InDecide (written_by outcome (book_in self.old) gtrids.now))
            (book_in self.old) (book_in self.new)) }
        ensures asked { decide_refusal outcome (book_in self.old) gtrids.now ≡ None →
            result ≡ Err Refusals.LogFault →
            written_by outcome (book_in self.old) gtrids.now ≢ [] }
        // What becomes of the log.
        ensures tied { StaysTied L.moment self.old self.new }
        ensures kept { IfErr result
            (λ n. n ≢ Refusals.LogFault → log_in self.new ≡ log_in self.old) }
        ensures without_row { written_by outcome (book_in self.old) gtrids.now ≡ [] →
            log_in self.new ≡ log_in self.old }
        ensures asks { AsksFor (changed_by (rows_added outcome (book_in self.old) gtrids.now))
            (L.moment (log_in self.old)) (L.moment (log_in self.new)) result }
    {
        self.ledger.check_decide_all(gtrids, outcome)?;
        self.conclude_all(alloc, gtrids, outcome)
    }

    /// Decides what no rule refuses to decide.
    ///
    /// All room is made before the log is asked.
    pub(super) fn conclude_all(
        &mut self,
        alloc: Global,
        gtrids: &[Gtrid],
        outcome: Outcome,
    ) -> Result<(), Refusal>
        requires sound { IsSound (book_in self.old) }
        requires room { (book_in self.old).rows + length gtrids.now < 2 ^ 64 }
        requires open { EachOnce (IsOpenIn (book_in self.old)) gtrids.now }
        ensures { Concludes L.moment outcome gtrids.now (book_in self.old) (log_in self.old)
            self.new result }
    {
        let decisions = self.ledger.prepare_decisions(alloc, gtrids, outcome)?;
        self.write_decisions(alloc, gtrids, outcome, decisions)
    }

    /// Decides these transactions, if there is room for all, by the decisions that write their
    /// rows.
    fn write_decisions(
        &mut self,
        alloc: Global,
        gtrids: &[Gtrid],
        outcome: Outcome,
        decisions: Vec<Decision>,
    ) -> Result<(), Refusal>
        requires sound { IsSound (book_in self.old) }
        requires number { (book_in self.old).rows + length gtrids.now < 2 ^ 64 }
        requires open { EachOnce (IsOpenIn (book_in self.old)) gtrids.now }
        requires room { HasRoomForDecisions gtrids.now
            (written_by outcome (book_in self.old) gtrids.now) self.old.ledger }
        requires all { decided_rows decisions.items ≡
            rows_for (book_in self.old) (written_by outcome (book_in self.old) gtrids.now) }
        requires own { AllByRecursion NamesOwn decisions.items }
        ensures { Concludes L.moment outcome gtrids.now (book_in self.old) (log_in self.old)
            self.new result }
    {
        if decisions.is_empty() {
            self.ledger.note_decisions(gtrids, outcome, decisions);
            return Ok(());
        }
        match write_rows(&mut self.log, alloc, decisions.as_slice()) {
            Ok(()) => {
                self.ledger.note_decisions(gtrids, outcome, decisions);
                Ok(())
            }
            Err(_) => {
                self.ledger.fail(Change::AddRows(decisions));
                Err(Refusal::LogFault)
            }
        }
    }
}

/// Writes the rows of these decisions: of one alone by the log's call for one.
fn write_rows<L: DecisionLog>(
    log: &mut L,
    alloc: Global,
    decisions: &[Decision],
) -> Result<(), LogFault>
    requires fits { AllByRecursion (λ d. FitsRow d.gtrid) decisions.now }
    requires own { AllByRecursion NamesOwn decisions.now }
    ensures { Changes (with_commits decisions.now) (L.moment log.old) (L.moment log.new) result }
{
    match decisions {
        [only] => {
            log.commit(only.gtrid, only.participants.as_slice())?;
        }
        several => {
            log.commit_all(alloc, several)?;
        }
    }
    Ok(())
}
