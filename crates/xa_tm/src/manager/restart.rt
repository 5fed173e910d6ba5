//! The manager comes up again over its log.

ghost use Rattle.std.specs.Prelude.{◌⊎◌, ◌≡◌, ◌≢◌, ◌≤◌, Bool, IsSomeAnd, Err, IfOk, IfErr, OnOk, OnErr};
ghost use Rattle.xa_model.specs.Trace.{Happening.Restarted, Fault.InRestart};
ghost use Rattle.xa_base.specs.declared.refusal.Refusal.TheVariants as Refusals;
ghost use Rattle.xa_log.specs.Content.{with_bump, last_number};
ghost use Rattle.xa_tm.specs.Book.{Doubt.NoDoubt, after};
ghost use Rattle.xa_log.specs.Contract.{LeavesAlso, Makes, MayMake, faults_after};
ghost use Rattle.xa_tm.specs.BookAndLog.{FoundIn, IsFound, IsReadFrom};
ghost use Rattle.xa_tm.specs.LedgerBook.{IsSound};
ghost use Rattle.xa_tm.specs.Calls.{FailsBy, book_in, log_in};
ghost use Rattle.xa_tm.specs.LogUse.{AsksToRaise};
ghost use Rattle.xa_tm.specs.Ties.{StaysTied};

use crate::manager::Manager;
use xa_base::Refusal;
use xa_log::{DecisionLog, LogFault};

/// What a restart of the manager finds: the incarnation that it gives, and how many rows of either
/// kind its log has.
#[derive(Clone, Copy, Debug, PartialEq, Eq)]
pub struct Found {
    pub incarnation: u64,
    pub decisions: usize,
    pub heuristics: usize,
}

impl<L: DecisionLog + Drop> Manager<L> {
    /// Comes up again: the log's rows tell whether the change in doubt was made, and its
    /// incarnation is raised.
    ///
    /// The rows are read before the incarnation is raised, and all room is made before the log is
    /// asked for either.
    pub fn restart(&mut self) -> Result<Found, Refusal>
        requires { IsSound (book_in self.old) }
        // It comes up only if it is down.
        ensures busy { (book_in self.old).up ≡ Bool.true → (result ≡ Err Refusals.Busy) ×
            (self.new ≡ self.old) }
        ensures down { OnOk result ((book_in self.old).up ≡ Bool.false) }
        // What the book then says.
        ensures ok { IfOk result (λ found. book_in self.new ≡
            after (book_in self.old)
            (Restarted found.incarnation found.decisions found.heuristics)) }
        ensures err { (book_in self.old).up ≡ Bool.false →
            IfErr result (FailsBy NoDoubt InRestart (book_in self.old) (book_in self.new)) }
        // What it finds.
        ensures most { IfOk result (λ found. found.incarnation ≤ last_number) }
        ensures found { IfOk result (λ found.
            IsFound (book_in self.old) found.incarnation found.decisions found.heuristics) }
        ensures read { IfOk result (λ found. IsReadFrom L.DecisionLog found.incarnation
            found.decisions found.heuristics (log_in self.old) (log_in self.new)) }
        // What becomes of the log, which a fault shuts, leaves, or raises the incarnation of.
        ensures tied { StaysTied L.moment self.old self.new }
        ensures kept { IfErr result
            (λ n. n ≢ Refusals.LogFault → log_in self.new ≡ log_in self.old) }
        ensures log { AsksToRaise (book_in self.old) (L.moment (log_in self.old))
            (L.moment (log_in self.new)) result }
    {
        if self.ledger.is_up() {
            return Err(Refusal::Busy);
        }
        self.ledger.prepare_restart()?;
        let Ok(found) = find_and_raise(&mut self.log) else {
            self.ledger.fail_restart();
            return Err(Refusal::LogFault);
        };
        if self.ledger.try_restart(
            found.incarnation,
            found.decisions as u64,
            found.heuristics as u64,
        ) {
            Ok(found)
        } else {
            Err(Refusal::LogFault)
        }
    }
}

/// Finds the numbers of rows of a log, and raises its incarnation.
fn find_and_raise<L: DecisionLog>(log: &mut L) -> Result<Found, LogFault>
    // What it finds.
    ensures found { (L.moment log.old).is_in_order → (L.moment log.new).is_honest →
        IfOk result (λ found.
        IsSomeAnd (L.moment log.old).content
        (FoundIn found.incarnation found.decisions found.heuristics)) }
    ensures read { IfOk result (λ found. IsReadFrom L.DecisionLog found.incarnation
        found.decisions found.heuristics log.old log.new) }
    ensures most { IfOk result (λ found. found.incarnation ≤ last_number) }
    // What becomes of the log.
    ensures ok { (L.moment log.old).is_in_order → (L.moment log.new).is_honest →
        OnOk result (Makes with_bump (L.moment log.old).content (L.moment log.new).content) }
    ensures err { (L.moment log.old).is_in_order → (L.moment log.new).is_honest →
        OnErr result (MayMake with_bump (L.moment log.old).content (L.moment log.new).content) }
    ensures crash { (L.moment log.old).is_in_order → (L.moment log.new).is_honest →
        LeavesAlso with_bump (L.moment log.old).content (L.moment log.old).may_leave
        (L.moment log.new).may_leave }
    ensures order { (L.moment log.old).is_in_order → (L.moment log.new).is_in_order }
    ensures honest { (L.moment log.new).is_honest → (L.moment log.old).is_honest }
    ensures faults { (L.moment log.new).fault_count ≡
        faults_after result (L.moment log.old).fault_count }
{
    match log.rows() {
        Err(fault) => Err(fault),
        Ok(rows) => match log.bump() {
            Err(fault) => Err(fault),
            Ok(incarnation) => Ok(Found {
                incarnation,
                decisions: rows.decisions.len(),
                heuristics: rows.heuristics.len(),
            }),
        },
    }
}
