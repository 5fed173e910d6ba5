//! The manager's log is taken out while the manager is down, and one with the same rows is put in.

ghost use Rattle.std.specs.Prelude.{◌≡◌, ◌≢◌, ◌⊎◌, Bool, Some, None, IfSome, IsSome, IsSomeAnd, Err, IfErr, OnOk, OnErr};
ghost use Rattle.xa_log.specs.Content.{unchanged};
ghost use Rattle.xa_log.specs.Contract.{Makes};
ghost use Rattle.xa_tm.specs.Begins.{records_begun, rows_begun};
ghost use Rattle.xa_tm.specs.LedgerBook.{as_book};
ghost use Rattle.xa_tm.specs.Calls.{book_in, log_in};
ghost use Rattle.xa_tm.specs.Slots.{LooksAt, TakesIn, last_out, log_held, slot_moment};
ghost use Rattle.xa_tm.specs.BookAndLog.{MayHold};
ghost use Rattle.xa_tm.specs.Swapping.{GivesBack};

use crate::ledger::Ledger;
use crate::manager::Manager;
use crate::slot::Slot;
use crate::swap_fault::SwapFault;
use xa_log::{DecisionLog, LogFault};

impl<L: Drop> Manager<L> {
    /// The same manager, whose log may be taken out.
    pub fn into_slot(self) -> Manager<Slot<L>>
        ensures log { log_held (log_in result) ≡ Some (log_in self) }
        ensures book { book_in result ≡ book_in self }
        ensures rows { rows_begun result ≡ rows_begun self }
        ensures records { records_begun result ≡ records_begun self }
    {
        Manager {
            ledger: self.ledger,
            log: Slot::new(self.log),
            began: self.began,
        }
    }
}

impl<L: DecisionLog + Drop> Manager<Slot<L>> {
    /// Takes the log out, if the manager is down and holds one. Until another is put in, a restart
    /// is refused.
    pub fn take_log(&mut self) -> Option<L>
        ensures up { (book_in self.old).up ≡ Bool.true → (result ≡ None) × (self.new ≡ self.old) }
        ensures empty { log_held (log_in self.old) ≡ None → (result ≡ None) ×
            (self.new ≡ self.old) }
        ensures taken { (book_in self.old).up ≡ Bool.false → result ≡ log_held (log_in self.old) }
        ensures out { (book_in self.old).up ≡ Bool.false → log_held (log_in self.new) ≡ None }
        ensures was { (log : L) → result ≡ Some log → last_out (log_in self.new) ≡ log }
        ensures book { book_in self.new ≡ book_in self.old }
    {
        if self.ledger.is_up() {
            return None;
        }
        self.log.take()
    }

    /// Puts a log in, if the manager is down and its log is out. Its rows and records are read:
    /// they are those that the manager's log had before the change in doubt, or with it. A fault
    /// gives the log back, and comes in this order:
    ///
    /// - [`SwapFault::Up`]: the manager is up or holds a log;
    /// - [`SwapFault::Memory`]: a request for memory was refused;
    /// - [`SwapFault::Log`]: the log failed for another cause;
    /// - [`SwapFault::OtherRows`]: its rows and records are others.
    pub fn give_log(&mut self, mut log: L) -> Result<(), (SwapFault, L)>
        // If no log can be put in, the one handed in isn't looked at.
        ensures up { (book_in self.old).up ≡ Bool.true → (result ≡ Err (SwapFault.Up, log)) ×
            (self.new ≡ self.old) }
        ensures held { IsSome (log_held (log_in self.old)) → (result ≡ Err (SwapFault.Up, log)) ×
            (self.new ≡ self.old) }
        ensures only_up { IfErr result (λ e. e.0 ≡ SwapFault.Up →
            ((book_in self.old).up ≡ Bool.true) ⊎ IsSome (log_held (log_in self.old))) }
        // A fault changes nothing but the log that comes back.
        ensures err { OnErr result (self.new ≡ self.old) }
        ensures back { IfErr result (λ e. GivesBack L.DecisionLog
            (MayHold (book_in self.old)) log e.0 e.1) }
        // The log is in.
        ensures ok { OnOk result (TakesIn L.DecisionLog log (log_held (log_in self.new))) }
        ensures may_hold { OnOk result ((L.moment log).is_in_order →
            (slot_moment L.moment (log_in self.new)).is_honest →
            IsSomeAnd (slot_moment L.moment (log_in self.new)).content
            (MayHold (book_in self.new))) }
        ensures book { book_in self.new ≡ book_in self.old }
    {
        if self.ledger.is_up() || self.log.is_held() {
            return Err((SwapFault::Up, log));
        }
        match swap_fault(&self.ledger, &mut log) {
            Some(fault) => Err((fault, log)),
            None => {
                self.log.put(log);
                Ok(())
            }
        }
    }
}

/// The fault of a log that can't be put in, by its rows; none if it can.
fn swap_fault<L: DecisionLog>(ledger: &Ledger, log: &mut L) -> Option<SwapFault>
    // Without a fault the book may hold what was read.
    ensures none { result ≡ None → (L.moment log.old).is_in_order → (L.moment log.new).is_honest →
        IsSomeAnd (L.moment log.new).content (MayHold (as_book ledger.now)) }
    ensures same { result ≡ None → (L.moment log.old).is_in_order → (L.moment log.new).is_honest →
        Makes unchanged (L.moment log.old).content (L.moment log.new).content }
    // The log is only read.
    ensures looks { LooksAt (L.moment log.old) (L.moment log.new) }
    ensures not_up { result ≢ Some SwapFault.Up }
    ensures some { IfSome result (λ fault. GivesBack L.DecisionLog
        (MayHold (as_book ledger.now)) log.old fault log.new) }
    ensures ok { result ≡ None → (L.moment log.new).fault_count ≡ (L.moment log.old).fault_count }
{
    match log.rows() {
        Err(LogFault::Memory) => Some(SwapFault::Memory),
        Err(_) => Some(SwapFault::Log),
        Ok(rows) => match ledger.may_hold(&rows) {
            Err(_) => Some(SwapFault::Memory),
            Ok(true) => None,
            Ok(false) => Some(SwapFault::OtherRows),
        },
    }
}
