//! The branches that were started.

ghost use Rattle.std.specs.Prelude.{◌≡◌, IfOk};
ghost use Rattle.std.specs.List.Sorted.{IsStrictlySortedBy};
ghost use Rattle.xa_base.specs.Branch.{branch_cmp};
ghost use Rattle.xa_log.specs.KeySet.{items};
ghost use Rattle.xa_tm.specs.LedgerBook.{started_keys};
ghost use Rattle.xa_tm.specs.Calls.{book_in};

use crate::ledger::Ledger;
use crate::manager::Manager;
use std::alloc::AllocError;
use xa_base::{Branch, Memory};
use xa_log::DecisionLog;

impl Ledger {
    /// The branches that are noted as started, in the order of their identifiers.
    fn started(&self) -> Result<Vec<Branch>, AllocError>
        ensures all { IfOk result (λ list. list.items ≡ started_keys self.now.branches.entries) }
        ensures in_order { IfOk result (λ list. IsStrictlySortedBy branch_cmp list.items) }
    {
        self.branches
            .iter()
            .filter(|(_, notes)| notes.is_started)
            .map(|(b, _)| *b)
            .collect(self.alloc)
    }
}

impl<L: DecisionLog + Drop> Manager<L> {
    /// The branches whose xa_start was accepted, of all incarnations of this manager since it was
    /// made, in the order of their identifiers. The log is not asked.
    pub fn started(&self) -> Result<Vec<Branch>, Memory>
        ensures all { IfOk result (λ list. list.items ≡ items (book_in self.now).known) }
        ensures in_order { IfOk result (λ list. IsStrictlySortedBy branch_cmp list.items) }
    {
        Ok(self.ledger.started()?)
    }
}
