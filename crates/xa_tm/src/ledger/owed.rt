//! What rows of earlier incarnations owe.

ghost use Rattle.std.specs.Prelude.{◌≡◌, ◌||◌, filter, IfOk, OnOk};
ghost use Rattle.std.specs.BTreeSet.{contains};
ghost use Rattle.std.specs.List.{list_any};
ghost use Rattle.std.specs.Ordering.{eq_by_cmp};
ghost use Rattle.xa_base.specs.Branch.{branch_cmp};
ghost use Rattle.xa_tm.specs.LedgerBook.{as_book};
ghost use Rattle.xa_tm.specs.Owed.{AreOwed, is_own_at};

use crate::ledger::Ledger;
use std::alloc::AllocError;
use std::collections::BTreeSet;
use xa_base::{Branch, Gtrid, Xid};

/// Adds those of these branches that are a transaction's own, and at a resource manager.
fn add_own(
    owed: &mut BTreeSet<Branch>,
    g: Gtrid,
    rm: u32,
    waiting: &[Branch],
) -> Result<(), AllocError>
    ensures { OnOk result ((q : _) → contains branch_cmp owed.new q ≡
        (contains branch_cmp owed.old q
        || list_any (eq_by_cmp branch_cmp q) (filter (is_own_at g rm) waiting.now))) }
{
    owed.extend(
        waiting
            .iter()
            .copied()
            .filter(|b| b.gtrid == g && b.rm == rm),
    )
}

impl Ledger {
    /// The identifiers of the branches at a resource manager that rows of earlier incarnations wait
    /// for, in their order.
    pub(crate) fn owed(&self, rm: u32) -> Result<Vec<Xid>, AllocError>
        ensures { IfOk result (λ list. AreOwed (as_book self.now) rm list.items) }
    {
        let mut owed = BTreeSet::new(self.alloc);
        for (g, row) in self.rows.iter() {
            if g.incarnation < self.incarnation {
                if let Some(waiting) = row {
                    add_own(&mut owed, *g, rm, waiting.as_slice())?;
                }
            }
        }
        owed.iter().map(|b| b.xid()).collect(self.alloc)
    }
}
