//! What a decision, and the end of its row, make of the manager's book.

ghost use Rattle.std.specs.Prelude.{◌≡◌, ◌<◌, ◌-◌, ◌^◌, ◌+◌, Bool, ◌&&◌, Some, None, IsSome, IfOk, OnOk, OnErr};
ghost use Rattle.std.specs.List.{AllByRecursion};
ghost use Rattle.xa_model.specs.Trace.{Happening.Decided, Happening.Done};
ghost use Rattle.xa_tm.specs.Book.{after, transaction_after, voted_yes};
ghost use Rattle.xa_tm.specs.Outcomes.{is_commit};
ghost use Rattle.xa_tm.specs.LedgerBook.{HasKept, HasTransaction, as_book, row_at, transaction_at, waiting_of};

use crate::ledger::Ledger;
use crate::ledger::room::{set_row, set_transaction};
use std::alloc::AllocError;
use xa_base::{Branch, Gtrid, Outcome};

impl Ledger {
    /// Notes a decision, except for the row that it writes.
    pub(crate) fn decided(&mut self, g: Gtrid, outcome: Outcome)
        requires room { HasTransaction self.old g }
        requires undecided { (transaction_at self.old.transactions g).outcome ≡ None }
        ensures others { self.new ≡ record self.old { transactions = self.new.transactions } }
        ensures kept { HasKept self.old.transactions self.new.transactions }
        ensures transactions { as_book self.new ≡ record (as_book self.old) {
          transaction = λ q. transaction_after (as_book self.old) (Decided g outcome) q
              ((as_book self.old).transaction q);
        } }
    {
        let transaction = self.transaction(g);
        set_transaction(&mut self.transactions, g, transaction.decided(outcome));
    }

    /// Decides a transaction if no row is written.
    pub(crate) fn decide(&mut self, g: Gtrid, outcome: Outcome) -> Result<(), AllocError>
        requires undecided { (transaction_at self.old.transactions g).outcome ≡ None }
        requires no_row { (is_commit (Some outcome)
            && (transaction_at self.old.transactions g).has_yes) ≡ Bool.false }
        ensures ok { OnOk result (as_book self.new ≡ after (as_book self.old) (Decided g outcome)) }
        ensures err { OnErr result (as_book self.new ≡ as_book self.old) }
    {
        self.reserve_transaction(g)?;
        self.decided(g, outcome);
        Ok(())
    }

    /// The row of a transaction leaves.
    pub(crate) fn done(&mut self, g: Gtrid)
        requires { IsSome (row_at self.old.rows g) }
        ensures { as_book self.new ≡ after (as_book self.old) (Done g) }
    {
        set_row(&mut self.rows, g, None);
        // The row is counted, so that this is one less.
        self.row_count = self.row_count.saturating_sub(1);
    }

    /// The branches of a transaction that voted XA_OK, in the order of their identifiers. Only its
    /// own are looked at.
    pub(crate) fn voters(&self, g: Gtrid) -> Result<Vec<Branch>, AllocError>
        requires { g.sequence < 2 ^ 64 - 1 }
        ensures all { IfOk result (λ list. waiting_of list ≡ voted_yes (as_book self.now) g) }
        ensures own { IfOk result (λ list. AllByRecursion (λ b. b.gtrid ≡ g) list.items) }
    {
        let first = Branch {
            gtrid: g,
            thread: 0,
            rm: 0,
        };
        let end = Branch {
            gtrid: Gtrid {
                sequence: g.sequence + 1,
                ..g
            },
            ..first
        };
        self.branches
            .range(first..end)
            .filter(|(_, notes)| notes.is_started && notes.said_yes)
            .map(|(b, _)| *b)
            .collect(self.alloc)
    }
}
