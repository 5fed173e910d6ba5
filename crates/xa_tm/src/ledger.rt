//! The manager's book, without the log.

ghost use Rattle.std.specs.Prelude.{true, false, ◌≡◌, ◌<◌, ◌-◌, ◌^◌, ◌+◌, Bool, ◌&&◌, Option, IfOk, OnOk, OnErr};
ghost use Rattle.xa_base.specs.declared.call.Call.TheVariants as Calls;
ghost use Rattle.xa_model.specs.Trace.{Happening.Begun, Happening.Claimed, Happening.Issued, Line};
ghost use Rattle.xa_tm.specs.Book.{after, is_settled_in};
ghost use Rattle.xa_tm.specs.LedgerBook.{HasBranch, HasKept, HasTransaction, as_book, known_in, notes_at};
ghost use Rattle.xa_tm.specs.LedgerBook.{numbered_by, transaction_at};

mod compare;
mod crash;
mod decide;
mod decide_all;
mod done_all;
mod hear;
mod issue;
mod load;
mod owed;
mod release;
mod resolve;
mod resolve_open;
mod restart;
pub(crate) mod room;
mod rules;
mod started_branches;

use crate::change::Change;
use crate::ledger::room::{reserve_branch, reserve_transaction, set_branch, set_transaction};
use crate::notes::{BranchNotes, Transaction};
use std::alloc::{AllocError, Global};
use std::collections::BTreeMap;
use xa_base::{Branch, Gtrid, Page};

/// The manager's book: all that it has to remember, beside the log.
#[derive(Drop)]
pub(crate) struct Ledger {
    threads: u32,
    rms: u32,
    is_up: bool,
    incarnation: u64,
    /// How many transactions were begun in this incarnation.
    sequence: u64,
    /// How many were begun in all.
    begins: u64,
    /// How many restarts have failed since the manager was up.
    failed_restarts: u64,
    transactions: BTreeMap<Gtrid, Transaction>,
    branches: BTreeMap<Branch, BranchNotes>,
    /// The last page that each resource manager listed on the first thread's line, since that
    /// broke.
    pages: BTreeMap<u32, Page>,
    /// The rows of the log, each with the branches whose xa_commit it waits for. At `None` there is
    /// room for a row alone.
    rows: BTreeMap<Gtrid, Option<Vec<Branch>>>,
    /// How many rows the log has.
    row_count: u64,
    /// How many branches are recorded as heuristic.
    records: u64,
    doubt: Change,
    alloc: Global,
}

impl Ledger {
    /// Whether the manager is up.
    pub(crate) fn is_up(&self) -> bool
        ensures { result ≡ self.now.is_up }
    {
        self.is_up
    }

    /// The incarnation of the transactions that may be begun.
    pub(crate) fn incarnation(&self) -> u64
        ensures { result ≡ self.now.incarnation }
    {
        self.incarnation
    }

    /// How many rows the log has.
    pub(crate) fn row_count(&self) -> u64
        ensures { result ≡ self.now.row_count }
    {
        self.row_count
    }

    /// How many branches are recorded as heuristic.
    pub(crate) fn record_count(&self) -> u64
        ensures { result ≡ self.now.records }
    {
        self.records
    }

    /// The allocator of its room.
    pub(crate) fn alloc(&self) -> Global {
        self.alloc
    }

    /// The same in another incarnation.
    pub(crate) fn in_incarnation(self, incarnation: u64) -> Ledger
        ensures { result ≡ record self { incarnation = incarnation } }
    {
        Ledger {
            incarnation,
            ..self
        }
    }

    /// What is noted of a transaction.
    pub(crate) fn transaction(&self, g: Gtrid) -> Transaction
        ensures { result ≡ transaction_at self.now.transactions g }
    {
        self.transactions
            .get(&g)
            .copied()
            .unwrap_or(Transaction::NEW)
    }

    /// What is noted of a branch.
    pub(crate) fn branch(&self, b: Branch) -> BranchNotes
        ensures { result ≡ notes_at self.now.branches b }
    {
        self.branches.get(&b).copied().unwrap_or(BranchNotes::NEW)
    }

    /// Whether a number was given in this incarnation, which ends as the manager falls.
    fn is_numbered(&self, g: Gtrid) -> bool
        ensures { result ≡ numbered_by self.now.is_up self.now.incarnation self.now.sequence g }
    {
        self.is_up
            && g.incarnation == self.incarnation
            && 1 <= g.sequence
            && g.sequence <= self.sequence
    }

    /// Whether a transaction was begun in this incarnation, and is not released.
    pub(crate) fn is_begun(&self, g: Gtrid) -> bool
        ensures { result ≡ ((as_book self.now).transaction g).begun }
    {
        self.is_numbered(g) && self.transaction(g).is_begun
    }

    /// Begins a transaction.
    pub(crate) fn begin(&mut self) -> Result<Gtrid, AllocError>
        requires up { self.old.is_up ≡ Bool.true }
        requires sequence { self.old.sequence < 2 ^ 64 - 1 }
        requires begins { self.old.begins < 2 ^ 64 - 1 }
        ensures value { IfOk result (λ g. g ≡
            record { incarnation = self.old.incarnation; sequence = self.old.sequence + 1 }) }
        ensures ok { IfOk result (λ g. as_book self.new ≡ after (as_book self.old) (Begun g)) }
        ensures err { OnErr result (as_book self.new ≡ as_book self.old) }
    {
        let g = Gtrid {
            incarnation: self.incarnation,
            sequence: self.sequence + 1,
        };
        reserve_transaction(&mut self.transactions, g)?;
        let transaction = self.transaction(g);
        // No claim of an earlier incarnation's is left, since there the number wasn't begun.
        set_transaction(
            &mut self.transactions,
            g,
            Transaction {
                is_begun: true,
                is_claimed: false,
                ..transaction
            },
        );
        self.sequence += 1;
        self.begins += 1;
        Ok(g)
    }

    /// Notes a claim.
    pub(crate) fn claim(&mut self, g: Gtrid) -> Result<(), AllocError>
        requires { ((as_book self.old).transaction g).begun ≡ Bool.true }
        ensures ok { OnOk result (as_book self.new ≡ after (as_book self.old) (Claimed g)) }
        ensures err { OnErr result (as_book self.new ≡ as_book self.old) }
    {
        reserve_transaction(&mut self.transactions, g)?;
        let transaction = self.transaction(g);
        set_transaction(
            &mut self.transactions,
            g,
            Transaction {
                is_claimed: true,
                ..transaction
            },
        );
        Ok(())
    }

    /// Notes that a transaction is its resource manager's to end.
    pub(crate) fn hand_over(&mut self, g: Gtrid) -> Result<(), AllocError>
        ensures ok { OnOk result ((l : Line) (b : _) → b.gtrid ≡ g →
            as_book self.new ≡ after (as_book self.old) (Issued l (Calls.Commit b true))) }
        ensures err { OnErr result (as_book self.new ≡ as_book self.old) }
    {
        reserve_transaction(&mut self.transactions, g)?;
        let transaction = self.transaction(g);
        set_transaction(
            &mut self.transactions,
            g,
            Transaction {
                is_handed_over: true,
                ..transaction
            },
        );
        Ok(())
    }

    /// Whether a branch is settled: recorded, or by an answer of its own.
    pub(crate) fn is_settled(&self, b: Branch) -> bool
        ensures { result ≡ is_settled_in (as_book self.now) b }
    {
        self.branch(b).is_settled()
    }

    /// Makes room for what is noted of a transaction.
    pub(crate) fn reserve_transaction(&mut self, g: Gtrid) -> Result<(), AllocError>
        ensures others { self.new ≡ record self.old { transactions = self.new.transactions } }
        ensures same { (q : _) →
            transaction_at self.new.transactions q ≡ transaction_at self.old.transactions q }
        ensures room { OnOk result (HasTransaction self.new g) }
        ensures kept { HasKept self.old.transactions self.new.transactions }
    {
        reserve_transaction(&mut self.transactions, g)
    }

    /// Makes room for a branch and its transaction.
    pub(crate) fn reserve(&mut self, b: Branch) -> Result<(), AllocError>
        ensures book { as_book self.new ≡ as_book self.old }
        ensures others { self.new ≡
            record self.old { transactions = self.new.transactions; branches = self.new.branches } }
        ensures transactions { (q : _) →
            transaction_at self.new.transactions q ≡ transaction_at self.old.transactions q }
        ensures branches { (q : _) → notes_at self.new.branches q ≡ notes_at self.old.branches q }
        ensures known { known_in self.new.branches ≡ known_in self.old.branches }
        ensures room { OnOk result (HasTransaction self.new b.gtrid × HasBranch self.new b) }
    {
        reserve_transaction(&mut self.transactions, b.gtrid)?;
        reserve_branch(&mut self.branches, b)
    }

    /// Notes that the xa_start of a branch was accepted.
    pub(crate) fn start(&mut self, b: Branch) -> Result<(), AllocError>
        requires branches { (transaction_at self.old.transactions b.gtrid).branches < 2 ^ 64 - 1 }
        requires unvoted { (transaction_at self.old.transactions b.gtrid).unvoted < 2 ^ 64 - 1 }
        requires unsettled { (transaction_at self.old.transactions b.gtrid).unsettled < 2 ^ 64 - 1 }
        ensures start { OnOk result ((l : Line) →
            as_book self.new ≡ after (as_book self.old) (Issued l (Calls.Start b false))) }
        ensures join { OnOk result ((l : Line) →
            as_book self.new ≡ after (as_book self.old) (Issued l (Calls.Start b true))) }
        ensures err { OnErr result (as_book self.new ≡ as_book self.old) }
    {
        let notes = self.branch(b);
        let transaction = self.transaction(b.gtrid);
        let is_settled = self.is_settled(b);
        self.reserve(b)?;
        set_branch(
            &mut self.branches,
            b,
            BranchNotes {
                is_started: true,
                is_on_line: true,
                ..notes
            },
        );
        set_transaction(
            &mut self.transactions,
            b.gtrid,
            transaction.with_branch(notes.has_voted(), is_settled),
        );
        Ok(())
    }
}
