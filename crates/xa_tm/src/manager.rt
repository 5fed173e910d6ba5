//! The manager, with its log. A file for each of its steps.

ghost use Rattle.std.specs.Prelude.{◌≡◌};
ghost use Rattle.xa_tm.specs.Calls.{book_in, log_in};

mod abandon;
mod begin;
mod claim;
mod crash;
mod decide;
mod decide_all;
mod done;
mod done_all;
mod hear;
mod issue;
mod release;
mod resolve;
pub(crate) mod restart;
mod settle;
pub(crate) mod start;
mod swap;

use crate::ledger::Ledger;
use std::snapshot::Snapshot;
use xa_log::{DecisionLog, LogRows};

/// The manager of global transactions.
#[derive(Drop)]
pub struct Manager<L: Drop> {
    pub(crate) ledger: Ledger,
    pub(crate) log: L,
    /// What the log had at the start, without a byte.
    pub(crate) began: Snapshot<LogRows>,
}

impl<L: DecisionLog + Drop> Manager<L> {
    /// Whether the manager is up: not since its crash, or a failure of its log, to the next
    /// restart.
    pub fn is_up(&self) -> bool
        ensures { result ≡ (book_in self.now).up }
    {
        self.ledger.is_up()
    }

    /// The incarnation of the transactions that may be begun.
    pub fn incarnation(&self) -> u64
        ensures { result ≡ (book_in self.now).incarnation }
    {
        self.ledger.incarnation()
    }

    /// How many rows its log has: how many transactions are decided to commit and not yet done.
    pub fn row_count(&self) -> u64
        ensures { result ≡ (book_in self.now).rows }
    {
        self.ledger.row_count()
    }

    /// How many branches its log records as ended by their resource managers alone.
    pub fn record_count(&self) -> u64
        ensures { result ≡ (book_in self.now).records }
    {
        self.ledger.record_count()
    }

    /// Its log, where it ends.
    pub fn into_log(self) -> L
        ensures { result ≡ log_in self }
    {
        self.log
    }
}
