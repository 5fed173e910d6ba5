//! Whether the rows of a log that is put in are those of the book.

ghost use Rattle.std.specs.Prelude.{◌≡◌, true, not, ◌&&◌, ◌||◌, ◌+◌, ◌∷◌, IfOk, nat_eq};
ghost use Rattle.std.specs.List.{list_all};
ghost use Rattle.xa_model.specs.Facts.{has_gtrid};
ghost use Rattle.xa_tm.specs.LedgerBook.{gtrids_of, notes_at};
ghost use Rattle.xa_tm.specs.Swaps.{decided_agrees, dropped_agrees, each_once, keeps_row, lacks_row};
ghost use Rattle.xa_tm.specs.Swaps.{agrees, change_agrees, counts_agree, end_agrees, end_agrees_with, ends_agree};
ghost use Rattle.xa_tm.specs.Swaps.{are_among, is_branch_among, is_how, kept_row, names_just, records_agree_with, same_branches, row_agrees, row_agrees_with};
ghost use Rattle.xa_tm.specs.Swaps.{ReadsOf, ends_agree_at, rows_agree, rows_agree_at, rows_agree_with, same_how, same_row};

use crate::change::Change;
use crate::ledger::Ledger;
use crate::notes::BranchNotes;
use std::alloc::AllocError;
use std::collections::BTreeMap;
use xa_base::{Branch, Gtrid, How};
use xa_log::{Decision, LogRows};

impl Ledger {
    /// Whether a transaction has a row that names exactly these branches.
    fn names_just(&self, g: Gtrid, branches: &[Branch]) -> bool
        ensures { result ≡ names_just (kept_row self.now.rows g) branches.now }
    {
        match self.rows.get(&g) {
            Some(Some(own)) => same_branches(own.as_slice(), branches),
            _ => false,
        }
    }

    /// Whether a transaction has the same row here and there, or none.
    fn has_same_row(&self, read: &Ledger, g: Gtrid) -> bool
        ensures { result ≡ same_row (kept_row self.now.rows g) (kept_row read.now.rows g) }
    {
        match read.rows.get(&g) {
            Some(Some(branches)) => self.names_just(g, branches.as_slice()),
            _ => !self.has_row(g),
        }
    }

    /// Whether a transaction has the row there that the first of these decisions on it makes; if
    /// there is no such decision, whether it has the same row here and there.
    fn is_row_decided(&self, read: &Ledger, decisions: &[Decision], g: Gtrid) -> bool
        ensures { result ≡ decided_agrees decisions.now (kept_row read.now.rows g) g
            (same_row (kept_row self.now.rows g) (kept_row read.now.rows g)) }
    {
        for decision in decisions {
            if decision.gtrid == g {
                return read.names_just(g, decision.participants.as_slice());
            }
        }
        self.has_same_row(read, g)
    }

    /// Whether the row of a transaction is gone there, if it is one of these; if it isn't, whether
    /// it has the same row here and there.
    fn is_row_dropped(&self, read: &Ledger, first: Gtrid, others: &[Gtrid], g: Gtrid) -> bool
        ensures { result ≡ dropped_agrees (first ∷ others.now) (kept_row read.now.rows g) g
            (same_row (kept_row self.now.rows g) (kept_row read.now.rows g)) }
    {
        if first == g || is_named(others, g) {
            !read.has_row(g)
        } else {
            self.has_same_row(read, g)
        }
    }

    /// The same, with the change in doubt.
    fn has_changed_row(&self, read: &Ledger, g: Gtrid) -> bool
        ensures { result ≡ row_agrees_with self.now.doubt self.now.rows read.now.rows g }
    {
        match &self.doubt {
            Change::AddRows(decisions) => self.is_row_decided(read, decisions.as_slice(), g),
            Change::DropRows(h, others) => self.is_row_dropped(read, *h, others.as_slice(), g),
            _ => self.has_same_row(read, g),
        }
    }

    /// Whether the row of a transaction is as read, with the change in doubt or without it.
    fn row_agrees(&self, read: &Ledger, g: Gtrid, is_made: bool) -> bool
        ensures { result ≡ row_agrees is_made self.now read.now g }
    {
        if is_made {
            self.has_changed_row(read, g)
        } else {
            self.has_same_row(read, g)
        }
    }

    /// Whether a branch is recorded the same here and there, or not at all.
    fn has_same_end(&self, read: &Ledger, b: Branch) -> bool
        ensures { result ≡ same_how (notes_at self.now.branches b).recorded
            (notes_at read.now.branches b).recorded }
    {
        match read.branch(b).recorded {
            Some(how) => is_how(self.branch(b).recorded, how),
            None => self.branch(b).recorded.is_none(),
        }
    }

    /// The same, with the change in doubt.
    fn has_changed_end(&self, read: &Ledger, b: Branch) -> bool
        ensures { result ≡ end_agrees_with self.now.doubt (notes_at self.now.branches b).recorded
            (notes_at read.now.branches b).recorded b }
    {
        match &self.doubt {
            Change::AddRecord(c, how) if *c == b => {
                is_how(read.branch(b).recorded, *how) && self.branch(b).recorded.is_none()
            }
            _ => self.has_same_end(read, b),
        }
    }

    /// Whether a branch is recorded as read, with the change in doubt or without it.
    fn end_agrees(&self, read: &Ledger, b: Branch, is_made: bool) -> bool
        ensures { result ≡ end_agrees is_made self.now read.now b }
    {
        if is_made {
            self.has_changed_end(read, b)
        } else {
            self.has_same_end(read, b)
        }
    }

    /// Whether no transaction of these decisions has a row, and none comes twice.
    fn lacks_each(&self, decisions: &[Decision]) -> bool
        ensures { result ≡ each_once (lacks_row self.now) (gtrids_of decisions.now) }
    {
        for (i, decision) in decisions.iter().enumerate() {
            if self.has_row(decision.gtrid) || is_decided(&decisions[i + 1..], decision.gtrid) {
                return false;
            }
        }
        true
    }

    /// Whether a transaction has a row and isn't one of these.
    fn keeps_apart(&self, g: Gtrid, others: &[Gtrid]) -> bool
        ensures { result ≡ (keeps_row self.now g && not (has_gtrid others.now g)) }
    {
        self.has_row(g) && !is_named(others, g)
    }

    /// Whether each of these transactions has a row, and none comes twice.
    fn keeps_each(&self, gtrids: &[Gtrid]) -> bool
        ensures { result ≡ each_once (keeps_row self.now) gtrids.now }
    {
        for (i, g) in gtrids.iter().enumerate() {
            if !self.keeps_apart(*g, &gtrids[i + 1..]) {
                return false;
            }
        }
        true
    }

    /// The same of a first one and others.
    fn keeps_all(&self, first: Gtrid, others: &[Gtrid]) -> bool
        ensures { result ≡ each_once (keeps_row self.now) (first ∷ others.now) }
    {
        self.keeps_apart(first, others) && self.keeps_each(others)
    }

    /// Whether the row of each of these transactions is as read, with the change in doubt.
    fn are_changed(&self, read: &Ledger, first: Gtrid, others: &[Gtrid]) -> bool
        ensures { result ≡
            list_all (row_agrees true self.now read.now) (first ∷ others.now) }
    {
        self.row_agrees(read, first, true) && others.iter().all(|g| self.row_agrees(read, *g, true))
    }

    /// Whether these decisions make new rows, and those are as read.
    fn are_decided(&self, read: &Ledger, decisions: &[Decision]) -> bool
        ensures { result ≡ (each_once (lacks_row self.now) (gtrids_of decisions.now) &&
            list_all (λ d. row_agrees true self.now read.now d.gtrid) decisions.now) }
    {
        self.lacks_each(decisions)
            && decisions
                .iter()
                .all(|decision| self.row_agrees(read, decision.gtrid, true))
    }

    /// Whether these transactions have rows, which are gone as read.
    fn are_dropped(&self, read: &Ledger, first: Gtrid, others: &[Gtrid]) -> bool
        ensures { result ≡ (each_once (keeps_row self.now) (first ∷ others.now) &&
            list_all (row_agrees true self.now read.now) (first ∷ others.now)) }
    {
        self.keeps_all(first, others) && self.are_changed(read, first, others)
    }

    /// Whether what the change in doubt is of is as read, with the change.
    fn change_agrees(&self, read: &Ledger, is_made: bool) -> bool
        ensures { result ≡ change_agrees is_made self.now read.now }
    {
        if !is_made {
            return true;
        }
        match &self.doubt {
            Change::AddRows(decisions) => self.are_decided(read, decisions.as_slice()),
            Change::DropRows(g, others) => self.are_dropped(read, *g, others.as_slice()),
            Change::AddRecord(b, _) => self.end_agrees(read, *b, true),
            Change::Nothing => false,
        }
    }

    /// Whether the number of rows is as read, with the change in doubt.
    fn is_changed_count(&self, rows: u64) -> bool
        ensures { result ≡ rows_agree_with self.now.doubt self.now.row_count rows }
    {
        match &self.doubt {
            Change::AddRows(decisions) => {
                is_more_by(rows, self.row_count, decisions.len() as u64)
            }
            Change::DropRows(_, others) => {
                0 < self.row_count && is_more_by(self.row_count - 1, rows, others.len() as u64)
            }
            _ => rows == self.row_count,
        }
    }

    /// Whether the number of records is.
    fn is_changed_record_count(&self, records: u64) -> bool
        ensures { result ≡ records_agree_with self.now.doubt self.now.records records }
    {
        match &self.doubt {
            Change::AddRecord(_, _) => 0 < records && records - 1 == self.records,
            _ => records == self.records,
        }
    }

    /// Whether both numbers are as read, with the change in doubt or without it.
    fn counts_agree(&self, read: &Ledger, is_made: bool) -> bool
        ensures { result ≡ counts_agree is_made self.now read.now }
    {
        if is_made {
            self.is_changed_count(read.row_count) && self.is_changed_record_count(read.records)
        } else {
            read.row_count == self.row_count && read.records == self.records
        }
    }

    /// Whether the row of each of these transactions is as read, with the change in doubt or
    /// without it.
    fn rows_agree_at(
        &self,
        read: &Ledger,
        keys: &BTreeMap<Gtrid, Option<Vec<Branch>>>,
        is_made: bool,
    ) -> bool
        ensures { result ≡ rows_agree_at is_made self.now read.now keys.now }
    {
        keys.iter().all(|(g, _)| self.row_agrees(read, *g, is_made))
    }

    /// Whether each of these branches is recorded as read, with the change in doubt or without it.
    fn ends_agree_at(
        &self,
        read: &Ledger,
        keys: &BTreeMap<Branch, BranchNotes>,
        is_made: bool,
    ) -> bool
        ensures { result ≡ ends_agree_at is_made self.now read.now keys.now }
    {
        keys.iter().all(|(b, _)| self.end_agrees(read, *b, is_made))
    }

    /// Whether all rows are as read, with the change in doubt or without it.
    fn rows_agree(&self, read: &Ledger, is_made: bool) -> bool
        ensures { result ≡ rows_agree is_made self.now read.now }
    {
        self.rows_agree_at(read, &self.rows, is_made)
            && self.rows_agree_at(read, &read.rows, is_made)
    }

    /// Whether all branches are recorded as read, with the change in doubt or without it.
    fn ends_agree(&self, read: &Ledger, is_made: bool) -> bool
        ensures { result ≡ ends_agree is_made self.now read.now }
    {
        self.ends_agree_at(read, &self.branches, is_made)
            && self.ends_agree_at(read, &read.branches, is_made)
    }

    /// Whether all that was read of a log is what the book has, with the change in doubt or without
    /// it.
    fn agrees(&self, read: &Ledger, is_made: bool) -> bool
        ensures { result ≡ agrees is_made self.now read.now }
    {
        self.counts_agree(read, is_made)
            && (self.change_agrees(read, is_made)
                && (self.rows_agree(read, is_made) && self.ends_agree(read, is_made)))
    }

    /// Whether the rows of a log are those of the book, with the change in doubt or without it.
    pub(crate) fn may_hold(&self, rows: &LogRows) -> Result<bool, AllocError>
        ensures { IfOk result (λ may. ReadsOf self.now rows.now may) }
    {
        let read = Ledger::load(self.alloc, self.threads, self.rms, rows)?;
        Ok(self.agrees(&read, false) || self.agrees(&read, true))
    }
}

/// Whether a transaction is one of these.
pub(super) fn is_named(gtrids: &[Gtrid], g: Gtrid) -> bool
    ensures { result ≡ has_gtrid gtrids.now g }
{
    gtrids.contains(&g)
}

/// Whether one of these decisions is on a transaction.
fn is_decided(decisions: &[Decision], g: Gtrid) -> bool
    ensures { result ≡ has_gtrid (gtrids_of decisions.now) g }
{
    decisions.iter().any(|decision| decision.gtrid == g)
}

/// Whether a number is greater than another by exactly so much.
pub(super) fn is_more_by(number: u64, other: u64, by: u64) -> bool
    ensures { result ≡ nat_eq number (other + by) }
{
    other <= number && number - other == by
}

/// Whether a branch is among these.
fn is_among(branch: Branch, branches: &[Branch]) -> bool
    ensures { result ≡ is_branch_among branch branches.now }
{
    branches.contains(&branch)
}

/// Whether each of these branches is among the others.
fn are_among(branches: &[Branch], others: &[Branch]) -> bool
    ensures { result ≡ are_among branches.now others.now }
{
    branches.iter().all(|branch| is_among(*branch, others))
}

/// Whether two lists are of the same branches.
fn same_branches(one: &[Branch], other: &[Branch]) -> bool
    ensures { result ≡ same_branches one.now other.now }
{
    are_among(one, other) && are_among(other, one)
}

/// Whether a branch is recorded so.
fn is_how(recorded: Option<How>, how: How) -> bool
    ensures { result ≡ is_how recorded how }
{
    match recorded {
        Some(own) => own == how,
        None => false,
    }
}
