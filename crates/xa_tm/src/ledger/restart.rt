//! How the manager's book comes up again: the numbers that the log has tell whether the change in
//! doubt was made.

ghost use Rattle.std.specs.Prelude.{◌≡◌, ◌<◌, ◌+◌, ◌-◌, ◌^◌, ◌&&◌, ◌||◌, if◌then◌else◌, nat_eq, nat_le, nat_lt, true};
ghost use Rattle.std.specs.Prelude.{false, Bool, is_some, OnOk, ◌∷◌};
ghost use Rattle.xa_base.specs.Branch.{branch_eq};
ghost use Rattle.xa_model.specs.Trace.{Happening.Failed, Happening.Restarted, Fault.InRestart};
ghost use Rattle.xa_tm.specs.BookAndLog.{may_find, rows_of};
ghost use Rattle.xa_tm.specs.Book.{records_with, row_among, row_without, after, book_after, Doubt};
ghost use Rattle.xa_tm.specs.News.{found_ended};
ghost use Rattle.xa_tm.specs.LedgerBook.{HasBranch, HasRoomForDoubt, come_up_with, without_doubt, notes_at, as_book};
ghost use Rattle.xa_tm.specs.LedgerBook.{HaveRoom, decided_rows, gtrids_of, known_in, row_at};

use crate::change::Change;
use crate::ledger::Ledger;
use crate::ledger::compare::is_more_by;
use crate::ledger::room::{drop_rows, put_rows, reserve_decided, reserve_rows, set_branch};
use std::alloc::AllocError;
use std::mem::replace;
use xa_base::{Branch, Gtrid, How};
use xa_log::Decision;

impl Ledger {
    /// Makes room for what a restart may find made.
    pub(crate) fn prepare_restart(&mut self) -> Result<(), AllocError>
        ensures book { as_book self.new ≡ as_book self.old }
        ensures room { OnOk result (HasRoomForDoubt self.new) }
        ensures doubt { self.new.doubt ≡ self.old.doubt }
    {
        match &self.doubt {
            Change::AddRows(decisions) => reserve_decided(&mut self.rows, decisions.as_slice()),
            Change::DropRows(g, others) => reserve_rows(&mut self.rows, *g, others.as_slice()),
            Change::AddRecord(b, _) => {
                let b = *b;
                self.reserve(b)
            }
            Change::Nothing => Ok(()),
        }
    }

    /// Whether the log has so many rows if the change in doubt was made.
    fn has_rows_if_made(&self, rows: u64) -> bool
        ensures { result ≡ nat_eq rows (rows_of (as_book self.now).doubt self.now.row_count) }
    {
        match &self.doubt {
            Change::AddRows(decisions) => {
                is_more_by(rows, self.row_count, decisions.len() as u64)
            }
            Change::DropRows(_, others) => {
                rows == self
                    .row_count
                    .saturating_sub(1)
                    .saturating_sub(others.len() as u64)
            }
            Change::AddRecord(_, _) => rows == self.row_count,
            Change::Nothing => rows == self.row_count,
        }
    }

    /// How many records it has then. Of a branch that has one, it makes none.
    fn records_if_made(&self) -> u64
        requires { self.now.records < 2 ^ 64 - 1 }
        ensures { result ≡
            records_with (as_book self.now) (as_book self.now).doubt self.now.records }
    {
        match self.doubt {
            Change::AddRows(_) => self.records,
            Change::DropRows(_, _) => self.records,
            Change::AddRecord(b, _) => self.with_record(b),
            Change::Nothing => self.records,
        }
    }

    /// How many records there are with one of this branch.
    fn with_record(&self, b: Branch) -> u64
        requires { self.now.records < 2 ^ 64 - 1 }
        ensures { result ≡ (if is_some ((as_book self.now).recorded b) then self.now.records
            else self.now.records + 1) }
    {
        if self.branch(b).recorded.is_some() {
            self.records
        } else {
            self.records + 1
        }
    }

    /// Whether the log may be of the incarnation before this one: at least the book's, and higher
    /// by no more than the restarts that have failed since.
    fn may_reach(&self, incarnation: u64) -> bool
        ensures { result ≡ (nat_lt self.now.incarnation incarnation &&
            nat_le (incarnation - self.now.incarnation - 1) self.now.failed_restarts) }
    {
        self.incarnation < incarnation && incarnation - self.incarnation - 1 <= self.failed_restarts
    }

    /// Whether the log may have so many rows: those of the book, without or with the change in
    /// doubt.
    fn may_have_rows(&self, rows: u64) -> bool
        ensures { result ≡ (nat_eq rows self.now.row_count
            || nat_eq rows (rows_of (as_book self.now).doubt self.now.row_count)) }
    {
        rows == self.row_count || self.has_rows_if_made(rows)
    }

    /// The same of the records.
    fn may_have_records(&self, records: u64) -> bool
        requires { self.now.records < 2 ^ 64 - 1 }
        ensures { result ≡ (nat_eq records self.now.records ||
            nat_eq records
            (records_with (as_book self.now) (as_book self.now).doubt self.now.records)) }
    {
        records == self.records || records == self.records_if_made()
    }

    /// Whether a restart may find these numbers.
    fn may_find(&self, incarnation: u64, rows: u64, records: u64) -> bool
        requires rows { self.now.row_count < 2 ^ 64 - 1 }
        requires records { self.now.records < 2 ^ 64 - 1 }
        ensures { result ≡ may_find (as_book self.now) incarnation rows records }
    {
        self.may_reach(incarnation) && self.may_have_rows(rows) && self.may_have_records(records)
    }

    /// Comes up over a log with these numbers, if that can be, and answers whether it could. Over a
    /// log that lies it may not: the manager stays down, as after a restart that failed.
    pub(crate) fn try_restart(&mut self, incarnation: u64, rows: u64, records: u64) -> bool
        requires room { HasRoomForDoubt self.old }
        requires down { self.old.is_up ≡ Bool.false }
        requires restarts { self.old.failed_restarts < 2 ^ 64 - 1 }
        requires rows { self.old.row_count < 2 ^ 64 - 1 }
        requires records { self.old.records < 2 ^ 64 - 1 }
        // Whether it comes up, and what the book then says.
        ensures value { result ≡ may_find (as_book self.old) incarnation rows records }
        ensures up { result ≡ Bool.true →
            as_book self.new ≡ after (as_book self.old) (Restarted incarnation rows records) }
        ensures down { result ≡ Bool.false → (asked : Doubt) →
            as_book self.new ≡ book_after (as_book self.old) asked (Failed InRestart) }
    {
        if self.may_find(incarnation, rows, records) {
            self.restart(incarnation, rows, records);
            true
        } else {
            self.fail_restart();
            false
        }
    }

    /// The manager comes up in a new incarnation, over a log with these numbers of rows and
    /// records. If a number isn't the one that was noted, the change in doubt was made.
    fn restart(&mut self, incarnation: u64, rows: u64, records: u64)
        requires { HasRoomForDoubt self.old }
        ensures { as_book self.new ≡ after (as_book self.old) (Restarted incarnation rows records) }
    {
        self.clear_doubt(rows != self.row_count, records != self.records);
        self.come_up(incarnation, rows, records);
    }

    /// The change in doubt is known: it was made if the number of rows changed, or that of records.
    fn clear_doubt(&mut self, is_row_changed: bool, is_record_changed: bool)
        requires { HasRoomForDoubt self.old }
        ensures { as_book self.new ≡
            without_doubt is_row_changed is_record_changed (as_book self.old) }
    {
        match replace(&mut self.doubt, Change::Nothing) {
            Change::AddRows(decisions) => self.find_rows(decisions, is_row_changed),
            Change::DropRows(g, others) => self.find_no_rows(g, others, is_row_changed),
            Change::AddRecord(b, how) => self.find_record(b, how, is_record_changed),
            Change::Nothing => {}
        }
    }

    /// Puts the rows of decisions, if they were found made.
    fn find_rows(&mut self, decisions: Vec<Decision>, is_made: bool)
        requires { HaveRoom self.old.rows (gtrids_of decisions.items) }
        ensures others { self.new ≡ record self.old { rows = self.new.rows } }
        ensures rows { (q : _) → row_at self.new.rows q ≡
            (if is_made then row_among (decided_rows decisions.items) q (row_at self.old.rows q)
            else row_at self.old.rows q) }
    {
        if is_made {
            put_rows(&mut self.rows, decisions);
        }
    }

    /// Takes the rows of these transactions away, if that was found made.
    fn find_no_rows(&mut self, first: Gtrid, others: Vec<Gtrid>, is_made: bool)
        requires { HaveRoom self.old.rows (first ∷ others.items) }
        ensures others { self.new ≡ record self.old { rows = self.new.rows } }
        ensures rows { (q : _) → row_at self.new.rows q ≡
            (if is_made then row_without (first ∷ others.items) q (row_at self.old.rows q)
            else row_at self.old.rows q) }
    {
        if is_made {
            drop_rows(&mut self.rows, first, others.as_slice());
        }
    }

    /// Records how a branch ended, if that was found made. The first record stays.
    fn find_record(&mut self, b: Branch, how: How, is_made: bool)
        requires { HasBranch self.old b }
        ensures others { self.new ≡ record self.old { branches = self.new.branches } }
        ensures notes { (q : _) → notes_at self.new.branches q ≡
            (if is_made then (if branch_eq b q then found_ended how (notes_at self.old.branches b)
            else notes_at self.old.branches q) else notes_at self.old.branches q) }
        ensures known { known_in self.new.branches ≡ known_in self.old.branches }
    {
        if is_made {
            let notes = self.branch(b);
            set_branch(&mut self.branches, b, notes.found_ended(how));
        }
    }

    /// The manager is up, in a new incarnation: nothing is begun in it, and no acknowledgement is
    /// late enough.
    fn come_up(&mut self, incarnation: u64, rows: u64, records: u64)
        ensures { as_book self.new ≡ come_up_with incarnation rows records (as_book self.old) }
    {
        self.is_up = true;
        self.incarnation = incarnation;
        self.sequence = 0;
        self.failed_restarts = 0;
        self.row_count = rows;
        self.records = records;
        self.forget_acknowledgements();
    }

    /// No acknowledgement was heard lately.
    fn forget_acknowledgements(&mut self)
        ensures others { self.new ≡ record self.old { branches = self.new.branches } }
        ensures notes { (q : _) →
            notes_at self.new.branches q
            ≡ record (notes_at self.old.branches q) { is_acknowledged_lately = Bool.false } }
        ensures known { known_in self.new.branches ≡ known_in self.old.branches }
    {
        // Keeps each entry: `values_mut` has no contract on what is written.
        self.branches.retain(|_, notes| {
            notes.is_acknowledged_lately = false;
            true
        });
    }

    /// A restart failed: the manager stays down.
    pub(crate) fn fail_restart(&mut self)
        requires down { self.old.is_up ≡ Bool.false }
        requires room { self.old.failed_restarts < 2 ^ 64 - 1 }
        ensures { (asked : Doubt) →
            as_book self.new ≡ book_after (as_book self.old) asked (Failed InRestart) }
    {
        self.failed_restarts += 1;
    }
}
