//! What an answer makes of the manager's book.

ghost use Rattle.std.specs.Prelude.{◌≡◌, ℕ, ◌<◌, ◌-◌, ◌^◌, ◌+◌, map, if◌then◌else◌, Some, OnOk, OnErr};
ghost use Rattle.xa_base.specs.StateTable.{on};
ghost use Rattle.xa_base.specs.Branch.{gtrid_eq, branch_eq};
ghost use Rattle.xa_base.specs.declared.answer.Answer.TheVariants.{Page as Listed, Ret};
ghost use Rattle.xa_model.specs.Trace.{Kind, Call as KnownCall, Happening.Heard, Line, line, line_eq};
ghost use Rattle.xa_tm.specs.Book.{after};
ghost use Rattle.xa_base.specs.Call.{map_call};
ghost use Rattle.xa_model.specs.Replies.Steps.{accepted};
ghost use Rattle.xa_model.specs.Replies.History.{name_of};
ghost use Rattle.xa_tm.specs.Answering.{IsAnswerTo};
ghost use Rattle.xa_tm.specs.News.{news_by};
ghost use Rattle.xa_base.specs.declared.code.Code.{Code};
ghost use Rattle.xa_tm.specs.LedgerBook.{HasBranch, HasTransaction, notes_at, as_book, known_in, names_at, transaction_at};

use crate::ledger::Ledger;
use crate::ledger::room::{set_branch, set_transaction};
use crate::news::News;
use crate::notes::{BranchNotes, Transaction};
use xa_base::{Branch, Call, Memory, Page};

impl Ledger {
    /// Puts what is noted of a branch and of its transaction, if there is room.
    pub(crate) fn put(&mut self, b: Branch, notes: BranchNotes, transaction: Transaction)
        requires branch { HasBranch self.old b }
        requires transaction { HasTransaction self.old b.gtrid }
        requires started { notes.is_started ≡ (notes_at self.old.branches b).is_started }
        // What is put, and what stays.
        ensures others { self.new ≡
            record self.old { transactions = self.new.transactions; branches = self.new.branches } }
        ensures transactions { (q : _) → transaction_at self.new.transactions q ≡
            (if gtrid_eq b.gtrid q then transaction else transaction_at self.old.transactions q) }
        ensures branches { (q : _) → notes_at self.new.branches q ≡
            (if branch_eq b q then notes else notes_at self.old.branches q) }
        ensures known { known_in self.new.branches ≡ known_in self.old.branches }
    {
        set_branch(&mut self.branches, b, notes);
        set_transaction(&mut self.transactions, b.gtrid, transaction);
    }

    /// Notes an answer of a branch, if there is room.
    pub(crate) fn hear(&mut self, b: Branch, news: News)
        requires branch { HasBranch self.old b }
        requires transaction { HasTransaction self.old b.gtrid }
        requires room { self.old.records < 2 ^ 64 - 1 }
        ensures { (l : Line) (kind : Kind) (code : Code) → news ≡ news_by kind code →
            as_book self.new ≡ after (as_book self.old) (Heard l (on kind b) (Ret code)) }
    {
        let notes = self.branch(b);
        let transaction = self.transaction(b.gtrid).with_answer(
            news.says_yes,
            notes.first_votes(news),
            notes.first_settles(news),
        );
        self.records = one_more(self.records, notes.first_records(news));
        self.put(b, notes.with(news), transaction);
    }

    /// Notes a page that a resource manager listed.
    pub(crate) fn hear_page(
        &mut self,
        thread: u32,
        rm: u32,
        call: &Call,
        page: &Page,
    ) -> Result<(), Memory>
        ensures ok { OnOk result
            ((c : KnownCall) → accepted (map_call name_of call.now) ≡ Some c →
            IsAnswerTo (map_call name_of call.now) (Listed (map name_of page.now)) →
            as_book self.new ≡ after (as_book self.old)
            (Heard (line thread rm) c (Listed (map name_of page.now)))) }
        ensures err { OnErr result (as_book self.new ≡ as_book self.old) }
        ensures others { self.new ≡ record self.old { pages = self.new.pages } }
    {
        match call {
            Call::Recover { .. } => self.turn_page(thread, rm, page),
            _ => Ok(()),
        }
    }

    /// Puts the last page of a resource manager, if it came on the first thread's line.
    fn turn_page(&mut self, thread: u32, rm: u32, page: &Page) -> Result<(), Memory>
        ensures others { self.new ≡ record self.old { pages = self.new.pages } }
        ensures ok { OnOk result ((r : ℕ) → names_at self.new.pages r ≡
            (if line_eq (line thread rm) (line 0 r) then map name_of page.now
            else names_at self.old.pages r)) }
        ensures err { OnErr result
            ((r : ℕ) → names_at self.new.pages r ≡ names_at self.old.pages r) }
    {
        if thread == 0 {
            let copy = page.copy(self.alloc)?;
            self.pages.insert(rm, copy)?;
        }
        Ok(())
    }
}

/// One more, if there is one.
fn one_more(count: u64, is_more: bool) -> u64
    requires { count < 2 ^ 64 - 1 }
    ensures { result ≡ (if is_more then count + 1 else count) }
{
    if is_more { count + 1 } else { count }
}
