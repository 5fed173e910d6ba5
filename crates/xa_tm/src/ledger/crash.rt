//! What a crash of a part, and a failure of the log, make of the manager's book.

ghost use Rattle.std.specs.Prelude.{true, false, ◌≡◌, ℕ, [], ◌-◌, if◌then◌else◌, Bool, ◌&&◌};
ghost use Rattle.xa_model.specs.Trace.{Happening.Crashed, Happening.Failed, Line, Fault, line, line_eq, line_of};
ghost use Rattle.xa_tm.specs.Book.{after, book_after, breaks_in, failed_restarts_after};
ghost use Rattle.xa_tm.specs.LedgerBook.{notes_at, doubt_of_change, as_book, known_in, off_line, names_at};

use crate::change::Change;
use crate::ledger::Ledger;
use xa_base::{Branch, Part};

impl Ledger {
    /// The lines of what crashes break: no branch is on one of them any more.
    pub(crate) fn break_lines(&mut self, part: Part)
        ensures others { self.new ≡ record self.old { branches = self.new.branches } }
        ensures notes { (q : _) →
            notes_at self.new.branches q ≡ off_line part q (notes_at self.old.branches q) }
        ensures known { known_in self.new.branches ≡ known_in self.old.branches }
    {
        // Keeps each entry: `values_mut` has no contract on what is written.
        self.branches.retain(|b, notes| {
            if is_broken(part, *b) {
                notes.is_on_line = false;
            }
            true
        });
    }

    /// The page that came on a line is forgotten.
    fn forget_page(&mut self, thread: u32, rm: u32)
        ensures others { self.new ≡ record self.old { pages = self.new.pages } }
        ensures pages { (r : ℕ) → names_at self.new.pages r ≡
            (if line_eq (line thread rm) (line 0 r) then [] else names_at self.old.pages r) }
    {
        if thread == 0 {
            self.pages.remove(&rm);
        }
    }

    /// A part crashes.
    pub(crate) fn crash(&mut self, part: Part)
        ensures { as_book self.new ≡ after (as_book self.old) (Crashed part) }
    {
        match part {
            Part::Line { thread, rm } => {
                self.forget_page(thread, rm);
                self.break_lines(part);
            }
            Part::Rm { rm } => {
                self.forget_page(0, rm);
                self.break_lines(part);
            }
            Part::Manager => {
                self.pages.clear();
                self.is_up = false;
                self.break_lines(part);
            }
        }
    }

    /// The log failed, and may have made a change: the manager falls.
    pub(crate) fn fail(&mut self, change: Change)
        requires { self.old.is_up ≡ Bool.true }
        ensures { (f : Fault) → failed_restarts_after (Failed f) self.old.failed_restarts
            ≡ self.old.failed_restarts →
            as_book self.new ≡ book_after (as_book self.old) (doubt_of_change change) (Failed f) }
    {
        self.doubt = change;
        self.pages.clear();
        self.is_up = false;
        self.break_lines(Part::Manager);
    }
}

/// Whether a branch's line breaks if a part crashes.
fn is_broken(part: Part, b: Branch) -> bool
    ensures { result ≡ breaks_in Bool.true (Crashed part) (line_of b) }
{
    match part {
        Part::Line { thread, rm } => thread == b.thread && rm == b.rm,
        Part::Rm { rm } => rm == b.rm,
        Part::Manager => true,
    }
}
