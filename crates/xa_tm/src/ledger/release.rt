//! What is noted of a transaction that is over is released.

ghost use Rattle.std.specs.Prelude.{true, false, ◌≡◌, not, filter, if◌then◌else◌, IfSome, IsSome, None};
ghost use Rattle.std.specs.BTreeMap.{IsOrdered, get};
ghost use Rattle.std.specs.BTreeMap.Range.{IsLeBy, IsLtBy, is_past_end};
ghost use Rattle.std.specs.Range.Bound.{IsForward};
ghost use Rattle.std.specs.declared.ops.Bound.TheVariants.{Included};
ghost use Rattle.xa_base.specs.Branch.{branch_cmp, gtrid_eq};
ghost use Rattle.xa_log.specs.KeySet.{from_list, items};
ghost use Rattle.xa_tm.specs.LedgerBook.{as_book, known_in, no_branch, notes_at};
ghost use Rattle.xa_tm.specs.Release.{AreFinished, HasForgotten, IsOver, book_without, was_given};

use crate::ledger::Ledger;
use crate::ledger::room::{remove_row_room, remove_transaction};
use std::ops::Bound;
use xa_base::{Branch, Gtrid};

impl Ledger {
    /// Whether the number of a transaction was given, in an earlier incarnation or in this one.
    fn was_given(&self, g: Gtrid) -> bool
        ensures { result ≡ was_given (as_book self.now) g }
    {
        g.incarnation < self.incarnation
            || (g.incarnation == self.incarnation && g.sequence <= self.sequence)
    }

    /// Whether nothing more can come of the branches of a transaction. Only its own are looked at.
    fn are_finished(&self, g: Gtrid) -> bool
        ensures finished { result ≡ true → AreFinished (as_book self.now) g }
        ensures owed { result ≡ false → AreFinished (as_book self.now) g → ⊥ }
    {
        let first = Branch {
            gtrid: g,
            thread: 0,
            rm: 0,
        };
        !self
            .branches
            .range((Bound::Included(first), end_of(g)))
            .any(|(b, notes)| notes.is_owed() && b.gtrid == g)
    }

    /// Whether nothing more can come of a transaction.
    pub(crate) fn is_over(&self, g: Gtrid) -> bool
        ensures over { result ≡ true → IsOver (as_book self.now) g }
        ensures owed { result ≡ false → IsOver (as_book self.now) g → ⊥ }
    {
        self.is_up
            && self.was_given(g)
            && !self.is_live(g)
            && !self.has_row(g)
            && self.are_finished(g)
    }

    /// The first branch of a transaction of which there is an entry.
    fn first_branch(&self, g: Gtrid) -> Option<Branch>
        ensures some { IfSome result (λ b. (b.gtrid ≡ g)
            × IsSome (get branch_cmp self.now.branches b)) }
        ensures none { result ≡ None → (q : Branch) → q.gtrid ≡ g →
            get branch_cmp self.now.branches q ≡ None }
        ensures ordered { IsOrdered branch_cmp self.now.branches }
    {
        let first = Branch {
            gtrid: g,
            thread: 0,
            rm: 0,
        };
        match self.branches.range(first..).next() {
            Some((b, _)) if b.gtrid == g => Some(*b),
            _ => None,
        }
    }

    /// Nothing is noted any more of the branches of a transaction. Only its own are looked at.
    fn release_branches(&mut self, g: Gtrid)
        ensures others { self.new ≡ record self.old { branches = self.new.branches } }
        ensures notes { (q : _) → notes_at self.new.branches q ≡
            (if gtrid_eq g q.gtrid then no_branch else notes_at self.old.branches q) }
        ensures known { known_in self.new.branches ≡
            from_list (filter (λ b. not (gtrid_eq g b.gtrid))
            (items (known_in self.old.branches))) }
        ensures gone { (b : _) → b.gtrid ≡ g → get branch_cmp self.new.branches b ≡ None }
    {
        let mut next = self.first_branch(g);
        while let Some(b) = next {
            self.branches.remove(&b);
            next = self.first_branch(g);
        }
    }

    /// Nothing is noted any more of a transaction that is over, nor of its branches.
    pub(crate) fn release(&mut self, g: Gtrid)
        requires { IsOver (as_book self.old) g }
        ensures book { as_book self.new ≡ book_without g (as_book self.old) }
        ensures forgotten { HasForgotten g self.new }
    {
        remove_transaction(&mut self.transactions, g);
        // The room for its row, which it has no more.
        remove_row_room(&mut self.rows, g);
        self.release_branches(g);
    }
}

/// Where the branches of a transaction end: before those of the transaction of the next number, if
/// there is one.
fn end_of(g: Gtrid) -> Bound<Branch>
    ensures forward { IsForward (IsLeBy branch_cmp) (IsLtBy branch_cmp)
        (Included (record { gtrid = g; thread = 0; rm = 0 })) result }
    ensures own { (q : Branch) → gtrid_eq q.gtrid g ≡ true →
        is_past_end branch_cmp result q ≡ false }
{
    match g.sequence.checked_add(1) {
        Some(sequence) => Bound::Excluded(Branch {
            gtrid: Gtrid { sequence, ..g },
            thread: 0,
            rm: 0,
        }),
        None => Bound::Unbounded,
    }
}
