//! The calls that end the branches which a recovery page lists (XA, section 2.3, Transaction
//! Completion and Recovery).

ghost use Rattle.std.specs.Prelude.{◌≡◌, map, length, Option, Some, is_some, IfOk};
ghost use Rattle.xa_model.specs.Replies.History.{name_of};
ghost use Rattle.xa_tm.specs.LedgerBook.{as_book, names_at};
ghost use Rattle.xa_tm.specs.Refusing.{resolved_in, resolved_open_in};
ghost use Rattle.xa_tm.specs.Resolving.{call_for, ending_call, open_call_for, waiting_call};

use crate::ledger::Ledger;
use std::alloc::AllocError;
use xa_base::{Branch, Call, Xid};

impl Ledger {
    /// The last page that a resource manager listed on the first thread's line, since that broke.
    pub(crate) fn page(&self, rm: u32) -> &[Xid]
        ensures { map name_of result.now ≡ names_at self.now.pages rm }
    {
        match self.pages.get(&rm) {
            Some(page) => page.xids(),
            None => &[],
        }
    }

    /// The call that ends a branch of a transaction that isn't live: no row means rollback.
    fn resolving_call(&self, b: Branch, xid: &Xid) -> Call
        ensures { result ≡ ending_call (as_book self.now) xid.now b }
    {
        if self.branch(b).recorded.is_some() {
            return Call::Forget { xid: xid.copy() };
        }
        if self.has_row(b.gtrid) {
            return Call::Commit {
                xid: xid.copy(),
                one_phase: false,
            };
        }
        Call::Rollback { xid: xid.copy() }
    }

    /// The call that ends what a page lists: nothing of a live transaction, or of another
    /// manager's.
    fn call_for(&self, xid: &Xid) -> Option<Call>
        ensures { result ≡ call_for (as_book self.now) xid.now }
    {
        match xid.branch() {
            Some(b) => {
                if self.is_live(b.gtrid) {
                    None
                } else {
                    Some(self.resolving_call(b, xid))
                }
            }
            None => None,
        }
    }

    /// The calls that end the branches of a resource manager's last page, in its order.
    pub(crate) fn resolving_calls(&self, rm: u32) -> Result<Vec<Call>, AllocError>
        ensures { IfOk result (λ calls.
            map waiting_call calls.items ≡ map Some (resolved_in (as_book self.now) rm)) }
    {
        self.page(rm)
            .iter()
            .filter_map(|xid| self.call_for(xid))
            .collect(self.alloc)
    }

    /// Whether a call ends what a page lists. No identifier is copied for that.
    fn is_ended(&self, xid: &Xid) -> bool
        ensures { result ≡ is_some (call_for (as_book self.now) xid.now) }
    {
        match xid.branch() {
            Some(b) => !self.is_live(b.gtrid),
            None => false,
        }
    }

    /// How many calls that are.
    pub(crate) fn resolving_len(&self, rm: u32) -> usize
        ensures { result ≡ length (resolved_in (as_book self.now) rm) }
    {
        self.page(rm)
            .iter()
            .filter(|xid| self.is_ended(xid))
            .count()
    }

    /// The call that ends what a page lists once all that is open is rolled back: nothing of a
    /// claimed transaction.
    fn open_call_for(&self, xid: &Xid) -> Option<Call>
        ensures { result ≡ open_call_for (as_book self.now) xid.now }
    {
        match xid.branch() {
            Some(b) => {
                if self.is_live(b.gtrid) && self.transaction(b.gtrid).is_claimed {
                    None
                } else {
                    Some(self.resolving_call(b, xid))
                }
            }
            None => None,
        }
    }

    /// The calls that end the branches of a resource manager's last page, in its order, once all
    /// that is open is rolled back.
    pub(crate) fn open_calls(&self, rm: u32) -> Result<Vec<Call>, AllocError>
        ensures { IfOk result (λ calls.
            map waiting_call calls.items ≡ map Some (resolved_open_in (as_book self.now) rm)) }
    {
        self.page(rm)
            .iter()
            .filter_map(|xid| self.open_call_for(xid))
            .collect(self.alloc)
    }

    /// Whether a call ends what a page lists once all that is open is rolled back.
    fn is_ended_with_open(&self, xid: &Xid) -> bool
        ensures { result ≡ is_some (open_call_for (as_book self.now) xid.now) }
    {
        match xid.branch() {
            Some(b) => !(self.is_live(b.gtrid) && self.transaction(b.gtrid).is_claimed),
            None => false,
        }
    }

    /// How many calls that are.
    pub(crate) fn open_len(&self, rm: u32) -> usize
        ensures { result ≡ length (resolved_open_in (as_book self.now) rm) }
    {
        self.page(rm)
            .iter()
            .filter(|xid| self.is_ended_with_open(xid))
            .count()
    }
}
