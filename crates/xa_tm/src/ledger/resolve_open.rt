//! What is open of the transactions that a recovery page lists is rolled back, and all that the
//! page lists is ended (XA, section 2.3, Transaction Completion and Recovery).

ghost use Rattle.std.specs.Prelude.{◌≡◌, ◌&&◌, map, Option, Some, IfOk, OnOk, OnErr, IsSome, if◌then◌else◌};
ghost use Rattle.std.specs.BTreeMap.{get};
ghost use Rattle.xa_base.specs.Branch.{gtrid_cmp, gtrid_eq};
ghost use Rattle.xa_model.specs.Facts.HeardAnswers.{lists_one_of};
ghost use Rattle.xa_model.specs.Trace.{Happening.ResolvedOpen};
ghost use Rattle.xa_tm.specs.Book.{after};
ghost use Rattle.xa_tm.specs.LedgerBook.{HasKept, HaveRoom, as_book, transaction_at};
ghost use Rattle.xa_tm.specs.Refusing.{resolved_open_in};
ghost use Rattle.xa_tm.specs.Resolving.{is_one_of, open_gtrid_for, open_in, rolled_back, rolled_back_by};
ghost use Rattle.xa_tm.specs.Resolving.{waiting_call};

use crate::ledger::Ledger;
use crate::ledger::room::{reserve_transaction, set_transaction};
use crate::notes::Transaction;
use std::alloc::AllocError;
use std::collections::BTreeMap;
use xa_base::{Call, Gtrid, Outcome, Xid};

/// Makes room for these transactions.
fn reserve_all(map: &mut BTreeMap<Gtrid, Transaction>, gtrids: &[Gtrid]) -> Result<(), AllocError>
    ensures same { (q : _) → transaction_at map.new q ≡ transaction_at map.old q }
    ensures room { OnOk result (HaveRoom map.new gtrids.now) }
{
    for g in gtrids {
        reserve_transaction(map, *g)?;
    }
    Ok(())
}

/// Rolls a transaction back.
fn roll_back(map: &mut BTreeMap<Gtrid, Transaction>, g: Gtrid)
    requires { IsSome (get gtrid_cmp map.old g) }
    ensures at { (q : _) → transaction_at map.new q ≡
        (if gtrid_eq g q then rolled_back (transaction_at map.old q)
        else transaction_at map.old q) }
    ensures kept { HasKept map.old map.new }
{
    let transaction = map.get(&g).copied().unwrap_or(Transaction::NEW);
    set_transaction(map, g, transaction.decided(Outcome::Rollback));
}

/// Rolls these transactions back.
fn roll_back_all(map: &mut BTreeMap<Gtrid, Transaction>, gtrids: &[Gtrid])
    requires { HaveRoom map.old gtrids.now }
    ensures { (q : _) → transaction_at map.new q
        ≡ rolled_back_by gtrids.now q (transaction_at map.old q) }
{
    for g in gtrids {
        roll_back(map, *g);
    }
}

impl Ledger {
    /// Whether a transaction is open: begun in this incarnation, and neither claimed, committed nor
    /// handed over.
    fn is_open(&self, g: Gtrid) -> bool
        ensures { result ≡ open_in (as_book self.now) g }
    {
        let transaction = self.transaction(g);
        self.is_begun(g) && transaction.is_open()
    }

    /// The transaction of what a page lists, if it is open.
    fn open_gtrid(&self, xid: &Xid) -> Option<Gtrid>
        ensures { result ≡ open_gtrid_for (as_book self.now) xid.now }
    {
        match xid.branch() {
            Some(b) => {
                if self.is_open(b.gtrid) {
                    Some(b.gtrid)
                } else {
                    None
                }
            }
            None => None,
        }
    }

    /// The open transactions of a resource manager's last page.
    fn open_gtrids(&self, rm: u32) -> Result<Vec<Gtrid>, AllocError>
        ensures { IfOk result (λ list. (q : _) → is_one_of list.items q ≡
            (lists_one_of q ((as_book self.now).page rm) && open_in (as_book self.now) q)) }
    {
        self.page(rm)
            .iter()
            .filter_map(|xid| self.open_gtrid(xid))
            .collect(self.alloc)
    }

    /// Rolls back what is open of a resource manager's last page, and gives the calls that end the
    /// branches of that page then, in its order.
    ///
    /// All room is made before anything is rolled back.
    pub(crate) fn resolve_open(&mut self, rm: u32) -> Result<Vec<Call>, AllocError>
        ensures calls { IfOk result (λ calls.
            map waiting_call calls.items ≡ map Some (resolved_open_in (as_book self.old) rm)) }
        ensures ok { OnOk result (as_book self.new ≡ after (as_book self.old) (ResolvedOpen rm)) }
        ensures err { OnErr result (as_book self.new ≡ as_book self.old) }
    {
        let calls = self.open_calls(rm)?;
        let gtrids = self.open_gtrids(rm)?;
        reserve_all(&mut self.transactions, gtrids.as_slice())?;
        roll_back_all(&mut self.transactions, gtrids.as_slice());
        Ok(calls)
    }
}
