//! The calls that end what a resource manager has in doubt (XA, section 2.3, Transaction Completion
//! and Recovery).

ghost use Rattle.std.specs.Prelude.{◌≡◌, Some, IfErr, OnOk, map, length, IfOk};
ghost use Rattle.xa_base.specs.declared.refusal.Refusal.TheVariants as Refusals;
ghost use Rattle.xa_model.specs.Trace.{Happening.ResolvedOpen};
ghost use Rattle.xa_tm.specs.Book.{after};
ghost use Rattle.xa_tm.specs.Calls.{book_in, log_in};
ghost use Rattle.xa_tm.specs.Owed.{AreOwed};
ghost use Rattle.xa_tm.specs.Refusing.{resolved_in, resolved_open_in};
ghost use Rattle.xa_tm.specs.Resolving.{waiting_call};
ghost use Rattle.xa_tm.specs.Ties.{StaysTiedToAny};

use crate::manager::Manager;
use xa_base::{Call, Refusal, Xid};
use xa_log::DecisionLog;

impl<L: DecisionLog + Drop> Manager<L> {
    /// The calls that end the branches of a resource manager's last page, in its order: all of them
    /// or none.
    pub fn resolve(&self, rm: u32) -> Result<Vec<Call>, Refusal>
        ensures ok { IfOk result (λ calls.
            map waiting_call calls.items ≡ map Some (resolved_in (book_in self.now) rm)) }
        ensures err { IfErr result (λ n. n ≡ Refusals.Memory) }
    {
        Ok(self.ledger.resolving_calls(rm)?)
    }

    /// The identifiers of the branches at a resource manager that rows of earlier incarnations wait
    /// for, in their order: what is owed there until the rows are done, whether the resource
    /// manager lists it or not.
    pub fn owed(&self, rm: u32) -> Result<Vec<Xid>, Refusal>
        ensures ok { IfOk result (λ list. AreOwed (book_in self.now) rm list.items) }
        ensures err { IfErr result (λ n. n ≡ Refusals.Memory) }
    {
        Ok(self.ledger.owed(rm)?)
    }

    /// How many calls [`Manager::resolve`] gives.
    pub fn resolve_len(&self, rm: u32) -> usize
        ensures { result ≡ length (resolved_in (book_in self.now) rm) }
    {
        self.ledger.resolving_len(rm)
    }

    /// Rolls back what is open of the transactions that a resource manager's last page lists: begun
    /// in this incarnation, and neither claimed, committed nor handed over. Gives the calls that
    /// then end the branches of that page, in its order: all of them, or none and nothing is rolled
    /// back. The log is not asked.
    pub fn resolve_open(&mut self, rm: u32) -> Result<Vec<Call>, Refusal>
        ensures calls { IfOk result (λ calls.
            map waiting_call calls.items ≡ map Some (resolved_open_in (book_in self.old) rm)) }
        ensures ok { OnOk result (book_in self.new ≡ after (book_in self.old) (ResolvedOpen rm)) }
        ensures err { IfErr result
            (λ n. (n ≡ Refusals.Memory) × (book_in self.new ≡ book_in self.old)) }
        ensures log { log_in self.new ≡ log_in self.old }
        ensures tied { StaysTiedToAny (book_in self.old) (book_in self.new) }
    {
        Ok(self.ledger.resolve_open(rm)?)
    }

    /// How many calls [`Manager::resolve_open`] gives.
    pub fn resolve_open_len(&self, rm: u32) -> usize
        ensures { result ≡ length (resolved_open_in (book_in self.now) rm) }
    {
        self.ledger.open_len(rm)
    }
}
