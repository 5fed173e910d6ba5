//! A transaction is begun (XA, section 2.3).

ghost use Rattle.std.specs.Prelude.{◌≡◌, Some, None, Err, IfErr, OnOk, ◌+◌, IfOk};
ghost use Rattle.xa_base.specs.declared.refusal.Refusal.TheVariants as Refusals;
ghost use Rattle.xa_base.specs.declared.step.Step.TheVariants as Steps;
ghost use Rattle.xa_model.specs.Trace.{Happening.Begun};
ghost use Rattle.xa_tm.specs.Book.{after};
ghost use Rattle.xa_tm.specs.Calls.{book_in, log_in};
ghost use Rattle.xa_tm.specs.LedgerBook.{IsSound};
ghost use Rattle.xa_tm.specs.Refusing.{refusal_in, service_refusal_in};

use crate::manager::Manager;
use xa_base::{Gtrid, Refusal};
use xa_log::DecisionLog;

impl<L: DecisionLog + Drop> Manager<L> {
    /// Begins a transaction of a thread.
    pub fn begin(&mut self, thread: u32) -> Result<Gtrid, Refusal>
        requires { IsSound (book_in self.old) }
        // A rule that refuses changes nothing.
        ensures refused { (n : Refusal) →
            refusal_in (book_in self.old) (Steps.Begin thread) ≡ Some n →
            (result ≡ Err n) × (self.new ≡ self.old) }
        ensures allowed { OnOk result (refusal_in (book_in self.old) (Steps.Begin thread) ≡ None) }
        // The transaction that is begun.
        ensures value { IfOk result (λ g. g ≡ record {
          incarnation = (book_in self.old).incarnation;
          sequence = (book_in self.old).sequence + 1;
        }) }
        // What the book then says.
        ensures ok { IfOk result (λ g. book_in self.new ≡ after (book_in self.old) (Begun g)) }
        ensures err { refusal_in (book_in self.old) (Steps.Begin thread) ≡ None →
            IfErr result (λ n. (n ≡ Refusals.Memory) × (book_in self.new ≡ book_in self.old)) }
        ensures log { log_in self.new ≡ log_in self.old }
    {
        self.ledger.check_begin(thread)?;
        Ok(self.ledger.begin()?)
    }

    /// The same, however many transactions were begun before: for a service, which ends when its
    /// numbers do. A run begins with [`begin`](Manager::begin), which refuses what is past its
    /// limit.
    pub fn begin_in_service(&mut self, thread: u32) -> Result<Gtrid, Refusal>
        requires { IsSound (book_in self.old) }
        // A rule that refuses changes nothing.
        ensures refused { (n : Refusal) →
            service_refusal_in (book_in self.old) thread ≡ Some n →
            (result ≡ Err n) × (self.new ≡ self.old) }
        ensures allowed { OnOk result (service_refusal_in (book_in self.old) thread ≡ None) }
        // The transaction that is begun.
        ensures value { IfOk result (λ g. g ≡ record {
          incarnation = (book_in self.old).incarnation;
          sequence = (book_in self.old).sequence + 1;
        }) }
        // What the book then says.
        ensures ok { IfOk result (λ g. book_in self.new ≡ after (book_in self.old) (Begun g)) }
        ensures err { service_refusal_in (book_in self.old) thread ≡ None →
            IfErr result (λ n. (n ≡ Refusals.Memory) × (book_in self.new ≡ book_in self.old)) }
        ensures log { log_in self.new ≡ log_in self.old }
    {
        self.ledger.check_begin_in_service(thread)?;
        Ok(self.ledger.begin()?)
    }
}
