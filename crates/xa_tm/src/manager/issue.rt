//! A call is issued on a line.

ghost use Rattle.std.specs.Prelude.{◌≡◌, Some, IfErr, OnOk};
ghost use Rattle.std.specs.Result.{result_err};
ghost use Rattle.xa_base.specs.Call.{map_call};
ghost use Rattle.xa_base.specs.declared.refusal.Refusal.TheVariants as Refusals;
ghost use Rattle.xa_base.specs.declared.step.Step.TheVariants as Steps;
ghost use Rattle.xa_model.specs.Replies.History.{name_of};
ghost use Rattle.xa_model.specs.Replies.Steps.{accepted};
ghost use Rattle.xa_model.specs.Trace.{Call as KnownCall, Line, Happening.Issued};
ghost use Rattle.xa_tm.specs.Book.{after};
ghost use Rattle.xa_tm.specs.Calls.{book_in, log_in};
ghost use Rattle.xa_tm.specs.LedgerBook.{IsSound};
ghost use Rattle.xa_tm.specs.Refusing.{refusal_in};

use crate::manager::Manager;
use xa_base::{Call, Refusal};
use xa_log::DecisionLog;

impl<L: DecisionLog + Drop> Manager<L> {
    /// The refusal of a call on a line, except for those that the line and the resource manager
    /// find.
    pub fn check_issue(&self, thread: u32, rm: u32, call: &Call) -> Result<(), Refusal>
        ensures { result_err result ≡ refusal_in (book_in self.now)
            (Steps.Issue thread rm (map_call name_of call.now)) }
    {
        self.ledger.check_issue(thread, rm, call)
    }

    /// Notes a call that is issued, on whatever line.
    pub fn note_issued(&mut self, call: &Call) -> Result<(), Refusal>
        requires { IsSound (book_in self.old) }
        ensures ok { OnOk result
            ((l : Line) (c : KnownCall) → accepted (map_call name_of call.now) ≡ Some c →
            book_in self.new ≡ after (book_in self.old) (Issued l c)) }
        ensures err { IfErr result
            (λ n. (n ≡ Refusals.Memory) × (book_in self.new ≡ book_in self.old)) }
        ensures log { log_in self.new ≡ log_in self.old }
    {
        Ok(self.ledger.note_issued(call)?)
    }
}
