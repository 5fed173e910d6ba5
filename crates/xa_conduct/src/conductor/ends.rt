//! What a recovery ends: how its calls were answered, and what is owed.

ghost use Rattle.std.specs.Prelude.{◌≡◌};
ghost use Rattle.xa_conduct.specs.Acting.{GoesOn};
ghost use Rattle.xa_session.specs.Session.{IsReady};

use super::Conductor;
use crate::asking::{Asked, ask, ask_each_done, reply_to};
use crate::debt::call_for;
use crate::plan::name_of;
use crate::recovery::{codes_for, ends_branch, is_end};
use crate::report::Report;
use xa_base::{Answer, Branch, Call, Code, Memory};
use xa_log::DecisionLog;
use xa_requests::{CallName, Request, call_text};

/// The branch that a call is on.
fn branch_of(call: &Call) -> Option<Branch> {
    call.xid()?.branch()
}

impl<L: DecisionLog + Drop> Conductor<L> {
    /// The call that was told was answered so, or the connection was lost.
    pub(super) fn hear_end(&mut self, rm: u32, report: Report) -> Result<String, Memory>
        requires { IsReady self.old.server.session }
        ensures ready { IsReady self.new.server.session }
        ensures acts { GoesOn L.moment self.old.server self.new.server }
        ensures kept { self.new.notes.transactions ≡ self.old.notes.transactions }
    {
        let Some(call) = self.waiting(rm) else {
            return self.text("error not now");
        };
        if !self.notes.is_recovering(rm) || !is_end(call.kind(), report) {
            return self.text("error not now");
        }
        match report {
            Report::Lost => self.break_off(rm),
            Report::Code(code) => self.hear_code(rm, &call, code),
        }
    }

    /// The connection of the recovery is lost.
    fn break_off(&mut self, rm: u32) -> Result<String, Memory>
        requires { IsReady self.old.server.session }
        ensures ready { IsReady self.new.server.session }
        ensures acts { GoesOn L.moment self.old.server self.new.server }
        ensures kept { self.new.notes.transactions ≡ self.old.notes.transactions }
    {
        if !matches!(
            ask(&mut self.server, &Request::CrashLine { thread: 0, rm }),
            Asked::Done
        ) {
            return self.stop();
        }
        if let Some(recovery) = self.notes.recoveries.get_mut(rm as usize) {
            recovery.break_off();
        }
        self.text("later")
    }

    /// The call that waits first on the line of a recovery was answered by a code, if there is one, which is heard so.
    fn try_code(&mut self, rm: u32, call: &Call, code: Option<Code>) -> Asked
        requires { IsReady self.old.server.session }
        ensures ready { IsReady self.new.server.session }
        ensures acts { GoesOn L.moment self.old.server self.new.server }
        ensures kept { self.new.notes.transactions ≡ self.old.notes.transactions }
    {
        let Some(code) = code else {
            return Asked::Unexplained;
        };
        let Some(branch) = branch_of(call) else {
            return Asked::Unexplained;
        };
        let kind = call.kind();
        if !ends_branch(kind) {
            return Asked::Unexplained;
        }
        let answer = Request::Answer {
            thread: 0,
            rm,
            name: CallName {
                kind,
                xid: Some(name_of(branch)),
            },
            answer: Answer::Ret(code),
        };
        ask(&mut self.server, &answer)
    }

    /// The call that waits first on the line of a recovery was answered so: the first meaning that the branch explains.
    /// A meaning that no state explains changes nothing, so the next can be tried.
    fn hear_code(&mut self, rm: u32, call: &Call, said: Code) -> Result<String, Memory>
        requires { IsReady self.old.server.session }
        ensures ready { IsReady self.new.server.session }
        ensures acts { GoesOn L.moment self.old.server self.new.server }
        ensures kept { self.new.notes.transactions ≡ self.old.notes.transactions }
    {
        let [first, second, third] = codes_for(call.kind(), said);
        match self.try_code(rm, call, first) {
            Asked::Done => return self.note_end(rm, call, first),
            Asked::Refused => return self.stop(),
            Asked::Unexplained => {}
        }
        match self.try_code(rm, call, second) {
            Asked::Done => return self.note_end(rm, call, second),
            Asked::Refused => return self.stop(),
            Asked::Unexplained => {}
        }
        match self.try_code(rm, call, third) {
            Asked::Done => self.note_end(rm, call, third),
            Asked::Refused | Asked::Unexplained => self.stop(),
        }
    }

    /// An answer was heard. A branch that ended by itself is to be forgotten: what became of that request, where it is due.
    fn ask_forget(&mut self, rm: u32, call: &Call, code: Option<Code>) -> Asked
        requires { IsReady self.old.server.session }
        ensures ready { IsReady self.new.server.session }
        ensures acts { GoesOn L.moment self.old.server self.new.server }
        ensures kept { self.new.notes.transactions ≡ self.old.notes.transactions }
    {
        let Some(Code::Heuristic(_)) = code else {
            return Asked::Done;
        };
        let Some(branch) = branch_of(call) else {
            return Asked::Done;
        };
        let forget = Request::Issue {
            thread: 0,
            rm,
            call: Call::Forget {
                xid: name_of(branch),
            },
        };
        match ask(&mut self.server, &forget) {
            // Of an earlier session's branch that no page listed the session knows too little. The page that
            // lists it is told the call.
            Asked::Refused | Asked::Unexplained
                if branch.gtrid.incarnation < self.notes.incarnation => Asked::Done,
            asked => asked,
        }
    }

    /// An answer was heard: what follows from it.
    fn note_end(&mut self, rm: u32, call: &Call, code: Option<Code>) -> Result<String, Memory>
        requires { IsReady self.old.server.session }
        ensures ready { IsReady self.new.server.session }
        ensures acts { GoesOn L.moment self.old.server self.new.server }
        ensures kept { self.new.notes.transactions ≡ self.old.notes.transactions }
    {
        match self.ask_forget(rm, call, code) {
            Asked::Done => {}
            Asked::Refused | Asked::Unexplained => return self.stop(),
        }
        self.notes.note_paid(rm, code == Some(Code::Retry))?;
        self.go_on(rm)
    }

    /// What is owed at a resource manager: to branches of this session, and to those of rows of earlier ones.
    pub(super) fn find_debts(&mut self, rm: u32) -> Result<(), Memory>
        requires { IsReady self.old.server.session }
        ensures ready { IsReady self.new.server.session }
        ensures acts { GoesOn L.moment self.old.server self.new.server }
        ensures kept { self.new.notes.transactions ≡ self.old.notes.transactions }
    {
        let owed = reply_to(&mut self.server, &Request::Owed { rm });
        self.notes.find_debts(rm, &owed)
    }

    /// The next debt is to be paid; or the recovery is over.
    pub(super) fn pay_next(&mut self, rm: u32) -> Result<String, Memory>
        requires { IsReady self.old.server.session }
        ensures ready { IsReady self.new.server.session }
        ensures acts { GoesOn L.moment self.old.server self.new.server }
        ensures kept { self.new.notes.transactions ≡ self.old.notes.transactions }
    {
        let Some(debt) = self.notes.next_debt(rm) else {
            return self.end_recovery(rm);
        };
        let call = call_for(&debt);
        let text = call_text(self.alloc, &call)?;
        let pays = Request::Issue {
            thread: 0,
            rm,
            call,
        };
        match ask(&mut self.server, &pays) {
            Asked::Done => Ok(text),
            Asked::Refused | Asked::Unexplained => self.stop(),
        }
    }

    /// The recovery is over: rows leave the log of which this was the last resource manager.
    fn end_recovery(&mut self, rm: u32) -> Result<String, Memory>
        requires { IsReady self.old.server.session }
        ensures ready { IsReady self.new.server.session }
        ensures acts { GoesOn L.moment self.old.server self.new.server }
        ensures kept { self.new.notes.transactions ≡ self.old.notes.transactions }
    {
        let rows = self.notes.end_recovery(rm)?;
        ask_each_done(&mut self.server, self.alloc, rows.as_slice());
        if !self.ask_over()? {
            return self.stop();
        }
        self.notes.tell_recovered(rm)
    }
}
