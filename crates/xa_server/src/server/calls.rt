//! Requests to make calls, and what was answered to them.

ghost use Rattle.std.specs.Prelude.{◌≡◌};
ghost use Rattle.xa_server.specs.Calls.{PerformsAnswer, PerformsIssue, answer_reply, are_same, is_to, waits_for_other};
ghost use Rattle.xa_base.specs.Answer.{answer_number};
ghost use Rattle.xa_base.specs.Call.{xid_in};
ghost use Rattle.xa_requests.specs.declared.response.Response.TheVariants as responses;
ghost use Rattle.xa_session.specs.Logging.{KeepsLog};
ghost use Rattle.xa_session.specs.Session.{IsReady};

use super::Server;
use super::replies::reply_of;
use xa_base::{Answer, Call, CallKind, Refusal, Xid};
use xa_log::DecisionLog;
use xa_requests::{CallName, RequestFault, Response};
use xa_session::Unfit;

impl<L: DecisionLog + Drop> Server<L> {
    /// A call waits on the line of a thread to a resource manager.
    pub(super) fn issue(&mut self, thread: u32, rm: u32, call: &Call) -> Response
        requires { IsReady self.old.session }
        ensures ready { IsReady self.new.session }
        ensures performs { PerformsIssue thread rm call.now self.old result self.new }
        ensures keeps { KeepsLog L.moment
            self.old.session.manager self.new.session.manager }
    {
        let issued = self.session.issue(thread, rm, call);
        reply_of(issued, Response::Issued(call.copy()))
    }

    /// Whether another call than that of this name waits first on a line.
    fn waits_for_other(&self, thread: u32, rm: u32, name: &CallName) -> bool
        ensures { result ≡ waits_for_other self.now.session.lines thread rm name.now }
    {
        match self.session.waiting(thread, rm) {
            Some(call) => !is_to(call, name),
            None => false,
        }
    }

    /// The call that waits first on a line was made, and answered so.
    pub(super) fn answer(
        &mut self,
        thread: u32,
        rm: u32,
        name: &CallName,
        answer: &Answer,
    ) -> Response
        requires { IsReady self.old.session }
        ensures ready { IsReady self.new.session }
        ensures performs { PerformsAnswer thread rm name.now answer.now self.old result self.new }
        ensures keeps { KeepsLog L.moment
            self.old.session.manager self.new.session.manager }
    {
        if self.waits_for_other(thread, rm, name) {
            return Response::Fault(RequestFault::OtherCall);
        }
        let reply = heard_of(name.kind, answer);
        let Ok(answer) = answer.copy(self.alloc) else {
            return Response::Refused(Refusal::Memory);
        };
        let heard = self.session.answer(thread, rm, answer);
        answer_reply(reply, heard)
    }
}

/// The reply to an answer that is heard.
fn heard_of(kind: CallKind, answer: &Answer) -> Response
    ensures { result ≡ responses.Heard kind (answer_number answer.now) }
{
    Response::Heard {
        kind,
        number: answer.number(),
    }
}

/// The reply to an answer: this, if it is heard.
fn answer_reply(reply: Response, heard: Result<(), Unfit>) -> Response
    ensures { result ≡ answer_reply reply heard }
{
    match heard {
        Ok(()) => reply,
        Err(Unfit::Refused(refusal)) => Response::Refused(refusal),
        Err(Unfit::NothingWaits) => Response::Fault(RequestFault::NothingWaits),
        Err(Unfit::NoSuchAnswer) => Response::Fault(RequestFault::NoSuchAnswer),
        Err(Unfit::NoSuchState(_)) => Response::Fault(RequestFault::NoSuchState),
    }
}

/// Whether an answer of this name is to this call.
fn is_to(call: &Call, name: &CallName) -> bool
    ensures { result ≡ is_to call.now name.now }
{
    call.is_of_kind(name.kind) && is_on(call, &name.xid)
}

/// Whether a call is on this branch, or on none where there is none.
fn is_on(call: &Call, xid: &Option<Xid>) -> bool
    ensures { result ≡ are_same (xid_in call.now) xid.now }
{
    match (call.xid(), xid) {
        (None, None) => true,
        (Some(on), Some(xid)) => on.cmp(xid).is_eq(),
        (None, Some(_)) | (Some(_), None) => false,
    }
}
