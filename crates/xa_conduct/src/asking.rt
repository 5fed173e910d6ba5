//! Requests are asked of the server.

ghost use Rattle.std.specs.Prelude.{◌≡◌, ◌∷◌, [], true};
ghost use Rattle.xa_conduct.specs.Acting.{GoesOn, GoesOnBy, is_done};
ghost use Rattle.xa_conduct.specs.Plain.{is_plain};
ghost use Rattle.xa_conduct.specs.declared.asking.Asked.TheVariants as Outcomes;
ghost use Rattle.xa_session.specs.Session.{IsReady};

use crate::laws::plain_requests_have_lines;
use crate::plan::Plan;
use std::alloc::Global;
use xa_base::Gtrid;
use xa_log::DecisionLog;
use xa_requests::{Request, RequestFault, Response};
use xa_server::Server;

/// What became of a request.
#[derive(Clone, Copy, Debug, PartialEq, Eq)]
pub(crate) enum Asked {
    Done,
    /// It reports an answer that no state of its branch explains: nothing was done.
    Unexplained,
    /// It is refused for another reason.
    Refused,
}

/// What a reply says of its request.
fn asked_by(reply: &Response) -> Asked
    ensures { result ≡ Outcomes.Done → is_done reply.now ≡ true }
{
    match reply {
        Response::Fault(RequestFault::NoSuchState) | Response::Fault(RequestFault::NoSuchAnswer) =>
            { Asked::Unexplained }
        Response::Refused(_) | Response::Fault(_) => Asked::Refused,
        _ => Asked::Done,
    }
}

/// The server's reply to a request.
pub(crate) fn reply_to<L: DecisionLog + Drop>(server: &mut Server<L>, request: &Request) -> Response
    requires plain { is_plain request.now ≡ true }
    requires ready { IsReady server.old.session }
    ensures ready { IsReady server.new.session }
    ensures acts { GoesOn L.moment server.old server.new }
    ensures done { is_done result ≡ true →
        GoesOnBy L.moment (request.now ∷ []) server.old server.new }
{
    plain_requests_have_lines();
    server.perform(request)
}

/// Has the server do one request. What became of it.
pub(crate) fn ask<L: DecisionLog + Drop>(server: &mut Server<L>, request: &Request) -> Asked
    requires plain { is_plain request.now ≡ true }
    requires ready { IsReady server.old.session }
    ensures ready { IsReady server.new.session }
    ensures acts { GoesOn L.moment server.old server.new }
    ensures done { result ≡ Outcomes.Done →
        GoesOnBy L.moment (request.now ∷ []) server.old server.new }
{
    let reply = reply_to(server, request);
    asked_by(&reply)
}

/// Has the server do all of a plan, in turn, up to the first request that is refused. Whether all was done.
pub(crate) fn ask_all<L: DecisionLog + Drop>(server: &mut Server<L>, plan: &Plan) -> bool
    requires { IsReady server.old.session }
    ensures ready { IsReady server.new.session }
    ensures acts { GoesOn L.moment server.old server.new }
    ensures done { result ≡ true →
        GoesOnBy L.moment plan.now.requests.items server.old server.new }
{
    for request in plan.requests() {
        match ask(server, request) {
            Asked::Done => {}
            Asked::Unexplained | Asked::Refused => return false,
        }
    }
    true
}

/// Asks that the row of a transaction leaves the log. It stays if some resource manager has yet to acknowledge.
fn ask_done<L: DecisionLog + Drop>(server: &mut Server<L>, alloc: Global, gtrid: Gtrid)
    requires { IsReady server.old.session }
    ensures ready { IsReady server.new.session }
    ensures acts { GoesOn L.moment server.old server.new }
{
    let mut plan = Plan::new(alloc);
    if let Ok(()) = plan.done(&[gtrid]) {
        let _ = ask_all(server, &plan);
    }
}

/// The same of each of these.
pub(crate) fn ask_each_done<L: DecisionLog + Drop>(
    server: &mut Server<L>,
    alloc: Global,
    gtrids: &[Gtrid],
)
    requires { IsReady server.old.session }
    ensures ready { IsReady server.new.session }
    ensures acts { GoesOn L.moment server.old server.new }
{
    for gtrid in gtrids {
        ask_done(server, alloc, *gtrid);
    }
}
