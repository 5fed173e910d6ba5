//! Transactions that are over are forgotten, so that a session takes memory only for those that are open.

ghost use Rattle.std.specs.Prelude.{◌≡◌};
ghost use Rattle.xa_server.specs.Releasing.{Releases, ReleasesAll, all_if_taken, ended_by, if_taken, says_taken, transaction_of};
ghost use Rattle.xa_session.specs.Session.{IsReady};

use super::Server;
use xa_base::Gtrid;
use xa_log::DecisionLog;
use xa_requests::{CallName, Request, Response};

impl<L: DecisionLog + Drop> Server<L> {
    /// Forgets all that is noted of a transaction, if it is over.
    fn release(&mut self, gtrid: Gtrid)
        requires { IsReady self.old.session }
        ensures ready { IsReady self.new.session }
        ensures releases { Releases gtrid self.old self.new }
    {
        let _ = self.session.release(gtrid);
    }

    /// Forgets these in turn, each if it is over.
    fn release_all(&mut self, gtrids: &[Gtrid])
        requires { IsReady self.old.session }
        ensures ready { IsReady self.new.session }
        ensures releases { ReleasesAll gtrids.now self.old self.new }
    {
        for gtrid in gtrids {
            self.release(*gtrid);
        }
    }

    /// Forgets this one if it is over, where the reply tells that a step of it was taken.
    fn release_taken(&mut self, gtrid: Option<Gtrid>, reply: &Response)
        requires { IsReady self.old.session }
        ensures ready { IsReady self.new.session }
        ensures releases { ReleasesAll (if_taken reply.now gtrid) self.old self.new }
    {
        if let Some(gtrid) = gtrid {
            if says_taken(reply) {
                self.release(gtrid);
            }
        }
    }

    /// Forgets these in turn, each if it is over, where the reply tells that the last step of each was taken.
    fn release_all_taken(&mut self, gtrids: &[Gtrid], reply: &Response)
        requires { IsReady self.old.session }
        ensures ready { IsReady self.new.session }
        ensures releases { ReleasesAll (all_if_taken reply.now gtrids.now) self.old self.new }
    {
        if says_taken(reply) {
            self.release_all(gtrids);
        }
    }

    /// Forgets the transactions whose last step this request may have been, each if it is over.
    pub(super) fn release_ended(&mut self, request: &Request, reply: &Response)
        requires { IsReady self.old.session }
        ensures ready { IsReady self.new.session }
        ensures releases { ReleasesAll (ended_by request.now reply.now) self.old self.new }
    {
        match request {
            Request::Answer { name, .. } => self.release_taken(transaction_of(name), reply),
            Request::Decide { gtrids, .. } => self.release_all_taken(gtrids.as_slice(), reply),
            Request::Settle { gtrid } => self.release_taken(Some(*gtrid), reply),
            Request::Abandon { gtrid } => self.release_taken(Some(*gtrid), reply),
            Request::Done { gtrids } => self.release_all_taken(gtrids.as_slice(), reply),
            _ => {}
        }
    }
}

/// Whether a reply tells that an answer was heard, that decisions were taken, or that rows left the log.
fn says_taken(reply: &Response) -> bool
    ensures { result ≡ says_taken reply.now }
{
    matches!(
        reply,
        Response::Heard { .. } | Response::Decided | Response::Noted
    )
}

/// The transaction of the branch that a call is on.
fn transaction_of(name: &CallName) -> Option<Gtrid>
    ensures { result ≡ transaction_of name.now }
{
    let branch = name.xid.as_ref()?.branch()?;
    Some(branch.gtrid)
}
