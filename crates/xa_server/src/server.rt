//! The server: a session, and what each request asks of it. A file for each family of requests.

ghost use Rattle.std.specs.Prelude.{◌≡◌, ◌∷◌, [], Bool, true, Err, IfOk, IsSomeAnd};
ghost use Rattle.xa_server.specs.Performing.{ChangesNothing, Does, Performs, is_not_done, is_one_step};
ghost use Rattle.xa_server.specs.Releasing.{ended_by};
ghost use Rattle.xa_server.specs.Replies.{greeting_of, greeting_over};
ghost use Rattle.xa_server.specs.Rows.{LogsRows, OwesAllBut, OwesRowsOf, committed_by, finished_by};
ghost use Rattle.xa_base.specs.declared.branch.Gtrid.{Gtrid};
ghost use Rattle.xa_log.specs.Contract.{Honestly};
ghost use Rattle.xa_model.specs.Trace.{Origin};
ghost use Rattle.xa_session.specs.Following.{StandsAtStart};
ghost use Rattle.xa_session.specs.Logging.{HoldsItsBook, KeepsLog};
ghost use Rattle.xa_session.specs.Session.{IsReady};
ghost use Rattle.xa_monitor.specs.Explained.{HasOnlyOlderRows};
ghost use Rattle.xa_tm.specs.Begins.{BeginsWith};
ghost use Rattle.xa_tm.specs.Calls.{book_in, log_in};
ghost use Rattle.xa_tm.specs.Release.{HoldsNothingOf, IsOver};
ghost use Rattle.xa_tm.specs.Started.{IsStarted, IsStartedOver};
ghost use Rattle.xa_tm.specs.StartFaults.{IsOnlyRead, IsToBlame};

mod calls;
mod crashes;
mod decisions;
mod looks;
mod recoveries;
mod releases;
mod replies;

use std::alloc::Global;
use xa_log::DecisionLog;
use xa_requests::{Request, Response};
use xa_session::Session;
use xa_tm::StartFault;

/// The coordinator of a driver, over a decision log.
///
/// Each method asks that its session is ready (`IsReady`), and leaves it so. A server that [`Server::new`] gives
/// has one that is.
#[derive(Drop)]
pub struct Server<L: DecisionLog + Drop> {
    pub(crate) alloc: Global,
    pub(crate) session: Session<L>,
}

impl<L: DecisionLog + Drop> Server<L> {
    /// A server over a log, of so many threads and resource managers.
    pub fn new(alloc: Global, threads: u32, rms: u32, log: L) -> Result<Server<L>, StartFault>
        ensures ready { IfOk result (λ c. IsReady c.session) }
        ensures stands { IfOk result (λ c. StandsAtStart threads rms c.session) }
        ensures old { IfOk result (λ c. (o : Origin) →
            BeginsWith threads rms c.session.manager o → HasOnlyOlderRows o) }
        ensures count { IfOk result (λ c. c.session.happenings ≡ 0) }
        // What the log had: all that its rows wait for is owed, and the first line has the numbers of its rows and records.
        ensures owed { IfOk result (λ c.
            Honestly (L.moment log) (L.moment (log_in c.session.manager))
            (IsSomeAnd (L.moment log).content (OwesRowsOf (book_in c.session.manager)))) }
        ensures greets { IfOk result (λ c.
            Honestly (L.moment log) (L.moment (log_in c.session.manager))
            (IsSomeAnd (L.moment log).content (λ content. greeting_of c ≡ greeting_over content))) }
        // The log that was handed in: its rows and its records, and its incarnation, which is raised.
        ensures started { IfOk result (λ c. IsStarted threads rms c.session.manager) }
        ensures over { IfOk result (λ c.
            IsStartedOver L.moment threads rms (L.moment log) c.session.manager) }
        ensures holds { (near : Bool) → IfOk result (λ c.
            Honestly (L.moment log) (L.moment (log_in c.session.manager))
            (HoldsItsBook L.moment near c.session.manager)) }
        // Over which logs none starts, and what is left of them.
        ensures log_fault { result ≡ Err StartFault.Log → IsToBlame L.DecisionLog log }
        ensures memory_fault { result ≡ Err StartFault.Memory →
            ((left : L) × IsOnlyRead L.DecisionLog log left) }
    {
        match Session::new(alloc, threads, rms, log) {
            Ok(session) => Ok(Server { alloc, session }),
            Err(fault) => Err(fault),
        }
    }

    /// Its log, where the session ends.
    pub fn into_log(self) -> L
        ensures { result ≡ log_in self.session.manager }
    {
        self.session.into_log()
    }

    /// The first line of a session.
    pub fn greeting(&self) -> Response
        ensures { result ≡ greeting_of self.now }
    {
        Response::Restarted {
            incarnation: self.session.incarnation(),
            decisions: self.session.row_count() as usize,
            heuristics: self.session.record_count() as usize,
        }
    }

    /// Does what a request asks for, and gives its reply.
    fn act(&mut self, request: &Request) -> Response
        requires { IsReady self.old.session }
        ensures ready { IsReady self.new.session }
        ensures does { Does request.now self.old result self.new }
        ensures unchanged { is_one_step request.now ≡ true → is_not_done result ≡ true →
            ChangesNothing self.old self.new }
        ensures keeps { KeepsLog L.moment
            self.old.session.manager self.new.session.manager }
        ensures rows { LogsRows L.moment (committed_by request.now)
            self.old.session result self.new.session }
    {
        match request {
            Request::Begin { thread } => self.begin(*thread),
            Request::Issue { thread, rm, call } => self.issue(*thread, *rm, call),
            Request::Answer {
                thread,
                rm,
                name,
                answer,
            } => self.answer(*thread, *rm, name, answer),
            Request::Decide { gtrids, outcome } => self.decide(gtrids.as_slice(), *outcome),
            Request::Claim { gtrid } => self.claim(*gtrid),
            Request::Settle { gtrid } => self.settle(*gtrid),
            Request::Abandon { gtrid } => self.abandon(*gtrid),
            Request::Done { gtrids } => self.done(gtrids.as_slice()),
            Request::Resolve { rm } => self.resolve(*rm),
            Request::ResolveOpen { rm } => self.resolve_open(*rm),
            Request::Waiting { thread, rm } => self.waiting(*thread, *rm),
            Request::Owed { rm } => self.owed(*rm),
            Request::CrashLine { thread, rm } => self.crash_line(*thread, *rm),
            Request::CrashRm { rm } => self.crash_rm(*rm),
            Request::Status => self.status(),
            Request::Quit => Response::Bye,
        }
    }

    /// Does what a request asks for, and gives its reply. Of the transactions whose last step that may have been, what is
    /// over is then forgotten, so that memory is taken only for those that are open.
    ///
    /// What is refused changes nothing, but for LogFault; of a `crash rm`, which is several steps, those before the one
    /// that is refused are done. Where a log that held what the book says was honest so far, the rows of all transactions
    /// are in it before their commit is replied by `decided`, of each that some branch voted XA_OK for.
    pub fn perform(&mut self, request: &Request) -> Response
        requires { IsReady self.old.session }
        ensures ready { IsReady self.new.session }
        ensures performs { Performs L.moment request.now self.old result self.new }
        ensures unchanged { is_one_step request.now ≡ true → is_not_done result ≡ true →
            ChangesNothing self.old self.new }
        // What was owed still is, except for the transactions that are done by this, and nothing more is.
        ensures owed { OwesAllBut (finished_by request.now result)
            (book_in self.old.session.manager) (book_in self.new.session.manager) }
        // Nothing is held of the transaction of an answered call, or of one that alone is decided or done, if it is over.
        ensures forgotten { (g : Gtrid) → ended_by request.now result ≡ g ∷ [] →
            IsOver (book_in self.new.session.manager) g →
            HoldsNothingOf g self.new.session.manager }
        ensures rows { LogsRows L.moment (committed_by request.now)
            self.old.session result self.new.session }
    {
        let reply = self.act(request);
        self.release_ended(request, &reply);
        reply
    }
}
