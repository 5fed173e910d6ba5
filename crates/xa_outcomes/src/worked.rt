//! Two sessions, worked out line by line: the first is left in its decision, the second recovers.

ghost use Rattle.std.specs.Prelude.{◌≡◌, codes, true, IfOk, IsSomeAnd, OnOk};
ghost use Rattle.xa_log.specs.Contract.{Honestly};
ghost use Rattle.xa_outcomes.specs.WorkedSessions.{AreMade, AreWorkedOut, Commits, IsLeftInDecide};
ghost use Rattle.xa_outcomes.specs.WorkedSessions.{IsMade, IsReplied, LeavesDeciding, first_gtrid};
ghost use Rattle.xa_outcomes.specs.WorkedSessions.{is_issued, lines_of_commit, lines_of_one, lines_of_two};
ghost use Rattle.xa_requests.specs.declared.response.Response.TheVariants as responses;
ghost use Rattle.xa_server.specs.Sessions.{IsEmptyLog};
ghost use Rattle.xa_server.specs.Votes.{is_heard};
ghost use Rattle.xa_session.specs.Session.{IsReady};
ghost use Rattle.xa_tm.specs.Calls.{log_in};

use std::alloc::Global;
use xa_base::Refusal;
use xa_log::DecisionLog;
use xa_names::laws::without_a_name_nothing_changes;
use xa_requests::{Response, read_request};
use xa_server::Server;
use xa_server::laws::replies_are_tracked;
use xa_session::laws::{sessions_are_explained, starts_are_tracked};
use xa_tm::StartFault;

/// Why two sessions aren't worked out.
#[derive(Clone, Copy, Debug, PartialEq, Eq)]
pub enum WorkedFault {
    /// A coordinator didn't start.
    Start(StartFault),
    /// A line was replied in another way, as over a log that isn't new.
    Reply,
    /// A request for memory was refused.
    Memory,
}

/// Does what a line asks for, and gives its reply.
fn tell<L: DecisionLog + Drop>(
    alloc: Global,
    server: &mut Server<L>,
    line: &str,
) -> Result<Response, WorkedFault>
    requires { IsReady server.old.session }
    ensures ready { IsReady server.new.session }
    ensures told { IfOk result (λ reply.
        IsReplied L.moment line.now server.old reply server.new) }
{
    match read_request(alloc, line) {
        Ok(Some(request)) => Ok(server.perform(&request)),
        Ok(None) => Err(WorkedFault::Reply),
        Err(_) => Err(WorkedFault::Memory),
    }
}

/// Whether the reply tells that the call waits.
fn is_issued(reply: &Response) -> bool
    ensures { result ≡ is_issued reply.now }
{
    matches!(reply, Response::Issued(_))
}

/// Whether the reply tells that the answer is heard.
fn is_heard(reply: &Response) -> bool
    ensures { result ≡ is_heard reply.now }
{
    matches!(reply, Response::Heard { .. })
}

/// Whether the reply tells that the first transaction of a new log has begun.
fn is_first(reply: &Response) -> bool
    ensures { result ≡ true → reply.now ≡ responses.Begun first_gtrid }
{
    match reply {
        Response::Begun(gtrid) => gtrid.incarnation == 1 && gtrid.sequence == 1,
        _ => false,
    }
}

/// Lets a call wait on its line, and tells its answer.
fn make<L: DecisionLog + Drop>(
    alloc: Global,
    server: &mut Server<L>,
    issue: &str,
    answer: &str,
) -> Result<(), WorkedFault>
    requires { IsReady server.old.session }
    ensures ready { IsReady server.new.session }
    ensures made { OnOk result (IsMade L.moment (record {
      issue = issue.now;
      answer = answer.now;
    }) server.old server.new) }
{
    let told = tell(alloc, server, issue)?;
    if !is_issued(&told) {
        return Err(WorkedFault::Reply);
    }
    let heard = tell(alloc, server, answer)?;
    if is_heard(&heard) {
        Ok(())
    } else {
        Err(WorkedFault::Reply)
    }
}

/// Prepares the branch at the one database.
fn prepare_one<L: DecisionLog + Drop>(
    alloc: Global,
    server: &mut Server<L>,
) -> Result<(), WorkedFault>
    requires { IsReady server.old.session }
    ensures ready { IsReady server.new.session }
    ensures made { OnOk result (AreMade L.moment lines_of_one server.old server.new) }
{
    make(alloc, server, "issue 0 0 xa_open", "answer 0 0 xa_open 0")?;
    make(
        alloc,
        server,
        "issue 0 0 xa_start 00000000000000010000000000000001",
        "answer 0 0 xa_start 00000000000000010000000000000001 0",
    )?;
    make(
        alloc,
        server,
        "issue 0 0 xa_end 00000000000000010000000000000001 TMSUCCESS",
        "answer 0 0 xa_end 00000000000000010000000000000001 0",
    )?;
    make(
        alloc,
        server,
        "issue 0 0 xa_prepare 00000000000000010000000000000001",
        "answer 0 0 xa_prepare 00000000000000010000000000000001 0",
    )
}

/// Prepares the branch at the other database.
fn prepare_two<L: DecisionLog + Drop>(
    alloc: Global,
    server: &mut Server<L>,
) -> Result<(), WorkedFault>
    requires { IsReady server.old.session }
    ensures ready { IsReady server.new.session }
    ensures made { OnOk result (AreMade L.moment lines_of_two server.old server.new) }
{
    make(alloc, server, "issue 0 1 xa_open", "answer 0 1 xa_open 0")?;
    make(
        alloc,
        server,
        "issue 0 1 xa_start 00000000000000010000000000000001",
        "answer 0 1 xa_start 00000000000000010000000000000001 0",
    )?;
    make(
        alloc,
        server,
        "issue 0 1 xa_end 00000000000000010000000000000001 TMSUCCESS",
        "answer 0 1 xa_end 00000000000000010000000000000001 0",
    )?;
    make(
        alloc,
        server,
        "issue 0 1 xa_prepare 00000000000000010000000000000001",
        "answer 0 1 xa_prepare 00000000000000010000000000000001 0",
    )
}

/// Begins a transaction, prepares a branch of it at each database, and decides to commit it, in
/// which the log has to fail.
fn decide_it<L: DecisionLog + Drop>(
    alloc: Global,
    server: &mut Server<L>,
) -> Result<(), WorkedFault>
    requires { IsReady server.old.session }
    ensures ready { IsReady server.new.session }
    ensures left { OnOk result (LeavesDeciding L.moment server.old server.new) }
{
    let begun = tell(alloc, server, "begin 0")?;
    if !is_first(&begun) {
        return Err(WorkedFault::Reply);
    }
    prepare_one(alloc, server)?;
    prepare_two(alloc, server)?;
    match tell(
        alloc,
        server,
        "decide 00000000000000010000000000000001 commit",
    )? {
        Response::Refused(Refusal::LogFault) => Ok(()),
        _ => Err(WorkedFault::Reply),
    }
}

/// Has the branch at the one database committed.
fn commit_one<L: DecisionLog + Drop>(
    alloc: Global,
    server: &mut Server<L>,
) -> Result<(), WorkedFault>
    requires { IsReady server.old.session }
    ensures ready { IsReady server.new.session }
    ensures made { OnOk result (AreMade L.moment lines_of_commit server.old server.new) }
{
    make(alloc, server, "issue 0 0 xa_open", "answer 0 0 xa_open 0")?;
    make(
        alloc,
        server,
        "issue 0 0 xa_commit 00000000000000010000000000000001",
        "answer 0 0 xa_commit 00000000000000010000000000000001 0",
    )
}

/// The first session, over a new log. It gives the log that it leaves.
fn first_session<L: DecisionLog + Drop>(alloc: Global, log: L) -> Result<L, WorkedFault>
    ensures { IfOk result (λ left. IsLeftInDecide L.moment log left) }
{
    match Server::new(alloc, 1, 2, log) {
        Ok(mut server) => match decide_it(alloc, &mut server) {
            Ok(()) => Ok(server.into_log()),
            Err(fault) => Err(fault),
        },
        Err(fault) => Err(WorkedFault::Start(fault)),
    }
}

/// The second session, over what the first left.
fn second_session<L: DecisionLog + Drop>(alloc: Global, log: L) -> Result<Server<L>, WorkedFault>
    ensures { IfOk result (λ last. Commits L.moment log last) }
{
    match Server::new(alloc, 1, 2, log) {
        Ok(mut server) => match commit_one(alloc, &mut server) {
            Ok(()) => Ok(server),
            Err(fault) => Err(fault),
        },
        Err(fault) => Err(WorkedFault::Start(fault)),
    }
}

/// What is supposed of sessions can be met. Over a new log whose first commit fails with its row
/// written, a server begins a transaction with a branch at each of two databases, hears both votes,
/// and is left in its decision; a second one over that log finds the row and has one of the
/// branches committed. Then that one is committed and the other prepared still, as the branches of
/// such sessions may stand (`AreServed`), or its database has ended it by itself since.
///
/// It gives the server that is left. Over another log it is `Reply`.
pub fn worked_sessions<L: DecisionLog + Drop>(
    alloc: Global,
    log: L,
) -> Result<Server<L>, WorkedFault>
    ensures worked { IfOk result (λ last.
        Honestly (L.moment log) (L.moment (log_in last.session.manager))
        (IsSomeAnd (L.moment log).content IsEmptyLog → AreWorkedOut L.moment last)) }
{
    replies_are_tracked::<L>();
    starts_are_tracked::<L>();
    sessions_are_explained::<L>();
    without_a_name_nothing_changes();
    let left = first_session(alloc, log)?;
    second_session(alloc, left)
}

#[cfg(test)]
mod tests {
    use super::*;
    use std::test::Fail;
    use xa_log::{FailLog, FailPlan, LogCall, MemLog};

    /// A new log in memory, whose first commit fails; the row is written where `made` is true.
    fn failing(alloc: Global, made: bool) -> FailLog {
        let plan = FailPlan::Once {
            kind: LogCall::Commit,
            at: 1,
            made,
        };
        FailLog::new(MemLog::new(alloc), plan)
    }

    #[test]
    fn both_sessions_are_served(rt: HostRuntime) -> Result<(), Fail> {
        let alloc = rt.alloc();
        assert!(rt; worked_sessions(alloc, failing(alloc, true)).is_ok());
        // Without the row the second session may not commit.
        assert!(rt; worked_sessions(alloc, failing(alloc, false)).is_err());
        Ok(())
    }
}
