//! Two sessions, worked out line by line, after which the log is made anew.

ghost use Rattle.std.specs.Prelude.{IfOk, IsSomeAnd};
ghost use Rattle.xa_log.specs.Contract.{Honestly};
ghost use Rattle.xa_mirror.specs.WorkedFailover.{FailsOver, LosesDecision};
ghost use Rattle.xa_server.specs.Sessions.{IsEmptyLog};
ghost use Rattle.xa_tm.specs.Calls.{log_in};

use crate::laws::{made_logs_go_on, mirrors_are_there, mirrors_go_on};
use std::alloc::Global;
use xa_log::DecisionLog;
use xa_outcomes::{WorkedFault, worked_sessions};
use xa_server::Server;

/// What is supposed of a log that was made anew can be met. A server begins a transaction with a
/// branch at each of two databases and is left in its decision; a second one over that log has one
/// of the branches committed ([`worked_sessions`]). Then the log is lost, and made anew of a mirror
/// that has its rows, in an incarnation that isn't smaller. The one branch may stand committed, and
/// the other prepared still, where such sessions leave them (`AreServedAnew`).
///
/// If the log is lost after the first session, and the mirror never got the row, a start over a log
/// that was made anew goes on from one right history with both branches prepared
/// (`LosesDecision`).
///
/// It gives the server that is left.
pub fn worked_failover<L: DecisionLog + Drop>(
    alloc: Global,
    log: L,
) -> Result<Server<L>, WorkedFault>
    ensures fails_over { IfOk result (λ last.
        Honestly (L.moment log) (L.moment (log_in last.session.manager))
        (IsSomeAnd (L.moment log).content IsEmptyLog → FailsOver L.moment last)) }
    ensures loses { IfOk result (λ last.
        Honestly (L.moment log) (L.moment (log_in last.session.manager))
        (IsSomeAnd (L.moment log).content IsEmptyLog → LosesDecision L.moment)) }
{
    made_logs_go_on::<L>();
    mirrors_go_on::<L>();
    mirrors_are_there();
    worked_sessions(alloc, log)
}

#[cfg(test)]
mod tests {
    use super::*;
    use std::test::Fail;
    use xa_log::{FailLog, FailPlan, LogCall, MemLog};

    #[test]
    fn both_sessions_are_served(rt: HostRuntime) -> Result<(), Fail> {
        let alloc = rt.alloc();
        let plan = FailPlan::Once {
            kind: LogCall::Commit,
            at: 1,
            made: true,
        };
        assert!(rt; worked_failover(alloc, FailLog::new(MemLog::new(alloc), plan)).is_ok());
        Ok(())
    }
}
