//! A commit in two phases whose log fails at the decision, which it has made, over a log that fails
//! by plan; and logs that a manager doesn't take meanwhile.

ghost use Rattle.std.specs.Prelude.{◌≡◌};
ghost use Rattle.xa_log.specs.Contract.{FitsRow};

use crate::rows::act::{Act, FIRST, meets_stop, perform};
use crate::rows::recovery::end_as_the_log_says;
use crate::rows::table::TWO_PHASE_COMMIT;
use crate::systems::{new_system, taken_log};
use std::alloc::Global;
use std::process::Abort;
use std::test::Fail;
use xa_base::{Branch, Gtrid, Refusal, Reply};
use xa_log::{DecisionLog, FailLog, FailPlan, LogCall, LogFault, Logged, MemLog};
use xa_rm::MemRm;
use xa_system::{SwapFault, System};

/// The branch of a transaction at a resource manager.
fn branch(gtrid: Gtrid, rm: u32) -> Branch
    ensures { result.gtrid ≡ gtrid }
{
    Branch {
        gtrid,
        thread: 0,
        rm,
    }
}

/// A log in memory that fails once, at its first call of a kind.
fn log_that_fails(alloc: Global, kind: LogCall, made: bool) -> FailLog {
    FailLog::new(MemLog::new(alloc), FailPlan::Once { kind, at: 1, made })
}

/// Decides a transaction with a branch at both resource managers.
fn commit_both(log: &mut MemLog, gtrid: Gtrid) -> Result<Logged, LogFault>
    requires { FitsRow gtrid }
{
    log.commit(gtrid, &[branch(gtrid, 0), branch(gtrid, 1)])
}

/// A log that has, beside the row of FIRST, a decision of which the manager knows nothing.
fn log_with_more(alloc: Global) -> Result<FailLog, LogFault> {
    let gtrid = Gtrid {
        sequence: 9,
        ..FIRST
    };
    let mut log = MemLog::new(alloc);
    commit_both(&mut log, FIRST)?;
    commit_both(&mut log, gtrid)?;
    let kind = LogCall::Participants;
    Ok(FailLog::new(log, FailPlan::Every { kind }))
}

/// Why a log isn't taken, if it isn't.
fn fault_of(system: &mut System<MemRm, FailLog>, log: FailLog) -> Option<SwapFault> {
    match system.give_log(log) {
        Ok(()) => None,
        Err((fault, _log)) => Some(fault),
    }
}

/// Whether a manager that is up gives no log out, and takes none.
fn keeps_its_log(alloc: Global, system: &mut System<MemRm, FailLog>) -> bool {
    let fault = fault_of(system, log_that_fails(alloc, LogCall::Done, false));
    matches!(fault, Some(SwapFault::Up)) && taken_log(system).is_none()
}

/// Whether a manager whose log is out stays down: there is no other log to take out, and no restart
/// is accepted.
fn stays_down(system: &mut System<MemRm, FailLog>) -> bool {
    taken_log(system).is_none()
        && matches!(
            perform(system, Act::RestartManager),
            Reply::Refused(Refusal::LogFault)
        )
}

/// Whether a manager that is down takes neither a log with more rows nor one that can't be read.
fn takes_no_other_log(
    alloc: Global,
    system: &mut System<MemRm, FailLog>,
) -> Result<bool, LogFault> {
    let more = fault_of(system, log_with_more(alloc)?);
    let blind = fault_of(system, log_that_fails(alloc, LogCall::Rows, false));
    Ok(matches!(more, Some(SwapFault::OtherRows)) && matches!(blind, Some(SwapFault::Log)))
}

/// A manager that is down takes its own log again, and ends as that says.
fn takes_its_log(rt: &impl Abort, system: &mut System<MemRm, FailLog>, log: FailLog) {
    assert!(rt; fault_of(system, log).is_none());
    let found = end_as_the_log_says(rt, system, 2);
    assert!(rt; found.incarnation == 2 && found.heuristics == 0 && found.decisions == 1);
}

/// The log fails at a change, is taken out, and given back once two others weren't taken.
fn swaps_in(
    rt: &impl Abort,
    alloc: Global,
    system: &mut System<MemRm, FailLog>,
) -> Result<(), Fail> {
    assert!(rt; keeps_its_log(alloc, system));
    assert!(rt; meets_stop(system, TWO_PHASE_COMMIT.parts));
    let Some(log) = taken_log(system) else {
        return Err(Fail::from("no log"));
    };
    let others = takes_no_other_log(alloc, system);
    let is_down = stays_down(system);
    takes_its_log(rt, system, log);
    assert!(rt; is_down && matches!(others, Ok(true)));
    Ok(())
}

#[test]
fn a_decision_in_doubt(rt: HostRuntime) -> Result<(), Fail> {
    let log = log_that_fails(rt.alloc(), LogCall::Commit, true);
    let mut system = new_system(rt.alloc(), 1, 2, log)?;
    swaps_in(&rt, rt.alloc(), &mut system)
}
