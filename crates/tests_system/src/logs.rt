//! Logs over which no system is made, and what is told of them.

use crate::started::start_of_branch;
use crate::systems::{do_steps, new_system, next_system, one_rm, remains_of};
use std::test::Fail;
use xa_base::Gtrid;
use xa_log::{DecisionLog, FailLog, FailPlan, LogCall, MemLog};
use xa_system::{NewFault, Remains, ResumeFault};

/// No system is made over a log with a decision of the incarnation that it begins.
#[test]
fn refused_logs(rt: HostRuntime) -> Result<(), Fail> {
    let alloc = rt.alloc();
    let gtrid = Gtrid {
        incarnation: 2,
        sequence: 1,
    };
    let mut ahead = MemLog::new(alloc);
    ahead.bump()?;
    ahead.commit(gtrid, &[])?;
    let made = new_system(alloc, one_rm(alloc)?, ahead);
    assert!(rt; matches!(made, Err(NewFault::Log)));
    Ok(())
}

/// No system is made over a log that fails at the start, and that is told as a fault of the log: if
/// a system is new, and if it goes on from what another has left.
#[test]
fn failing_logs(rt: HostRuntime) -> Result<(), Fail> {
    let alloc = rt.alloc();
    for kind in [LogCall::Rows, LogCall::Bump] {
        let plan = FailPlan::Every { kind };
        let log = FailLog::new(MemLog::new(alloc), plan);
        let made = new_system(alloc, one_rm(alloc)?, log);
        assert!(rt; matches!(made, Err(NewFault::Log)));
        let log = FailLog::new(MemLog::new(alloc), plan);
        let made = next_system(alloc, one_rm(alloc)?, log);
        assert!(rt; matches!(made, Err(ResumeFault::Log)));
    }
    Ok(())
}

/// If a branch was started in the incarnation that the log gives, the log has lost what it had:
/// that is told as Newer, and neither as a fault of the log nor as want of memory.
#[test]
fn newer_branches(rt: HostRuntime) -> Result<(), Fail> {
    let alloc = rt.alloc();
    let mut system = new_system(alloc, one_rm(alloc)?, MemLog::new(alloc))?;
    assert!(rt; do_steps(&mut system, &start_of_branch()) == Ok(()));
    let Some(Remains { rms, .. }) = remains_of(system) else {
        return Err(Fail::from("out of memory"));
    };
    let made = next_system(alloc, rms, MemLog::new(alloc));
    assert!(rt; matches!(made, Err(ResumeFault::Newer)));
    Ok(())
}
