//! Runs over logs that fail.

use crate::workers::gates::Counting;
use crate::workers::plans::{YES, fault_of, four_jobs, jobs};
use std::sync::atomic::Ordering;
use std::test::Fail;
use xa_log::{FailLog, FailPlan, LogCall, MemLog};
use xa_workers::WorkFault;

/// However many resource managers a job has branches at, none of them is sent xa_commit without the
/// job's row.
#[test]
fn no_commit_is_issued_without_its_row(rt: HostRuntime) -> Result<(), Fail> {
    let alloc = rt.alloc();
    let plan = FailPlan::Every {
        kind: LogCall::Commit,
    };
    for rms in 1..9u32 {
        let gate = Counting::new();
        let log = FailLog::new(MemLog::new(alloc), plan);
        let one = jobs(alloc, 1, rms, &[&[YES; 8][..rms as usize]])?;
        let fault = fault_of(&rt, alloc, &one, log, &gate);
        assert!(rt; matches!(fault, Some(WorkFault::Log)));
        // xa_open, xa_start, xa_end and xa_prepare at each
        assert!(rt; gate.answered.load(Ordering::SeqCst) == 4 * u64::from(rms));
    }
    Ok(())
}

#[test]
fn a_failed_row_ends_the_run_also_where_it_was_made(rt: HostRuntime) -> Result<(), Fail> {
    let alloc = rt.alloc();
    let two = jobs(alloc, 1, 1, &[&[YES], &[YES]])?;
    for made in [false, true] {
        let gate = Counting::new();
        let plan = FailPlan::Once {
            kind: LogCall::Commit,
            at: 2,
            made,
        };
        let log = FailLog::new(MemLog::new(alloc), plan);
        let fault = fault_of(&rt, alloc, &two, log, &gate);
        assert!(rt; matches!(fault, Some(WorkFault::Log)));
        // xa_open, four calls of the first job and three of the second
        assert!(rt; gate.answered.load(Ordering::SeqCst) == 8);
    }
    Ok(())
}

/// A log that fails at the start, or at each row that two threads ask for.
#[test]
fn a_log_that_fails_is_told(rt: HostRuntime) -> Result<(), Fail> {
    let alloc = rt.alloc();
    let four = four_jobs(alloc, 2)?;
    for kind in [LogCall::Bump, LogCall::Rows, LogCall::Commit] {
        let log = FailLog::new(MemLog::new(alloc), FailPlan::Every { kind });
        let fault = fault_of(&rt, alloc, &four, log, &Counting::new());
        assert!(rt; matches!(fault, Some(WorkFault::Log)));
    }
    Ok(())
}
