//! Runs that come to their end, and how many answers they take.

use crate::workers::gates::Counting;
use crate::workers::plans::{
    NO, READ_ONLY, YES, end_at, fault_of, four_jobs, jobs, push_job, swept,
};
use std::alloc::{AllocError, Global};
use std::process::Abort;
use std::sync::Wait;
use std::sync::atomic::Ordering;
use std::test::Fail;
use std::thread::Threads;
use std::time::Clock;
use xa_base::Outcome;
use xa_log::MemLog;
use xa_workers::{Jobs, WorkFault};

/// Exactly the branches that voted yes are sent xa_commit or xa_rollback: each other was ended by
/// its vote.
#[test]
fn the_last_phase_goes_to_who_voted_yes(rt: HostRuntime) -> Result<(), Fail> {
    let alloc = rt.alloc();
    for (votes, last) in [
        ([YES, YES], 2),
        ([YES, READ_ONLY], 1),
        ([NO, YES], 1),
        ([NO, READ_ONLY], 0),
    ] {
        let gate = Counting::new();
        let one = jobs(alloc, 1, 2, &[&votes])?;
        assert!(rt; fault_of(&rt, alloc, &one, MemLog::new(alloc), &gate).is_none());
        // xa_open, xa_start, xa_end and xa_prepare at both, and the last phase
        assert!(rt; gate.answered.load(Ordering::SeqCst) == 8 + last);
    }
    Ok(())
}

/// Four jobs, which are made again if they want memory, twice at most.
fn jobs_at_last(rt: &HostRuntime, alloc: Global) -> Result<Jobs, AllocError> {
    for _ in 0..2u32 {
        if let Ok(four) = four_jobs(alloc, 2) {
            return Ok(four);
        }
        let _ = rt.eprintln("no jobs");
    }
    four_jobs(alloc, 2)
}

/// A run that wants memory ends with a fault, with all its threads, and the same run again comes to
/// its end. So this holds whichever one request for memory is refused, or any two in a row; the
/// test says what it met.
#[test]
fn runs_again_after_want_of_memory(rt: HostRuntime) -> Result<(), Fail> {
    let alloc = rt.alloc();
    let four = swept(jobs_at_last(&rt, alloc)?);
    let mut end = end_at(&rt, alloc, &four, &Counting::new(), 1);
    for _ in 0..2u32 {
        if let Err(fault @ (WorkFault::Memory | WorkFault::Log)) = end {
            let _ = rt.eprintln(fault);
            end = end_at(&rt, alloc, &four, &Counting::new(), 1);
        }
    }
    assert!(rt; matches!(end, Ok(Some(Outcome::Rollback))));
    Ok(())
}

/// Fifteen jobs for each of eight threads, of which each seventh is rolled back.
fn many_jobs(alloc: Global) -> Result<Jobs, AllocError> {
    let mut votes = Vec::new(alloc);
    for job in 0..120u32 {
        let last = if job % 7 == 0 { NO } else { YES };
        let row = [YES, READ_ONLY, None, last, YES, YES, None, YES];
        push_job(alloc, &mut votes, &row)?;
    }
    Ok(Jobs {
        threads: 8,
        rms: 8,
        sweep: false,
        votes,
    })
}

/// Whether a run of jobs on their threads comes to its end.
fn comes_to_its_end<R: Threads + Wait + Clock + Sync + Abort>(
    rt: &R,
    alloc: Global,
    all: &Jobs,
) -> bool {
    fault_of(rt, alloc, all, MemLog::new(alloc), &Counting::new()).is_none()
}

#[test]
fn four_jobs_come_to_their_end_on_each_number_of_threads(rt: HostRuntime) -> Result<(), Fail> {
    let alloc = rt.alloc();
    for threads in 1..9u32 {
        let four = four_jobs(alloc, threads)?;
        assert!(rt; comes_to_its_end(&rt, alloc, &four));
    }
    Ok(())
}

#[test]
fn no_jobs_come_to_their_end(rt: HostRuntime) -> Result<(), Fail> {
    let alloc = rt.alloc();
    let none = swept(jobs(alloc, 8, 8, &[])?);
    assert!(rt; comes_to_its_end(&rt, alloc, &none));
    Ok(())
}

#[test]
fn many_jobs_on_all_threads(rt: HostRuntime) -> Result<(), Fail> {
    let alloc = rt.alloc();
    let many = many_jobs(alloc)?;
    assert!(rt; comes_to_its_end(&rt, alloc, &many));
    assert!(rt; comes_to_its_end(&rt, alloc, &swept(many)));
    Ok(())
}
