//! Jobs to be run, and how a run ends.

use std::alloc::{AllocError, Global};
use std::process::Abort;
use std::sync::Wait;
use std::thread::Threads;
use std::time::Clock;
use xa_base::{Branch, Gtrid, Outcome, RbCode, Vote};
use xa_log::{DecisionLog, MemLog};
use xa_workers::{Gate, Jobs, Outcomes, WorkFault, run_jobs};

pub(crate) const YES: Option<Vote> = Some(Vote::Yes);

pub(crate) const READ_ONLY: Option<Vote> = Some(Vote::ReadOnly);

pub(crate) const NO: Option<Vote> = Some(Vote::No(RbCode::Deadlock));

/// One job more, with these votes.
pub(crate) fn push_job(
    alloc: Global,
    votes: &mut Vec<Vec<Option<Vote>>>,
    row: &[Option<Vote>],
) -> Result<(), AllocError> {
    votes.push(row.to_vec(alloc)?)?;
    Ok(())
}

pub(crate) fn jobs(
    alloc: Global,
    threads: u32,
    rms: u32,
    rows: &[&[Option<Vote>]],
) -> Result<Jobs, AllocError> {
    let mut votes = Vec::new(alloc);
    for row in rows {
        push_job(alloc, &mut votes, row)?;
    }
    Ok(Jobs {
        threads,
        rms,
        sweep: false,
        votes,
    })
}

pub(crate) fn swept(jobs: Jobs) -> Jobs {
    Jobs {
        sweep: true,
        ..jobs
    }
}

pub(crate) fn run<R: Threads + Wait + Clock + Sync + Abort, L: DecisionLog + Drop, G: Gate + Sync>(
    rt: &R,
    alloc: Global,
    jobs: &Jobs,
    log: L,
    gate: &G,
) -> Result<Outcomes<L>, WorkFault> {
    assert!(rt; jobs.is_runnable());
    run_jobs(rt, alloc, jobs, log, gate)
}

/// The fault of a run, if it has one. What it came to is let go here, so that no test does.
pub(crate) fn fault_of<
    R: Threads + Wait + Clock + Sync + Abort,
    L: DecisionLog + Drop,
    G: Gate + Sync,
>(rt: &R, alloc: Global, jobs: &Jobs, log: L, gate: &G) -> Option<WorkFault> {
    run(rt, alloc, jobs, log, gate).err()
}

/// The end that comes at a place of a run over a new log. A run that has a fault has none.
pub(crate) fn end_at<R: Threads + Wait + Clock + Sync + Abort, G: Gate + Sync>(
    rt: &R,
    alloc: Global,
    jobs: &Jobs,
    gate: &G,
    place: usize,
) -> Result<Option<Outcome>, WorkFault> {
    let done = run(rt, alloc, jobs, MemLog::new(alloc), gate)?;
    Ok(done.ends.get(place).copied())
}

pub(crate) fn gtrid(sequence: u64) -> Gtrid {
    Gtrid {
        incarnation: 1,
        sequence,
    }
}

pub(crate) fn branch(sequence: u64, thread: u32, rm: u32) -> Branch {
    Branch {
        gtrid: gtrid(sequence),
        thread,
        rm,
    }
}

pub(crate) fn four_jobs(alloc: Global, threads: u32) -> Result<Jobs, AllocError> {
    jobs(
        alloc,
        threads,
        2,
        &[
            &[YES, YES],
            &[YES, NO],
            &[READ_ONLY, READ_ONLY],
            &[None, YES],
        ],
    )
}
