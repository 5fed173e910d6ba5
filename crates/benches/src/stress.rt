//! Runs of many jobs of mixed votes.

use crate::workers::{JOBS, Open};
use anyhow::bail;
use std::alloc::{AllocError, Global};
use std::sync::Wait;
use std::thread::Threads;
use std::time::Clock;
use xa_base::{Outcome, RbCode, Vote};
use xa_log::MemLog;
use xa_workers::{Jobs, run_jobs};

/// How many threads there are, and resource managers.
const SIZE: u32 = 8;

/// What a job votes at a resource manager: mostly yes, and in about every fourth job a no.
fn vote_of(run: u32, job: u32, rm: u32) -> Option<Vote> {
    let mixed = run
        .wrapping_mul(31)
        .wrapping_add(job.wrapping_mul(7))
        .wrapping_add(rm.wrapping_mul(11))
        .wrapping_add(job.wrapping_mul(rm));
    match mixed % 29 {
        0 => Some(Vote::No(RbCode::Deadlock)),
        1..4 => None,
        4..8 => Some(Vote::ReadOnly),
        _ => Some(Vote::Yes),
    }
}

/// The jobs of a run.
fn jobs_of(alloc: Global, run: u32) -> Result<Jobs, AllocError> {
    let mut votes = Vec::new(alloc);
    for job in 0..JOBS as u32 {
        let mut row = Vec::new(alloc);
        for rm in 0..SIZE {
            row.push(vote_of(run, job, rm))?;
        }
        votes.push(row)?;
    }
    Ok(Jobs {
        threads: SIZE,
        rms: SIZE,
        sweep: run % 2 == 1,
        votes,
    })
}

/// How the jobs end by their votes alone.
fn plain(alloc: Global, jobs: &Jobs) -> Result<Vec<Outcome>, AllocError> {
    let mut ends = Vec::new(alloc);
    for row in &jobs.votes {
        let refused = row.iter().any(|vote| matches!(vote, Some(Vote::No(_))));
        ends.push(if refused {
            Outcome::Rollback
        } else {
            Outcome::Commit
        })?;
    }
    Ok(ends)
}

/// Runs jobs of mixed votes so often, and prints how they ended in all. It ends at the first run
/// that ends with a fault or not as the votes say.
pub(crate) fn run<T: Threads + Wait + Clock + Sync>(
    rt: &HostRuntime,
    threads: &T,
    runs: u32,
) -> anyhow::Result<()> {
    let alloc = rt.alloc();
    let mut committed = 0u64;
    for run in 0..runs {
        let jobs = jobs_of(alloc, run)?;
        if !jobs.is_runnable() {
            bail!("the jobs of run {run} can't be run");
        }
        let done = run_jobs(threads, alloc, &jobs, MemLog::new(alloc), &Open)?;
        if !jobs.sweep && done.ends != plain(alloc, &jobs)? {
            bail!("run {run} didn't end as its votes say");
        }
        let count = done
            .ends
            .iter()
            .filter(|end| **end == Outcome::Commit)
            .count();
        committed = committed.saturating_add(count as u64);
    }
    println!(rt; "{runs} runs: {committed} committed")?;
    Ok(())
}
