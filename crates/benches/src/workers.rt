//! How many jobs a second worker threads commit, over a log in memory.

use std::alloc::{AllocError, Global};
use std::sync::Wait;
use std::thread::Threads;
use std::time::{Clock, Instant};
use xa_base::{Outcome, Vote};
use xa_log::MemLog;
use xa_workers::{Gate, Jobs, Point, WorkFault, run_jobs};

const YES: Option<Vote> = Some(Vote::Yes);

/// How many jobs each run has.
pub(crate) const JOBS: usize = 1000;

/// A gate that holds nobody back.
pub(crate) struct Open;

impl Gate for Open {
    fn at(&self, _point: Point) -> bool {
        true
    }
}

/// Jobs with two yes votes each.
fn jobs(alloc: Global, threads: u32) -> Result<Jobs, AllocError> {
    let mut votes = Vec::new(alloc);
    for _ in 0..JOBS {
        votes.push([YES, YES].as_slice().to_vec(alloc)?)?;
    }
    Ok(Jobs {
        threads,
        rms: 2,
        sweep: false,
        votes,
    })
}

/// How many of the jobs a run commits.
fn committed<T: Threads + Wait + Clock + Sync>(
    rt: &T,
    alloc: Global,
    jobs: &Jobs,
) -> Result<usize, WorkFault> {
    if !jobs.is_runnable() {
        return Ok(0);
    }
    let done = run_jobs(rt, alloc, jobs, MemLog::new(alloc), &Open)?;
    Ok(
        done.ends
            .iter()
            .filter(|end| **end == Outcome::Commit)
            .count(),
    )
}

/// Times a run after one that isn't timed, and prints how many jobs it committed a second.
fn measure<T: Threads + Wait + Clock + Sync>(
    rt: &HostRuntime,
    threads: &T,
    jobs: &Jobs,
) -> anyhow::Result<()> {
    let _first = committed(threads, rt.alloc(), jobs)?;
    let start = Instant::now(rt)?;
    let count = committed(threads, rt.alloc(), jobs)?;
    let micros = start.elapsed(rt)?.as_micros();
    println!(rt;
        "{} threads, log in memory: {} a second",
        jobs.threads,
        count as u128 * 1_000_000 / micros.max(1)
    )?;
    Ok(())
}

/// Prints how many of 1,000 jobs with two yes votes are committed by 1, 2, 4 and 8 threads of
/// control at two resource managers, or, if they are timed, how many they are a second.
pub(crate) fn show<T: Threads + Wait + Clock + Sync>(
    rt: &HostRuntime,
    threads: &T,
    timed: bool,
) -> anyhow::Result<()> {
    for count in [1, 2, 4, 8] {
        let jobs = jobs(rt.alloc(), count)?;
        if timed {
            measure(rt, threads, &jobs)?;
        } else {
            let ended = committed(threads, rt.alloc(), &jobs)?;
            println!(rt; "{count} threads: {ended} committed")?;
        }
    }
    Ok(())
}
