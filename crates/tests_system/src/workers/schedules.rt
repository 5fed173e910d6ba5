//! Runs whose gates hold workers back: that they work side by side, and in which order decisions
//! and sweeps come.

use crate::workers::gates::{After, Lagging, Meeting, Shut};
use crate::workers::plans::{YES, end_at, fault_of, jobs, run, swept};
use std::alloc::Global;
use std::process::Abort;
use std::sync::Wait;
use std::sync::atomic::Ordering;
use std::test::Fail;
use std::thread::Threads;
use std::time::Clock;
use xa_base::Outcome;
use xa_log::MemLog;
use xa_workers::{Gate, Jobs, Point, WorkFault};

/// Whether all jobs of a run commit.
fn all_commit<R: Threads + Wait + Clock + Sync + Abort, G: Gate + Sync>(
    rt: &R,
    alloc: Global,
    jobs: &Jobs,
    gate: &G,
) -> Result<bool, WorkFault> {
    let done = run(rt, alloc, jobs, MemLog::new(alloc), gate)?;
    Ok(done.ends.iter().all(|end| matches!(end, Outcome::Commit)))
}

/// Whether two workers meet at these points, in a run whose jobs commit.
fn meet<R: Threads + Wait + Clock + Sync + Abort>(
    rt: &R,
    alloc: Global,
    jobs: &Jobs,
    points: [Point; 2],
) -> Result<bool, WorkFault> {
    let gate = Meeting::new(points);
    Ok(all_commit(rt, alloc, jobs, &gate)? && !gate.failed.load(Ordering::SeqCst))
}

#[test]
fn two_resource_managers_work_side_by_side(rt: HostRuntime) -> Result<(), Fail> {
    let one = jobs(rt.alloc(), 1, 2, &[&[YES, YES]])?;
    let points = [Point::Answering(0), Point::Answering(1)];
    assert!(rt; meet(&rt, rt.alloc(), &one, points)?);
    Ok(())
}

#[test]
fn two_threads_decide_side_by_side(rt: HostRuntime) -> Result<(), Fail> {
    let two = jobs(rt.alloc(), 2, 1, &[&[YES], &[YES]])?;
    let points = [Point::Deciding(0), Point::Deciding(1)];
    assert!(rt; meet(&rt, rt.alloc(), &two, points)?);
    Ok(())
}

/// Whether a run is stuck whose gate is shut at this point. It asks the gate a million times, which
/// takes a second, and much of a test's minute on a busy machine: so each point has its own test.
fn is_stuck<R: Threads + Wait + Clock + Sync + Abort>(
    rt: &R,
    alloc: Global,
    at: Point,
) -> Result<bool, Fail> {
    let one = swept(jobs(alloc, 1, 1, &[&[YES]])?);
    let fault = fault_of(rt, alloc, &one, MemLog::new(alloc), &Shut { at });
    Ok(matches!(fault, Some(WorkFault::Stuck)))
}

#[test]
fn a_gate_that_is_shut_before_an_answer_is_stuck(rt: HostRuntime) -> Result<(), Fail> {
    assert!(rt; is_stuck(&rt, rt.alloc(), Point::Answering(0))?);
    Ok(())
}

#[test]
fn a_gate_that_is_shut_before_a_decision_is_stuck(rt: HostRuntime) -> Result<(), Fail> {
    assert!(rt; is_stuck(&rt, rt.alloc(), Point::Deciding(0))?);
    Ok(())
}

#[test]
fn a_gate_that_is_shut_before_a_sweep_is_stuck(rt: HostRuntime) -> Result<(), Fail> {
    assert!(rt; is_stuck(&rt, rt.alloc(), Point::Sweeping(0))?);
    Ok(())
}

#[test]
fn the_first_to_reach_a_job_decides_it(rt: HostRuntime) -> Result<(), Fail> {
    let alloc = rt.alloc();
    let one = swept(jobs(alloc, 1, 2, &[&[YES, YES]])?);
    let swept_first = After::new(Point::Answering(0), Point::Swept(0), 1);
    let end = end_at(&rt, alloc, &one, &swept_first, 0)?;
    assert!(rt; matches!(end, Some(Outcome::Rollback)));
    let decided_first = After::new(Point::Sweeping(0), Point::Answered(0), 5);
    let end = end_at(&rt, alloc, &one, &decided_first, 0)?;
    assert!(rt; matches!(end, Some(Outcome::Commit)));
    Ok(())
}

/// Resource manager 1 answers xa_open, four calls of the first job and three of the second before
/// resource manager 0 answers the first job's xa_commit.
#[test]
fn a_job_begins_before_the_last_answers_of_the_one_before(rt: HostRuntime) -> Result<(), Fail> {
    let alloc = rt.alloc();
    let two = jobs(alloc, 1, 2, &[&[YES, YES], &[YES, YES]])?;
    assert!(rt; all_commit(&rt, alloc, &two, &Lagging::new())?);
    Ok(())
}
