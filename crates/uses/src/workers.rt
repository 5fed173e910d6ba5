//! `xa_workers`: jobs on worker threads.

ghost use Rattle.std.specs.Prelude.{◌≡◌, false, IfOk, IsSomeAnd};
ghost use Rattle.xa_log.specs.Content.{nothing, with_bump};
ghost use Rattle.xa_workers.specs.Jobs.{IsRunnable, ends_of};
ghost use Rattle.xa_workers.specs.Rows.{HasRows, rows_of_jobs};

use std::alloc::Global;
use std::sync::Wait;
use std::thread::Threads;
use std::time::Clock;
use xa_base::Outcome;
use xa_log::{DecisionLog, MemLog};
use xa_workers::{Gate, Jobs, Outcomes, Point, WorkFault, run_jobs};

/// A gate that holds nobody back.
pub struct Open;

impl Gate for Open {
    fn at(&self, _point: Point) -> bool {
        true
    }
}

/// Runs jobs over a new log. Without a recovery that sweeps them each ends as its votes say,
/// whatever the threads do.
pub fn ends<R: Threads + Wait + Clock + Sync>(
    rt: &R,
    alloc: Global,
    jobs: &Jobs,
) -> Result<Vec<Outcome>, WorkFault>
    requires { IsRunnable jobs.now }
    ensures { jobs.now.sweep ≡ false → IfOk result (λ ends. ends.items ≡ ends_of jobs.now) }
{
    Ok(run_jobs(rt, alloc, jobs, MemLog::new(alloc), &Open)?.ends)
}

/// Runs jobs over a new log. It then has a row for each job that committed with a yes, with the
/// branches that voted yes, and nothing else, and is of the first incarnation.
#[tactic(auto, using(crate::proofs::JobRows::has_just_rows))]
pub fn logged<R: Threads + Wait + Clock + Sync>(
    rt: &R,
    alloc: Global,
    jobs: &Jobs,
) -> Result<Outcomes<MemLog>, WorkFault>
    requires { IsRunnable jobs.now }
    ensures { IfOk result (λ o. IsSomeAnd (⟦<MemLog as DecisionLog>⟧.moment o.log).content
        (HasRows 1 (rows_of_jobs jobs.now 1 o.ends.items) (with_bump nothing))) }
{
    run_jobs(rt, alloc, jobs, MemLog::new(alloc), &Open)
}
