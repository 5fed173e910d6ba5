//! `xa_workers` over a log of one's own in a database: which rows it then holds.

ghost use Rattle.std.specs.Prelude.{◌≡◌, ◌+◌, IfOk, IsSomeAnd, IsTrue, Some};
ghost use Rattle.sqlite.specs.Files.{image_of};
ghost use Rattle.xa_log.specs.Content.{Content, nothing, with_bump};
ghost use Rattle.xa_log.specs.Contract.{Honestly};
ghost use Rattle.xa_sql_log.specs.ClosedFiles.{HoldsWhole};
ghost use Rattle.xa_workers.specs.Jobs.{IsRunnable};
ghost use Rattle.xa_workers.specs.Rows.{HasRows, rows_of_jobs};

use crate::workers::Open;
use sqlite::{FileStore, Files, MemStore, Options};
use sqlite_disk::Disk;
use std::alloc::Global;
use std::sync::Wait;
use std::thread::Threads;
use std::time::Clock;
use xa_log::DecisionLog;
use xa_sql_log::{SqlLog, memory_is_honest};
use xa_workers::{Jobs, Outcomes, WorkFault, run_jobs};

/// Runs jobs over a log in order. It then holds what it held, and a row for each job that committed
/// with a yes, with the branches that voted yes, and nothing else; and its incarnation is one more,
/// that of the jobs. If it is honest then, it was so before.
#[tactic(auto, using(crate::proofs::JobRows::has_rows_over, crate::proofs::JobRows::was_honest))]
pub fn logged_over<R: Threads + Wait + Clock + Sync, L: DecisionLog + Drop>(
    rt: &R,
    alloc: Global,
    jobs: &Jobs,
    log: L,
) -> Result<Outcomes<L>, WorkFault>
    requires { IsRunnable jobs.now }
    ensures honest { IfOk result (λ o. (L.moment o.log).is_honest → (L.moment log).is_honest) }
    ensures rows { IfOk result (λ o. Honestly (L.moment log) (L.moment o.log)
        ((before : Content) → (L.moment log).content ≡ Some before →
        IsSomeAnd (L.moment o.log).content (HasRows (before.incarnation + 1)
        (rows_of_jobs jobs.now (before.incarnation + 1) o.ends.items) (with_bump before)))) }
{
    run_jobs(rt, alloc, jobs, log, &Open)
}

/// The same over a new log in memory, with no premise: it is empty and in order when it is made,
/// and honest always.
pub fn logged_in_memory<R: Threads + Wait + Clock + Sync>(
    rt: &R,
    alloc: Global,
    jobs: &Jobs,
) -> Result<Outcomes<SqlLog<MemStore>>, WorkFault>
    requires { IsRunnable jobs.now }
    ensures { IfOk result (λ o. IsSomeAnd
        (⟦<SqlLog<MemStore> as DecisionLog>⟧.moment o.log).content
        (HasRows 1 (rows_of_jobs jobs.now 1 o.ends.items) (with_bump nothing))) }
{
    let log = SqlLog::open_in_memory(alloc)?;
    memory_is_honest();
    logged_over(rt, alloc, jobs, log)
}

/// The same over a log in files that hold a whole one: it then holds the rows that they held, and
/// those of the jobs. That the files give back what was written is the premise.
pub fn logged_in_files<R: Threads + Wait + Clock + Sync, D: Disk + Drop>(
    rt: &R,
    alloc: Global,
    jobs: &Jobs,
    files: Files<D>,
) -> Result<Outcomes<SqlLog<FileStore<D>>>, WorkFault>
    requires runnable { IsRunnable jobs.now }
    requires log { IsTrue (D.Disk.is_usable files.log) }
    requires db { IsTrue (D.Disk.is_usable files.db) }
    ensures { IfOk result (λ o.
        (⟦<SqlLog<FileStore<D>> as DecisionLog>⟧.moment o.log).is_honest →
        (before : Content) → HoldsWhole before (image_of D.Disk files) → IsSomeAnd
        (⟦<SqlLog<FileStore<D>> as DecisionLog>⟧.moment o.log).content
        (HasRows (before.incarnation + 1)
        (rows_of_jobs jobs.now (before.incarnation + 1) o.ends.items) (with_bump before))) }
{
    let log = SqlLog::open_files(alloc, files, Options::new(0))?;
    logged_over(rt, alloc, jobs, log)
}
