//! `xa_jobs`: a jobs file is run on threads, and a line for each job is printed.

ghost use Rattle.std.specs.Prelude.{IfOk};
ghost use Rattle.uses.specs.FirstRuns.{IsFirstRun};

use std::alloc::Global;
use std::sync::Wait;
use std::thread::Threads;
use std::time::Clock;
use xa_files::RunFault;
use xa_jobs::run_job_file;
use xa_log::{DecisionLog, MemLog};

/// What a run of a jobs file over a new log prints, and that log, with no premise. It has a row for
/// each job that is printed as committed and of which a branch voted yes, and nothing else, and is
/// of the first incarnation.
#[tactic(auto, using(crate::proofs::JobRows::is_first_run))]
pub fn printed_and_logged<R: Threads + Wait + Clock + Sync>(
    rt: &R,
    alloc: Global,
    text: &[u8],
) -> Result<(Vec<u8>, MemLog), RunFault>
    ensures { IfOk result (λ done. IsFirstRun text.now done.0.items
        (⟦<MemLog as DecisionLog>⟧.moment done.1).content) }
{
    let mut out = Vec::new(alloc);
    let log = run_job_file(rt, alloc, text, MemLog::new(alloc), &mut out)?;
    Ok((out, log))
}
