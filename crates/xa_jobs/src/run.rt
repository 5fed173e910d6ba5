//! Runs of jobs files, over any log and any writer.

ghost use Rattle.std.specs.Prelude.{◌≡◌, ◌≢◌, ◌⊎◌, Err, IfErr, IfOk, IsErr, IsErrAnd, Ok, OnOk};
ghost use Rattle.std.specs.Io.KnownBytes.{Keeps};
ghost use Rattle.xa_files.specs.Reading.{SaysOfReading};
ghost use Rattle.xa_files.specs.declared.fault.RunFault.{RunFault};
ghost use Rattle.xa_files.specs.declared.fault.RunFault.TheVariants.{Log, Memory, Output, Work};
ghost use Rattle.xa_jobs.specs.JobFiles.{job_plan_of, jobs_of};
ghost use Rattle.xa_jobs.specs.JobRuns.{AreEnds, Begins, BeginsEnds, RunsFile, RunsJobs};
ghost use Rattle.xa_jobs.specs.JobRuns.{IsRunFault, IsWorkFault, run_fault_of};
ghost use Rattle.xa_workers.specs.Jobs.{IsRunnable};
ghost use Rattle.xa_workers.specs.Outcomes.{IsOutcomeOf};
ghost use Rattle.xa_workers.specs.Rows.{CanBegin};

use crate::jobs::read_jobs;
use crate::lines::print_ends;
use std::alloc::Global;
use std::io::Write;
use std::sync::Wait;
use std::thread::Threads;
use std::time::Clock;
use xa_files::RunFault;
use xa_log::DecisionLog;
use xa_workers::{Gate, Jobs, Outcomes, Point, WorkFault, run_jobs};

/// A gate that holds nobody back.
struct Open;

impl Gate for Open {
    fn at(&self, _point: Point) -> bool {
        true
    }
}

/// What the fault of a run is to the file.
fn run_fault_of(fault: WorkFault) -> RunFault
    ensures { result ≡ run_fault_of fault }
{
    match fault {
        WorkFault::Memory => RunFault::Memory,
        WorkFault::Log => RunFault::Log,
        WorkFault::Stuck | WorkFault::Mixed => RunFault::Work,
    }
}

/// What a run came to, with its fault as the file tells it. A proof that names `Outcomes` takes
/// several times as long.
fn told<T: Drop>(ran: Result<T, WorkFault>) -> Result<T, RunFault>
    ensures done { IfOk ran (λ done. result ≡ Ok done) }
    ensures fault { IfErr ran (λ fault. result ≡ Err (run_fault_of fault)) }
{
    match ran {
        Ok(done) => Ok(done),
        Err(fault) => Err(run_fault_of(fault)),
    }
}

/// Runs jobs over a log, and gives how each ended and the log.
fn outcomes_of_run<R: Threads + Wait + Clock + Sync, L: DecisionLog + Drop>(
    rt: &R,
    alloc: Global,
    jobs: &Jobs,
    log: L,
) -> Result<Outcomes<L>, RunFault>
    requires { IsRunnable jobs.now }
    ensures ends { IfOk result (λ done. AreEnds (job_plan_of jobs.now) done.ends.items) }
    ensures outcome { IfOk result (IsOutcomeOf L.DecisionLog jobs.now log) }
    ensures can_begin { result ≢ Err Log → CanBegin L.DecisionLog log }
    ensures fault { IfErr result IsWorkFault }
{
    told(run_jobs(rt, alloc, jobs, log, &Open))
}

/// Runs jobs over a log, prints how each ended, and gives the log back.
fn run_and_print<R: Threads + Wait + Clock + Sync, L: DecisionLog + Drop, W: Write>(
    rt: &R,
    alloc: Global,
    jobs: &Jobs,
    log: L,
    out: &mut W,
) -> Result<L, RunFault>
    requires { IsRunnable jobs.now }
    ensures ends { IfOk result (RunsJobs L.DecisionLog jobs.now (W.contents out.old)
        (W.contents out.new) log) }
    ensures begun { IfErr result (λ e. e ≡ Output →
        BeginsEnds (job_plan_of jobs.now) (W.contents out.old) (W.contents out.new)) }
    ensures kept { IfErr result (λ e. e ≢ Output
        → Keeps (W.contents out.old) (W.contents out.new)) }
    ensures can_begin { result ≢ Err Log → CanBegin L.DecisionLog log }
    ensures fault { IfErr result IsRunFault }
{
    let done = outcomes_of_run(rt, alloc, jobs, log)?;
    print_ends(alloc, &done.ends, out)?;
    Ok(done.log)
}

/// Runs the jobs of a file over a log by [`run_jobs`], prints a line for each job, in order, once
/// all have ended, and gives the log back.
///
/// The log that is given back has what it came with, and a row for each job whose line says that it
/// committed and of which a branch voted yes, with the branches that did as its participants. It
/// has nothing else, and its incarnation is one more. That holds of a log that was in order, and as
/// far as it has been honest.
///
/// A file that is no jobs file is refused before anything is run. The faults:
///
/// - NotToml, Header, Job: the file is no jobs file.
/// - Memory: a request for memory or for a thread was refused in the run.
/// - Log: the log failed, or can't begin a run.
/// - Work: over a log that could begin it, the workers stood still or don't agree.
/// - Output: a write failed. What was written before it is left, and is a beginning of what is
///   printed otherwise; after the other faults nothing is written.
///
/// After a fault the log is dropped, and nothing is said of it.
pub fn run_job_file<R: Threads + Wait + Clock + Sync, L: DecisionLog + Drop, W: Write>(
    rt: &R,
    alloc: Global,
    text: &[u8],
    log: L,
    out: &mut W,
) -> Result<L, RunFault>
    ensures ok { IfOk result (RunsFile L.DecisionLog text.now (W.contents out.old)
        (W.contents out.new) log) }
    ensures fault { IfErr result (λ e. SaysOfReading e (jobs_of text.now)) }
    ensures refused { (e : RunFault) → jobs_of text.now ≡ Err e →
        IsErrAnd result (λ found. (found ≡ e) ⊎ (found ≡ Memory)) }
    // A log over which no run can begin is told as Log, unless the file is refused or can't be read
    // for want of memory.
    ensures can_begin { OnOk result (CanBegin L.DecisionLog log) }
    ensures work { result ≡ Err Work → CanBegin L.DecisionLog log }
    // A file that is no jobs file writes nothing.
    ensures unwritten { IsErr (jobs_of text.now) → Keeps (W.contents out.old) (W.contents out.new) }
    // Nor does a run that ends by another fault than that of the output.
    ensures kept { IfErr result (λ e. e ≢ Output
        → Keeps (W.contents out.old) (W.contents out.new)) }
    ensures begun { IfErr result (λ e. e ≡ Output
        → Begins text.now (W.contents out.old) (W.contents out.new)) }
{
    let jobs = read_jobs(alloc, text)?;
    run_and_print(rt, alloc, &jobs, log, out)
}
