//! A jobs file is read only.

ghost use Rattle.std.specs.Prelude.{◌≡◌, ◌⊎◌, Err, IfErr, IfOk, OnOk};
ghost use Rattle.std.specs.Io.KnownBytes.{Appends};
ghost use Rattle.std.specs.String.{string_bytes};
ghost use Rattle.xa_diagnostics.specs.JobsChecks.{PrintsJobsCheck, jobs_line};
ghost use Rattle.xa_files.specs.Reading.{EndsWith, SaysOfReading};
ghost use Rattle.xa_files.specs.declared.fault.RunFault.{RunFault};
ghost use Rattle.xa_files.specs.declared.fault.RunFault.TheVariants.{Memory, Output};
ghost use Rattle.xa_jobs.specs.JobFiles.{job_plan_of, jobs_of};

use std::alloc::Global;
use std::io::Write;
use xa_files::{RunFault, write_text};
use xa_jobs::read_jobs;
use xa_workers::Jobs;

/// The one line of a check: how large a jobs file is.
fn jobs_line(alloc: Global, jobs: &Jobs) -> Result<String, RunFault>
    ensures text { IfOk result (λ text. string_bytes text ≡ jobs_line (job_plan_of jobs.now)) }
    ensures fault { IfErr result (λ e. e ≡ Memory) }
{
    let threads = jobs.threads;
    let rms = jobs.rms;
    let count = jobs.votes.len();
    Ok(format!(in alloc; "ok {threads} {rms} {count} jobs\n")?)
}

/// Prints how large a jobs file is.
fn print_jobs_check<W: Write>(alloc: Global, jobs: &Jobs, out: &mut W) -> Result<(), RunFault>
    ensures ok { OnOk result (Appends (W.contents out.old) (W.contents out.new)
        (jobs_line (job_plan_of jobs.now))) }
    ensures fault { IfErr result (λ e. (e ≡ Memory) ⊎ (e ≡ Output)) }
{
    let line = jobs_line(alloc, jobs)?;
    write_text(line.as_bytes(), out)
}

/// Reads a jobs file only, and prints how many threads, resource managers and jobs it has, as in
/// `ok 2 2 4 jobs`.
///
/// The faults are those of `run_job_file`, except for Log and Work.
pub fn check_jobs<W: Write>(alloc: Global, text: &[u8], out: &mut W) -> Result<(), RunFault>
    ensures ok { OnOk result (PrintsJobsCheck text.now (W.contents out.old) (W.contents out.new)) }
    ensures fault { IfErr result (λ e. SaysOfReading e (jobs_of text.now)) }
    ensures refused { (e : RunFault) → jobs_of text.now ≡ Err e → EndsWith e result }
{
    let jobs = read_jobs(alloc, text)?;
    print_jobs_check(alloc, &jobs, out)
}
