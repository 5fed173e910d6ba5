//! The log's worker.
ghost use Rattle.std.specs.Prelude.{◌≡◌, ◌≢◌, ◌≤◌, ◌<◌, All, Err, IfOk, OnOk, vec_len};
ghost use Rattle.xa_log.specs.Content.{last_number};
ghost use Rattle.xa_log.specs.Contract.{FitsRow};
ghost use Rattle.std.specs.List.{AllByRecursion};
ghost use Rattle.xa_workers.specs.Rows.{Adds, FailsNot, HasFailed, HasRowsOf, IsNoted, Logs, no_rows};

use crate::brand::Run;
use crate::crew::Crew;
use crate::docket::Asked;
use crate::fault::Halt;
use crate::jobs::gtrid;
use crate::limits::JOB_LIMIT;
use crate::pace::Pace;
use crate::{Gate, Jobs, WorkFault};
use std::alloc::{AllocError, Global};
use std::snapshot::Snapshot;
use std::sync::Wait;
use std::time::{Clock, Instant};
use xa_log::{Decision, DecisionLog};

/// A run's log, and for each job whether the run wrote its row. `first` remembers the log as it was
/// before the run.
#[derive(Drop)]
pub(crate) struct RunRows<L> {
    pub(crate) log: L,
    pub(crate) first: Snapshot<L>,
    pub(crate) written: Vec<bool>,
}

impl<L: DecisionLog> RunRows<L> {
    /// The rows of a run that has written none to its log yet.
    #[tactic(auto, using(crate::proofs::RowLaws::logs_same, crate::proofs::RowLaws::none_written))]
    pub(crate) fn new(
        alloc: Global,
        jobs: &Jobs,
        incarnation: u64,
        first: Snapshot<L>,
        log: L,
    ) -> Result<RunRows<L>, AllocError>
    where
        L: Drop,
        requires { Logs L.DecisionLog incarnation no_rows first.value log }
        ensures first { IfOk result (λ run_rows. run_rows.first ≡ first) }
        ensures len { IfOk result (λ run_rows. vec_len run_rows.written ≡ vec_len jobs.now.votes) }
        ensures kept { IfOk result (λ run_rows. HasRowsOf L.DecisionLog jobs.now
            incarnation run_rows) }
    {
        let written = vec![in alloc; false; jobs.votes.len()]?;
        Ok(RunRows {
            log,
            first,
            written,
        })
    }

    /// Writes the row of a job, with its branches that vote yes as participants.
    fn write(
        &mut self,
        alloc: Global,
        jobs: &Jobs,
        incarnation: u64,
        job: usize,
    ) -> Result<(), WorkFault>
        requires few { vec_len self.old.written ≤ JOB_LIMIT }
        requires some { 0 < jobs.now.threads }
        requires fits { incarnation ≤ last_number }
        requires kept { HasRowsOf L.DecisionLog jobs.now incarnation self.old }
        ensures first { self.new.first ≡ self.old.first }
        ensures len { vec_len self.new.written ≡ vec_len self.old.written }
        ensures kept { OnOk result (HasRowsOf L.DecisionLog jobs.now incarnation self.new) }
        ensures noted { OnOk result (IsNoted self.new.written.items job) }
        ensures log { result ≡ Err WorkFault.Log → HasFailed L.moment self.old.log self.new.log }
        ensures other { result ≢ Err WorkFault.Log → FailsNot L.moment self.old.log self.new.log }
    {
        if job >= self.written.len() {
            return Err(WorkFault::Mixed);
        }
        let participants = jobs.yes_branches(alloc, incarnation, job)?;
        self.log
            .commit(gtrid(incarnation, job), participants.as_slice())?;
        self.written[job] = true;
        Ok(())
    }

    /// The decisions on the jobs that threads ask for, which are noted as written.
    #[tactic(auto, using(crate::proofs::RowGroups::adds_none))]
    fn gather(
        &mut self,
        alloc: Global,
        jobs: &Jobs,
        incarnation: u64,
        asked: &[Asked],
    ) -> Result<Vec<Decision>, WorkFault>
        requires few { vec_len self.old.written ≤ JOB_LIMIT }
        requires some { 0 < jobs.now.threads }
        requires fits { incarnation ≤ last_number }
        ensures log { self.new.log ≡ self.old.log }
        ensures first { self.new.first ≡ self.old.first }
        ensures len { vec_len self.new.written ≡ vec_len self.old.written }
        ensures adds { IfOk result (λ decisions. Adds jobs.now incarnation
            self.old.written.items decisions.items self.new.written.items) }
        ensures fit { IfOk result (λ decisions.
            AllByRecursion (λ d. FitsRow d.gtrid) decisions.items) }
        ensures own { IfOk result (λ decisions. AllByRecursion (λ d.
            AllByRecursion (λ b. b.gtrid ≡ d.gtrid) d.participants.items) decisions.items) }
        ensures noted { OnOk result (All (λ a. IsNoted self.new.written.items a.job) asked.now) }
        ensures fault { result ≢ Err WorkFault.Log }
    {
        let mut decisions = Vec::new(alloc);
        for Asked { job, .. } in asked {
            if *job >= self.written.len() {
                return Err(WorkFault::Mixed);
            }
            decisions.push(jobs.decision(alloc, incarnation, *job)?)?;
            self.written[*job] = true;
        }
        Ok(decisions)
    }

    /// Writes the rows of the jobs that threads ask for, all at once.
    fn write_all(
        &mut self,
        alloc: Global,
        jobs: &Jobs,
        incarnation: u64,
        asked: &[Asked],
    ) -> Result<(), WorkFault>
        requires few { vec_len self.old.written ≤ JOB_LIMIT }
        requires some { 0 < jobs.now.threads }
        requires fits { incarnation ≤ last_number }
        requires kept { HasRowsOf L.DecisionLog jobs.now incarnation self.old }
        ensures first { self.new.first ≡ self.old.first }
        ensures len { vec_len self.new.written ≡ vec_len self.old.written }
        ensures kept { OnOk result (HasRowsOf L.DecisionLog jobs.now incarnation self.new) }
        ensures noted { OnOk result (All (λ a. IsNoted self.new.written.items a.job) asked.now) }
        ensures log { result ≡ Err WorkFault.Log → HasFailed L.moment self.old.log self.new.log }
        ensures other { result ≢ Err WorkFault.Log → FailsNot L.moment self.old.log self.new.log }
    {
        let decisions = self.gather(alloc, jobs, incarnation, asked)?;
        self.log.commit_all(alloc, decisions.as_slice())?;
        Ok(())
    }

    /// Writes the rows of the jobs that threads ask for: one by itself, several at once.
    fn write_each(
        &mut self,
        alloc: Global,
        jobs: &Jobs,
        incarnation: u64,
        asked: &[Asked],
    ) -> Result<(), WorkFault>
        requires few { vec_len self.old.written ≤ JOB_LIMIT }
        requires some { 0 < jobs.now.threads }
        requires fits { incarnation ≤ last_number }
        requires kept { HasRowsOf L.DecisionLog jobs.now incarnation self.old }
        ensures first { self.new.first ≡ self.old.first }
        ensures len { vec_len self.new.written ≡ vec_len self.old.written }
        ensures kept { OnOk result (HasRowsOf L.DecisionLog jobs.now incarnation self.new) }
        ensures noted { OnOk result (All (λ a. IsNoted self.new.written.items a.job) asked.now) }
        ensures log { result ≡ Err WorkFault.Log → HasFailed L.moment self.old.log self.new.log }
        ensures other { result ≢ Err WorkFault.Log → FailsNot L.moment self.old.log self.new.log }
    {
        match asked {
            [Asked { job, .. }] => self.write(alloc, jobs, incarnation, *job),
            several => self.write_all(alloc, jobs, incarnation, several),
        }
    }
}

/// Tells a thread that the row of its job is written, and wakes it. It isn't told before the log
/// has the row.
fn reply<J: Run, G: Gate, L: DecisionLog>(
    crew: &Crew<'_, J, G>,
    run_rows: &RunRows<L>,
    thread: u32,
    job: usize,
)
    requires few { vec_len run_rows.now.written ≤ JOB_LIMIT }
    requires kept { HasRowsOf L.DecisionLog crew.now.jobs.now crew.now.incarnation run_rows.now }
    requires noted { IsNoted run_rows.now.written.items job }
{
    crew.docket.reply(thread, job);
    crew.signals.wake_thread(thread);
}

/// Writes the rows that threads of control ask for, those that are asked for at the same time at
/// once, and says whether there was one.
fn write_asked<J: Run, G: Gate, L: DecisionLog>(
    clock: &impl Clock,
    alloc: Global,
    crew: &Crew<'_, J, G>,
    run_rows: &mut RunRows<L>,
    pace: &mut Pace,
) -> Result<bool, WorkFault>
    requires few { vec_len run_rows.old.written ≤ JOB_LIMIT }
    requires kept { HasRowsOf L.DecisionLog crew.now.jobs.now crew.now.incarnation run_rows.old }
    ensures first { run_rows.new.first ≡ run_rows.old.first }
    ensures len { vec_len run_rows.new.written ≡ vec_len run_rows.old.written }
    ensures kept { OnOk result (HasRowsOf L.DecisionLog crew.now.jobs.now
        crew.now.incarnation run_rows.new) }
    ensures log { result ≡ Err WorkFault.Log →
        HasFailed L.moment run_rows.old.log run_rows.new.log }
    ensures other { result ≢ Err WorkFault.Log →
        FailsNot L.moment run_rows.old.log run_rows.new.log }
{
    if !crew.docket.is_asked() {
        return Ok(false);
    }
    pace.fill(clock, crew.docket);
    let asked = crew.docket.take_all(alloc)?;
    if asked.is_empty() {
        return Ok(false);
    }
    let start = Instant::now(clock).ok();
    run_rows.write_each(alloc, crew.jobs, crew.incarnation, asked.as_slice())?;
    pace.wrote(clock, start);
    for Asked { thread, job } in &asked {
        reply(crew, run_rows, *thread, *job);
    }
    Ok(true)
}

/// The log's worker: writes rows until all threads of control have ended.
pub(crate) fn write_rows<R: Wait + Clock, J: Run, G: Gate, L: DecisionLog>(
    rt: &R,
    alloc: Global,
    crew: &Crew<'_, J, G>,
    run_rows: &mut RunRows<L>,
) -> Result<(), Halt>
    requires few { vec_len run_rows.old.written ≤ JOB_LIMIT }
    requires kept { HasRowsOf L.DecisionLog crew.now.jobs.now crew.now.incarnation run_rows.old }
    ensures first { run_rows.new.first ≡ run_rows.old.first }
    ensures kept { OnOk result (HasRowsOf L.DecisionLog crew.now.jobs.now
        crew.now.incarnation run_rows.new) }
    // A log that fails is told as Log, and nothing else is.
    ensures log { result ≡ Err (Halt.Fault WorkFault.Log) →
        HasFailed L.moment run_rows.old.log run_rows.new.log }
    ensures other { result ≢ Err (Halt.Fault WorkFault.Log) →
        FailsNot L.moment run_rows.old.log run_rows.new.log }
{
    let mut idle = crew.signals.new_idle();
    let mut pace = Pace::NEW;
    for _ in rt.forever() {
        let left = crew.docket.is_left();
        if write_asked(rt, alloc, crew, run_rows, &mut pace)? {
            idle.found();
        } else if left {
            return Ok(());
        } else if crew.signals.is_stopped() {
            return Err(Halt::Stopped);
        } else {
            crew.signals.rest_log(rt, &mut idle);
        }
    }
    unreachable!()
}
