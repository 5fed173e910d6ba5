//! What is looked at once all workers have ended.
ghost use Rattle.std.specs.Prelude.{◌≡◌, ◌≤◌, ◌<◌, ◌*◌, ℕ, All, IfOk, IsTrue, length, vec_len, slice_get, slice_index_or};
ghost use Rattle.std.specs.Prelude.{Some, false};
ghost use Rattle.xa_workers.specs.Fates.{HasFate, HasOnly, HaveFates, fates_of};
ghost use Rattle.xa_workers.specs.Jobs.{AreEndsOf, MayAllEnd, MayEndAs, is_xid_of};
ghost use Rattle.xa_workers.specs.Outcomes.{AreLinesOf};
ghost use Rattle.xa_workers.specs.Rows.{HasRowsOf, Logs, job_has_row, rows_of_jobs};

use crate::brand::Run;
use crate::control::Controlled;
use crate::limits::JOB_LIMIT;
use crate::numbered::{NumberedIssuer, NumberedTaker};
use crate::reunite::all_met;
use crate::run_rows::RunRows;
use crate::serve::Served;
use crate::{Jobs, Outcomes, WorkFault};
use std::alloc::{AllocError, Global};
use std::sync::Mutex;
use xa_base::{Fate, Outcome, Xid};
use xa_line::Line;
use xa_log::DecisionLog;
use xa_rm::{MemRm, ResourceManager};

/// What the threads of control and the log's worker left.
#[derive(Drop)]
pub(crate) struct Work<J: Run, L> {
    pub(crate) controlled: Vec<Controlled<J>>,
    pub(crate) run_rows: RunRows<L>,
}

/// The ends of the jobs, in their order.
fn gathered_ends<J: Run>(
    alloc: Global,
    jobs: &Jobs,
    controlled: &[Controlled<J>],
) -> Result<Vec<Outcome>, WorkFault>
    requires { 0 < jobs.now.threads }
{
    let mut ends = Vec::new(alloc);
    for job in 0..jobs.votes.len() {
        let turn = job / jobs.threads as usize;
        let end = controlled
            .get(jobs.thread_of(job) as usize)
            .and_then(|left| left.ends.get(turn).copied());
        match end {
            Some(end) => ends.push(end)?,
            None => return Err(WorkFault::Mixed),
        }
    }
    Ok(ends)
}

/// Whether a job may end so.
fn may_end(sweep: bool, planned: Outcome, end: Outcome) -> bool
    ensures { IsTrue result → MayEndAs sweep planned end }
{
    end == planned || (sweep && end == Outcome::Rollback)
}

/// Whether the jobs may end so.
fn may_all_end(sweep: bool, planned: &[Outcome], ends: &[Outcome]) -> bool
    ensures number { IsTrue result → length ends.now ≡ length planned.now }
    ensures each { IsTrue result → MayAllEnd sweep planned.now ends.now }
{
    if ends.len() != planned.len() {
        return false;
    }
    for job in 0..ends.len() {
        if !may_end(sweep, planned[job], ends[job]) {
            return false;
        }
    }
    true
}

/// Takes the resource managers out of their locks.
fn taken_rms<J: Run>(
    alloc: Global,
    served: Vec<Mutex<Served<J>>>,
    lines: &mut Vec<NumberedTaker<J>>,
) -> Result<Vec<MemRm>, WorkFault>
    ensures { IfOk result (λ rms. (r : ℕ) (rm : _) → slice_get rms.items r ≡ Some rm
        → HasOnly (J.is_own r) rm) }
{
    let mut rms = Vec::new(alloc);
    for left in served {
        let Served {
            rm,
            lines: mut ends,
        } = left.into_inner();
        lines.append(&mut ends)?;
        if rm.number() as usize != rms.len() {
            return Err(WorkFault::Mixed);
        }
        rms.push(rm.into_rm())?;
    }
    Ok(rms)
}

/// Whether an identifier has its fate at the resource manager that it names.
fn has_fate(rms: &[MemRm], listed: &(Xid, Fate)) -> bool
    ensures { IsTrue result → HasFate rms.now listed.now }
{
    let (xid, fate) = listed;
    let Some(branch) = xid.branch() else {
        return false;
    };
    match rms.get(branch.rm as usize) {
        Some(rm) => rm.fate(xid) == *fate,
        None => false,
    }
}

/// Whether each listed identifier has its fate.
fn have_fates(rms: &[MemRm], fates: &[(Xid, Fate)]) -> bool
    ensures { IsTrue result → All (HasFate rms.now) fates.now }
{
    fates.iter().all(|listed| has_fate(rms, listed))
}

/// The ends of the lines that the threads of control left.
fn taken_ends<J: Run>(
    alloc: Global,
    controlled: Vec<Controlled<J>>,
) -> Result<Vec<NumberedIssuer<J>>, AllocError> {
    let mut all = Vec::new(alloc);
    for left in controlled {
        let Controlled { mut lines, .. } = left;
        all.append(&mut lines)?;
    }
    Ok(all)
}

/// Whether the rows were written that the jobs have, if they end so.
fn have_rows(jobs: &Jobs, ends: &[Outcome], written: &[bool]) -> bool
    ensures { IsTrue result → (i : ℕ)
        → slice_index_or written.now i false ≡ job_has_row jobs.now ends.now i }
{
    if ends.len() != written.len() {
        return false;
    }
    for job in 0..written.len() {
        if written[job] != jobs.has_row(ends, job) {
            return false;
        }
    }
    true
}

/// Whether the resource managers are as many as the jobs name, and each listed identifier has its
/// fate there.
fn rms_agree(jobs: &Jobs, rms: &[MemRm], fates: &[(Xid, Fate)]) -> bool
    ensures number { IsTrue result → length rms.now ≡ jobs.now.rms }
    ensures listed { IsTrue result → All (HasFate rms.now) fates.now }
{
    rms.len() == jobs.rms as usize && have_fates(rms, fates)
}

/// Whether there is a line of each thread of control to each resource manager.
fn are_all_lines(jobs: &Jobs, lines: &[Line]) -> bool
    ensures { IsTrue result → length lines.now ≡ jobs.now.threads * jobs.now.rms }
{
    lines.len() as u64 == u64::from(jobs.threads) * u64::from(jobs.rms)
}

/// How the jobs ended, if they may end so.
fn ends_left<J: Run>(
    alloc: Global,
    jobs: &Jobs,
    controlled: &[Controlled<J>],
) -> Result<Vec<Outcome>, WorkFault>
    requires { 0 < jobs.now.threads }
    ensures { IfOk result (λ ends. AreEndsOf jobs.now ends.items) }
{
    let ends = gathered_ends(alloc, jobs, controlled)?;
    let planned = jobs.planned_ends(alloc)?;
    if may_all_end(jobs.sweep, &planned, &ends) {
        Ok(ends)
    } else {
        Err(WorkFault::Mixed)
    }
}

/// The resource managers that were served, and the lines, whose ends have met again.
#[derive(Drop)]
struct RmsAndLines {
    rms: Vec<MemRm>,
    lines: Vec<Line>,
}

/// Takes the resource managers out of their locks, and has the ends of all lines meet again.
fn rms_and_lines<J: Run>(
    alloc: Global,
    jobs: &Jobs,
    controlled: Vec<Controlled<J>>,
    served: Vec<Mutex<Served<J>>>,
) -> Result<RmsAndLines, WorkFault>
    ensures rms { IfOk result (λ left. (r : ℕ) (rm : _) → slice_get left.rms.items r ≡ Some rm
        → HasOnly (J.is_own r) rm) }
    ensures lines { IfOk result (λ left. AreLinesOf jobs.now left.lines.items) }
{
    let issuers = taken_ends(alloc, controlled)?;
    let mut takers = Vec::new(alloc);
    let rms = taken_rms(alloc, served, &mut takers)?;
    let lines = all_met(alloc, issuers, &mut takers)?;
    if are_all_lines(jobs, &lines) {
        Ok(RmsAndLines { rms, lines })
    } else {
        Err(WorkFault::Mixed)
    }
}

/// What the jobs came to, if all that the workers left, and the resource managers that were served,
/// agree with it.
pub(crate) fn verified_outcomes<J: Run, L: DecisionLog + Drop>(
    alloc: Global,
    jobs: &Jobs,
    incarnation: u64,
    work: Work<J, L>,
    served: Vec<Mutex<Served<J>>>,
) -> Result<Outcomes<L>, WorkFault>
    requires few { vec_len jobs.now.votes ≤ JOB_LIMIT }
    requires some { 0 < jobs.now.threads }
    requires own { J.is_own ≡ is_xid_of jobs.now incarnation }
    requires rows { HasRowsOf L.DecisionLog jobs.now incarnation work.run_rows }
    ensures ends { IfOk result (λ o. AreEndsOf jobs.now o.ends.items) }
    ensures fates { IfOk result (λ o. o.fates.items ≡ fates_of jobs.now incarnation o.ends.items) }
    ensures rms { IfOk result (λ o. HaveFates jobs.now incarnation o.rms.items o.fates.items) }
    ensures lines { IfOk result (λ o. AreLinesOf jobs.now o.lines.items) }
    ensures rows { IfOk result (λ o. Logs L.DecisionLog incarnation
        (rows_of_jobs jobs.now incarnation o.ends.items) work.run_rows.first.value o.log) }
{
    let Work {
        controlled,
        run_rows,
    } = work;
    let ends = ends_left(alloc, jobs, &controlled)?;
    let fates = jobs.fates(alloc, incarnation, &ends)?;
    let left = rms_and_lines(alloc, jobs, controlled, served)?;
    let RunRows { log, written, .. } = run_rows;
    if have_rows(jobs, &ends, &written) && rms_agree(jobs, &left.rms, &fates) {
        Ok(Outcomes {
            ends,
            fates,
            rms: left.rms,
            lines: left.lines,
            log,
        })
    } else {
        Err(WorkFault::Mixed)
    }
}
