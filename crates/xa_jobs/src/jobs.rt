//! A jobs file as a whole.

ghost use Rattle.std.specs.Prelude.{◌≡◌, ◌≤◌, All, IfOk, option_map, vec_len};
ghost use Rattle.std.specs.Option.{ok_or};
ghost use Rattle.std.specs.Result.{result_ok};
ghost use Rattle.toml.specs.View.{items_view, table_view, view};
ghost use Rattle.xa_files.specs.Reading.{Gives};
ghost use Rattle.xa_files.specs.Misfits.{ReadsDocument};
ghost use Rattle.xa_jobs.specs.JobFiles.{vote_in, branch_vote_named, items_at, items_in_table, job_at, jobs_from, jobs_in, jobs_of};
ghost use Rattle.xa_jobs.specs.JobFiles.{job_plan_of, job_row_in, rows_in, votes_in};
ghost use Rattle.xa_files.specs.declared.fault.RunFault.TheVariants.{Job};
ghost use Rattle.xa_workers.specs.Jobs.{IsRunnable};

use crate::header::header_of;
use std::alloc::Global;
use toml::{Table, Value};
use xa_base::Vote;
use xa_files::{Finding, Misfit, RunFault, document_of, only_keys, value_at, vote_named};
use xa_workers::{JOB_LIMIT, Jobs};

/// The votes of a job, one or none for each resource manager.
type Row = Vec<Option<Vote>>;

/// What a word says of a branch: `none` that the job has none, another how it votes.
#[tactic(auto, unfolding(crate::specs::JobFiles::branch_vote_named))]
fn branch_named(word: &str) -> Option<Option<Vote>>
    ensures { result ≡ branch_vote_named word.now }
{
    match word {
        "none" => Some(None),
        _ => Some(Some(vote_named(word)?)),
    }
}

/// The same of an item.
#[tactic(auto, unfolding(crate::specs::JobFiles::vote_in))]
fn branch_in(value: &Value) -> Result<Option<Vote>, Finding<'_>>
    ensures { result_ok result ≡ vote_in (view value.now) }
{
    match value.as_str() {
        Some(word) => branch_named(word).ok_or(Finding::NoVote(value)),
        None => Err(Finding::NoVote(value)),
    }
}

/// The votes that the items of the job of a number name, if each names one.
fn votes_of<'a>(alloc: Global, number: usize, items: &'a [Value]) -> Result<Row, Misfit<'a>>
    ensures { ReadsDocument (λ votes. votes.items) result
        (ok_or (votes_in (items_view items.now)) (Job number)) }
{
    let mut votes = Vec::new(alloc);
    for value in items {
        match branch_in(value) {
            Ok(vote) => votes.push(vote)?,
            Err(finding) => return Err(Misfit::Job(number, finding)),
        }
    }
    Ok(votes)
}

/// The same, if there is one or none for each resource manager.
fn row_of<'a>(alloc: Global, rms: u32, number: usize, items: &'a [Value]) -> Result<Row, Misfit<'a>>
    ensures row { ReadsDocument (λ votes. votes.items) result
        (ok_or (job_row_in rms (items_view items.now)) (Job number)) }
    ensures number { IfOk result (λ votes. vec_len votes ≡ rms) }
{
    let row = votes_of(alloc, number, items)?;
    let votes = row.len();
    if votes == rms as usize {
        Ok(row)
    } else {
        Err(Misfit::Job(number, Finding::VoteForEach { votes, rms }))
    }
}

/// The items of the votes of a job's table, which has no other key.
#[tactic(auto, unfolding(crate::specs::JobFiles::items_in_table))]
fn items_in_table(table: &Table) -> Result<&[Value], Finding<'_>>
    ensures { option_map (λ items. items_view items.now) (result_ok result)
        ≡ items_in_table (table_view table.now) }
{
    let of = "a job";
    let key = "votes";
    only_keys(table, of, &["votes"])?;
    let Some(value) = value_at(table, key) else {
        return Err(Finding::Missing { of, key });
    };
    match value.as_array() {
        Some(items) => Ok(items.as_slice()),
        None => Err(Finding::Unfit { key, value }),
    }
}

/// The same of the table of a number.
fn items_at(number: usize, value: &Value) -> Result<&[Value], Finding<'_>>
    ensures items { option_map (λ items. items_view items.now) (result_ok result)
        ≡ items_at number (view value.now) }
    ensures few { IfOk result (λ _. number ≤ JOB_LIMIT) }
{
    if number > JOB_LIMIT {
        return Err(Finding::TooMany("1,000 jobs"));
    }
    match value.as_table() {
        Some(table) => items_in_table(table),
        None => Err(Finding::NoTable),
    }
}

/// The votes of the job of a number.
fn job_at<'a>(alloc: Global, rms: u32, number: usize, value: &'a Value) -> Result<Row, Misfit<'a>>
    ensures job { ReadsDocument (λ votes. votes.items) result (job_at rms number (view value.now)) }
    ensures few { IfOk result (λ _. number ≤ JOB_LIMIT) }
    ensures number { IfOk result (λ votes. vec_len votes ≡ rms) }
{
    match items_at(number, value) {
        Ok(items) => row_of(alloc, rms, number, items),
        Err(finding) => Err(Misfit::Job(number, finding)),
    }
}

/// The votes of all jobs.
fn rows_of<'a>(alloc: Global, rms: u32, items: &'a [Value]) -> Result<Vec<Row>, Misfit<'a>>
    ensures jobs { ReadsDocument (λ jobs. rows_in jobs.items) result
        (jobs_from rms 1 (items_view items.now)) }
    ensures few { IfOk result (λ jobs. vec_len jobs ≤ JOB_LIMIT) }
    ensures rows { IfOk result (λ jobs. All (λ votes. vec_len votes ≡ rms) jobs.items) }
{
    let mut jobs = Vec::new(alloc);
    for (i, value) in items.iter().enumerate() {
        jobs.push(job_at(alloc, rms, i + 1, value)?)?;
    }
    Ok(jobs)
}

/// Reads a document as jobs, which can be run, or tells where it is wrong, and what is wrong there.
#[tactic(auto, unfolding(crate::specs::JobFiles::jobs_in))]
pub fn jobs_in<'a>(alloc: Global, document: &'a Table) -> Result<Jobs, Misfit<'a>>
    ensures read { ReadsDocument job_plan_of result (jobs_in (table_view document.now)) }
    ensures runnable { IfOk result (λ jobs. IsRunnable jobs) }
{
    let (threads, rms, sweep, items) = header_of(document)?;
    let votes = rows_of(alloc, rms, items)?;
    Ok(Jobs {
        threads,
        rms,
        sweep,
        votes,
    })
}

/// Reads a jobs file. Its jobs can be run.
///
/// The fault is NotToml, Header or Job, whichever is found first in this order, or Memory if a
/// request was refused.
#[tactic(auto, unfolding(crate::specs::JobFiles::jobs_of))]
pub fn read_jobs(alloc: Global, text: &[u8]) -> Result<Jobs, RunFault>
    ensures read { Gives job_plan_of result (jobs_of text.now) }
    ensures runnable { IfOk result (λ jobs. IsRunnable jobs) }
{
    let document = document_of(alloc, text)?;
    let jobs = jobs_in(alloc, &document)?;
    Ok(jobs)
}
