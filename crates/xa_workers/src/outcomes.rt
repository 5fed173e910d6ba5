//! The rule by which jobs end, and what a run of them comes to.
ghost use Rattle.std.specs.Prelude.{◌≡◌, ◌<◌, ◌≤◌, ◌^◌, IfOk, vec_len};
ghost use Rattle.xa_workers.specs.Fates.{fate_after, fate_at, fates_of, job_fates};
ghost use Rattle.xa_workers.specs.Jobs.{planned_end, ends_of};
ghost use Rattle.xa_workers.specs.Rows.{job_has_row, is_committed};

use crate::Jobs;
use crate::jobs::{has_no, has_yes};
use crate::limits::JOB_LIMIT;
use std::alloc::{AllocError, Global};
use xa_base::{Fate, Outcome, Vote, Xid};
use xa_line::Line;
use xa_rm::MemRm;

/// What a run of jobs came to.
#[derive(Drop)]
pub struct Outcomes<L> {
    /// How each job ended, in the order of the jobs.
    pub ends: Vec<Outcome>,
    /// What became of each branch, in the order of the identifiers.
    pub fates: Vec<(Xid, Fate)>,
    /// The resource managers, by number, from 0.
    pub rms: Vec<MemRm>,
    /// The line of each thread of control to each resource manager, in any order.
    pub lines: Vec<Line>,
    /// The log that the run was given, with the rows of this run.
    pub log: L,
}

/// How a job with these votes ends.
fn planned_end(votes: &[Option<Vote>]) -> Outcome
    ensures { result ≡ planned_end votes.now }
{
    if has_no(votes) {
        Outcome::Rollback
    } else {
        Outcome::Commit
    }
}

/// The fate of a branch that votes so, in a job that ends so.
fn fate_after(end: Outcome, vote: Vote) -> Fate
    ensures { result ≡ fate_after end vote }
{
    match (end, vote) {
        (_, Vote::No(_)) => Fate::RolledBack,
        (_, Vote::ReadOnly) => Fate::ReadOnly,
        (Outcome::Commit, Vote::Yes) => Fate::Committed,
        (Outcome::Rollback, Vote::Yes) => Fate::RolledBack,
    }
}

/// Whether a job ended in a commit, if it ended.
fn is_commit(end: Option<Outcome>) -> bool
    ensures { result ≡ is_committed end }
{
    matches!(end, Some(Outcome::Commit))
}

impl Jobs {
    /// How all jobs end, if no recovery sweeps them.
    pub(crate) fn planned_ends(&self, alloc: Global) -> Result<Vec<Outcome>, AllocError>
        ensures { IfOk result (λ v. v.items ≡ ends_of self.now) }
    {
        self.votes
            .iter()
            .map(|votes| planned_end(votes))
            .collect(alloc)
    }

    /// The fate of a job's branch at a resource manager, if the jobs end so.
    fn fate(&self, incarnation: u64, ends: &[Outcome], job: usize, rm: u32) -> Option<(Xid, Fate)>
        requires job { job < 2 ^ 32 }
        requires threads { 0 < self.now.threads }
        ensures { result ≡ fate_at self.now incarnation ends.now job rm }
    {
        let end = *ends.get(job)?;
        let vote = self.vote(job, rm)?;
        let branch = self.branch(incarnation, job, rm);
        Some((branch.xid(), fate_after(end, vote)))
    }

    /// The fates of a job's branches, if the jobs end so.
    fn job_fates(
        &self,
        alloc: Global,
        incarnation: u64,
        ends: &[Outcome],
        job: usize,
    ) -> Result<Vec<(Xid, Fate)>, AllocError>
        requires job { job < 2 ^ 32 }
        requires threads { 0 < self.now.threads }
        ensures { IfOk result (λ v. v.items ≡ job_fates self.now incarnation ends.now job) }
    {
        (0..self.rms)
            .filter_map(|rm| self.fate(incarnation, ends, job, rm))
            .collect(alloc)
    }

    /// The fates of all branches, if the jobs end so.
    #[tactic(auto, using(crate::proofs::Ranges::flat_map_next))]
    pub(crate) fn fates(
        &self,
        alloc: Global,
        incarnation: u64,
        ends: &[Outcome],
    ) -> Result<Vec<(Xid, Fate)>, AllocError>
        requires jobs { vec_len self.now.votes ≤ JOB_LIMIT }
        requires threads { 0 < self.now.threads }
        ensures { IfOk result (λ v. v.items ≡ fates_of self.now incarnation ends.now) }
    {
        let mut all = Vec::new(alloc);
        for job in 0..self.votes.len() {
            let mut some = self.job_fates(alloc, incarnation, ends, job)?;
            all.append(&mut some)?;
        }
        Ok(all)
    }

    /// Whether a job has a row in the log, if the jobs end so.
    pub(crate) fn has_row(&self, ends: &[Outcome], job: usize) -> bool
        ensures { result ≡ job_has_row self.now ends.now job }
    {
        is_commit(ends.get(job).copied()) && has_yes(self.votes(job))
    }
}
