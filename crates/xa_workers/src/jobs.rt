//! The jobs of a run: which branches each has, and how these vote.
ghost use Rattle.std.specs.Prelude.{◌≡◌, ◌↔◌, ◌+◌, ◌%◌, ◌<◌, ◌≤◌, ◌^◌, All, IfOk, IsTrue, true, vec_len};
ghost use Rattle.std.specs.List.{list_any};
ghost use Rattle.xa_workers.specs.Jobs.{IsRunnable, branch_of, gtrid_of, is_branch_of, is_no, is_xid_of, is_yes, vote_at};
ghost use Rattle.xa_workers.specs.Jobs.{votes_of, yes_branch, yes_branches};

use crate::limits::JOB_LIMIT;
use std::alloc::{AllocError, Global};
use xa_base::{Branch, Gtrid, MAX_RMS, MAX_THREADS, Vote, Xid};
use xa_log::Decision;

/// Global transactions to be run at once. Job `i`, from 0, belongs to thread `i` modulo `threads`,
/// and has a branch at each resource manager whose vote isn't `None`. Its gtrid is the incarnation
/// that the log gives the run, and the sequence `i + 1`.
#[derive(Drop)]
pub struct Jobs {
    /// How many threads of control there are, 1 to 8.
    pub threads: u32,
    /// How many resource managers there are, 1 to 8.
    pub rms: u32,
    /// Whether a recovery rolls back what isn't claimed yet, while the jobs run.
    pub sweep: bool,
    /// For each job, at most 1,000, what each resource manager answers to its xa_prepare (XA,
    /// section 2.3), or `None` if it has no branch there.
    pub votes: Vec<Vec<Option<Vote>>>,
}

/// Whether a vote rolls its job back.
fn is_no(vote: Option<Vote>) -> bool
    ensures { result ≡ is_no vote }
{
    matches!(vote, Some(Vote::No(_)))
}

/// Whether a vote makes its branch a participant.
fn is_yes(vote: Option<Vote>) -> bool
    ensures { result ≡ is_yes vote }
{
    matches!(vote, Some(Vote::Yes))
}

/// Whether one of the votes rolls the job back.
pub(crate) fn has_no(votes: &[Option<Vote>]) -> bool
    ensures { result ≡ list_any is_no votes.now }
{
    votes.iter().any(|vote| is_no(*vote))
}

/// Whether one of the votes makes its branch a participant.
pub(crate) fn has_yes(votes: &[Option<Vote>]) -> bool
    ensures { result ≡ list_any is_yes votes.now }
{
    votes.iter().any(|vote| is_yes(*vote))
}

/// The transaction of a job.
pub(crate) fn gtrid(incarnation: u64, job: usize) -> Gtrid
    requires { job < 2 ^ 32 }
    ensures { result ≡ gtrid_of incarnation job }
{
    Gtrid {
        incarnation,
        sequence: job as u64 + 1,
    }
}

impl Jobs {
    /// Whether the jobs can be run: there are 1 to 8 threads, 1 to 8 resource managers and at most
    /// 1,000 jobs, and each job has a vote or none for each resource manager.
    pub fn is_runnable(&self) -> bool
        ensures { IsTrue result ↔ IsRunnable self.now }
    {
        (1..=MAX_THREADS).contains(&self.threads)
            && (1..=MAX_RMS).contains(&self.rms)
            && self.votes.len() <= JOB_LIMIT
            && self.have_rows()
    }

    /// Whether each job has a vote or none for each resource manager.
    fn have_rows(&self) -> bool
        ensures { IsTrue result ↔ All (λ votes. vec_len votes ≡ self.now.rms) self.now.votes.items }
    {
        self.votes
            .iter()
            .all(|votes| votes.len() == self.rms as usize)
    }

    /// What a job votes at each resource manager.
    pub(crate) fn votes(&self, job: usize) -> &[Option<Vote>]
        ensures { result.now ≡ votes_of self.now job }
    {
        match self.votes.get(job) {
            Some(votes) => votes.as_slice(),
            None => &[],
        }
    }

    /// What a job votes at a resource manager.
    pub(crate) fn vote(&self, job: usize, rm: u32) -> Option<Vote>
        ensures { result ≡ vote_at self.now job rm }
    {
        *self.votes(job).get(rm as usize)?
    }

    /// The thread of control that runs a job.
    pub(crate) fn thread_of(&self, job: usize) -> u32
        requires { 0 < self.now.threads }
        ensures { result ≡ job % self.now.threads }
    {
        (job as u64 % u64::from(self.threads)) as u32
    }

    /// The branch of a job at a resource manager.
    pub(crate) fn branch(&self, incarnation: u64, job: usize, rm: u32) -> Branch
        requires job { job < 2 ^ 32 }
        requires threads { 0 < self.now.threads }
        ensures { result ≡ branch_of self.now incarnation job rm }
    {
        Branch {
            gtrid: gtrid(incarnation, job),
            thread: self.thread_of(job),
            rm,
        }
    }

    /// Whether a branch is that of a job, at a resource manager.
    fn is_branch(&self, incarnation: u64, branch: Branch, rm: u32) -> bool
        requires jobs { vec_len self.now.votes ≤ JOB_LIMIT }
        requires threads { 0 < self.now.threads }
        ensures { IsTrue result → is_branch_of self.now incarnation rm branch ≡ true }
    {
        let Some(job) = branch.gtrid.sequence.checked_sub(1) else {
            return false;
        };
        let job = job as usize;
        job < self.votes.len()
            && self.vote(job, rm).is_some()
            && branch == self.branch(incarnation, job, rm)
    }

    /// Whether an identifier is that of a job's branch, at a resource manager.
    pub(crate) fn is_xid(&self, incarnation: u64, xid: &Xid, rm: u32) -> bool
        requires jobs { vec_len self.now.votes ≤ JOB_LIMIT }
        requires threads { 0 < self.now.threads }
        ensures { IsTrue result → is_xid_of self.now incarnation rm xid.now ≡ true }
    {
        match xid.branch() {
            Some(branch) => self.is_branch(incarnation, branch, rm),
            None => false,
        }
    }

    /// The branch of a job at a resource manager, if it votes yes.
    fn yes_branch(&self, incarnation: u64, job: usize, rm: u32) -> Option<Branch>
        requires job { job < 2 ^ 32 }
        requires threads { 0 < self.now.threads }
        ensures { result ≡ yes_branch self.now incarnation job rm }
    {
        if is_yes(self.vote(job, rm)) {
            Some(self.branch(incarnation, job, rm))
        } else {
            None
        }
    }

    /// The branches of a job that vote yes.
    pub(crate) fn yes_branches(
        &self,
        alloc: Global,
        incarnation: u64,
        job: usize,
    ) -> Result<Vec<Branch>, AllocError>
        requires job { job < 2 ^ 32 }
        requires threads { 0 < self.now.threads }
        ensures { IfOk result (λ v. v.items ≡ yes_branches self.now incarnation job) }
    {
        (0..self.rms)
            .filter_map(|rm| self.yes_branch(incarnation, job, rm))
            .collect(alloc)
    }

    /// The decision to commit a job, which waits for its branches that vote yes.
    pub(crate) fn decision(
        &self,
        alloc: Global,
        incarnation: u64,
        job: usize,
    ) -> Result<Decision, AllocError>
        requires job { job < 2 ^ 32 }
        requires threads { 0 < self.now.threads }
        ensures gtrid { IfOk result (λ d. d.gtrid ≡ gtrid_of incarnation job) }
        ensures participants { IfOk result (λ d. d.participants.items
            ≡ yes_branches self.now incarnation job) }
    {
        Ok(Decision {
            gtrid: gtrid(incarnation, job),
            participants: self.yes_branches(alloc, incarnation, job)?,
        })
    }
}
