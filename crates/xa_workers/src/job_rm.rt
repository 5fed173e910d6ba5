//! A resource manager at which no branch is started but those of the jobs.
ghost use Rattle.std.specs.Prelude.{◌≡◌, ◌≤◌, ◌<◌, IfOk, IsTrue, vec_len};
ghost use Rattle.xa_workers.specs.Fates.{HasOnly, NamesOnly};
ghost use Rattle.xa_workers.specs.Jobs.{is_xid_of};

use crate::brand::Run;
use crate::fault::Halt;
use crate::limits::JOB_LIMIT;
use crate::{Jobs, WorkFault};
use std::alloc::Global;
use std::marker::PhantomData;
use xa_base::{Answer, Call, Vote};
use xa_rm::{MemRm, ResourceManager};

/// A resource manager at which no branch was started but those of the jobs.
#[derive(Drop)]
pub(crate) struct JobRm<J: Run> {
    rm: MemRm,
    number: u32,
    run: PhantomData<J>,
    ghost only: { HasOnly (J.is_own number) rm },
}

impl<J: Run> JobRm<J> {
    /// A resource manager where nothing was started, which votes as the jobs say.
    #[tactic(auto, using(crate::proofs::OwnBranches::only_new))]
    pub(crate) fn new(
        alloc: Global,
        jobs: &Jobs,
        incarnation: u64,
        number: u32,
    ) -> Result<JobRm<J>, WorkFault>
        requires few { vec_len jobs.now.votes ≤ JOB_LIMIT }
        requires some { 0 < jobs.now.threads }
        ensures { IfOk result (λ kept. kept.number ≡ number) }
    {
        let mut rm = MemRm::new(alloc);
        for job in 0..jobs.votes.len() {
            if let Some(vote) = vote_to_set(jobs, job, number) {
                let branch = jobs.branch(incarnation, job, number);
                rm.vote(&branch.xid(), vote)?;
            }
        }
        Ok(JobRm {
            rm,
            number,
            run: PhantomData,
        })
    }

    pub(crate) fn number(&self) -> u32
        ensures { result ≡ self.now.number }
    {
        self.number
    }

    /// Answers a thread's call, unless it names another branch than one of the jobs, which is
    /// `Mixed`.
    pub(crate) fn answer(
        &mut self,
        jobs: &Jobs,
        incarnation: u64,
        thread: u32,
        call: &Call,
    ) -> Result<Answer, Halt>
        requires few { vec_len jobs.now.votes ≤ JOB_LIMIT }
        requires some { 0 < jobs.now.threads }
        requires own { J.is_own ≡ is_xid_of jobs.now incarnation }
        ensures { self.new.number ≡ self.old.number }
    {
        if !names_own(jobs, incarnation, call, self.number) {
            return Err(Halt::Fault(WorkFault::Mixed));
        }
        let answer = self.rm.apply(thread, call)?;
        Ok(answer)
    }

    pub(crate) fn into_rm(self) -> MemRm
        ensures { HasOnly (J.is_own self.number) result }
    {
        let JobRm { rm, .. } = self;
        rm
    }
}

/// What a job votes at a resource manager, if it has to be told: a branch that nobody named votes
/// yes.
fn vote_to_set(jobs: &Jobs, job: usize, rm: u32) -> Option<Vote> {
    match jobs.vote(job, rm) {
        Some(Vote::Yes) => None,
        vote => vote,
    }
}

/// Whether a call names a branch of the jobs at a resource manager, or none.
fn names_own(jobs: &Jobs, incarnation: u64, call: &Call, rm: u32) -> bool
    requires few { vec_len jobs.now.votes ≤ JOB_LIMIT }
    requires some { 0 < jobs.now.threads }
    ensures { IsTrue result → NamesOnly (is_xid_of jobs.now incarnation rm) call.now }
{
    match call.xid() {
        Some(xid) => jobs.is_xid(incarnation, xid, rm),
        None => true,
    }
}
