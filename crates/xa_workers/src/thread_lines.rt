//! What a thread of control says on its lines.

use crate::brand::Run;
use crate::crew::Crew;
use crate::fault::Halt;
use crate::numbered::NumberedIssuer;
use crate::patience::Idle;
use crate::serve::Served;
use crate::{Gate, WorkFault};
use std::alloc::Global;
use std::sync::{Mutex, Wait};
use std::time::Clock;
use xa_base::{Answer, Branch, Call, Code, Outcome, Refusal};

/// A step of a job, which goes to several resource managers at once.
#[derive(Clone, Copy)]
pub(crate) enum Phase {
    Start,
    End,
    Prepare,
    Commit,
    Rollback,
}

impl Phase {
    /// The step that ends a prepared job.
    pub(crate) fn last(end: Outcome) -> Phase {
        match end {
            Outcome::Commit => Phase::Commit,
            Outcome::Rollback => Phase::Rollback,
        }
    }

    fn call(self, branch: Branch) -> Call {
        let xid = branch.xid();
        match self {
            Phase::Start => Call::Start { xid, join: false },
            Phase::End => Call::End { xid, fail: false },
            Phase::Prepare => Call::Prepare { xid },
            Phase::Commit => Call::Commit {
                xid,
                one_phase: false,
            },
            Phase::Rollback => Call::Rollback { xid },
        }
    }
}

/// A thread of control's ends of its lines, by resource manager.
#[derive(Drop)]
pub(crate) struct ThreadLines<'a, J: Run, G> {
    pub(crate) crew: &'a Crew<'a, J, G>,
    pub(crate) thread: u32,
    pub(crate) ends: Vec<NumberedIssuer<J>>,
    pub(crate) served: &'a Vec<Mutex<Served<J>>>,
    pub(crate) idle: Idle,
}

impl<'a, J: Run, G: Gate> ThreadLines<'a, J, G> {
    /// Opens all lines.
    pub(crate) fn open<R: Wait + Clock>(&mut self, rt: &R) -> Result<(), Halt> {
        for rm in 0..self.crew.jobs.rms {
            self.issue(rt, rm, Call::OpenRm)?;
            self.crew.signals.wake_rm(rm);
        }
        for rm in 0..self.crew.jobs.rms {
            self.hear(rt, rm)?;
        }
        Ok(())
    }

    /// The votes of a job with these branches. All its calls are on their lines before the thread
    /// waits for an answer, after the last ones of its job before, which `told` were sent. All are
    /// answered before this returns.
    pub(crate) fn votes<R: Wait + Clock>(
        &mut self,
        rt: &R,
        alloc: Global,
        branches: &[Branch],
        told: &[Branch],
    ) -> Result<Vec<Code>, Halt> {
        self.send(rt, Phase::Start, branches)?;
        self.send(rt, Phase::End, branches)?;
        self.send(rt, Phase::Prepare, branches)?;
        self.hear_last(rt, alloc, told)?;
        self.hear_each(rt, alloc, branches)?;
        self.hear_each(rt, alloc, branches)?;
        self.hear_each(rt, alloc, branches)
    }

    /// Hears what the last calls of a job are answered, which these branches were sent.
    pub(crate) fn hear_last<R: Wait + Clock>(
        &mut self,
        rt: &R,
        alloc: Global,
        told: &[Branch],
    ) -> Result<(), Halt> {
        self.hear_each(rt, alloc, told)?;
        Ok(())
    }

    /// Lets a call for each of these branches wait on its line. It wakes nobody.
    pub(crate) fn send<R: Wait + Clock>(
        &mut self,
        rt: &R,
        phase: Phase,
        branches: &[Branch],
    ) -> Result<(), Halt> {
        for branch in branches {
            self.issue(rt, branch.rm, phase.call(*branch))?;
        }
        Ok(())
    }

    /// Serves this thread's line to a resource manager, and waits a little if there was nothing to
    /// serve. Before it sleeps it wakes the worker, since who holds the resource manager may be
    /// another thread.
    fn serve_or_wait<R: Wait + Clock>(&mut self, rt: &R, rm: u32) -> Result<(), Halt> {
        if self.serve(rm)? {
            return Ok(());
        }
        if self.crew.pause_thread(rt, self.thread, &mut self.idle)? {
            self.crew.signals.wake_rm(rm);
        }
        Ok(())
    }

    /// Serves this thread's line to a resource manager, unless somebody else holds that, and says
    /// whether there was a call.
    fn serve(&self, rm: u32) -> Result<bool, Halt> {
        if self.crew.signals.is_attended(rm) {
            return Ok(false);
        }
        let Some(served) = self.served.get(rm as usize) else {
            return Err(Halt::Fault(WorkFault::Mixed));
        };
        let Some(mut held) = served.try_lock() else {
            return Ok(false);
        };
        let served = &mut *held;
        served.serve_line(self.crew, self.thread)
    }

    /// The codes that answer the oldest unheard call for each of these branches, once all are
    /// there.
    fn hear_each<R: Wait + Clock>(
        &mut self,
        rt: &R,
        alloc: Global,
        branches: &[Branch],
    ) -> Result<Vec<Code>, Halt> {
        let mut codes = Vec::new(alloc);
        for branch in branches {
            let code = self.hear(rt, branch.rm)?;
            codes.push(code)?;
        }
        Ok(codes)
    }

    /// Issues a call, once there is room.
    fn issue<R: Wait + Clock>(&mut self, rt: &R, rm: u32, call: Call) -> Result<(), Halt> {
        for _ in rt.forever() {
            let Some(end) = self.ends.get_mut(rm as usize) else {
                return Err(Halt::Fault(WorkFault::Mixed));
            };
            match end.issue(call.copy()) {
                Ok(()) => {
                    self.idle.found();
                    return Ok(());
                }
                Err(Refusal::Full) => {
                    self.serve_or_wait(rt, rm)?;
                }
                Err(_) => return Err(Halt::Fault(WorkFault::Mixed)),
            }
        }
        unreachable!()
    }

    /// The code that answers the oldest call on a line, once it is there.
    fn hear<R: Wait + Clock>(&mut self, rt: &R, rm: u32) -> Result<Code, Halt> {
        for _ in rt.forever() {
            let Some(end) = self.ends.get_mut(rm as usize) else {
                return Err(Halt::Fault(WorkFault::Mixed));
            };
            match end.hear() {
                Some((_, Answer::Ret(code))) => {
                    self.idle.found();
                    return Ok(code);
                }
                Some(_) => return Err(Halt::Fault(WorkFault::Mixed)),
                None => self.serve_or_wait(rt, rm)?,
            }
        }
        unreachable!()
    }
}
