//! What a process does next, by chance.

use crate::processes::chance::Chance;
use crate::processes::told::{RMS, THREADS, Told};
use xa_base::{Branch, Call, Gtrid, How, Outcome, Part, RbCode, Reply, Side, Step, Vote, Xid};
use xa_log::DecisionLog;
use xa_rm::MemRm;
use xa_system::System;

/// What all processes have told, and the chance of the next steps.
#[derive(Drop)]
pub(crate) struct Notes {
    pub told: Told,
    pub chance: Chance,
    /// How often the log of a process had stopped.
    pub stops: u32,
}

/// A process that plays.
#[derive(Drop)]
pub(crate) struct Player<L: DecisionLog + Drop> {
    pub system: System<MemRm, L>,
    pub notes: Notes,
}

impl<L: DecisionLog + Drop> Player<L> {
    /// Does a step.
    pub(crate) fn step(&mut self, step: Step) -> Reply {
        self.notes.told.step(&mut self.system, step)
    }

    /// Has a call issued, taken and heard.
    fn call(&mut self, thread: u32, rm: u32, call: Call) {
        let Reply::Issued = self.step(Step::Issue { thread, rm, call }) else {
            return;
        };
        self.answer(thread, rm);
    }

    /// Has the oldest call on a line taken and heard.
    fn answer(&mut self, thread: u32, rm: u32) {
        self.step(Step::Take { thread, rm });
        self.step(Step::Hear { thread, rm });
    }

    /// A transaction: mostly one of the last four that were begun.
    fn some_gtrid(&mut self) -> Gtrid {
        let begun = self.notes.told.begun.len();
        let back = if self.notes.chance.once_in(4) {
            self.notes
                .chance
                .below(u32::try_from(begun).unwrap_or(u32::MAX))
        } else {
            self.notes.chance.below(4)
        };
        let place = begun.saturating_sub(1).saturating_sub(back as usize);
        match self.notes.told.begun.get(place) {
            Some(gtrid) => *gtrid,
            None => Gtrid {
                incarnation: 1,
                sequence: 1,
            },
        }
    }

    /// A branch of a transaction.
    fn some_branch(&mut self) -> Branch {
        let gtrid = self.some_gtrid();
        Branch {
            gtrid,
            thread: self.notes.chance.below(THREADS),
            rm: self.notes.chance.below(RMS),
        }
    }

    /// A transaction is begun, and a thread works at both resource managers.
    fn work(&mut self) {
        let thread = self.notes.chance.below(THREADS);
        let Reply::Begun(gtrid) = self.step(Step::Begin { thread }) else {
            return;
        };
        for rm in 0..RMS {
            self.work_at(Branch { gtrid, thread, rm });
        }
    }

    /// A thread works at a resource manager, up to its vote; now and then a call is left out.
    fn work_at(&mut self, branch: Branch) {
        self.call(branch.thread, branch.rm, Call::OpenRm);
        self.mostly_call(branch, Call::start(branch.xid()));
        self.mostly_call(branch, Call::end(branch.xid()));
        let xid = branch.xid();
        self.mostly_call(branch, Call::Prepare { xid });
    }

    /// Has a call issued, taken and heard, but now and then not.
    fn mostly_call(&mut self, branch: Branch, call: Call) {
        if self.notes.chance.once_in(12) {
            return;
        }
        self.call(branch.thread, branch.rm, call);
    }

    /// A transaction is decided or claimed, and some of its branches are told.
    fn end(&mut self) {
        let gtrid = self.some_gtrid();
        let thread = self.notes.chance.below(THREADS);
        let is_commit = !self.notes.chance.once_in(4);
        self.decide(gtrid, is_commit);
        for rm in 0..RMS {
            if !self.notes.chance.once_in(3) {
                let xid = Branch { gtrid, thread, rm }.xid();
                self.call(thread, rm, end_of(xid, is_commit));
            }
        }
        if self.notes.chance.once_in(2) {
            self.step(Step::Done { gtrid });
        }
    }

    /// A transaction is decided, or claimed and then settled or abandoned.
    fn decide(&mut self, gtrid: Gtrid, is_commit: bool) {
        let step = if self.notes.chance.once_in(4) {
            self.step(Step::Claim { gtrid });
            if is_commit {
                Step::Settle { gtrid }
            } else {
                Step::Abandon { gtrid }
            }
        } else {
            let outcome = if is_commit {
                Outcome::Commit
            } else {
                Outcome::Rollback
            };
            Step::Decide { gtrid, outcome }
        };
        self.step(step);
    }

    /// What is in doubt at a resource manager is listed.
    fn list(&mut self, thread: u32, rm: u32) {
        self.step(Step::Restart(Side::Rm { rm }));
        self.call(thread, rm, Call::OpenRm);
        self.step(Step::Recover {
            rm,
            count: 8,
            start_scan: true,
            end_scan: true,
        });
        self.answer(thread, rm);
    }

    /// What is in doubt at a resource manager is listed, and ended.
    pub(crate) fn recover(&mut self, rm: u32, is_open_too: bool) {
        let thread = 0;
        self.list(thread, rm);
        let resolve = if is_open_too {
            Step::ResolveOpen { rm }
        } else {
            Step::Resolve { rm }
        };
        let Reply::Resolved(calls) = self.step(resolve) else {
            return;
        };
        for _ in 0..calls {
            self.answer(thread, rm);
        }
    }

    /// A call of a branch, and whatever waits on its line.
    fn stray(&mut self) {
        let branch = self.some_branch();
        let Branch { thread, rm, .. } = branch;
        let call = call_of(self.notes.chance.below(7), branch);
        self.step(Step::Issue { thread, rm, call });
        if self.notes.chance.once_in(2) {
            return;
        }
        self.answer(thread, rm);
    }

    /// A resource manager votes, is busy, or ends a branch alone.
    fn vote(&mut self) {
        let branch = self.some_branch();
        let script = self.notes.chance.below(4);
        self.step(script_of(script, branch));
    }

    /// A line crashes, or another part, which is started again.
    fn crash(&mut self) {
        let thread = self.notes.chance.below(THREADS);
        let rm = self.notes.chance.below(RMS);
        match self.notes.chance.below(3) {
            0 => {
                self.step(Step::Crash(Part::Line { thread, rm }));
            }
            1 => self.restart(Part::Rm { rm }, Side::Rm { rm }),
            _ => self.restart(Part::Manager, Side::Manager),
        }
    }

    /// A part crashes, and is started again.
    fn restart(&mut self, part: Part, side: Side) {
        self.step(Step::Crash(part));
        self.step(Step::Restart(side));
    }

    /// Does something.
    pub(crate) fn play(&mut self) {
        match self.notes.chance.below(12) {
            0..4 => self.work(),
            4..8 => self.end(),
            8 => {
                let rm = self.notes.chance.below(RMS);
                let is_open_too = self.notes.chance.once_in(2);
                self.recover(rm, is_open_too);
            }
            9 => self.stray(),
            10 => self.vote(),
            _ => self.crash(),
        }
    }
}

/// A call of a branch, by a number.
fn call_of(number: u32, branch: Branch) -> Call {
    let xid = branch.xid();
    match number {
        0 => Call::OpenRm,
        1 => Call::start(xid),
        2 => Call::End { xid, fail: true },
        3 => Call::Prepare { xid },
        4 => Call::Rollback { xid },
        5 => Call::Forget { xid },
        _ => end_of(xid, true),
    }
}

/// What a resource manager is told to do with a branch, by a number.
fn script_of(number: u32, branch: Branch) -> Step {
    let rm = branch.rm;
    let xid = branch.xid();
    if number == 0 {
        let vote = Vote::No(RbCode::Rollback);
        return Step::Vote { rm, xid, vote };
    }
    if number == 1 {
        let vote = Vote::ReadOnly;
        return Step::Vote { rm, xid, vote };
    }
    if number == 2 {
        let times = 2;
        return Step::Busy { rm, xid, times };
    }
    let how = How::Rb;
    Step::Heuristic { rm, xid, how }
}

/// The call that ends a branch.
fn end_of(xid: Xid, is_commit: bool) -> Call {
    if is_commit {
        Call::commit(xid)
    } else {
        Call::Rollback { xid }
    }
}
