//! What the steps of all processes have told.

use crate::systems::do_step;
use std::alloc::Global;
use std::process::Abort;
use xa_base::{Branch, Fate, Gtrid, Outcome, Reply, Step};
use xa_log::{DecisionLog, LogFault};
use xa_rm::MemRm;
use xa_system::System;

/// How many threads and resource managers each process has.
pub(crate) const THREADS: u32 = 2;

pub(crate) const RMS: u32 = 2;

/// The transactions that were begun, and those that a log ever had a row of.
#[derive(Drop)]
pub(crate) struct Told {
    pub begun: Vec<Gtrid>,
    logged: Vec<Gtrid>,
    /// Whether no memory was left for one of them. What follows then shows nothing.
    has_lost: bool,
}

/// How many branches ended so, and how many didn't end.
#[derive(Clone, Copy)]
pub(crate) struct Ends {
    pub committed: u32,
    pub rolled_back: u32,
    pub prepared: u32,
}

impl Ends {
    /// Counts a branch that ended so.
    fn count(&mut self, fate: Fate) {
        match fate {
            Fate::Committed => self.committed = self.committed.saturating_add(1),
            Fate::RolledBack | Fate::Lost => {
                self.rolled_back = self.rolled_back.saturating_add(1);
            }
            Fate::Prepared => self.prepared = self.prepared.saturating_add(1),
            _ => {}
        }
    }
}

/// Whether a branch may end so: it is committed only if its transaction has had a row, and rolled
/// back or lost only if it never had one.
fn may_end(fate: Fate, has_row: bool) -> bool {
    match fate {
        Fate::Committed => has_row,
        Fate::RolledBack | Fate::Lost => !has_row,
        _ => true,
    }
}

/// The transaction that a step commits, if it is done.
fn commits(step: &Step) -> Option<Gtrid> {
    match *step {
        Step::Decide {
            gtrid,
            outcome: Outcome::Commit,
        } => Some(gtrid),
        Step::Settle { gtrid } => Some(gtrid),
        _ => None,
    }
}

impl Told {
    /// Nothing yet.
    pub(crate) fn new(alloc: Global) -> Told {
        Told {
            begun: Vec::new(alloc),
            logged: Vec::new(alloc),
            has_lost: false,
        }
    }

    /// Does a step, and keeps what its reply tells.
    pub(crate) fn step<L: DecisionLog + Drop>(
        &mut self,
        system: &mut System<MemRm, L>,
        step: Step,
    ) -> Reply {
        let commits = commits(&step);
        let reply = do_step(system, step);
        self.keep(&reply, commits);
        reply
    }

    /// Keeps what a reply tells.
    fn keep(&mut self, reply: &Reply, commits: Option<Gtrid>) {
        match (reply, commits) {
            (Reply::Begun(gtrid), _) => self.keep_begun(*gtrid),
            (Reply::Decided, Some(gtrid)) => self.keep_logged(gtrid),
            _ => {}
        }
    }

    fn keep_begun(&mut self, gtrid: Gtrid) {
        if self.begun.push(gtrid).is_err() {
            self.has_lost = true;
        }
    }

    fn keep_logged(&mut self, gtrid: Gtrid) {
        if self.logged.push(gtrid).is_err() {
            self.has_lost = true;
        }
    }

    /// Keeps the rows of a log.
    pub(crate) fn read<L: DecisionLog>(&mut self, log: &mut L) -> Result<(), LogFault> {
        let rows = log.rows()?;
        for gtrid in &rows.decisions {
            self.keep_logged(*gtrid);
        }
        Ok(())
    }

    /// Looks at a branch, which has ended as it may, and counts it.
    fn look_at(&self, rt: &impl Abort, branch: Branch, fate: Fate, ends: &mut Ends) {
        let has_row = self.logged.contains(&branch.gtrid);
        assert!(rt; may_end(fate, has_row));
        ends.count(fate);
    }

    /// Looks at all branches of all processes.
    pub(crate) fn look<L: DecisionLog + Drop>(
        &self,
        rt: &impl Abort,
        system: &System<MemRm, L>,
    ) -> Ends {
        assert!(rt; !self.has_lost);
        let mut ends = Ends {
            committed: 0,
            rolled_back: 0,
            prepared: 0,
        };
        for gtrid in &self.begun {
            for thread in 0..THREADS {
                for rm in 0..RMS {
                    let gtrid = *gtrid;
                    let branch = Branch { gtrid, thread, rm };
                    self.look_at(rt, branch, system.fate(&branch.xid()), &mut ends);
                }
            }
        }
        ends
    }
}
