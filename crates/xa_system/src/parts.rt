//! What a step reads and changes.
ghost use Rattle.std.specs.Prelude.{◌≡◌, ℕ};
ghost use Rattle.xa_base.specs.declared.reply.Reply.TheVariants as Replies;
ghost use Rattle.xa_base.specs.declared.step.Side.TheVariants as Sides;
ghost use Rattle.xa_base.specs.declared.step.Step.TheVariants as Steps;
ghost use Rattle.xa_tm.specs.Calls.{log_in};
ghost use Rattle.xa_tm.specs.BookAndLog.{IsReadFrom};
ghost use Rattle.xa_model.specs.Replies.ReadBack.{StepHasXids};
ghost use Rattle.xa_system.specs.Parts.{GoesOn, StandsSomewhere, sees};

mod calls;
mod crashes;
mod decisions;
mod recoveries;
mod scripts;

use crate::site::Site;
use crate::twin::Twin;
use std::alloc::Global;
use std::snapshot::Snapshot;
use xa_base::{Part, Side, Step};
use xa_line::Lines;
use xa_log::DecisionLog;
use xa_rm::ResourceManager;
use xa_tm::Manager;

/// The manager, the resource managers and the lines between them, and what they were at the start.
#[derive(Drop)]
pub struct Parts<R: Drop, L: Drop> {
    pub(crate) alloc: Global,
    pub(crate) start: Snapshot<Vec<R>>,
    pub(crate) began: Snapshot<Manager<L>>,
    pub(crate) sites: Vec<Site<R>>,
    pub(crate) lines: Lines,
    pub(crate) manager: Manager<L>,
}

impl<R: ResourceManager + Drop, L: DecisionLog + Drop> Parts<R, L> {
    /// Does a step, or refuses it.
    pub(crate) fn step(&mut self, step: &Step) -> Twin
        requires stands { StandsSomewhere (sees R.look L.moment) self.old }
        requires has_xids { StepHasXids step.now }
        ensures goes { GoesOn (sees R.look L.moment) step.now result self.old self.new }
        ensures read { (i d h : ℕ) → step.now ≡ Steps.Restart Sides.Manager →
            result ≡ Replies.Restarted i d h →
            IsReadFrom L.DecisionLog i d h (log_in self.old.manager) (log_in self.new.manager) }
    {
        match step {
            Step::Begin { thread } => self.begin(*thread),
            Step::Issue { thread, rm, call } => self.issue(*thread, *rm, call),
            Step::Take { thread, rm } => self.take(*thread, *rm),
            Step::Hear { thread, rm } => self.hear(*thread, *rm),
            Step::Claim { gtrid } => self.claim(*gtrid),
            Step::Decide { gtrid, outcome } => self.decide(*gtrid, *outcome),
            Step::Settle { gtrid } => self.settle(*gtrid),
            Step::Done { gtrid } => self.done(*gtrid),
            Step::Abandon { gtrid } => self.abandon(*gtrid),
            Step::Crash(Part::Line { thread, rm }) => self.crash_line(*thread, *rm),
            Step::Crash(Part::Rm { rm }) => self.crash_rm(*rm),
            Step::Crash(Part::Manager) => self.crash_manager(),
            Step::Restart(Side::Rm { rm }) => self.restart_rm(*rm),
            Step::Vote { rm, xid, vote } => self.vote(*rm, xid, *vote),
            Step::Busy { rm, xid, times } => self.busy(*rm, xid, *times),
            Step::Heuristic { rm, xid, how } => self.heuristic(*rm, xid, *how),
            Step::Recover {
                rm,
                count,
                start_scan,
                end_scan,
            } => self.recover(*rm, *count, *start_scan, *end_scan),
            Step::Resolve { rm } => self.resolve(*rm),
            Step::ResolveOpen { rm } => self.resolve_open(*rm),
            Step::Restart(Side::Manager) => self.restart_manager(),
        }
    }
}
