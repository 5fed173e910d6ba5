//! What resource managers are told to do.
ghost use Rattle.xa_base.specs.Xid.{IsXid};
ghost use Rattle.xa_base.specs.declared.step.Step.TheVariants as Steps;
ghost use Rattle.std.specs.Prelude.{◌≡◌, ◌<◌, OnOk};
ghost use Rattle.std.specs.Result.{result_err};
ghost use Rattle.xa_model.specs.Replies.History.{name_of};
ghost use Rattle.xa_system.specs.Parts.{GoesOn, HindersScript, StandsSomewhere, noted_as, sees};

use super::Parts;
use crate::site::is_at;
use crate::twin::Twin;
use xa_base::{How, Refusal, Reply, Vote, Xid};
use xa_log::DecisionLog;
use xa_rm::{ResourceManager, RmFault};

/// What was told to a resource manager is noted, or refused.
fn noted(told: Result<(), RmFault>) -> Twin
    ensures { result ≡ noted_as told }
{
    match told {
        Ok(()) => Twin::new(Reply::Noted, Reply::Noted),
        Err(RmFault::Script) => Twin::refused(Refusal::Script),
        Err(RmFault::Memory) => Twin::refused(Refusal::Memory),
    }
}

impl<R: ResourceManager + Drop, L: DecisionLog + Drop> Parts<R, L> {
    /// Whether a resource manager may be told anything of the branch. The reasons against it are
    /// looked for in the order of the numbers.
    fn check_script(&self, rm: u32, xid: &Xid) -> Result<(), Refusal>
        requires { StandsSomewhere (sees R.look L.moment) self.now }
        ensures why { HindersScript (sees R.look L.moment) rm (name_of xid.now) self.now
            (result_err result) }
        ensures there { OnOk result (rm < self.now.lines.rms) }
    {
        if rm >= self.lines.rms() {
            return Err(Refusal::Limit);
        }
        if !self.sites[rm as usize].is_up {
            return Err(Refusal::RmDown);
        }
        if !is_at(xid, rm) {
            return Err(Refusal::Script);
        }
        Ok(())
    }

    /// A resource manager is told how to vote.
    pub(super) fn vote(&mut self, rm: u32, xid: &Xid, vote: Vote) -> Twin
        requires stands { StandsSomewhere (sees R.look L.moment) self.old }
        requires has_xid { IsXid xid.now }
        ensures { GoesOn (sees R.look L.moment) (Steps.Vote rm xid.now vote) result self.old
            self.new }
    {
        if let Err(refusal) = self.check_script(rm, xid) {
            return Twin::refused(refusal);
        }
        noted(self.sites[rm as usize].rm.vote(xid, vote))
    }

    /// A resource manager is told how many commits to put off.
    pub(super) fn busy(&mut self, rm: u32, xid: &Xid, times: u32) -> Twin
        requires stands { StandsSomewhere (sees R.look L.moment) self.old }
        requires has_xid { IsXid xid.now }
        ensures { GoesOn (sees R.look L.moment) (Steps.Busy rm xid.now times) result self.old
            self.new }
    {
        if let Err(refusal) = self.check_script(rm, xid) {
            return Twin::refused(refusal);
        }
        noted(self.sites[rm as usize].rm.retry(xid, times))
    }

    /// A resource manager ends a prepared branch by itself.
    pub(super) fn heuristic(&mut self, rm: u32, xid: &Xid, how: How) -> Twin
        requires stands { StandsSomewhere (sees R.look L.moment) self.old }
        requires has_xid { IsXid xid.now }
        ensures { GoesOn (sees R.look L.moment) (Steps.Heuristic rm xid.now how) result self.old
            self.new }
    {
        if let Err(refusal) = self.check_script(rm, xid) {
            return Twin::refused(refusal);
        }
        noted(self.sites[rm as usize].rm.heuristic(xid, how))
    }
}
