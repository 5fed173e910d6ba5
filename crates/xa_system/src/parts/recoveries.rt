//! The manager ends what a resource manager lists.
ghost use Rattle.std.specs.Result.{result_err};
ghost use Rattle.xa_base.specs.declared.step.Step.TheVariants as Steps;
ghost use Rattle.xa_system.specs.Parts.{GoesOn, HindersRecovery, StandsSomewhere, sees};

use super::Parts;
use crate::twin::Twin;
use xa_base::{Refusal, Reply};
use xa_log::DecisionLog;
use xa_rm::ResourceManager;

impl<R: ResourceManager + Drop, L: DecisionLog + Drop> Parts<R, L> {
    /// Whether a recovery of so many calls may begin at a resource manager. The reasons against it
    /// are looked for in the order of the numbers.
    fn check_recovery(&self, rm: u32, count: usize) -> Result<(), Refusal>
        requires { StandsSomewhere (sees R.look L.moment) self.now }
        ensures { HindersRecovery (sees R.look L.moment) rm count self.now
            (result_err result) }
    {
        if rm >= self.lines.rms() {
            return Err(Refusal::Limit);
        }
        if !self.manager.is_up() {
            return Err(Refusal::ManagerDown);
        }
        if !self.sites[rm as usize].is_up {
            return Err(Refusal::RmDown);
        }
        let line = self.lines.line(0, rm);
        line.check_open()?;
        line.check_room(count)
    }

    /// The manager ends the branches that a resource manager listed last: all of them, or none.
    pub(super) fn resolve(&mut self, rm: u32) -> Twin
        requires { StandsSomewhere (sees R.look L.moment) self.old }
        ensures { GoesOn (sees R.look L.moment) (Steps.Resolve rm) result self.old self.new }
    {
        let count = self.manager.resolve_len(rm);
        if let Err(refusal) = self.check_recovery(rm, count) {
            return Twin::refused(refusal);
        }
        match self.manager.resolve(rm) {
            Ok(calls) => {
                self.lines.line_mut(0, rm).issue_all(calls);
                Twin::new(Reply::Resolved(count), Reply::Resolved(count))
            }
            Err(refusal) => Twin::refused(refusal),
        }
    }

    /// The same, and before that it rolls back all that is open of what is listed.
    pub(super) fn resolve_open(&mut self, rm: u32) -> Twin
        requires { StandsSomewhere (sees R.look L.moment) self.old }
        ensures { GoesOn (sees R.look L.moment) (Steps.ResolveOpen rm) result self.old self.new }
    {
        let count = self.manager.resolve_open_len(rm);
        if let Err(refusal) = self.check_recovery(rm, count) {
            return Twin::refused(refusal);
        }
        match self.manager.resolve_open(rm) {
            Ok(calls) => {
                self.lines.line_mut(0, rm).issue_all(calls);
                Twin::new(Reply::Resolved(count), Reply::Resolved(count))
            }
            Err(refusal) => Twin::refused(refusal),
        }
    }
}
