//! Calls that are issued, taken and heard.
ghost use Rattle.xa_model.specs.Replies.ReadBack.{CallHasXid};
ghost use Rattle.xa_base.specs.declared.step.Step.TheVariants as Steps;
ghost use Rattle.xa_system.specs.Parts.{GoesOn, StandsSomewhere, sees};

use super::Parts;
use crate::site::{heard, take, undone};
use crate::twin::Twin;
use xa_base::{Call, Refusal, Reply};
use xa_log::DecisionLog;
use xa_rm::ResourceManager;

impl<R: ResourceManager + Drop, L: DecisionLog + Drop> Parts<R, L> {
    /// A call is issued on a line. The reasons to refuse it are looked for in their order, at the
    /// line and at the manager.
    pub(super) fn issue(&mut self, thread: u32, rm: u32, call: &Call) -> Twin
        requires stands { StandsSomewhere (sees R.look L.moment) self.old }
        requires has_xid { CallHasXid call.now }
        ensures { GoesOn (sees R.look L.moment) (Steps.Issue thread rm call.now) result self.old
            self.new }
    {
        if !self.lines.has(thread, rm) {
            return Twin::refused(Refusal::Limit);
        }
        if !self.manager.is_up() {
            return Twin::refused(Refusal::ManagerDown);
        }
        if !self.sites[rm as usize].is_up {
            return Twin::refused(Refusal::RmDown);
        }
        if let Err(refusal) = self.lines.line(thread, rm).check(call) {
            return Twin::refused(refusal);
        }
        if let Err(refusal) = self.manager.check_issue(thread, rm, call) {
            return Twin::refused(refusal);
        }
        if self.lines.line(thread, rm).free_calls() == 0 {
            return Twin::refused(Refusal::Full);
        }
        if let Err(refusal) = self.manager.note_issued(call) {
            return Twin::refused(refusal);
        }
        let _ = self.lines.line_mut(thread, rm).issue(call.copy());
        Twin::new(Reply::Issued, Reply::Issued)
    }

    /// The manager asks a resource manager what is in doubt there.
    pub(super) fn recover(&mut self, rm: u32, count: i64, start_scan: bool, end_scan: bool) -> Twin
        requires { StandsSomewhere (sees R.look L.moment) self.old }
        ensures { GoesOn (sees R.look L.moment) (Steps.Recover rm count start_scan end_scan) result
            self.old self.new }
    {
        let call = Call::Recover {
            count,
            start_scan,
            end_scan,
        };
        self.issue(0, rm, &call)
    }

    /// A resource manager takes the oldest call that waits on a line.
    pub(super) fn take(&mut self, thread: u32, rm: u32) -> Twin
        requires { StandsSomewhere (sees R.look L.moment) self.old }
        ensures { GoesOn (sees R.look L.moment) (Steps.Take thread rm) result self.old self.new }
    {
        if !self.lines.has(thread, rm) {
            return Twin::refused(Refusal::Limit);
        }
        if !self.sites[rm as usize].is_up {
            return Twin::refused(Refusal::RmDown);
        }
        if self.lines.line(thread, rm).free_answers() == 0 {
            return Twin::refused(Refusal::Full);
        }
        let line = self.lines.line_mut(thread, rm);
        take(&mut self.sites[rm as usize].rm, line, self.alloc, thread)
    }

    /// The manager hears the oldest answer that waits on a line. If its log fails, it is down and
    /// all lines break.
    pub(super) fn hear(&mut self, thread: u32, rm: u32) -> Twin
        requires { StandsSomewhere (sees R.look L.moment) self.old }
        ensures { GoesOn (sees R.look L.moment) (Steps.Hear thread rm) result self.old self.new }
    {
        if !self.lines.has(thread, rm) {
            return Twin::refused(Refusal::Limit);
        }
        if !self.manager.is_up() {
            return Twin::refused(Refusal::ManagerDown);
        }
        if !self.sites[rm as usize].is_up {
            return Twin::refused(Refusal::RmDown);
        }
        let Some((call, answer)) = self.lines.line(thread, rm).front_answer() else {
            return Twin::new(Reply::Nothing, Reply::Nothing);
        };
        let Ok(copy) = answer.copy(self.alloc) else {
            return Twin::refused(Refusal::Memory);
        };
        match self.manager.hear(thread, rm, call, answer) {
            Ok(()) => heard(self.lines.line_mut(thread, rm), copy),
            Err(refusal) => undone(&mut self.sites, &mut self.lines, refusal),
        }
    }
}
