//! Crashes and restarts.
ghost use Rattle.std.specs.Prelude.{◌≡◌, ℕ};
ghost use Rattle.xa_base.specs.declared.reply.Reply.TheVariants as Replies;
ghost use Rattle.xa_base.specs.declared.step.Part.TheVariants as KnownParts;
ghost use Rattle.xa_base.specs.declared.step.Side.TheVariants as Sides;
ghost use Rattle.xa_base.specs.declared.step.Step.TheVariants as Steps;
ghost use Rattle.xa_system.specs.Parts.{GoesOn, StandsSomewhere, sees};
ghost use Rattle.xa_tm.specs.Calls.{log_in};
ghost use Rattle.xa_tm.specs.BookAndLog.{IsReadFrom};

use super::Parts;
use crate::site::crash_all;
use crate::twin::Twin;
use xa_base::{Part, Refusal, Reply};
use xa_log::DecisionLog;
use xa_rm::ResourceManager;
use xa_tm::Found;

impl<R: ResourceManager + Drop, L: DecisionLog + Drop> Parts<R, L> {
    /// A line crashes.
    pub(super) fn crash_line(&mut self, thread: u32, rm: u32) -> Twin
        requires { StandsSomewhere (sees R.look L.moment) self.old }
        ensures { GoesOn (sees R.look L.moment) (Steps.Crash (KnownParts.Line thread rm)) result
            self.old self.new }
    {
        if !self.lines.has(thread, rm) {
            return Twin::refused(Refusal::Limit);
        }
        if !self.manager.is_up() {
            return Twin::refused(Refusal::ManagerDown);
        }
        if !self.sites[rm as usize].is_up {
            return Twin::refused(Refusal::RmDown);
        }
        self.sites[rm as usize].rm.break_line(thread);
        self.lines.line_mut(thread, rm).renew();
        self.manager.crash(Part::Line { thread, rm });
        Twin::new(Reply::Crashed, Reply::Crashed)
    }

    /// A resource manager crashes, and with it all its lines.
    pub(super) fn crash_rm(&mut self, rm: u32) -> Twin
        requires { StandsSomewhere (sees R.look L.moment) self.old }
        ensures { GoesOn (sees R.look L.moment) (Steps.Crash (KnownParts.Rm rm)) result self.old
            self.new }
    {
        if rm >= self.lines.rms() {
            return Twin::refused(Refusal::Limit);
        }
        if !self.sites[rm as usize].is_up {
            return Twin::refused(Refusal::RmDown);
        }
        let site = &mut self.sites[rm as usize];
        site.rm.crash();
        site.is_up = false;
        self.lines.renew_rm(rm);
        self.manager.crash(Part::Rm { rm });
        Twin::new(Reply::Crashed, Reply::Crashed)
    }

    /// The manager crashes, and with it all lines.
    pub(super) fn crash_manager(&mut self) -> Twin
        requires { StandsSomewhere (sees R.look L.moment) self.old }
        ensures { GoesOn (sees R.look L.moment) (Steps.Crash KnownParts.Manager) result self.old
            self.new }
    {
        if !self.manager.is_up() {
            return Twin::refused(Refusal::ManagerDown);
        }
        crash_all(&mut self.sites);
        self.lines.renew_all();
        self.manager.crash(Part::Manager);
        Twin::new(Reply::Crashed, Reply::Crashed)
    }

    /// A resource manager that is down is started again.
    pub(super) fn restart_rm(&mut self, rm: u32) -> Twin
        requires { StandsSomewhere (sees R.look L.moment) self.old }
        ensures { GoesOn (sees R.look L.moment) (Steps.Restart (Sides.Rm rm)) result self.old
            self.new }
    {
        if rm >= self.lines.rms() {
            return Twin::refused(Refusal::Limit);
        }
        if self.sites[rm as usize].is_up {
            return Twin::refused(Refusal::Busy);
        }
        self.sites[rm as usize].is_up = true;
        Twin::new(Reply::RmRestarted, Reply::RmRestarted)
    }

    /// A manager that is down is started again. A restart that fails leaves all else as it is.
    pub(super) fn restart_manager(&mut self) -> Twin
        requires { StandsSomewhere (sees R.look L.moment) self.old }
        ensures goes { GoesOn (sees R.look L.moment) (Steps.Restart Sides.Manager) result self.old
            self.new }
        ensures read { (i d h : ℕ) → result ≡ Replies.Restarted i d h →
            IsReadFrom L.DecisionLog i d h (log_in self.old.manager) (log_in self.new.manager) }
    {
        match self.manager.restart() {
            Ok(
                Found {
                    incarnation,
                    decisions,
                    heuristics,
                },
            ) => {
                let reply = Reply::Restarted {
                    incarnation,
                    decisions,
                    heuristics,
                };
                let copy = Reply::Restarted {
                    incarnation,
                    decisions,
                    heuristics,
                };
                Twin::new(reply, copy)
            }
            Err(refusal) => Twin::refused(refusal),
        }
    }
}
