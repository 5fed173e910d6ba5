//! The system's log is taken out while the manager is down, and one with the same rows is put in.
ghost use Rattle.std.specs.Prelude.{◌≡◌, ◌⊎◌, Bool, Some, None, IsSome, Err, IfErr, OnOk, OnErr};
ghost use Rattle.xa_model.specs.Facts.{up};
ghost use Rattle.xa_system.specs.LogInHistory.{MayHoldRows};
ghost use Rattle.xa_system.specs.Promising.{KeepsItsPromises};
ghost use Rattle.xa_system.specs.SystemView.{observes, trace_in};
ghost use Rattle.xa_tm.specs.Slots.{TakesIn, last_out, log_held};
ghost use Rattle.xa_tm.specs.Swapping.{GivesBack};
ghost use Rattle.xa_tm.specs.declared.swap_fault.SwapFault.TheVariants as SwapFault;

use crate::system::System;
use std::snapshot::Snapshot;
use xa_log::DecisionLog;
use xa_rm::ResourceManager;
use xa_tm::SwapFault;

impl<R: ResourceManager + Drop, L: DecisionLog + Drop> System<R, L> {
    /// Takes the log out, if the manager is down and holds one; else it is `None` and nothing
    /// changes. No event is added. Until a log is put in, each restart of the manager is refused as
    /// when the log failed.
    pub fn take_log(&mut self) -> Option<L>
        // What comes out.
        ensures up { up (trace_in R.look self.old) ≡ Bool.true →
            (result ≡ None) × (self.new ≡ self.old) }
        ensures empty { log_held self.old.log ≡ None → (result ≡ None) × (self.new ≡ self.old) }
        ensures taken { up (trace_in R.look self.old) ≡ Bool.false →
            result ≡ log_held self.old.log }
        ensures out { up (trace_in R.look self.old) ≡ Bool.false → log_held self.new.log ≡ None }
        ensures was { (log : L) → result ≡ Some log → last_out self.new.log ≡ log }
        // What stays.
        ensures others { self.new ≡ record self.old { log = self.new.log } }
        ensures promises { KeepsItsPromises (observes R.look L.moment) self.new }
    {
        let log = self.parts.manager.take_log();
        self.agree();
        log
    }

    /// Puts a log in, if the manager is down and its log is out. Its rows and records are read:
    /// they are those that the events tell of before the change in doubt, or with it. No event is
    /// added. A fault leaves all as it was and gives the log back, and comes in this order:
    ///
    /// - [`SwapFault::Up`]: the manager is up or holds a log;
    /// - [`SwapFault::Memory`]: a request for memory was refused;
    /// - [`SwapFault::Log`]: the log failed for another cause;
    /// - [`SwapFault::OtherRows`]: its rows and records are others.
    pub fn give_log(&mut self, log: L) -> Result<(), (SwapFault, L)>
        // If no log can be put in, the one handed in isn't looked at.
        ensures up { up (trace_in R.look self.old) ≡ Bool.true →
            (result ≡ Err (SwapFault.Up, log)) × (self.new ≡ self.old) }
        ensures held { IsSome (log_held self.old.log) →
            (result ≡ Err (SwapFault.Up, log)) × (self.new ≡ self.old) }
        ensures only_up { IfErr result (λ e. e.0 ≡ SwapFault.Up →
            (up (trace_in R.look self.old) ≡ Bool.true) ⊎ IsSome (log_held self.old.log)) }
        // A fault changes nothing but the log that comes back.
        ensures err { OnErr result (self.new ≡ self.old) }
        ensures back { IfErr result (λ e. GivesBack L.DecisionLog
            (MayHoldRows (trace_in R.look self.old)) log e.0 e.1) }
        // The log that is put in, and what stays.
        ensures ok { OnOk result (TakesIn L.DecisionLog log (log_held self.new.log)) }
        ensures others { OnOk result
            (self.new ≡ record self.old { handed = log; log = self.new.log }) }
        ensures promises { KeepsItsPromises (observes R.look L.moment) self.new }
    {
        let handed = Snapshot::of(&log);
        let given = self.parts.manager.give_log(log);
        if given.is_ok() {
            self.handed = handed;
        }
        self.agree();
        given
    }
}
