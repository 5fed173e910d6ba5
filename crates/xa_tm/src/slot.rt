//! A place for a decision log.

ghost use Rattle.std.specs.Prelude.{◌≡◌, Some, None, is_some, Err};
ghost use Rattle.xa_log.specs.Contract.{one_more_fault};

use std::alloc::Global;
use std::snapshot::Snapshot;
use xa_base::{Branch, Gtrid, How};
use xa_log::{Decision, DecisionLog, LogFault, LogRows, Logged, counted};

/// A place for a decision log, which may be taken out and another put in.
///
/// With the log in it, each call is that of the log. While it is empty each call answers
/// [`LogFault::Store`]: so a manager whose log is out is one whose log fails, and needs no case of
/// its own.
#[derive(Drop)]
pub struct Slot<L: Drop> {
    pub(crate) log: Option<L>,
    /// The log that was last put in or taken out, without a byte.
    pub(crate) was: Snapshot<L>,
    /// The calls that failed while it was empty.
    faults: u64,
}

/// Counts a call that failed for want of a log.
fn without_log<T>(faults: &mut u64) -> Result<T, LogFault>
    ensures fault { result ≡ Err LogFault.Store }
    ensures count { faults.new ≡ one_more_fault faults.old }
{
    counted(faults, Err(LogFault::Store))
}

impl<L: Drop> Slot<L> {
    /// With a log in it.
    pub fn new(log: L) -> Slot<L>
        ensures log { result.log ≡ Some log }
        ensures faults { result.faults ≡ 0 }
    {
        let was = Snapshot::of(&log);
        Slot {
            log: Some(log),
            was,
            faults: 0,
        }
    }

    /// Whether there is a log in it.
    pub fn is_held(&self) -> bool
        ensures { result ≡ is_some self.now.log }
    {
        self.log.is_some()
    }

    /// Takes the log out, if there is one.
    pub(crate) fn take(&mut self) -> Option<L>
        ensures value { result ≡ self.old.log }
        ensures out { self.new.log ≡ None }
        ensures was { (log : L) → self.old.log ≡ Some log → self.new.was.value ≡ log }
        ensures same { self.old.log ≡ None → self.new ≡ self.old }
        ensures faults { self.new.faults ≡ self.old.faults }
    {
        if let Some(log) = &self.log {
            self.was = Snapshot::of(log);
        }
        self.log.take()
    }

    /// Puts a log in, in the place of what was there.
    pub(crate) fn put(&mut self, log: L)
        ensures { self.new ≡ record self.old { log = Some log } }
    {
        self.log = Some(log);
    }
}

impl<L: DecisionLog + Drop> DecisionLog for Slot<L> {
    ghost use Rattle.std.specs.Prelude.{◌≡◌, Some};
    ghost use Rattle.xa_tm.specs.Slots.{durable_in, fits_in, own_in, says_in, slot_moment};

    ghost moment = { λ it. slot_moment L.moment it };

    ghost says = { λ call change old new fault. says_in L.says call change old.log new.log fault };

    ghost durable = { λ it c d order is left. durable_in (λ l. (L.moment l).content)
        (λ l. (L.moment l).is_in_order)
        (λ l. (L.moment l).may_leave) L.durable it.log it.was.value c d order is left };

    ghost own = { λ it c order is.
        own_in (λ l. (L.moment l).content) (λ l. (L.moment l).is_in_order)
        L.own it.log c order is };

    ghost fits = { λ it c order is.
        fits_in (λ l. (L.moment l).content) (λ l. (L.moment l).is_in_order)
        L.fits it.log c order is };

    fn commit(&mut self, g: Gtrid, participants: &[Branch]) -> Result<Logged, LogFault> {
        match &mut self.log {
            Some(log) => log.commit(g, participants),
            None => without_log(&mut self.faults),
        }
    }

    fn commit_all(
        &mut self,
        alloc: Global,
        decisions: &[Decision],
    ) -> Result<Vec<Logged>, LogFault> {
        match &mut self.log {
            Some(log) => log.commit_all(alloc, decisions),
            None => without_log(&mut self.faults),
        }
    }

    fn contains(&mut self, g: Gtrid) -> Result<bool, LogFault> {
        match &mut self.log {
            Some(log) => log.contains(g),
            None => without_log(&mut self.faults),
        }
    }

    fn participants(&mut self, g: Gtrid) -> Result<Vec<Branch>, LogFault> {
        match &mut self.log {
            Some(log) => log.participants(g),
            None => without_log(&mut self.faults),
        }
    }

    fn done(&mut self, g: Gtrid) -> Result<bool, LogFault> {
        match &mut self.log {
            Some(log) => log.done(g),
            None => without_log(&mut self.faults),
        }
    }

    fn done_all(&mut self, gtrids: &[Gtrid]) -> Result<(), LogFault> {
        match &mut self.log {
            Some(log) => log.done_all(gtrids),
            None => without_log(&mut self.faults),
        }
    }

    fn note_heuristic(&mut self, b: Branch, how: How) -> Result<(), LogFault> {
        match &mut self.log {
            Some(log) => log.note_heuristic(b, how),
            None => without_log(&mut self.faults),
        }
    }

    fn heuristic_of(&mut self, b: Branch) -> Result<Option<How>, LogFault> {
        match &mut self.log {
            Some(log) => log.heuristic_of(b),
            None => without_log(&mut self.faults),
        }
    }

    fn bump(&mut self) -> Result<u64, LogFault> {
        match &mut self.log {
            Some(log) => log.bump(),
            None => without_log(&mut self.faults),
        }
    }

    fn rows(&mut self) -> Result<LogRows, LogFault> {
        match &mut self.log {
            Some(log) => log.rows(),
            None => without_log(&mut self.faults),
        }
    }

    fn faults(&self) -> u64 {
        match &self.log {
            Some(log) => log.faults(),
            None => self.faults,
        }
    }
}
