//! The system: its parts, with the events that left them where they stand.
ghost use Rattle.std.specs.Prelude.{◌≡◌, ◌+◌, true, false, [], length, Err, IfOk, vec_len};
ghost use Rattle.xa_system.specs.SystemView.{AreClear, IsUnclear};
ghost use Rattle.xa_tm.specs.StartFaults.{IsToBlame};
ghost use Rattle.xa_system.specs.declared.system.NewFault.{NewFault};

mod remains;

use crate::parts::Parts;
use crate::start::start_parts;
pub use remains::Remains;
use std::alloc::{AllocError, Global};
use std::marker::Model;
use std::snapshot::Snapshot;
use thiserror::Error;
use xa_base::{Event, MAX_RMS, MAX_THREADS, OWN_FORMAT};
use xa_log::DecisionLog;
use xa_rm::ResourceManager;
use xa_tm::{Slot, StartFault};

/// The most events of a run.
pub const EVENT_LIMIT: usize = 10_000;

/// All parts in one thread, with the events that leave them where they stand.
pub struct System<R: ResourceManager + Drop, L: DecisionLog + Drop> {
    /// The log as it was handed in at the start, without a byte.
    pub(crate) first: Snapshot<L>,
    /// The log as it was handed in last.
    pub(crate) handed: Snapshot<L>,
    pub(crate) parts: Parts<R, Slot<L>>,
    pub(crate) events: Vec<Event>,
}

// It is written out, so that a function that owns a system does not prove again how each part is
// dropped.
impl<R: ResourceManager + Drop, L: DecisionLog + Drop> Drop for System<R, L> {
    fn drop(self) {
        let System {
            first: _,
            handed: _,
            parts: _,
            events: _,
        } = self;
    }
}

impl<R: ResourceManager + Drop, L: DecisionLog + Drop> Model for System<R, L> {
    ghost use Rattle.xa_system.specs.Parts.{sees};
    ghost use Rattle.xa_system.specs.SystemView.{SystemView, system_view_of, IsSound};
    ghost use Rattle.xa_tm.specs.Slots.{slot_moment};

    ghost Value = { SystemView R L };

    ghost view = { system_view_of };

    ghost invariant = { IsSound
        (sees R.look (slot_moment L.moment)) L.moment };
}

/// Why a system can't be made.
#[derive(Clone, Copy, Debug, PartialEq, Eq, Error)]
pub enum NewFault {
    /// The threads or the resource managers are not 1 to 8.
    #[error("not 1 to 8 threads and 1 to 8 resource managers")]
    Limit,
    /// A resource manager holds branches of this manager's format.
    #[error("a resource manager holds branches of this manager's format")]
    NotClear,
    /// The decision log failed, or has a row or a record of a later incarnation than its own. The
    /// incarnation may have been raised.
    #[error("the decision log failed, or has a row of no earlier incarnation")]
    Log,
    /// A request for memory was refused. The log is as it was.
    #[error("out of memory")]
    Memory,
}

impl From<StartFault> for NewFault {
    ghost use Rattle.xa_system.specs.StartFaults.{new_fault_of};

    ghost from_gives = { λ start fault. fault ≡ new_fault_of start };

    fn from(fault: StartFault) -> NewFault {
        match fault {
            StartFault::Log => NewFault::Log,
            StartFault::Memory => NewFault::Memory,
        }
    }
}

impl From<AllocError> for NewFault {
    ghost use Rattle.xa_system.specs.declared.system.NewFault.TheVariants as Faults;

    ghost from_gives = { λ _ fault. fault ≡ Faults.Memory };

    fn from(_error: AllocError) -> NewFault {
        NewFault::Memory
    }
}

/// Whether no resource manager ever held a branch of this manager's format.
fn are_clear<R: ResourceManager>(rms: &[R]) -> bool
    ensures clear { result ≡ true → AreClear R.look rms.now }
    ensures unclear { result ≡ false → IsUnclear R.look rms.now }
{
    for rm in rms {
        if rm.holds_format(OWN_FORMAT) {
            return false;
        }
        let _ = rm.in_doubt_len();
    }
    true
}

impl<R: ResourceManager + Drop, L: DecisionLog + Drop> System<R, L> {
    ghost use Rattle.xa_model.specs.Promises.Headline.{Headline, HeadlineSince};
    ghost use Rattle.xa_model.specs.Promises.Processes.{Resumes, resumed};
    ghost use Rattle.xa_model.specs.Protocol.{AllRight, RightOrigin};
    ghost use Rattle.xa_model.specs.Trace.{Trace};
    ghost use Rattle.xa_system.specs.KeptLog.{IsMadeOver};
    ghost use Rattle.xa_system.specs.SystemView.{HasWrongSize, HoldsItsTrace, observes, origin_in};
    ghost use Rattle.xa_system.specs.declared.system.TheConstants.{EVENT_LIMIT};
    ghost use Rattle.xa_tm.specs.Slots.{slot_moment};

    /// A system with no events, of 1 to 8 threads and 1 to 8 resource managers that hold no branch
    /// of this manager's format, with a manager that starts over the log. Room for all events is
    /// made here. The log's rows are read, and room for them is made, before its incarnation is
    /// raised.
    ///
    /// `Log` blames the log alone: it failed, or has a row or a record of a later incarnation than
    /// its own, and then its incarnation was raised. `Memory` comes if a request was refused
    /// outside of the log, before that is raised. A fault drops what was handed in.
    pub fn new(alloc: Global, threads: u32, rms: Vec<R>, log: L) -> Result<System<R, L>, NewFault>
        // Why none is made.
        ensures limit { HasWrongSize threads (vec_len rms) → result ≡ Err NewFault.Limit }
        ensures not_clear { (HasWrongSize threads (vec_len rms) → ⊥) → IsUnclear R.look rms.items →
            result ≡ Err NewFault.NotClear }
        ensures only_limit { result ≡ Err NewFault.Limit → HasWrongSize threads (vec_len rms) }
        ensures only_not_clear { result ≡ Err NewFault.NotClear → IsUnclear R.look rms.items }
        ensures log_fault { result ≡ Err NewFault.Log → IsToBlame L.DecisionLog log }
        // What is made.
        ensures ok { IfOk result (λ system. (system.events ≡ []) × (system.start ≡ rms.items)
            × (system.rms ≡ rms.items) × (system.lines.threads ≡ threads) × HoldsItsTrace
            (observes R.look L.moment) system) }
        ensures right { IfOk result (λ system. RightOrigin (origin_in R.look system)) }
        ensures log { IfOk result (IsMadeOver (observes R.look L.moment) log) }
    {
        if threads == 0 || threads > MAX_THREADS || rms.is_empty() || rms.len() > MAX_RMS as usize {
            return Err(NewFault::Limit);
        }
        if !are_clear::<R>(rms.as_slice()) {
            return Err(NewFault::NotClear);
        }
        let events = Vec::with_capacity(alloc, EVENT_LIMIT)?;
        let first = Snapshot::of(&log);
        let handed = Snapshot::of(&log);
        let parts = start_parts(alloc, threads, rms, log)?;
        Ok(System {
            first,
            handed,
            parts,
            events,
        })
    }

    /// The events so far, oldest first.
    pub fn trace(&self) -> &[Event]
        ensures { result.now ≡ self.now.events }
    {
        self.events.as_slice()
    }

    /// How many more events fit.
    pub fn room(&self) -> usize
        ensures { result + length self.now.events ≡ EVENT_LIMIT }
    {
        EVENT_LIMIT - self.events.len()
    }

    /// What all that happened so far means, at every moment of it. Nothing is done.
    pub fn agree(&self)
        ensures parts { HoldsItsTrace (observes R.look L.moment) self.now }
        ensures headline { RightOrigin (origin_in R.look self.now) →
            Headline (origin_in R.look self.now) self.now.events }
        ensures resumed { (past : Trace) → AllRight past →
            Resumes past (origin_in R.look self.now) →
            HeadlineSince (resumed past (origin_in R.look self.now)) self.now.events }
    {
        let _ = &self.events;
        xa_model::headline_holds();
        xa_model::across_processes();
    }
}
