//! A system goes on from what earlier processes left.
ghost use Rattle.std.specs.Prelude.{◌≡◌, ◌≤◌, true, false, [], length, map, Err, IfOk, IsSomeAnd, vec_len};
ghost use Rattle.xa_model.specs.Promises.Processes.{Resumes};
ghost use Rattle.xa_model.specs.Protocol.{RightOrigin};
ghost use Rattle.xa_model.specs.Trace.{Trace};
ghost use Rattle.xa_system.specs.KeptLog.{IsMadeOver};
ghost use Rattle.xa_system.specs.NextProcess.{FindsNewer, Leaves};
ghost use Rattle.xa_tm.specs.StartFaults.{IsToBlame};
ghost use Rattle.xa_system.specs.Steps.{AreCrashed};
ghost use Rattle.xa_system.specs.SystemView.{AreClear, ArePast, HasNewer, HasWrongSize, HoldsItsTrace, observes, origin_in};
ghost use Rattle.xa_system.specs.declared.resume.ResumeFault.{ResumeFault};
ghost use Rattle.xa_tm.specs.Slots.{slot_moment};

use crate::site::{Site, crash_rms};
use crate::start::start_parts;
use crate::system::{EVENT_LIMIT, System};
use std::alloc::{AllocError, Global};
use std::snapshot::Snapshot;
use thiserror::Error;
use xa_base::{MAX_RMS, MAX_THREADS};
use xa_log::DecisionLog;
use xa_rm::ResourceManager;
use xa_tm::StartFault;

/// Why a system can't go on from what earlier processes left.
#[derive(Clone, Copy, Debug, PartialEq, Eq, Error)]
pub enum ResumeFault {
    /// The threads or the resource managers are not 1 to 8.
    #[error("not 1 to 8 threads and 1 to 8 resource managers")]
    Limit,
    /// A resource manager holds a branch of this manager's that no earlier incarnation can have
    /// left there: it is of this one or a later one, names another resource manager, or has numbers
    /// that no row can hold. The incarnation was raised.
    #[error("a resource manager holds a branch that no earlier incarnation left there")]
    Newer,
    /// The decision log failed, or has a row or a record of a later incarnation than its own. The
    /// incarnation may have been raised.
    #[error("the decision log failed, or has a row of no earlier incarnation")]
    Log,
    /// A request for memory was refused. The log is as it was.
    #[error("out of memory")]
    Memory,
}

impl From<StartFault> for ResumeFault {
    ghost use Rattle.xa_system.specs.StartFaults.{resume_fault_of};

    ghost from_gives = { λ start fault. fault ≡ resume_fault_of start };

    fn from(fault: StartFault) -> ResumeFault {
        match fault {
            StartFault::Log => ResumeFault::Log,
            StartFault::Memory => ResumeFault::Memory,
        }
    }
}

impl From<AllocError> for ResumeFault {
    ghost use Rattle.xa_system.specs.declared.resume.ResumeFault.TheVariants as Faults;

    ghost from_gives = { λ _ fault. fault ≡ Faults.Memory };

    fn from(_error: AllocError) -> ResumeFault {
        ResumeFault::Memory
    }
}

/// Whether each branch of this manager that was ever started is one that an earlier incarnation may
/// have left where it is.
fn are_past<R: ResourceManager + Drop>(sites: &[Site<R>], incarnation: u64) -> bool
    requires few { length sites.now ≤ MAX_RMS }
    ensures past { result ≡ true → ArePast R.look incarnation (map (λ site. site.rm) sites.now) }
    ensures newer { result ≡ false → HasNewer R.look incarnation (map (λ site. site.rm) sites.now) }
{
    for rm in 0..sites.len() {
        let site = &sites[rm];
        if site.rm.holds_newer(rm as u32, incarnation) {
            return false;
        }
        let _ = site.rm.in_doubt_len();
    }
    true
}

impl<R: ResourceManager + Drop, L: DecisionLog + Drop> System<R, L> {
    /// A system with no events over the log and the resource managers of earlier processes, 1 to 8
    /// of them. What wasn't prepared there is lost, as in a crash of each resource manager; what
    /// was waits for its recovery. Room for all events is made here, and a fault drops what was
    /// handed in.
    ///
    /// `Log` and `Memory` come as in `System::new`. `Newer` comes last: which branches are of an
    /// earlier incarnation is known only when the log's has been raised.
    pub fn resume(
        alloc: Global,
        threads: u32,
        mut rms: Vec<R>,
        log: L,
    ) -> Result<System<R, L>, ResumeFault>
        // Why none is made.
        ensures limit { HasWrongSize threads (vec_len rms) → result ≡ Err ResumeFault.Limit }
        ensures only_limit { result ≡ Err ResumeFault.Limit → HasWrongSize threads (vec_len rms) }
        ensures log_fault { result ≡ Err ResumeFault.Log → IsToBlame L.DecisionLog log }
        ensures newer { IfOk result (λ system. HasNewer R.look system.incarnation rms.items → ⊥) }
        ensures only_newer { result ≡ Err ResumeFault.Newer →
            FindsNewer R.look L.DecisionLog rms.items log }
        // What is made.
        ensures ok { IfOk result (λ system. (system.events ≡ []) × (system.start ≡ system.rms)
            × AreCrashed R.look rms.items system.start × (system.lines.threads ≡ threads)
            × HoldsItsTrace (observes R.look L.moment) system) }
        ensures fresh { AreClear R.look rms.items →
            IfOk result (λ system. RightOrigin (origin_in R.look system)) }
        ensures follows { (L.moment log).is_in_order →
            IfOk result (λ system. (slot_moment L.moment system.log).is_honest →
            IsSomeAnd (L.moment log).content (λ content. (past : Trace) →
            Leaves R.look past rms.items content → Resumes past (origin_in R.look system))) }
        ensures log { IfOk result (IsMadeOver (observes R.look L.moment) log) }
    {
        if threads == 0 || threads > MAX_THREADS || rms.is_empty() || rms.len() > MAX_RMS as usize {
            return Err(ResumeFault::Limit);
        }
        crash_rms(&mut rms);
        let events = Vec::with_capacity(alloc, EVENT_LIMIT)?;
        let first = Snapshot::of(&log);
        let handed = Snapshot::of(&log);
        let parts = start_parts(alloc, threads, rms, log)?;
        if !are_past(parts.sites.as_slice(), parts.manager.incarnation()) {
            return Err(ResumeFault::Newer);
        }
        Ok(System {
            first,
            handed,
            parts,
            events,
        })
    }
}
