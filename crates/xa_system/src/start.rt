//! The parts of a system as it starts.
ghost use Rattle.std.specs.Prelude.{◌≡◌, ◌≤◌, length, map, Err, IfOk, IsSome, vec_len};
ghost use Rattle.xa_system.specs.SystemView.{AreNew, new_site};
ghost use Rattle.xa_tm.specs.Started.{IsStarted, IsStartedOver};
ghost use Rattle.xa_tm.specs.StartFaults.{IsOnlyRead, IsToBlame};
ghost use Rattle.xa_tm.specs.Calls.{log_in};
ghost use Rattle.xa_tm.specs.Slots.{log_held, slot_moment};
ghost use Rattle.xa_tm.specs.declared.manager.start.StartFault.{StartFault};

use crate::parts::Parts;
use crate::site::Site;
use std::alloc::{AllocFailed, Global};
use std::snapshot::Snapshot;
use xa_base::MAX_RMS;
use xa_line::Lines;
use xa_log::DecisionLog;
use xa_rm::ResourceManager;
use xa_tm::{Manager, Slot, StartFault};

/// The resource managers, each up.
fn sites_of<R: ResourceManager + Drop>(
    alloc: Global,
    rms: Vec<R>,
) -> Result<Vec<Site<R>>, AllocFailed<Site<R>>>
    ensures { IfOk result (λ sites. sites.items ≡ map new_site rms.items) }
{
    let mut sites = Vec::new(alloc);
    for rm in rms {
        sites.push(Site { rm, is_up: true })?;
    }
    Ok(sites)
}

/// A manager that starts over a log, which may be taken out of it later.
fn start_manager<L: DecisionLog + Drop>(
    alloc: Global,
    threads: u32,
    rms: u32,
    log: L,
) -> Result<Manager<Slot<L>>, StartFault>
    ensures manager { IfOk result (IsStarted threads rms) }
    ensures log { IfOk result
        (IsStartedOver (slot_moment L.moment) threads rms (L.moment log)) }
    ensures held { IfOk result (λ manager. IsSome (log_held (log_in manager))) }
    ensures log_fault { result ≡ Err StartFault.Log → IsToBlame L.DecisionLog log }
    ensures memory_fault { result ≡ Err StartFault.Memory →
        ((left : L) × IsOnlyRead L.DecisionLog log left) }
{
    let manager = Manager::new(alloc, threads, rms, log)?;
    Ok(manager.into_slot())
}

/// The parts of a system as it starts: each resource manager is up, the lines are new, and the
/// manager starts over the log. All other room is made before the log is asked.
pub(crate) fn start_parts<R: ResourceManager + Drop, L: DecisionLog + Drop>(
    alloc: Global,
    threads: u32,
    rms: Vec<R>,
    log: L,
) -> Result<Parts<R, Slot<L>>, StartFault>
    requires few { vec_len rms ≤ MAX_RMS }
    ensures parts { IfOk result (AreNew threads rms.items) }
    ensures manager { IfOk result (λ parts. IsStarted threads (length rms.items) parts.manager) }
    ensures log { IfOk result (λ parts.
        IsStartedOver (slot_moment L.moment) threads (length rms.items)
        (L.moment log) parts.manager) }
    ensures held { IfOk result (λ parts. IsSome (log_held (log_in parts.manager))) }
    ensures log_fault { result ≡ Err StartFault.Log → IsToBlame L.DecisionLog log }
{
    let count = rms.len() as u32;
    let Ok(lines) = Lines::new(alloc, threads, count) else {
        return Err(StartFault::Memory);
    };
    let start = Snapshot::of(&rms);
    let Ok(sites) = sites_of(alloc, rms) else {
        return Err(StartFault::Memory);
    };
    let manager = start_manager(alloc, threads, count, log)?;
    let began = Snapshot::of(&manager);
    Ok(Parts {
        alloc,
        start,
        began,
        sites,
        lines,
        manager,
    })
}
