//! The calls of a system, each in a function of its own with no clause: a proof that carries the
//! clauses of several takes many times as long.

use std::alloc::{AllocError, Global};
use xa_base::{Reply, Step};
use xa_log::DecisionLog;
use xa_rm::MemRm;
use xa_system::{NewFault, ResumeFault, System};

/// So many resource managers, which hold nothing.
fn resource_managers(alloc: Global, count: u32) -> Result<Vec<MemRm>, AllocError> {
    let mut rms = Vec::new(alloc);
    for _ in 0..count {
        rms.push(MemRm::new(alloc))?;
    }
    Ok(rms)
}

/// A new system over a log, at so many resource managers.
pub(crate) fn new_system<L: DecisionLog + Drop>(
    alloc: Global,
    threads: u32,
    rms: u32,
    log: L,
) -> Result<System<MemRm, L>, NewFault> {
    let Ok(rms) = resource_managers(alloc, rms) else {
        return Err(NewFault::Memory);
    };
    System::new(alloc, threads, rms, log)
}

/// A system over what another left.
pub(crate) fn resumed_system<L: DecisionLog + Drop>(
    alloc: Global,
    threads: u32,
    rms: Vec<MemRm>,
    log: L,
) -> Result<System<MemRm, L>, ResumeFault> {
    System::resume(alloc, threads, rms, log)
}

/// Does a step.
pub(crate) fn do_step<L: DecisionLog + Drop>(system: &mut System<MemRm, L>, step: Step) -> Reply {
    system.step(step)
}

/// Takes the log out of a system whose manager is down.
pub(crate) fn taken_log<L: DecisionLog + Drop>(system: &mut System<MemRm, L>) -> Option<L> {
    system.take_log()
}

/// Puts a log into a system whose manager is down. Tells whether the system takes it.
pub(crate) fn takes_log<L: DecisionLog + Drop>(system: &mut System<MemRm, L>, log: L) -> bool {
    system.give_log(log).is_ok()
}
