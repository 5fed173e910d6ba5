//! The calls of a system, each in a function of its own with no clause: a proof that carries the
//! clauses of several takes many times as long.

use std::alloc::{AllocError, Global};
use xa_base::{Refusal, Reply, Step};
use xa_log::DecisionLog;
use xa_rm::MemRm;
use xa_system::{NewFault, Remains, ResumeFault, System};

/// A resource manager that holds nothing.
pub(crate) fn one_rm(alloc: Global) -> Result<Vec<MemRm>, AllocError> {
    let mut rms = Vec::new(alloc);
    rms.push(MemRm::new(alloc))?;
    Ok(rms)
}

/// A new system over a log. Of one thread.
pub(crate) fn new_system<L: DecisionLog + Drop>(
    alloc: Global,
    rms: Vec<MemRm>,
    log: L,
) -> Result<System<MemRm, L>, NewFault> {
    System::new(alloc, 1, rms, log)
}

/// The system of the next process, over what one has left.
pub(crate) fn next_system<L: DecisionLog + Drop>(
    alloc: Global,
    rms: Vec<MemRm>,
    log: L,
) -> Result<System<MemRm, L>, ResumeFault> {
    System::resume(alloc, 1, rms, log)
}

/// What a system leaves. None if memory is refused.
pub(crate) fn remains_of<L: DecisionLog + Drop>(
    system: System<MemRm, L>,
) -> Option<Remains<MemRm, L>> {
    system.into_parts().ok()
}

/// Does a step.
pub(crate) fn do_step<L: DecisionLog + Drop>(system: &mut System<MemRm, L>, step: Step) -> Reply {
    system.step(step)
}

/// Does these steps, or none.
pub(crate) fn do_steps<L: DecisionLog + Drop>(
    system: &mut System<MemRm, L>,
    steps: &[Step],
) -> Result<(), Refusal> {
    system.run(steps)
}
