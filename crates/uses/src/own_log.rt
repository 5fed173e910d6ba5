//! `xa_system`: a system over a log of one's own, and what that then holds.

ghost use Rattle.std.specs.Prelude.{IfOk, IsSomeAnd};
ghost use Rattle.xa_log.specs.Content.{Content};
ghost use Rattle.xa_system.specs.LogInHistory.{LogStands, MayBeLeft, StartsOver};
ghost use Rattle.xa_system.specs.SystemView.{origin_in, trace_in};
ghost use Rattle.xa_tm.specs.Slots.{slot_moment};

use std::alloc::{AllocError, Global};
use xa_base::Step;
use xa_log::{DecisionLog, MemLog};
use xa_rm::{MemRm, ResourceManager};
use xa_system::{NewFault, System};

/// Starts a system over a log in order, and runs steps. The history starts from what that log held;
/// and however the steps go, the log is then as the history leaves it: while the manager is up
/// it has just its rows, each with its participants, its record and its incarnation. So has what a
/// crash of its store leaves. The steps so far are such a list: so it is after each event.
pub fn run_over<R: ResourceManager + Drop, L: DecisionLog + Drop>(
    alloc: Global,
    threads: u32,
    rms: Vec<R>,
    log: L,
    steps: &[Step],
) -> Result<System<R, L>, NewFault>
    requires { (L.moment log).is_in_order }
    ensures starts { IfOk result (λ system. (slot_moment L.moment system.log).is_honest →
        IsSomeAnd (L.moment log).content (StartsOver (origin_in R.look system))) }
    ensures stands { IfOk result (λ system. (slot_moment L.moment system.log).is_honest →
        LogStands (trace_in R.look system) (slot_moment L.moment system.log).content) }
    ensures leaves { IfOk result (λ system. (slot_moment L.moment system.log).is_honest →
        (c : Content) → (slot_moment L.moment system.log).may_leave c →
        MayBeLeft (trace_in R.look system) c) }
{
    let mut system = System::new(alloc, threads, rms, log)?;
    let _ran = system.run(steps);
    Ok(system)
}

/// The same over a new log in memory: no premise is left.
pub fn run_in_memory(
    alloc: Global,
    steps: &[Step],
) -> Result<Result<System<MemRm, MemLog>, NewFault>, AllocError>
    ensures { IfOk result (λ made. IfOk made (λ system. LogStands
        (trace_in ⟦<MemRm as ResourceManager>⟧.look system)
        (slot_moment ⟦<MemLog as DecisionLog>⟧.moment system.log).content)) }
{
    let mut rms = Vec::new(alloc);
    rms.push(MemRm::new(alloc))?;
    Ok(run_over(alloc, 1, rms, MemLog::new(alloc), steps))
}
