//! `xa_system`: processes of the manager one after another, each over what the ones before it left.

ghost use Rattle.std.specs.Prelude.{◌≡◌, ◌++◌, [], ◌∷◌, List, length, map, vec_len};
ghost use Rattle.std.specs.Prelude.{Err, IfOk, IfSome, IsSome, None};
ghost use Rattle.xa_base.specs.Xid.{Xid};
ghost use Rattle.xa_base.specs.declared.reply.Event.{Event};
ghost use Rattle.xa_base.specs.declared.step.Step.{Step};
ghost use Rattle.xa_model.specs.Promises.Headline.{HeadlineSince};
ghost use Rattle.xa_model.specs.Promises.Processes.{Resumes, joined, resumed};
ghost use Rattle.xa_model.specs.Trace.{Trace};
ghost use Rattle.xa_system.specs.NextProcess.{FindsNewer};
ghost use Rattle.xa_tm.specs.StartFaults.{IsToBlame};
ghost use Rattle.xa_system.specs.SystemView.{HasWrongSize, HoldsItsTrace, MayRestart, observes, origin_in};
ghost use Rattle.xa_system.specs.declared.resume.ResumeFault.TheVariants as ResumeFault;
ghost use Rattle.xa_tm.specs.Slots.{log_held, slot_moment};
ghost use Rattle.uses.specs.Processes.{AreDone, AreProcesses, EndsRecovered, HaveRun, IsEndOf, IsLastOf};
ghost use Rattle.uses.specs.declared.processes.NextFault.TheVariants as NextFault;

use std::alloc::Global;
use xa_base::Step;
use xa_log::{DecisionLog, MemLog};
use xa_rm::{MemRm, ResourceManager};
use xa_system::{NewFault, Remains, ResumeFault, System};

/// Why there is no next process.
#[derive(Clone, Copy)]
pub enum NextFault {
    /// The first process didn't start.
    First(NewFault),
    /// The log was taken out of the system before, and there is none to go on from.
    NoLog,
    /// The system isn't made again.
    Resume(ResumeFault),
    /// A request for memory was refused.
    Memory,
}

/// The next process: starts over what a system left, and does the steps.
pub fn go_on<R: ResourceManager + Drop, L: DecisionLog + Drop>(
    alloc: Global,
    threads: u32,
    remains: Remains<R, L>,
    steps: &[Step],
) -> Result<System<R, L>, NextFault>
    // Why there is none.
    ensures no_log { remains.log ≡ None → result ≡ Err NextFault.NoLog }
    ensures only_no_log { result ≡ Err NextFault.NoLog → remains.log ≡ None }
    ensures limit { IsSome remains.log → HasWrongSize threads (vec_len remains.rms) →
        result ≡ Err (NextFault.Resume ResumeFault.Limit) }
    ensures only_limit { result ≡ Err (NextFault.Resume ResumeFault.Limit) →
        HasWrongSize threads (vec_len remains.rms) }
    ensures log_fault { result ≡ Err (NextFault.Resume ResumeFault.Log) →
        IfSome remains.log (IsToBlame L.DecisionLog) }
    ensures only_newer { result ≡ Err (NextFault.Resume ResumeFault.Newer) →
        IfSome remains.log (FindsNewer R.look L.DecisionLog remains.rms.items) }
    // What it did, and where its parts are.
    ensures parts { IfOk result (HoldsItsTrace (observes R.look L.moment)) }
    ensures does { IfOk result (λ system. AreDone steps.now system.events) }
    // Its log.
    ensures order { IfSome remains.log (λ log. (L.moment log).is_in_order) →
        IfOk result (λ system. (L.moment system.handed).is_in_order) }
    ensures near { IfSome remains.log (λ log. (L.moment log).is_in_order) →
        IfOk result (λ system. (slot_moment L.moment system.log).is_honest →
        MayRestart (observes R.look L.moment) system) }
    ensures honest { IfOk result (λ system. (slot_moment L.moment system.log).is_honest →
        IfSome remains.log (λ log. (L.moment log).is_honest)) }
    // It goes on from each history that ended in what was left.
    ensures follows { (past : Trace) → IsEndOf (observes R.look L.moment) past remains →
        IfOk result (λ system. (slot_moment L.moment system.log).is_honest →
        Resumes past (origin_in R.look system)) }
    ensures headline { (past : Trace) → IsEndOf (observes R.look L.moment) past remains →
        IfOk result (λ system. (slot_moment L.moment system.log).is_honest →
        HeadlineSince (resumed past (origin_in R.look system)) system.events) }
    ensures chain { (past : Trace) → IsEndOf (observes R.look L.moment) past remains →
        IfOk result (λ system. (slot_moment L.moment system.log).is_honest →
        IsLastOf (observes R.look L.moment) (joined past (origin_in R.look system) system.events)
        system) }
{
    let Remains { rms, log } = remains;
    let Some(log) = log else {
        return Err(NextFault::NoLog);
    };
    xa_model::across_processes();
    match System::resume(alloc, threads, rms, log) {
        Ok(mut system) => {
            let _ran = system.run(steps);
            Ok(system)
        }
        Err(fault) => Err(NextFault::Resume(fault)),
    }
}

/// The process after a system: takes that apart, and goes on from what it leaves.
pub fn next_process<R: ResourceManager + Drop, L: DecisionLog + Drop>(
    alloc: Global,
    threads: u32,
    system: System<R, L>,
    steps: &[Step],
) -> Result<System<R, L>, NextFault>
    ensures only_no_log { result ≡ Err NextFault.NoLog → log_held system.log ≡ None }
    ensures only_limit { result ≡ Err (NextFault.Resume ResumeFault.Limit) →
        HasWrongSize threads (length system.rms) }
    ensures does { IfOk result (λ next. AreDone steps.now next.events) }
    ensures headline { (past : Trace) → IsLastOf (observes R.look L.moment) past system →
        IfOk result (λ next. (slot_moment L.moment next.log).is_honest →
        HeadlineSince (resumed past (origin_in R.look next)) next.events) }
    ensures chain { (lists : List (List (Step Xid))) →
        AreProcesses (observes R.look L.moment) lists system →
        IfOk result (λ next. (slot_moment L.moment next.log).is_honest →
        AreProcesses (observes R.look L.moment) (lists ++ steps.now ∷ []) next) }
{
    match system.into_parts() {
        Ok(remains) => go_on(alloc, threads, remains, steps),
        Err(_) => Err(NextFault::Memory),
    }
}

/// The first process, over a resource manager and a log in memory.
fn first_process(alloc: Global, steps: &[Step]) -> Result<System<MemRm, MemLog>, NextFault>
    ensures { IfOk result (AreProcesses (observes ⟦<MemRm as ResourceManager>⟧.look
        ⟦<MemLog as DecisionLog>⟧.moment) (steps.now ∷ [])) }
{
    let mut rms = Vec::new(alloc);
    let Ok(()) = rms.push(MemRm::new(alloc)) else {
        return Err(NextFault::Memory);
    };
    xa_model::replies_are_allowed();
    match System::new(alloc, 1, rms, MemLog::new(alloc)) {
        Ok(mut system) => {
            let _ran = system.run(steps);
            Ok(system)
        }
        Err(fault) => Err(NextFault::First(fault)),
    }
}

/// Two processes over a resource manager and a log in memory: no premise is left. The headline
/// holds of all that both did, at each moment of the second.
pub fn two_processes(
    alloc: Global,
    first_steps: &[Step],
    second_steps: &[Step],
) -> Result<System<MemRm, MemLog>, NextFault>
    ensures headline { IfOk result (λ system. (past : Trace) × HaveRun (first_steps.now ∷ []) past
        × HeadlineSince (resumed past (origin_in ⟦<MemRm as ResourceManager>⟧.look system))
        system.events) }
    ensures does { IfOk result (λ system. AreDone second_steps.now system.events) }
    ensures together { IfOk result (AreProcesses
        (observes ⟦<MemRm as ResourceManager>⟧.look ⟦<MemLog as DecisionLog>⟧.moment)
        (first_steps.now ∷ second_steps.now ∷ [])) }
{
    let first = first_process(alloc, first_steps)?;
    next_process(alloc, 1, first, second_steps)
}

/// Any number of processes, one for each list of steps.
pub fn processes(
    alloc: Global,
    first: &[Step],
    later: &[Vec<Step>],
) -> Result<System<MemRm, MemLog>, NextFault>
    ensures { IfOk result (AreProcesses (observes ⟦<MemRm as ResourceManager>⟧.look
        ⟦<MemLog as DecisionLog>⟧.moment) (first.now ∷ map (λ steps. steps.items) later.now)) }
{
    let mut system = first_process(alloc, first)?;
    for steps in later {
        system = next_process(alloc, 1, system, steps)?;
    }
    Ok(system)
}

/// The next process recovers. If its events end with a whole recovery at a resource manager, all
/// that is then still prepared there is of its own live transactions: what the processes before it
/// left prepared there is ended. The premises on the recovery: no call waited on its line before,
/// the page had room for all that was in doubt, and no call was put off.
pub fn recover_next<R: ResourceManager + Drop, L: DecisionLog + Drop>(
    alloc: Global,
    threads: u32,
    remains: Remains<R, L>,
    steps: &[Step],
) -> Result<System<R, L>, NextFault>
    ensures no_log { remains.log ≡ None → result ≡ Err NextFault.NoLog }
    ensures only_no_log { result ≡ Err NextFault.NoLog → remains.log ≡ None }
    ensures limit { IsSome remains.log → HasWrongSize threads (vec_len remains.rms) →
        result ≡ Err (NextFault.Resume ResumeFault.Limit) }
    ensures only_limit { result ≡ Err (NextFault.Resume ResumeFault.Limit) →
        HasWrongSize threads (vec_len remains.rms) }
    ensures does { IfOk result (λ system. AreDone steps.now system.events) }
    ensures recovers { (past : Trace) → IsEndOf (observes R.look L.moment) past remains →
        IfOk result (λ system. (slot_moment L.moment system.log).is_honest → (before : List Event) →
        EndsRecovered (origin_in R.look system) before system.events) }
{
    let system = go_on(alloc, threads, remains, steps)?;
    system.agree();
    xa_model::across_processes();
    Ok(system)
}
