//! `xa_system`: a log that is taken out and given back, and one that a crash left, put in its
//! place.

ghost use Rattle.std.specs.Prelude.{◌≡◌, ◌≢◌, ◌<◌, ◌⊎◌, Some, IfErr, IfOk, IfSome};
ghost use Rattle.xa_base.specs.declared.refusal.Refusal.TheVariants as Refusals;
ghost use Rattle.xa_base.specs.declared.reply.Reply.TheVariants as Replies;
ghost use Rattle.xa_log.specs.Content.{Content};
ghost use Rattle.xa_model.specs.Promises.Headline.{Headline};
ghost use Rattle.xa_model.specs.Protocol.{RightOrigin};
ghost use Rattle.xa_system.specs.LogInHistory.{greatest_count};
ghost use Rattle.xa_system.specs.SystemView.{observes, origin_in};
ghost use Rattle.xa_tm.specs.Slots.{slot_moment};
ghost use Rattle.xa_tm.specs.declared.swap_fault.SwapFault.TheVariants as SwapFault;
ghost use Rattle.uses.specs.Crashes.{IsLeftByCrash};

use std::alloc::Global;
use xa_base::{Part, Reply, Side, Step};
use xa_log::{DecisionLog, MemLog};
use xa_rm::{MemRm, ResourceManager};
use xa_system::{SwapFault, System};

/// Takes the log out, if that may be, and gives it straight back. One that isn't shut is refused
/// for want of memory or for a failure of its own, and for nothing else.
pub fn give_back<R: ResourceManager + Drop, L: DecisionLog + Drop>(
    system: &mut System<R, L>,
) -> Result<(), (SwapFault, L)>
    ensures { (L.moment system.old.handed).is_in_order → (c : Content) →
        (slot_moment L.moment system.old.log).content ≡ Some c →
        IfErr result (λ e. (L.moment e.1).is_honest →
        (e.0 ≡ SwapFault.Memory) ⊎ (e.0 ≡ SwapFault.Log)) }
{
    system.agree();
    match system.take_log() {
        Some(log) => system.give_log(log),
        None => Ok(()),
    }
}

/// Puts in what a crash left of the log that was taken out, and restarts the manager. That log is
/// refused for want of memory or for a failure of its own, and for nothing else; and if it counts
/// no failure, the restart isn't refused for its sake. The headline holds of the whole if the
/// system had a right start, as a new one has.
pub fn restart_over<R: ResourceManager + Drop, L: DecisionLog + Drop>(
    system: &mut System<R, L>,
    left: L,
) -> Result<Reply, (SwapFault, L)>
    ensures given { IfErr result (λ e. (c : Content) →
        IsLeftByCrash (observes R.look L.moment) system.old left c → (L.moment e.1).is_honest →
        (e.0 ≡ SwapFault.Memory) ⊎ (e.0 ≡ SwapFault.Log)) }
    ensures restarted { IfOk result (λ reply. (c : Content) →
        IsLeftByCrash (observes R.look L.moment) system.old left c →
        (slot_moment L.moment system.new.log).is_honest →
        (slot_moment L.moment system.new.log).fault_count ≡ (L.moment left).fault_count →
        (L.moment left).fault_count < greatest_count → reply ≢ Replies.Refused Refusals.LogFault) }
    // What it rests on was honest if it is so in the end.
    ensures back { IfErr result (λ e. (L.moment e.1).is_honest → (L.moment left).is_honest) }
    ensures honest { IfOk result (λ reply. (slot_moment L.moment system.new.log).is_honest →
        (L.moment left).is_honest) }
    ensures start { origin_in R.look system.new ≡ origin_in R.look system.old }
    ensures headline { RightOrigin (origin_in R.look system.new) →
        Headline (origin_in R.look system.new) system.new.events }
{
    system.agree();
    match system.give_log(left) {
        Ok(()) => Ok(system.step(Step::Restart(Side::Manager))),
        Err(fault) => Err(fault),
    }
}

/// The same over a log in memory: no premise is left. The manager crashes, and comes up over the
/// log that was taken out, which is what a crash leaves of it.
pub fn restart_in_memory(
    alloc: Global,
) -> Option<(Result<Reply, (SwapFault, MemLog)>, System<MemRm, MemLog>)>
    ensures given { IfSome result (λ it. IfErr it.0 (λ e.
        (e.0 ≡ SwapFault.Memory) ⊎ (e.0 ≡ SwapFault.Log))) }
    ensures headline { IfSome result (λ it. Headline
        (origin_in ⟦<MemRm as ResourceManager>⟧.look it.1) it.1.events) }
{
    let mut rms = Vec::new(alloc);
    let Ok(()) = rms.push(MemRm::new(alloc)) else {
        return None;
    };
    let Ok(mut system) = System::new(alloc, 1, rms, MemLog::new(alloc)) else {
        return None;
    };
    let _crashed = system.step(Step::Crash(Part::Manager));
    let Some(log) = system.take_log() else {
        return None;
    };
    let restarted = restart_over(&mut system, log);
    Some((restarted, system))
}
