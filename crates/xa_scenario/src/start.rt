//! The system of a scenario, as it starts.

ghost use Rattle.std.specs.Prelude.{◌≡◌, ◌≢◌, ◌↔◌, [], All, Err, IfErr, IfOk, vec_len};
ghost use Rattle.xa_files.specs.declared.fault.RunFault.TheVariants.{Log, Memory};
ghost use Rattle.xa_model.specs.Protocol.{RightOrigin};
ghost use Rattle.xa_scenario.specs.LogKeeping.{HasStarted};
ghost use Rattle.xa_scenario.specs.Runs.{IsNewRm, IsStartFault, IsStartOf};
ghost use Rattle.xa_scenario_file.specs.Scenarios.{IsSized, plan_of};
ghost use Rattle.xa_system.specs.SystemView.{observes, origin_in};
ghost use Rattle.xa_tm.specs.StartFaults.{IsToBlame};

use std::alloc::Global;
use xa_files::RunFault;
use xa_log::DecisionLog;
use xa_rm::{MemRm, ResourceManager};
use xa_scenario_file::Scenario;
use xa_system::{NewFault, System};

/// New resource managers.
pub fn rms_of(alloc: Global, count: u32) -> Result<Vec<MemRm>, RunFault>
    ensures count { IfOk result (λ rms. vec_len rms ≡ count) }
    ensures new { IfOk result (λ rms. All (IsNewRm ⟦<MemRm as ResourceManager>⟧.look) rms.items) }
    ensures fault { IfErr result (λ e. e ≡ Memory) }
{
    let mut rms = Vec::new(alloc);
    for _rm in 0..count {
        rms.push(MemRm::new(alloc))?;
    }
    Ok(rms)
}

/// The fault of a run whose system couldn't be started. A scenario is as large as a system can be,
/// and no branch ever was at its resource managers.
fn start_fault(fault: NewFault) -> RunFault
    requires limit { fault ≢ NewFault.Limit }
    requires clear { fault ≢ NewFault.NotClear }
    ensures log { (result ≡ Log) ↔ (fault ≡ NewFault.Log) }
    ensures memory { (result ≡ Memory) ↔ (fault ≡ NewFault.Memory) }
    ensures fault { IsStartFault result }
{
    match fault {
        NewFault::Log => RunFault::Log,
        NewFault::Memory => RunFault::Memory,
        NewFault::Limit | NewFault::NotClear => unreachable!(),
    }
}

/// The system of a scenario over a log, at new resource managers.
pub fn system_of<R: ResourceManager + Drop, L: DecisionLog + Drop>(
    alloc: Global,
    scenario: &Scenario,
    rms: Vec<R>,
    log: L,
) -> Result<System<R, L>, RunFault>
    requires sized { IsSized (plan_of scenario.now) }
    requires count { vec_len rms ≡ scenario.now.rms }
    requires new { All (IsNewRm R.look) rms.items }
    // It has just started, over this log.
    ensures empty { IfOk result (λ system. system.events ≡ []) }
    ensures start { IfOk result (λ system. IsStartOf (plan_of scenario.now)
        (origin_in R.look system)) }
    ensures right { IfOk result (λ system. RightOrigin (origin_in R.look system)) }
    ensures over { IfOk result (HasStarted (observes R.look L.moment) log) }
    // Why there is none.
    ensures log { result ≡ Err Log → IsToBlame L.DecisionLog log }
    ensures fault { IfErr result IsStartFault }
{
    match System::new(alloc, scenario.threads, rms, log) {
        Ok(system) => Ok(system),
        Err(fault) => Err(start_fault(fault)),
    }
}
