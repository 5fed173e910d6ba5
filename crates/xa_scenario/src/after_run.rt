//! The system that a run of a scenario leaves, for those who tell of it in other ways than
//! `run_scenario`.

ghost use Rattle.std.specs.Prelude.{◌≡◌, Err, IfErr, IfOk};
ghost use Rattle.xa_files.specs.declared.fault.RunFault.TheVariants.{Log};
ghost use Rattle.xa_scenario.specs.Runs.{IsRunOf, IsStartFault, StartsOverLog};
ghost use Rattle.xa_scenario_file.specs.Scenarios.{IsSized, plan_of};
ghost use Rattle.xa_tm.specs.StartFaults.{IsToBlame};
ghost use Rattle.xa_system.specs.SystemView.{origin_in};

use crate::processes::first_process;
use crate::start::rms_of;
use std::alloc::Global;
use xa_files::RunFault;
use xa_log::DecisionLog;
use xa_rm::{MemRm, ResourceManager};
use xa_scenario_file::Scenario;
use xa_system::System;

/// The system after a run of a scenario at new resource managers and over a decision log: its trace
/// and its report are what `run_scenario` prints of that run.
///
/// Log comes if the log can't be started, and Memory if a request was refused outside of a step.
pub fn system_after<L: DecisionLog + Drop>(
    alloc: Global,
    scenario: &Scenario,
    log: L,
) -> Result<System<MemRm, L>, RunFault>
    requires sized { IsSized (plan_of scenario.now) }
    // Its events are a run of the scenario, from a start over this log.
    ensures run { IfOk result (λ after. IsRunOf (plan_of scenario.now)
        (origin_in ⟦<MemRm as ResourceManager>⟧.look after) after.events) }
    ensures over { IfOk result (λ after. StartsOverLog L.moment log
        (origin_in ⟦<MemRm as ResourceManager>⟧.look after)) }
    ensures log { result ≡ Err Log → IsToBlame L.DecisionLog log }
    ensures fault { IfErr result IsStartFault }
{
    let rms = rms_of(alloc, scenario.rms)?;
    let process = first_process(alloc, scenario, rms, log, false)?;
    Ok(process.system)
}
