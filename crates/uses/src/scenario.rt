//! `xa_scenario`: a scenario file is run, and its trace and fates are printed.

ghost use Rattle.std.specs.Prelude.{◌≡◌, true, Some, [], IfOk};
ghost use Rattle.std.specs.List.{AllByRecursion};
ghost use Rattle.uses.specs.Starts.{PrintsAfter};
ghost use Rattle.xa_log.specs.Content.{nothing, with_bump, with_commit};
ghost use Rattle.xa_log.specs.Contract.{FitsRow};
ghost use Rattle.xa_log.specs.KeySet.{from_list};
ghost use Rattle.xa_scenario.specs.Runs.{Prints};

use std::alloc::Global;
use xa_base::{Branch, Gtrid};
use xa_files::RunFault;
use xa_log::{DecisionLog, LogFault, MemLog};
use xa_scenario::run_scenario;

/// What a run of a scenario file over a log prints.
pub fn printed<L: DecisionLog + Drop>(
    alloc: Global,
    text: &[u8],
    log: L,
) -> Result<Vec<u8>, RunFault>
    ensures { IfOk result (λ out. Prints L.moment log text.now true (Some []) (Some out.items)) }
{
    let mut out = Vec::new(alloc);
    run_scenario(alloc, text, log, true, &mut out)?;
    Ok(out)
}

/// A log of the first incarnation that holds one row.
fn log_with(alloc: Global, g: Gtrid, participants: &[Branch]) -> Result<MemLog, LogFault>
    requires fits { FitsRow g }
    requires own { AllByRecursion (λ b. b.gtrid ≡ g) participants.now }
    ensures order { IfOk result (λ log. (⟦<MemLog as DecisionLog>⟧.moment log).is_in_order) }
    ensures content { IfOk result (λ log. (⟦<MemLog as DecisionLog>⟧.moment log).content
        ≡ Some (with_commit g (from_list participants.now) (with_bump nothing))) }
{
    let mut log = MemLog::new(alloc);
    log.bump()?;
    log.commit(g, participants)?;
    Ok(log)
}

/// What a run of a scenario file prints over a log that holds the row of a transaction: it starts
/// with that row.
pub fn printed_after(
    alloc: Global,
    text: &[u8],
    g: Gtrid,
    participants: &[Branch],
) -> Result<Vec<u8>, RunFault>
    requires fits { FitsRow g }
    requires own { AllByRecursion (λ b. b.gtrid ≡ g) participants.now }
    ensures { IfOk result (λ out. PrintsAfter g participants.now text.now out.items) }
{
    let Ok(log) = log_with(alloc, g, participants) else {
        return Err(RunFault::Log);
    };
    printed(alloc, text, log)
}
