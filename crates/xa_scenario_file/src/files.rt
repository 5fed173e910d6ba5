//! Scenario files that are read one after another, each for a process of one system.

ghost use Rattle.std.specs.Prelude.{◌≡◌, ◌⊎◌, ◌++◌, ◌∷◌, [], Err, IfErr, IfOk, Ok, OnOk, Some, true, map};
ghost use Rattle.xa_files.specs.Reading.{Fails};
ghost use Rattle.xa_files.specs.declared.fault.RunFault.TheVariants.{Memory};
ghost use Rattle.xa_scenario_file.specs.Files.{AreOfOneSize, earlier_of, file_after, is_alike, scenarios_of};
ghost use Rattle.xa_scenario_file.specs.Scenarios.{IsSized, Plan, plan_of};

use crate::document::{Scenario, add_names, entries_of, header_of};
use std::alloc::Global;
use xa_files::{RunFault, document_of};

/// Why one of several files can't be read.
#[derive(Clone, Copy, Debug, PartialEq, Eq)]
pub struct FileFault {
    /// The place of the file, from 0.
    pub file: usize,
    /// Its fault.
    pub fault: RunFault,
}

/// What is before a file.
#[derive(Drop)]
struct Before {
    /// How many threads and resource managers there are, if an earlier file said so.
    size: Option<(u32, u32)>,
    /// The names begun so far.
    names: Vec<String>,
}

/// Whether the size is that of the files before.
fn is_alike(size: Option<(u32, u32)>, threads: u32, rms: u32) -> bool
    ensures { result ≡ is_alike size threads rms }
{
    match size {
        None => true,
        Some(size) => threads == size.0 && rms == size.1,
    }
}

/// Reads a file after others.
#[tactic(auto, unfolding(crate::specs::Files::file_after))]
fn read_after(alloc: Global, before: &mut Before, text: &[u8]) -> Result<Scenario, RunFault>
    ensures read { IfOk result (λ scenario. file_after (earlier_of before.old) text.now
        ≡ Ok (plan_of scenario, earlier_of before.new)) }
    ensures sized { IfOk result (λ scenario. IsSized (plan_of scenario)) }
    ensures size { IfOk result (λ scenario. before.new.size
        ≡ Some (scenario.threads, scenario.rms)) }
    ensures alike { IfOk result (λ scenario. is_alike before.old.size scenario.threads scenario.rms
        ≡ true) }
    ensures fault { IfErr result (λ e. Fails e (file_after (earlier_of before.old) text.now)) }
{
    let document = document_of(alloc, text)?;
    let (threads, rms, steps) = header_of(&document)?;
    if !is_alike(before.size, threads, rms) {
        return Err(RunFault::Header);
    }
    let entries = entries_of(alloc, &before.names, steps)?;
    add_names(alloc, &mut before.names, steps)?;
    before.size = Some((threads, rms));
    Ok(Scenario {
        threads,
        rms,
        entries,
    })
}

/// Reads a file after others, and adds it to them.
fn add_scenario(
    alloc: Global,
    before: &mut Before,
    scenarios: &mut Vec<Scenario>,
    text: &[u8],
) -> Result<(), RunFault>
    ensures read { OnOk result ((plan : Plan)
        × (file_after (earlier_of before.old) text.now ≡ Ok (plan, earlier_of before.new))
        × (map plan_of scenarios.new.items ≡ map plan_of scenarios.old.items ++ plan ∷ [])
        × IsSized plan × (before.new.size ≡ Some (plan.threads, plan.rms))
        × (is_alike before.old.size plan.threads plan.rms ≡ true)) }
    ensures fault { IfErr result (λ e. Fails e (file_after (earlier_of before.old) text.now)) }
{
    let scenario = read_after(alloc, before, text)?;
    scenarios.push(scenario)?;
    Ok(())
}

/// Reads scenario files, each for a process of one system. A transaction that a file begins is
/// known by its name in the later files, which begin no such name anew; and all have the first
/// file's threads and resource managers.
///
/// The fault is that of the first faulty file, with its place: NotToml, Header, also if its sizes
/// are not those of the first file, or Step; or Memory if a request was refused.
pub fn read_scenarios(alloc: Global, texts: &[Vec<u8>]) -> Result<Vec<Scenario>, FileFault>
    ensures read { IfOk result (λ scenarios. scenarios_of (map (λ text. text.items) texts.now)
        ≡ Ok (map plan_of scenarios.items)) }
    ensures sized { IfOk result (λ scenarios. AreOfOneSize (map plan_of scenarios.items)) }
    ensures fault { IfErr result (λ e. (e.fault ≡ Memory)
        ⊎ (scenarios_of (map (λ text. text.items) texts.now) ≡ Err e)) }
{
    let mut before = Before {
        size: None,
        names: Vec::new(alloc),
    };
    let mut scenarios = Vec::new(alloc);
    for (file, text) in texts.iter().enumerate() {
        match add_scenario(alloc, &mut before, &mut scenarios, text) {
            Ok(()) => {}
            Err(fault) => return Err(FileFault { file, fault }),
        }
    }
    Ok(scenarios)
}
