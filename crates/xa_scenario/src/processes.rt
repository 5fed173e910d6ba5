//! Several scenarios, each a process of the manager over what the one before it has left.

ghost use Rattle.std.specs.Prelude.{◌≡◌, ◌≢◌, ◌⊎◌, ◌↔◌, ◌+◌, ◌++◌, ◌∷◌, [], ℕ, All, List, length, map, vec_len, Err, IfErr, IfOk, Ok, OnOk, Some};
ghost use Rattle.std.specs.Io.KnownBytes.{Keeps};
ghost use Rattle.std.specs.Option.{ok_or};
ghost use Rattle.std.specs.String.{string_bytes};
ghost use Rattle.xa_files.specs.declared.fault.RunFault.TheVariants.{Log, Memory, Output};
ghost use Rattle.xa_scenario_file.specs.Files.{AreOfOneSize};
ghost use Rattle.xa_scenario.specs.LogKeeping.{CannotGoOn, HasGoneOn};
ghost use Rattle.xa_scenario.specs.Processes.{AddsFates, AddsStarted, AreFates, HasPlayed, IsLast, LogStops, PrintsProcesses};
ghost use Rattle.xa_scenario.specs.Processes.{StopsAnywhere, StopsBetween, heading};
ghost use Rattle.xa_scenario.specs.Replies.{trace_lines};
ghost use Rattle.xa_scenario.specs.Runs.{IsNewRm, IsStartFault, shown};
ghost use Rattle.xa_scenario_file.specs.Scenarios.{IsSized, Plan, plan_of};
ghost use Rattle.xa_tm.specs.Slots.{log_held};
ghost use Rattle.xa_tm.specs.StartFaults.{IsToBlame};
ghost use Rattle.xa_system.specs.SystemView.{HasWrongSize, observes, origin_in, trace_in};

use crate::play::play;
use crate::replies::trace_lines;
use crate::start::{rms_of, system_of};
use std::alloc::Global;
use std::io::Write;
use xa_base::{Event, Fate, Gtrid, Xid};
use xa_files::{RunFault, push_fates, write_text};
use xa_log::DecisionLog;
use xa_rm::{MemRm, ResourceManager};
use xa_scenario_file::Scenario;
use xa_system::{ResumeFault, System};

/// A trace after the heading of the process of a number.
#[tactic(auto, using(xa_files::proofs::Pieces::four_pieces))]
fn headed(alloc: Global, number: usize, events: &[Event]) -> Result<String, RunFault>
    ensures text { IfOk result (λ text. string_bytes text
        ≡ heading (Some number) ++ trace_lines 1 events.now) }
    ensures fault { IfErr result (λ e. e ≡ Memory) }
{
    let lines = trace_lines(alloc, events)?;
    Ok(format!(in alloc; "process {number}\n{lines}")?)
}

/// The trace of a process, if it is asked for, after its number, if it is not the first.
fn trace_text(
    alloc: Global,
    number: Option<usize>,
    with_trace: bool,
    events: &[Event],
) -> Result<String, RunFault>
    ensures text { IfOk result (λ text. string_bytes text
        ≡ shown with_trace (heading number ++ trace_lines 1 events.now)) }
    ensures fault { IfErr result (λ e. e ≡ Memory) }
{
    if !with_trace {
        return Ok(String::new(alloc));
    }
    match number {
        Some(number) => headed(alloc, number, events),
        None => trace_lines(alloc, events),
    }
}

/// Adds the identifiers of a report.
fn add_names(report: Vec<(Xid, Fate)>, names: &mut Vec<Xid>) -> Result<(), RunFault>
    ensures added { OnOk result (names.new.items
        ≡ names.old.items ++ map (λ line. line.0) report.items) }
    ensures fault { IfErr result (λ e. e ≡ Memory) }
{
    for (xid, _) in report {
        names.push(xid)?;
    }
    Ok(())
}

/// Adds the identifiers of the branches whose xa_start was accepted in a system.
fn add_started<R: ResourceManager + Drop, L: DecisionLog + Drop>(
    alloc: Global,
    system: &System<R, L>,
    names: &mut Vec<Xid>,
) -> Result<(), RunFault>
    ensures added { OnOk result (AddsStarted (trace_in R.look system.now) names.old.items
        names.new.items) }
    ensures fault { IfErr result (λ e. e ≡ Memory) }
{
    let report = system.report(alloc)?;
    add_names(report, names)
}

/// What became of these branches, as the resource managers of a system know it.
fn fates_of<R: ResourceManager + Drop, L: DecisionLog + Drop>(
    alloc: Global,
    system: &System<R, L>,
    names: Vec<Xid>,
) -> Result<Vec<(Xid, Fate)>, RunFault>
    ensures fates { IfOk result (λ fates. AreFates (origin_in R.look system.now) system.now.events
        names.items fates.items) }
    ensures fault { IfErr result (λ e. e ≡ Memory) }
{
    let mut fates = Vec::new(alloc);
    for xid in names {
        let fate = system.fate(&xid);
        fates.push((xid, fate))?;
    }
    Ok(fates)
}

/// The log that an earlier process has left. If it has lost it, none can go on.
fn log_left<L: Drop>(log: Option<L>) -> Result<L, RunFault>
    ensures { result ≡ ok_or log Log }
{
    log.ok_or(RunFault::Log)
}

/// The fault of a run in which no process can go on over what is left: as many resource managers as
/// there were.
fn resume_fault(fault: ResumeFault) -> RunFault
    requires { fault ≢ ResumeFault.Limit }
    ensures log { (result ≡ Log) ↔ ((fault ≡ ResumeFault.Log) ⊎ (fault ≡ ResumeFault.Newer)) }
    ensures memory { (result ≡ Memory) ↔ (fault ≡ ResumeFault.Memory) }
    ensures fault { IsStartFault result }
{
    match fault {
        ResumeFault::Memory => RunFault::Memory,
        ResumeFault::Log => RunFault::Log,
        // The log has lost what it had: a resource manager holds a branch that is newer.
        ResumeFault::Newer => RunFault::Log,
        ResumeFault::Limit => unreachable!(),
    }
}

/// The system of the next process: it starts over what an earlier one has left.
fn next_system<R: ResourceManager + Drop, L: DecisionLog + Drop>(
    alloc: Global,
    threads: u32,
    system: System<R, L>,
) -> Result<System<R, L>, RunFault>
    requires sized { HasWrongSize threads (length system.rms) → ⊥ }
    ensures empty { IfOk result (λ next. next.events ≡ []) }
    ensures threads { IfOk result (λ next. next.lines.threads ≡ threads) }
    ensures rms { IfOk result (λ next. length next.start ≡ length system.rms) }
    ensures goes_on { IfOk result (HasGoneOn (observes R.look L.moment) system) }
    ensures log { result ≡ Err Log → CannotGoOn R.look L.DecisionLog system }
    ensures fault { IfErr result IsStartFault }
{
    let Ok(remains) = system.into_parts() else {
        return Err(RunFault::Memory);
    };
    let rms = remains.rms;
    let log = log_left(remains.log)?;
    match System::resume(alloc, threads, rms, log) {
        Ok(system) => Ok(system),
        Err(fault) => Err(resume_fault(fault)),
    }
}

/// A process that has played its scenario: its system, what the names of all files so far stand
/// for, the branches whose xa_start was accepted in earlier processes, and the text of its trace,
/// which isn't written yet.
#[derive(Drop)]
pub struct Process<R: ResourceManager + Drop, L: DecisionLog + Drop> {
    pub system: System<R, L>,
    gtrids: Vec<Gtrid>,
    names: Vec<Xid>,
    text: String,
}

/// Plays a scenario at a system that has just started.
fn play_process<R: ResourceManager + Drop, L: DecisionLog + Drop>(
    system: &mut System<R, L>,
    gtrids: &mut Vec<Gtrid>,
    scenario: &Scenario,
) -> Result<(), RunFault>
    ensures played { OnOk result (HasPlayed (observes R.look L.moment) (plan_of scenario.now)
        gtrids.old.items gtrids.new.items system.old system.new) }
    ensures fault { IfErr result (λ e. e ≡ Memory) }
{
    play(system, gtrids, &scenario.entries)?;
    system.agree();
    Ok(())
}

/// Plays a scenario at a system that has just started, and gives the text of the trace, as
/// `trace_text` does.
fn text_of_play<R: ResourceManager + Drop, L: DecisionLog + Drop>(
    alloc: Global,
    system: &mut System<R, L>,
    gtrids: &mut Vec<Gtrid>,
    scenario: &Scenario,
    number: Option<usize>,
    with_trace: bool,
) -> Result<String, RunFault>
    ensures played { OnOk result (HasPlayed (observes R.look L.moment) (plan_of scenario.now)
        gtrids.old.items gtrids.new.items system.old system.new) }
    ensures text { IfOk result (λ text. string_bytes text
        ≡ shown with_trace (heading number ++ trace_lines 1 system.new.events)) }
    ensures fault { IfErr result (λ e. e ≡ Memory) }
{
    play_process(system, gtrids, scenario)?;
    let text = trace_text(alloc, number, with_trace, system.trace())?;
    Ok(text)
}

/// The first process.
pub fn first_process<R: ResourceManager + Drop, L: DecisionLog + Drop>(
    alloc: Global,
    scenario: &Scenario,
    rms: Vec<R>,
    log: L,
    with_trace: bool,
) -> Result<Process<R, L>, RunFault>
    requires sized { IsSized (plan_of scenario.now) }
    requires count { vec_len rms ≡ scenario.now.rms }
    requires new { All (IsNewRm R.look) rms.items }
    ensures last { IfOk result (λ p. IsLast (observes R.look L.moment) log
        (plan_of scenario.now ∷ []) p (trace_lines 1 p.system.events)) }
    ensures count { IfOk result (λ p. length p.system.rms ≡ scenario.now.rms) }
    ensures text { IfOk result (λ p. string_bytes p.text
        ≡ shown with_trace (trace_lines 1 p.system.events)) }
    ensures log { result ≡ Err Log → IsToBlame L.DecisionLog log }
    ensures fault { IfErr result IsStartFault }
{
    let mut system = system_of(alloc, scenario, rms, log)?;
    let mut gtrids = Vec::new(alloc);
    let text = text_of_play(alloc, &mut system, &mut gtrids, scenario, None, with_trace)?;
    let names = Vec::new(alloc);
    Ok(Process {
        system,
        gtrids,
        names,
        text,
    })
}

/// The next process, over what the one before it has left.
fn next_process<R: ResourceManager + Drop, L: DecisionLog + Drop>(
    alloc: Global,
    scenario: &Scenario,
    before: Process<R, L>,
    number: usize,
    with_trace: bool,
) -> Result<Process<R, L>, RunFault>
    requires sized { IsSized (plan_of scenario.now) }
    requires count { length before.system.rms ≡ scenario.now.rms }
    ensures last { IfOk result (λ p. (log : L) (plans : List Plan) (traces : List ℕ) →
        number ≡ length plans + 1 → IsLast (observes R.look L.moment) log plans before traces →
        IsLast (observes R.look L.moment) log (plans ++ plan_of scenario.now ∷ []) p
        (traces ++ (heading (Some number) ++ trace_lines 1 p.system.events))) }
    ensures count { IfOk result (λ p. length p.system.rms ≡ scenario.now.rms) }
    ensures text { IfOk result (λ p. string_bytes p.text
        ≡ shown with_trace (heading (Some number) ++ trace_lines 1 p.system.events)) }
    ensures log { result ≡ Err Log → CannotGoOn R.look L.DecisionLog before.system }
    ensures fault { IfErr result IsStartFault }
{
    let mut gtrids = before.gtrids;
    let mut names = before.names;
    add_started(alloc, &before.system, &mut names)?;
    before.system.agree();
    let mut system = next_system(alloc, scenario.threads, before.system)?;
    let number = Some(number);
    let text = text_of_play(
        alloc,
        &mut system,
        &mut gtrids,
        scenario,
        number,
        with_trace,
    )?;
    Ok(Process {
        system,
        gtrids,
        names,
        text,
    })
}

/// Adds what became of these branches of earlier processes, and then the report of a system.
fn add_fates<R: ResourceManager + Drop, L: DecisionLog + Drop>(
    alloc: Global,
    system: &System<R, L>,
    names: Vec<Xid>,
    text: &mut String,
) -> Result<(), RunFault>
    ensures text { OnOk result (AddsFates (origin_in R.look system.now) system.now.events
        names.items (string_bytes text.old) (string_bytes text.new)) }
    ensures fault { IfErr result (λ e. e ≡ Memory) }
{
    let earlier = fates_of(alloc, system, names)?;
    push_fates(text, alloc, &earlier)?;
    let own = system.report(alloc)?;
    push_fates(text, alloc, &own)?;
    Ok(())
}

/// The text of the trace of the last process, with what became of the branches of all, and the log
/// that it leaves.
fn last_text<R: ResourceManager + Drop, L: DecisionLog + Drop>(
    alloc: Global,
    last: Process<R, L>,
) -> Result<(String, Option<L>), RunFault>
    ensures text { IfOk result (λ told. AddsFates (origin_in R.look last.system)
        last.system.events last.names.items (string_bytes last.text) (string_bytes told.0)) }
    ensures log { IfOk result (λ told. told.1 ≡ log_held last.system.log) }
    ensures fault { IfErr result (λ e. e ≡ Memory) }
{
    let mut text = last.text;
    let names = last.names;
    let system = last.system;
    add_fates(alloc, &system, names, &mut text)?;
    let Ok(remains) = system.into_parts() else {
        return Err(RunFault::Memory);
    };
    Ok((text, remains.log))
}

/// Runs scenarios, each as a process of the manager: the first at new resource managers and over a
/// decision log, and each later one over the resource managers and the log that the one before it
/// has left. It prints their traces, if they are asked for, each but the first after a line with
/// its number; and then a line for each branch whose xa_start was accepted, those of the first
/// process first and each process's in the order of their identifiers. It gives back the log that
/// the last process left, if that held one. No scenario prints nothing, and leaves the log as it
/// is.
///
/// Log comes if a process can't be started over its log; that is so too if a resource manager holds
/// a branch that is newer than the log, which has lost what it had. Memory comes if a request was
/// refused outside of a step. Either leaves the traces of the processes before it. Output comes if
/// a write failed: what was written before it is a beginning of what is printed otherwise. After a
/// fault the log is dropped.
pub fn run_scenarios<L: DecisionLog + Drop, W: Write>(
    alloc: Global,
    scenarios: &[Scenario],
    log: L,
    with_trace: bool,
    out: &mut W,
) -> Result<Option<L>, RunFault>
    requires alike { AreOfOneSize (map plan_of scenarios.now) }
    // What is printed is a run of them in turn, from this log on to the one that is given back.
    ensures ok { IfOk result (λ left. (scenarios.now ≡ []) ⊎ PrintsProcesses L.moment log
        (map plan_of scenarios.now) with_trace left (W.contents out.old) (W.contents out.new)) }
    ensures none { scenarios.now ≡ [] → Keeps (W.contents out.old) (W.contents out.new) }
    ensures unused { scenarios.now ≡ [] → result ≡ Ok (Some log) }
    // Why it ends early, and what is printed then.
    ensures fault { IfErr result (λ e. IsStartFault e ⊎ (e ≡ Output)) }
    ensures log { result ≡ Err Log → LogStops (observes ⟦<MemRm as ResourceManager>⟧.look L.moment)
        log L.DecisionLog (map plan_of scenarios.now) }
    ensures stopped { IfErr result (λ e. IsStartFault e → StopsBetween L.moment log
        (map plan_of scenarios.now) with_trace (W.contents out.old) (W.contents out.new)) }
    ensures begun { IfErr result (λ e. e ≡ Output → StopsAnywhere L.moment log
        (map plan_of scenarios.now) with_trace (W.contents out.old) (W.contents out.new)) }
{
    let Some((first, later)) = scenarios.split_first() else {
        return Ok(Some(log));
    };
    let rms = rms_of(alloc, first.rms)?;
    let mut process = first_process(alloc, first, rms, log, with_trace)?;
    for (i, scenario) in later.iter().enumerate() {
        write_text(process.text.as_bytes(), out)?;
        process = next_process(alloc, scenario, process, i + 2, with_trace)?;
    }
    let told = last_text(alloc, process)?;
    write_text(told.0.as_bytes(), out)?;
    Ok(told.1)
}
