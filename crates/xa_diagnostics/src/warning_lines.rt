//! What a run will refuse of a scenario that is none the less one: threads and resource managers
//! that aren't there.

ghost use Rattle.std.specs.Prelude.{◌≡◌, ◌≤◌, ◌<◌, [], Err, IfNone, IfOk, IfSome};
ghost use Rattle.std.specs.String.{string_bytes};
ghost use Rattle.toml.specs.View.{table_view};
ghost use Rattle.xa_diagnostics.specs.Warnings.{warning_line};
ghost use Rattle.xa_files.specs.declared.fault.RunFault.{RunFault};
ghost use Rattle.xa_scenario_file.specs.Scenarios.{scenario_in, scenario_of};

use crate::document::items_at;
use crate::places::{Wanted, line_of};
use crate::told::numbers_text;
use std::alloc::Global;
use toml::Table;
use xa_base::{Call, Memory, Part, Side};
use xa_files::{Misfit, RunFault, document_of};
use xa_scenario_file::{BranchEntry, Entry, Scenario, scenario_in};

/// The most warnings of a file.
const MOST_WARNINGS: usize = 10;

/// The numbers that an entry names, each with its key.
#[derive(Clone, Copy)]
struct Named {
    thread: Option<u32>,
    rm: Option<u32>,
    of: Option<u32>,
}

/// No number.
const NOTHING: Named = Named {
    thread: None,
    rm: None,
    of: None,
};

/// The thread of the branch that a call names.
fn of_call(call: &Call<BranchEntry>) -> Option<u32> {
    match call {
        Call::Start { xid, .. }
        | Call::End { xid, .. }
        | Call::Prepare { xid }
        | Call::Commit { xid, .. }
        | Call::Rollback { xid }
        | Call::Forget { xid } => Some(xid.thread),
        Call::OpenRm | Call::CloseRm | Call::Recover { .. } => None,
    }
}

/// The numbers that an entry names.
fn named_in(entry: &Entry) -> Named {
    match entry {
        Entry::Begin { thread } => Named {
            thread: Some(*thread),
            ..NOTHING
        },
        Entry::Issue { thread, rm, call } | Entry::Call { thread, rm, call } => Named {
            thread: Some(*thread),
            rm: Some(*rm),
            of: of_call(call),
        },
        Entry::Take { thread, rm }
        | Entry::Hear { thread, rm }
        | Entry::Drain { thread, rm }
        | Entry::Crash(Part::Line { thread, rm }) => Named {
            thread: Some(*thread),
            rm: Some(*rm),
            ..NOTHING
        },
        Entry::Script { rm, branch, .. } => Named {
            rm: Some(*rm),
            of: Some(branch.thread),
            ..NOTHING
        },
        Entry::Recover { rm, .. }
        | Entry::Resolve { rm }
        | Entry::ResolveOpen { rm }
        | Entry::Crash(Part::Rm { rm })
        | Entry::Restart(Side::Rm { rm }) => Named {
            rm: Some(*rm),
            ..NOTHING
        },
        Entry::End { .. } | Entry::Crash(Part::Manager) | Entry::Restart(Side::Manager) => NOTHING,
    }
}

/// What comes of a step on a line that isn't there.
const REFUSED: &str = "the step will be refused (14)";

/// What comes of a step that names a branch of a thread that isn't there.
const NO_BRANCH: &str = "no branch is of that thread";

/// What is said of a number that is past the last one, of so many, and what comes of it.
fn past_text(
    alloc: Global,
    key: &str,
    what: &str,
    number: u32,
    count: u32,
    so: &str,
) -> Result<String, Memory> {
    let last = count.saturating_sub(1);
    Ok(if last == 0 {
        format!(in alloc; "{key} is {number}, and there is only {what} 0: {so}")?
    } else {
        format!(in alloc; "{key} is {number}, and there are only {what}s 0 to {last}: {so}")?
    })
}

/// A number that isn't one of the first so many.
fn past(number: Option<u32>, count: u32) -> Option<u32>
    ensures past { IfSome result (λ n. (number ≡ Some n) × (count ≤ n)) }
    ensures within { IfNone result (IfSome number (λ n. n < count)) }
{
    let number = number?;
    if number < count { None } else { Some(number) }
}

/// What a run will refuse of an entry: its key, and why.
fn warning_of(
    alloc: Global,
    scenario: &Scenario,
    entry: &Entry,
) -> Result<Option<(&'static str, String)>, Memory> {
    let named = named_in(entry);
    let (threads, rms) = (scenario.threads, scenario.rms);
    if let Some(thread) = past(named.thread, threads) {
        return Ok(Some((
            "thread",
            past_text(alloc, "thread", "thread", thread, threads, REFUSED)?,
        )));
    }
    if let Some(rm) = past(named.rm, rms) {
        return Ok(Some((
            "rm",
            past_text(alloc, "rm", "resource manager", rm, rms, REFUSED)?,
        )));
    }
    if let Some(of) = past(named.of, threads) {
        return Ok(Some((
            "of",
            past_text(alloc, "of", "thread", of, threads, NO_BRANCH)?,
        )));
    }
    Ok(None)
}

/// The line of a warning of the entry of a number.
fn warning_line(
    alloc: Global,
    path: &str,
    number: usize,
    line: Option<usize>,
    reason: &str,
) -> Result<String, Memory>
    ensures { IfOk result (λ told.
        string_bytes told ≡ warning_line path.now number line reason.now) }
{
    let numbers = numbers_text(alloc, line, None)?;
    Ok(format!(in alloc; "{path}{numbers}: warning: step {number}: {reason}\n")?)
}

/// The warnings of a scenario, whose text has so many tables.
fn warnings_of(
    alloc: Global,
    path: &str,
    text: &[u8],
    scenario: &Scenario,
    tables: usize,
) -> Result<String, Memory> {
    let mut told = String::new(alloc);
    let mut count = 0usize;
    for (i, entry) in scenario.entries.iter().enumerate() {
        let Some((key, reason)) = warning_of(alloc, scenario, entry)? else {
            continue;
        };
        if count == MOST_WARNINGS {
            break;
        }
        count = count.saturating_add(1);
        let number = i.saturating_add(1);
        let wanted = Wanted {
            array: "step",
            number,
            key: Some(key),
        };
        let line = line_of(text, wanted, tables);
        told.push_str(warning_line(alloc, path, number, line, reason.as_str())?.as_str())?;
    }
    Ok(told)
}

/// The warnings of a document that is a text.
fn warnings_in(alloc: Global, path: &str, text: &[u8], document: &Table) -> Result<String, Memory>
    ensures { (e : RunFault) → scenario_in (table_view document.now) ≡ Err e
        → IfOk result (λ told. string_bytes told ≡ []) }
{
    match scenario_in(alloc, document) {
        Ok(scenario) => {
            let tables = items_at(document, "step").len();
            warnings_of(alloc, path, text, &scenario, tables)
        }
        Err(Misfit::Memory) => Err(Memory),
        Err(_) => Ok(String::new(alloc)),
    }
}

/// A line for each entry of the scenario in a file that a run will refuse whatever is done before
/// it, at most ten. Of a file that is no scenario there is none.
#[tactic(auto, unfolding(xa_scenario_file::specs::Scenarios::scenario_of))]
pub fn warnings(alloc: Global, path: &str, text: &[u8]) -> Result<String, Memory>
    ensures { (e : RunFault) → scenario_of text.now ≡ Err e
        → IfOk result (λ told. string_bytes told ≡ []) }
{
    match document_of(alloc, text) {
        Ok(document) => warnings_in(alloc, path, text, &document),
        Err(RunFault::Memory) => Err(Memory),
        Err(_) => Ok(String::new(alloc)),
    }
}
