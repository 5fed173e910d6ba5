//! A scenario file as a whole.

ghost use Rattle.std.specs.Prelude.{◌≡◌, IfErr, IfOk, Ok, OnOk, ◌+◌, map, option_map};
ghost use Rattle.std.specs.Result.{result_ok};
ghost use Rattle.std.specs.String.{string_bytes};
ghost use Rattle.toml.specs.View.{view, table_view, items_view};
ghost use Rattle.xa_scenario_file.specs.Files.{names_of, names_with};
ghost use Rattle.xa_scenario_file.specs.Headers.{header_at};
ghost use Rattle.xa_files.specs.Documents.{size_at, tables_at};
ghost use Rattle.xa_scenario_file.specs.Scenarios.{IsSize, IsSized, plan_of, entry_at, entry_in, name_in, entries_from, header_of, scenario_in, scenario_of};
ghost use Rattle.xa_files.specs.Reading.{Gives};
ghost use Rattle.xa_files.specs.Misfits.{ReadsDocument, document_fault_of};
ghost use Rattle.xa_files.specs.Documents.{document_of};
ghost use Rattle.xa_files.specs.declared.fault.RunFault.TheVariants.{Step};

use crate::begins::name_begun;
use crate::entry::Entry;
use crate::tables::entry_of;
use std::alloc::{AllocError, Global};
use toml::{Table, Value};
use xa_base::{MAX_RMS, MAX_THREADS};
use xa_files::{Finding, Misfit, RunFault, document_of, only_keys, size_at, tables_at};

/// The most entries of a scenario.
const MAX_ENTRIES: usize = 10_000;

/// A scenario: how large the system is, and what is asked of it.
#[derive(Drop)]
pub struct Scenario {
    /// How many threads of control there are.
    pub threads: u32,
    /// How many resource managers there are.
    pub rms: u32,
    /// What is asked, in turn.
    pub entries: Vec<Entry>,
}

/// A scenario, and the names of the transactions that it begins.
#[derive(Drop)]
pub struct NamedScenario {
    pub scenario: Scenario,
    /// The name of each `begin`, in turn.
    pub names: Vec<String>,
}

/// The top of a document: the threads, the resource managers and the tables of the steps.
#[tactic(auto, unfolding(crate::specs::Headers::header_at))]
fn header_at(document: &Table) -> Result<(u32, u32, &[Value]), Finding<'_>>
    ensures value { option_map (λ h. (h.0, h.1, items_view h.2.now)) (result_ok result)
        ≡ header_at (table_view document.now) }
    ensures sized { IfOk result (λ h. IsSize MAX_THREADS h.0 × IsSize MAX_RMS h.1) }
{
    let of = "the top of a scenario";
    only_keys(document, of, &["threads", "rms", "step"])?;
    let threads = size_at(document, of, "threads", MAX_THREADS)?;
    let rms = size_at(document, of, "rms", MAX_RMS)?;
    let steps = tables_at(document, "step")?;
    Ok((threads, rms, steps))
}

/// The same, with where it is wrong.
pub fn header_of(document: &Table) -> Result<(u32, u32, &[Value]), Misfit<'_>>
    ensures value { ReadsDocument (λ h. (h.0, h.1, items_view h.2.now)) result
        (header_of (table_view document.now)) }
    ensures sized { IfOk result (λ h. IsSize MAX_THREADS h.0 × IsSize MAX_RMS h.1) }
{
    match header_at(document) {
        Ok(header) => Ok(header),
        Err(finding) => Err(Misfit::Header(finding)),
    }
}

/// The name that an item begins.
fn name_in(value: &Value) -> Option<&str>
    ensures { option_map (λ name. name.now) result ≡ name_in (view value.now) }
{
    name_begun(value.as_table()?)
}

/// What an item of a number asks for.
fn entry_in<'a>(number: usize, begun: &[&str], value: &'a Value) -> Result<Entry, Finding<'a>>
    ensures { result_ok result
        ≡ entry_in number (map (λ name. name.now) begun.now) (view value.now) }
{
    if number > MAX_ENTRIES {
        return Err(Finding::TooMany("10,000 entries"));
    }
    match value.as_table() {
        Some(table) => entry_of(table, begun),
        None => Err(Finding::NoTable),
    }
}

/// The same, with where it is wrong.
fn entry_at<'a>(number: usize, begun: &[&str], value: &'a Value) -> Result<Entry, Misfit<'a>>
    ensures entry { ReadsDocument (λ entry. entry) result
        (entry_at number (map (λ name. name.now) begun.now) (view value.now)) }
    ensures step { IfErr result (λ refusal. document_fault_of refusal ≡ Step number) }
{
    match entry_in(number, begun, value) {
        Ok(entry) => Ok(entry),
        Err(finding) => Err(Misfit::Step(number, finding)),
    }
}

/// The names as texts that are lent.
fn lent<'a>(alloc: Global, names: &'a [String]) -> Result<Vec<&'a str>, AllocError>
    ensures { IfOk result (λ texts. map (λ text. text.now) texts.items
        ≡ map string_bytes names.now) }
{
    let mut texts = Vec::new(alloc);
    for name in names {
        texts.push(name.as_str())?;
    }
    Ok(texts)
}

/// What the tables ask for in turn, if these names were begun before.
pub fn entries_of<'a>(
    alloc: Global,
    names: &[String],
    items: &'a [Value],
) -> Result<Vec<Entry>, Misfit<'a>>
    ensures { ReadsDocument (λ entries. entries.items) result
        (entries_from 1 (map string_bytes names.now) (items_view items.now)) }
{
    let mut entries = Vec::new(alloc);
    let mut begun = lent(alloc, names)?;
    for (i, value) in items.iter().enumerate() {
        entries.push(entry_at(i + 1, &begun, value)?)?;
        if let Some(name) = name_in(value) {
            begun.push(name)?;
        }
    }
    Ok(entries)
}

/// Adds the names that the tables begin.
pub fn add_names(alloc: Global, names: &mut Vec<String>, items: &[Value]) -> Result<(), AllocError>
    ensures { OnOk result (map string_bytes names.new.items
        ≡ names_with (map string_bytes names.old.items) (items_view items.now)) }
{
    for value in items {
        if let Some(name) = name_in(value) {
            names.push(String::from_str(alloc, name)?)?;
        }
    }
    Ok(())
}

/// Reads a document as a scenario, or tells where it is wrong, and what is wrong there.
#[tactic(auto, unfolding(crate::specs::Scenarios::scenario_in))]
pub fn scenario_in<'a>(alloc: Global, document: &'a Table) -> Result<Scenario, Misfit<'a>>
    ensures read { ReadsDocument plan_of result (scenario_in (table_view document.now)) }
    ensures sized { IfOk result (λ scenario. IsSized (plan_of scenario)) }
{
    let (threads, rms, steps) = header_of(document)?;
    let entries = entries_of(alloc, &[], steps)?;
    Ok(Scenario {
        threads,
        rms,
        entries,
    })
}

/// Reads a scenario file.
///
/// The fault is NotToml, Header or Step, whichever is found first in this order, or Memory if a
/// request was refused.
#[tactic(auto, unfolding(crate::specs::Scenarios::scenario_of))]
pub fn read_scenario(alloc: Global, text: &[u8]) -> Result<Scenario, RunFault>
    ensures read { Gives plan_of result (scenario_of text.now) }
    ensures sized { IfOk result (λ scenario. IsSized (plan_of scenario)) }
{
    let document = document_of(alloc, text)?;
    let scenario = scenario_in(alloc, &document)?;
    Ok(scenario)
}

/// Reads a scenario file, and the names of transactions that it begins.
///
/// The faults are those of `read_scenario`.
#[tactic(auto, unfolding(crate::specs::Scenarios::scenario_of, crate::specs::Scenarios::scenario_in, crate::specs::Files::names_of))]
pub fn read_named_scenario(alloc: Global, text: &[u8]) -> Result<NamedScenario, RunFault>
    ensures read { Gives (λ named. plan_of named.scenario) result (scenario_of text.now) }
    ensures sized { IfOk result (λ named. IsSized (plan_of named.scenario)) }
    ensures names { IfOk result (λ named. names_of text.now
        ≡ Ok (map string_bytes named.names.items)) }
{
    let document = document_of(alloc, text)?;
    let (threads, rms, steps) = header_of(&document)?;
    let entries = entries_of(alloc, &[], steps)?;
    let mut names = Vec::new(alloc);
    add_names(alloc, &mut names, steps)?;
    Ok(NamedScenario {
        scenario: Scenario {
            threads,
            rms,
            entries,
        },
        names,
    })
}
