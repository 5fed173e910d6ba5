//! The work of the program on one file, over any log and any writer.

ghost use Rattle.std.specs.Prelude.{◌≡◌, ◌≢◌, ◌⊎◌, Err, IfErr, IfOk, IsErr, OnOk};
ghost use Rattle.std.specs.Io.KnownBytes.{Appends, Keeps};
ghost use Rattle.std.specs.String.{string_bytes};
ghost use Rattle.xa_files.specs.Outputs.{AppendsBeginning};
ghost use Rattle.xa_files.specs.Reading.{EndsWith, SaysOfReading};
ghost use Rattle.xa_files.specs.declared.fault.RunFault.{RunFault};
ghost use Rattle.xa_files.specs.declared.fault.RunFault.TheVariants.{Log, Memory, Output, Work};
ghost use Rattle.xa_scenario.specs.Runs.{Begins, BeginsCheck, Prints, PrintsCheck, check_line};
ghost use Rattle.xa_scenario_file.specs.Scenarios.{plan_of, scenario_of};
ghost use Rattle.xa_tm.specs.StartFaults.{IsToBlame};

use crate::processes::run_scenarios;
use std::alloc::Global;
use std::io::Write;
use std::slice;
use xa_files::{RunFault, write_text};
use xa_log::DecisionLog;
use xa_scenario_file::{Scenario, read_scenario};

/// Runs a scenario file at new resource managers and over a decision log, whatever that holds: the
/// run starts from its rows and its records, in its next incarnation. It prints a line for each
/// event, if the trace is asked for, and then a line for each branch whose xa_start was accepted,
/// in the order of their identifiers.
///
/// A file that is no scenario is refused before anything is run, by NotToml, Header or Step. Log
/// comes if the log can't be started. Memory comes if a request was refused outside of a step;
/// nothing is written then. Output comes if a write failed: what was written before it is left, and
/// is a beginning of what is printed otherwise. Work never comes.
pub fn run_scenario<L: DecisionLog + Drop, W: Write>(
    alloc: Global,
    text: &[u8],
    log: L,
    with_trace: bool,
    out: &mut W,
) -> Result<(), RunFault>
    // What is printed is a run over this log.
    ensures ok { OnOk result (Prints L.moment log text.now with_trace (W.contents out.old)
        (W.contents out.new)) }

    // Why a run ends early.
    ensures fault { IfErr result (λ e. SaysOfReading e (scenario_of text.now)) }
    ensures log { result ≡ Err Log → IsToBlame L.DecisionLog log }
    ensures work { IfErr result (λ e. e ≢ Work) }
    ensures refused { (e : RunFault) → scenario_of text.now ≡ Err e → EndsWith e result }

    // A file that is no scenario writes nothing, and nor does a run that wants memory.
    ensures unwritten { IsErr (scenario_of text.now)
        → Keeps (W.contents out.old) (W.contents out.new) }
    ensures memory { IfErr result (λ e. e ≡ Memory
        → Keeps (W.contents out.old) (W.contents out.new)) }
    ensures begun { IfErr result (λ e. e ≡ Output →
        Begins L.moment log text.now with_trace (W.contents out.old) (W.contents out.new)) }
{
    let scenario = read_scenario(alloc, text)?;
    match run_scenarios(alloc, slice::from_ref(&scenario), log, with_trace, out) {
        Ok(_left) => Ok(()),
        Err(fault) => Err(fault),
    }
}

/// The one line of a check: how large a scenario is.
fn check_line(alloc: Global, scenario: &Scenario) -> Result<String, RunFault>
    ensures text { IfOk result (λ text. string_bytes text ≡ check_line (plan_of scenario.now)) }
    ensures fault { IfErr result (λ e. e ≡ Memory) }
{
    let threads = scenario.threads;
    let rms = scenario.rms;
    let count = scenario.entries.len();
    Ok(format!(in alloc; "ok {threads} {rms} {count}\n")?)
}

/// Prints how many threads, resource managers and entries a scenario has, as in `ok 1 1 5`.
fn print_check<W: Write>(alloc: Global, scenario: &Scenario, out: &mut W) -> Result<(), RunFault>
    ensures ok { OnOk result (Appends (W.contents out.old) (W.contents out.new)
        (check_line (plan_of scenario.now))) }
    ensures memory { IfErr result (λ e. e ≡ Memory
        → Keeps (W.contents out.old) (W.contents out.new)) }
    ensures begun { IfErr result (λ e. e ≡ Output → AppendsBeginning (W.contents out.old)
        (W.contents out.new) (check_line (plan_of scenario.now))) }
    ensures fault { IfErr result (λ e. (e ≡ Memory) ⊎ (e ≡ Output)) }
{
    let line = check_line(alloc, scenario)?;
    write_text(line.as_bytes(), out)
}

/// Reads a scenario file only, and prints how many threads, resource managers and entries it has,
/// as in `ok 1 1 5`.
///
/// The faults are those of `run_scenario`, except for Log.
pub fn check_scenario<W: Write>(alloc: Global, text: &[u8], out: &mut W) -> Result<(), RunFault>
    ensures ok { OnOk result (PrintsCheck text.now (W.contents out.old) (W.contents out.new)) }
    ensures fault { IfErr result (λ e. SaysOfReading e (scenario_of text.now)) }
    ensures refused { (e : RunFault) → scenario_of text.now ≡ Err e → EndsWith e result }
    // A file that is no scenario writes nothing.
    ensures unwritten { IsErr (scenario_of text.now)
        → Keeps (W.contents out.old) (W.contents out.new) }
    ensures memory { IfErr result (λ e. e ≡ Memory
        → Keeps (W.contents out.old) (W.contents out.new)) }
    ensures begun { IfErr result (λ e. e ≡ Output
        → BeginsCheck text.now (W.contents out.old) (W.contents out.new)) }
{
    let plan = read_scenario(alloc, text)?;
    print_check(alloc, &plan, out)
}
