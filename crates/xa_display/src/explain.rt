//! A scenario file is run, and its story is told.

ghost use Rattle.std.specs.Prelude.{◌≡◌, ◌≢◌, ◌⊎◌, Err, IfErr, IfOk, IsErr, IsErrAnd, OnOk, map};
ghost use Rattle.std.specs.Io.KnownBytes.{Keeps};
ghost use Rattle.std.specs.String.{string_bytes};
ghost use Rattle.xa_display.specs.Shows.{IsStoryOfRun, TellsRun};
ghost use Rattle.xa_files.specs.Reading.{EndsWith, SaysOfReading};
ghost use Rattle.xa_files.specs.declared.fault.RunFault.{RunFault};
ghost use Rattle.xa_files.specs.declared.fault.RunFault.TheVariants.{Work};
ghost use Rattle.xa_files.specs.declared.fault.RunFault.TheVariants as Faults;
ghost use Rattle.xa_scenario_file.specs.Scenarios.{scenario_of};
ghost use Rattle.xa_story.specs.Stories.{IsStory};

use std::alloc::Global;
use std::io::Write;
use xa_base::{Event, Fate, Memory, Xid};
use xa_files::{RunFault, write_text};
use xa_log::DecisionLog;
use xa_scenario::system_after;
use xa_scenario_file::read_named_scenario;
use xa_story::{Scene, lines_of, story_text};

/// Runs a scenario file at new resource managers and over a decision log that is still empty, and
/// prints its story: the line of each event, and then what became of each branch and why.
///
/// A file that is no scenario is refused before anything is run, by NotToml, Header or Step. Log
/// comes if the log can't be started, Memory if a request was refused outside of a step, and Output
/// if a write failed. Work never comes.
pub fn explain_scenario<L: DecisionLog + Drop, W: Write>(
    alloc: Global,
    text: &[u8],
    log: L,
    out: &mut W,
) -> Result<(), RunFault>
    // What is printed is the story of a run over this log.
    ensures ok { OnOk result (TellsRun L.moment log text.now (W.contents out.old)
        (W.contents out.new)) }
    // Why it ends early.
    ensures fault { IfErr result (λ e. SaysOfReading e (scenario_of text.now)) }
    ensures work { IfErr result (λ e. e ≢ Work) }
    ensures refused { (e : RunFault) → scenario_of text.now ≡ Err e → EndsWith e result }
    // A file that is no scenario writes nothing.
    ensures unwritten { IsErr (scenario_of text.now)
        → Keeps (W.contents out.old) (W.contents out.new) }
{
    let story = story_of_run(alloc, text, log)?;
    write_text(story.as_bytes(), out)
}

/// The story of a run of a scenario file over a log.
fn story_of_run<L: DecisionLog + Drop>(
    alloc: Global,
    text: &[u8],
    log: L,
) -> Result<String, RunFault>
    ensures told { IfOk result (λ story. IsStoryOfRun L.moment log text.now
        (string_bytes story)) }
    ensures fault { IfErr result (λ e. SaysOfReading e (scenario_of text.now)) }
    ensures work { IfErr result (λ e. e ≢ Work) }
    ensures refused { (e : RunFault) → scenario_of text.now ≡ Err e
        → IsErrAnd result (λ found. (found ≡ e) ⊎ (found ≡ Faults.Memory)) }
{
    let named = read_named_scenario(alloc, text)?;
    let system = system_after(alloc, &named.scenario, log)?;
    let fates = system.report(alloc)?;
    let story = story_of(alloc, &named.names, system.trace(), &fates)?;
    Ok(story)
}

/// The story of some events, and of what became of the branches.
fn story_of(
    alloc: Global,
    names: &[String],
    events: &[Event],
    fates: &[(Xid, Fate)],
) -> Result<String, Memory>
    ensures { IfOk result (λ story. IsStory (map string_bytes names.now) events.now fates.now
        (string_bytes story)) }
{
    let mut scene = Scene::new(alloc, names);
    let lines = lines_of(alloc, &mut scene, events)?;
    let story = story_text(alloc, &lines, &scene, fates)?;
    Ok(story)
}
