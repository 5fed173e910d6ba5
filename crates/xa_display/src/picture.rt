//! A scenario file is run, and drawn.

ghost use Rattle.std.specs.Prelude.{◌≡◌, Err, IfErr, IfOk, IsErr, OnOk, length};
ghost use Rattle.std.specs.Io.KnownBytes.{Keeps};
ghost use Rattle.std.specs.String.{string_bytes};
ghost use Rattle.xa_chart.specs.Pictures.{IsPicture};
ghost use Rattle.xa_display.specs.Shows.{DrawsRun, EndsPicture, ExplainsPicture, IsPictureOfRun, IsTooLong};
ghost use Rattle.xa_display.specs.declared.picture.ChartFault.TheVariants.{Run, TooLong};
ghost use Rattle.xa_display.specs.declared.picture.ChartFault.TheVariants as ChartFaults;
ghost use Rattle.xa_files.specs.declared.fault.RunFault.{RunFault};
ghost use Rattle.xa_files.specs.declared.fault.RunFault.TheVariants as Faults;
ghost use Rattle.xa_scenario_file.specs.Scenarios.{scenario_of};

use std::alloc::Global;
use std::io::Write;
use xa_base::{Event, Memory};
use xa_chart::{Run, chart_text};
use xa_files::{RunFault, write_text};
use xa_log::DecisionLog;
use xa_scenario::system_after;
use xa_scenario_file::{NamedScenario, read_named_scenario};
use xa_story::{Scene, lines_of};

/// The most events of a picture.
const MAX_EVENTS: usize = 200;

/// Why a run can't be drawn.
#[derive(Clone, Copy, Debug, PartialEq, Eq)]
pub enum ChartFault {
    /// The run of the file ended early.
    Run(RunFault),
    /// The run has more than 200 events.
    TooLong,
}

impl From<RunFault> for ChartFault {
    ghost from_gives = { λ fault chart. chart ≡ Run fault };

    fn from(fault: RunFault) -> ChartFault {
        ChartFault::Run(fault)
    }
}

impl From<Memory> for ChartFault {
    ghost from_gives = { λ _ chart. chart ≡ Run Faults.Memory };

    fn from(_fault: Memory) -> ChartFault {
        ChartFault::Run(RunFault::Memory)
    }
}

/// Runs a scenario file at new resource managers and over a decision log that is still empty, and
/// prints it as a sequence diagram: a document of SVG.
///
/// TooLong comes if the run has more than 200 events. The other faults are those of
/// `explain_scenario`.
pub fn draw_scenario<L: DecisionLog + Drop, W: Write>(
    alloc: Global,
    text: &[u8],
    log: L,
    out: &mut W,
) -> Result<(), ChartFault>
    // What is printed is a picture of a run over this log.
    ensures ok { OnOk result (DrawsRun L.moment log text.now (W.contents out.old)
        (W.contents out.new)) }
    // Why it ends early.
    ensures too_long { result ≡ Err TooLong → IsTooLong L.moment log text.now }
    ensures fault { IfErr result (λ e. ExplainsPicture e (scenario_of text.now)) }
    ensures refused { (e : RunFault) → scenario_of text.now ≡ Err e → EndsPicture e result }
    // A file that is no scenario writes nothing, and nor does a run that is too long.
    ensures unwritten { IsErr (scenario_of text.now)
        → Keeps (W.contents out.old) (W.contents out.new) }
    ensures long { result ≡ Err TooLong → Keeps (W.contents out.old) (W.contents out.new) }
{
    let picture = picture_of_run(alloc, text, log)?;
    write_text(picture.as_bytes(), out)?;
    Ok(())
}

/// The picture of a run of a scenario file over a log.
fn picture_of_run<L: DecisionLog + Drop>(
    alloc: Global,
    text: &[u8],
    log: L,
) -> Result<String, ChartFault>
    ensures drawn { IfOk result (λ picture. IsPictureOfRun L.moment log text.now
        (string_bytes picture)) }
    ensures too_long { result ≡ Err TooLong → IsTooLong L.moment log text.now }
    ensures fault { IfErr result (λ e. ExplainsPicture e (scenario_of text.now)) }
    ensures refused { (e : RunFault) → scenario_of text.now ≡ Err e → EndsPicture e result }
{
    let named = read_named_scenario(alloc, text)?;
    let system = system_after(alloc, &named.scenario, log)?;
    let events = system.trace();
    if events.len() > MAX_EVENTS {
        return Err(ChartFault::TooLong);
    }
    let picture = picture_of(alloc, &named, events)?;
    Ok(picture)
}

/// The picture of the events of a scenario.
fn picture_of(alloc: Global, named: &NamedScenario, events: &[Event]) -> Result<String, ChartFault>
    ensures drawn { IfOk result (λ picture. IsPicture named.now.scenario.threads
        named.now.scenario.rms (length events.now) (string_bytes picture)) }
    ensures fault { IfErr result (λ e. e ≡ ChartFaults.Run Faults.Memory) }
{
    let mut scene = Scene::new(alloc, &named.names);
    let lines = lines_of(alloc, &mut scene, events)?;
    let run = Run {
        alloc,
        threads: named.scenario.threads,
        rms: named.scenario.rms,
        scene: &scene,
        lines: &lines,
        events,
    };
    Ok(chart_text(&run)?)
}
