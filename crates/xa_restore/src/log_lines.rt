//! The lines of a log.

ghost use Rattle.std.specs.Prelude.{◌≡◌, ◌<◌, ◌≤◌, ◌⊎◌, ℕ, List, map, IfErr, IfNone, IfOk, IfSome, None, Some};
ghost use Rattle.std.specs.List.{AllByRecursion};
ghost use Rattle.xa_log.specs.Contract.{FitsRow};
ghost use Rattle.xa_log.specs.declared.decision.Decision.{Decision};
ghost use Rattle.xa_names.specs.Lines.{line_renamed};
ghost use Rattle.xa_restore.specs.LogFaults.{IsLogFault, IsRowFault};
ghost use Rattle.xa_restore.specs.LogLines.{AreLogLinesOf, AreOnce, AreRowsOf, OwnsBranches, Rise, StandsBehind, decision_row_line, incarnation_line, last_behind, stated};

use crate::decision_line::read_decision;
use crate::faults::{LineFault, RestoreFault};
use crate::spelling::is_written;
use std::alloc::Global;
use xa_base::{Gtrid, Memory};
use xa_log::Decision;
use xa_names::{ManagerName, line_renamed};

/// The most starts of a manager that a log can be made with, since it is raised start by start.
pub const MOST_STARTS: u64 = 1_000_000;

/// What lines say that a log holds.
#[derive(Drop)]
pub struct LogLines {
    /// How often the manager has started.
    pub incarnation: u64,
    /// The transactions that are decided to commit, and the branches whose xa_commit each waits for.
    pub decisions: Vec<Decision>,
}

/// The incarnation of which this is the line.
fn read_incarnation(alloc: Global, line: &str) -> Result<Option<u64>, Memory>
    ensures line { IfOk result (λ n. IfSome n (λ n. line.now ≡ incarnation_line n)) }
    ensures most { IfOk result (λ n. IfSome n (λ n. n ≤ MOST_STARTS)) }
    ensures found { (n : ℕ) → n ≤ MOST_STARTS → line.now ≡ incarnation_line n →
        IfOk result (λ found. found ≡ Some n) }
{
    let Some(word) = line.strip_prefix("incarnation ") else {
        return Ok(None);
    };
    let Ok(incarnation) = word.parse::<u64>() else {
        return Ok(None);
    };
    let written = format!(in alloc; "incarnation {incarnation}")?;
    if incarnation > MOST_STARTS {
        return Ok(None);
    }
    if is_written(line, &written) {
        Ok(Some(incarnation))
    } else {
        Ok(None)
    }
}

/// What is wrong with a decision behind the last one, in a log of this incarnation.
fn fault_of(gtrid: Gtrid, last: Option<Gtrid>, incarnation: u64) -> Option<LineFault>
    ensures started { IfNone result (gtrid.incarnation ≤ incarnation) }
    ensures behind { IfNone result (StandsBehind last gtrid) }
    ensures later { result ≡ Some LineFault.Later → incarnation < gtrid.incarnation }
    ensures order { result ≡ Some LineFault.Order → ¬ StandsBehind last gtrid }
    ensures kind { IfSome result (λ fault. (fault ≡ LineFault.Later) ⊎ (fault ≡ LineFault.Order)) }
{
    if gtrid.incarnation > incarnation {
        return Some(LineFault::Later);
    }
    match last {
        Some(last) if gtrid <= last => Some(LineFault::Order),
        _ => None,
    }
}

/// The transaction of the last of these.
fn last_gtrid(decisions: &[Decision]) -> Option<Gtrid>
    ensures { result ≡ last_behind None decisions.now }
{
    match decisions.last() {
        Some(last) => Some(last.gtrid),
        None => None,
    }
}

/// The decisions of which these are the lines, of a log of this incarnation.
fn read_decisions(
    alloc: Global,
    name: &ManagerName,
    incarnation: u64,
    lines: &[&str],
) -> Result<Vec<Decision>, RestoreFault>
    ensures lines { IfOk result (λ decisions. map (λ line. line_renamed name.now line.now) lines.now
        ≡ map decision_row_line decisions.items) }
    ensures own { IfOk result (λ decisions. AllByRecursion OwnsBranches decisions.items) }
    ensures once { IfOk result (λ decisions.
        AllByRecursion (λ d. AreOnce d.participants.items) decisions.items) }
    ensures fits { IfOk result (λ decisions.
        AllByRecursion (λ d. FitsRow d.gtrid) decisions.items) }
    ensures started { IfOk result (λ decisions.
        AllByRecursion (λ d. d.gtrid.incarnation ≤ incarnation) decisions.items) }
    ensures rise { IfOk result (λ decisions. Rise decisions.items) }
    ensures found { (ds : List Decision) → AreRowsOf incarnation ds →
        map (λ line. line_renamed name.now line.now) lines.now ≡ map decision_row_line ds →
        IfOk result (λ decisions. map stated decisions.items ≡ map stated ds) }
    ensures taken { (ds : List Decision) → AreRowsOf incarnation ds →
        map (λ line. line_renamed name.now line.now) lines.now ≡ map decision_row_line ds →
        IfErr result (λ fault. fault ≡ RestoreFault.Memory) }
    ensures fault { IfErr result
        (IsRowFault name.now incarnation (map (λ line. line.now) lines.now)) }
{
    let mut decisions: Vec<Decision> = Vec::with_capacity(alloc, lines.len())?;
    for (at, line) in lines.iter().enumerate() {
        let meant = line_renamed(alloc, name, line)?;
        let Some(decision) = read_decision(alloc, meant.as_str())? else {
            return Err(RestoreFault::Line(at + 2, LineFault::Decision));
        };
        let last = last_gtrid(&decisions);
        if let Some(fault) = fault_of(decision.gtrid, last, incarnation) {
            return Err(RestoreFault::Line(at + 2, fault));
        }
        decisions.push(decision)?;
    }
    Ok(decisions)
}

/// Reads the lines of a log, behind those of its names: its incarnation, a line for each decision in the order of the
/// transactions, and `end`. A decision is written as `xatm log` prints it, and behind it stand the identifiers of its
/// participants, as the manager of this name gives them out.
///
/// What is told of a fault is the first line that is wrong, from 1; without a line `end` it is the place where that is to
/// stand.
pub fn read_log(alloc: Global, name: &ManagerName, lines: &[&str]) -> Result<LogLines, RestoreFault>
    ensures lines { IfOk result (λ log. AreLogLinesOf name.now (map (λ line. line.now) lines.now)
        log.incarnation log.decisions.items) }
    ensures own { IfOk result (λ log. AllByRecursion OwnsBranches log.decisions.items) }
    ensures once { IfOk result (λ log.
        AllByRecursion (λ d. AreOnce d.participants.items) log.decisions.items) }
    ensures fits { IfOk result (λ log. AllByRecursion (λ d. FitsRow d.gtrid) log.decisions.items) }
    ensures started { IfOk result (λ log.
        AllByRecursion (λ d. d.gtrid.incarnation ≤ log.incarnation) log.decisions.items) }
    ensures rise { IfOk result (λ log. Rise log.decisions.items) }
    ensures most { IfOk result (λ log. log.incarnation ≤ MOST_STARTS) }
    ensures found { (n : ℕ) (ds : List Decision) → n ≤ MOST_STARTS → AreRowsOf n ds →
        AreLogLinesOf name.now (map (λ line. line.now) lines.now) n ds →
        IfOk result (λ log. (log.incarnation ≡ n) ×
        (map stated log.decisions.items ≡ map stated ds)) }
    ensures taken { (n : ℕ) (ds : List Decision) → n ≤ MOST_STARTS → AreRowsOf n ds →
        AreLogLinesOf name.now (map (λ line. line.now) lines.now) n ds →
        IfErr result (λ fault. fault ≡ RestoreFault.Memory) }
    ensures fault { IfErr result (IsLogFault name.now (map (λ line. line.now) lines.now)) }
{
    let [first, rows @ .., last] = lines else {
        return Err(RestoreFault::Line(lines.len() + 1, LineFault::End));
    };
    let Some(incarnation) = read_incarnation(alloc, first)? else {
        return Err(RestoreFault::Line(1, LineFault::Incarnation));
    };
    let decisions = read_decisions(alloc, name, incarnation, rows)?;
    if *last != "end" {
        return Err(RestoreFault::Line(lines.len() + 1, LineFault::End));
    }
    Ok(LogLines {
        incarnation,
        decisions,
    })
}
