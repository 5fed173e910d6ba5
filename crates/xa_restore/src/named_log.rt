//! The lines of a log that keeps names.

ghost use Rattle.std.specs.Prelude.{◌≡◌, ◌≤◌, map, true, IfErr, IfOk};
ghost use Rattle.std.specs.List.{AllByRecursion};
ghost use Rattle.std.specs.Str.Lines.{lines as lines_of};
ghost use Rattle.xa_log.specs.Contract.{FitsRow};
ghost use Rattle.xa_restore.specs.Headings.{AreApart, is_rm_name};
ghost use Rattle.xa_restore.specs.LogLines.{AreOnce, OwnsBranches, Rise};
ghost use Rattle.xa_restore.specs.NamedLogs.{HasLines, IsNamedFault};
ghost use Rattle.xa_restore.specs.Restored.{RestoredHoldWhatIsSaid};

use crate::faults::RestoreFault;
use crate::heading::{Heading, read_heading};
use crate::log_lines::{LogLines, MOST_STARTS, read_log};
use std::alloc::Global;

/// What the lines of a log say: the names that it keeps, and what it holds.
#[derive(Drop)]
pub struct NamedLog<'a> {
    pub heading: Heading<'a>,
    pub log: LogLines,
}

/// Reads the lines of a log, those of its names first. What is told of a fault is the first line
/// that is wrong, from 1.
pub fn read_lines<'a>(alloc: Global, lines: &[&'a str]) -> Result<NamedLog<'a>, RestoreFault>
    ensures lines { IfOk result (HasLines (map (λ line. line.now) lines.now)) }
    ensures names { IfOk result (λ it.
        AllByRecursion (λ rm. is_rm_name rm.now ≡ true) it.heading.rms.items) }
    ensures apart { IfOk result (λ it. AreApart it.heading.rms.items) }
    ensures own { IfOk result (λ it. AllByRecursion OwnsBranches it.log.decisions.items) }
    ensures once { IfOk result (λ it.
        AllByRecursion (λ d. AreOnce d.participants.items) it.log.decisions.items) }
    ensures fits { IfOk result (λ it.
        AllByRecursion (λ d. FitsRow d.gtrid) it.log.decisions.items) }
    ensures started { IfOk result (λ it.
        AllByRecursion (λ d. d.gtrid.incarnation ≤ it.log.incarnation) it.log.decisions.items) }
    ensures rise { IfOk result (λ it. Rise it.log.decisions.items) }
    ensures most { IfOk result (λ it. it.log.incarnation ≤ MOST_STARTS) }
    ensures fault { IfErr result (IsNamedFault (map (λ line. line.now) lines.now)) }
{
    let heading = match read_heading(alloc, lines) {
        Ok(heading) => heading,
        Err(fault) => return Err(fault),
    };
    let count = heading.line_count();
    let rest = lines.get(count..).unwrap_or(&[]);
    match read_log(alloc, &heading.name, rest) {
        Ok(log) => Ok(NamedLog { heading, log }),
        Err(fault) => Err(fault.behind(count)),
    }
}

/// The same of a text.
pub fn read_text<'a>(alloc: Global, text: &'a str) -> Result<NamedLog<'a>, RestoreFault>
    ensures lines { IfOk result (HasLines (lines_of text.now)) }
    ensures own { IfOk result (λ it. AllByRecursion OwnsBranches it.log.decisions.items) }
    ensures fits { IfOk result (λ it.
        AllByRecursion (λ d. FitsRow d.gtrid) it.log.decisions.items) }
    ensures rise { IfOk result (λ it. Rise it.log.decisions.items) }
    ensures fault { IfErr result (IsNamedFault (lines_of text.now)) }
{
    let lines: Vec<&str> = text.lines().collect(alloc)?;
    read_lines(alloc, &lines)
}

/// What is written into an empty log has the row of each decision of the lines, no other row, no
/// record, and as many starts as they say. This does nothing: its clause is a law.
pub fn restored_logs_hold_what_is_said()
    ensures { RestoredHoldWhatIsSaid }
{}
