//! A log is made as lines say.

ghost use Rattle.std.specs.Prelude.{◌≡◌, OnOk, Some};
ghost use Rattle.std.specs.List.{AllByRecursion};
ghost use Rattle.xa_log.specs.Content.{Content};
ghost use Rattle.xa_log.specs.Contract.{FitsRow, Honestly};
ghost use Rattle.xa_restore.specs.LogLines.{OwnsBranches};
ghost use Rattle.xa_restore.specs.Restored.{HasRaised, restored};

use crate::log_lines::LogLines;
use std::alloc::Global;
use xa_log::{DecisionLog, LogFault};

/// Writes into a log what lines say: it has been started as many times more, and has a row for each decision. Into an empty
/// one that is all that it then holds.
///
/// It is not one change: what a call that fails, or a crash, leaves is not the log. So it is made beside its place.
pub fn restore_log<L: DecisionLog>(
    alloc: Global,
    log: &mut L,
    lines: &LogLines,
) -> Result<(), LogFault>
    requires own { AllByRecursion OwnsBranches lines.now.decisions.items }
    requires fits { AllByRecursion (λ d. FitsRow d.gtrid) lines.now.decisions.items }
    ensures made { (c : Content) → (L.moment log.old).content ≡ Some c →
        Honestly (L.moment log.old) (L.moment log.new) (OnOk result ((L.moment log.new).content
        ≡ Some (restored lines.now.incarnation lines.now.decisions.items c))) }
    ensures order { (L.moment log.old).is_in_order → (L.moment log.new).is_in_order }
    ensures honest { (L.moment log.new).is_honest → (L.moment log.old).is_honest }
{
    raise_incarnation(log, lines.incarnation)?;
    log.commit_all(alloc, &lines.decisions)?;
    Ok(())
}

/// Starts a log so many times more.
fn raise_incarnation<L: DecisionLog>(log: &mut L, count: u64) -> Result<(), LogFault>
    ensures raised { OnOk result (HasRaised (L.moment log.old) (L.moment log.new) count) }
    ensures order { (L.moment log.old).is_in_order → (L.moment log.new).is_in_order }
    ensures honest { (L.moment log.new).is_honest → (L.moment log.old).is_honest }
{
    for _start in 0..count {
        log.bump()?;
    }
    Ok(())
}
