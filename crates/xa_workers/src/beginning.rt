//! How a run begins: its log gives it an incarnation.
ghost use Rattle.std.specs.Prelude.{◌≡◌, ◌≤◌, IfErr, IfOk};
ghost use Rattle.xa_log.specs.Content.{last_number};
ghost use Rattle.xa_workers.specs.Rows.{Logs, no_rows};

use crate::WorkFault;
use std::snapshot::Snapshot;
use xa_log::DecisionLog;

/// A log that has given a run its incarnation. `first` remembers it as it was before.
#[derive(Drop)]
pub(crate) struct Begun<L> {
    pub(crate) incarnation: u64,
    pub(crate) first: Snapshot<L>,
    pub(crate) log: L,
}

/// Raises a log's incarnation for a run. A log over which no system starts is refused: one that
/// fails, for want of memory too, and one whose rows and records aren't all of older incarnations,
/// or are none that a log lists.
pub(crate) fn begin<L: DecisionLog + Drop>(mut log: L) -> Result<Begun<L>, WorkFault>
    ensures first { IfOk result (λ begun. begun.first.value ≡ log) }
    ensures most { IfOk result (λ begun. begun.incarnation ≤ last_number) }
    ensures begun { IfOk result (λ begun. Logs L.DecisionLog begun.incarnation no_rows
        begun.first.value begun.log) }
    ensures faults { IfOk result (λ begun. (L.moment begun.log).fault_count ≡
        (L.moment log).fault_count) }
    ensures fault { IfErr result (λ e. e ≡ WorkFault.Log) }
{
    let first = Snapshot::of(&log);
    let Ok(incarnation) = log.bump() else {
        return Err(WorkFault::Log);
    };
    let Ok(rows) = log.rows() else {
        return Err(WorkFault::Log);
    };
    if rows.can_start(incarnation) {
        Ok(Begun {
            incarnation,
            first,
            log,
        })
    } else {
        Err(WorkFault::Log)
    }
}
