//! A log whose rows were read.

ghost use Rattle.std.specs.Prelude.{◌≡◌, IfOk, OnErr};
ghost use Rattle.xa_tm.specs.Reading.{WasRead};
ghost use Rattle.xa_tm.specs.StartFaults.{HasFailed};

use std::snapshot::Snapshot;
use xa_log::{DecisionLog, LogFault, LogRows};

/// A log, and its rows as they were just read: what a manager starts with
/// ([`Manager::over`](crate::Manager::over)).
///
/// A caller that needs memory of its own takes it between the two calls: if that fails, the log has
/// only been read.
#[derive(Drop)]
pub struct ReadLog<L> {
    pub(crate) log: L,
    pub(crate) rows: LogRows,
    /// The log as it was handed in, without a byte.
    pub(crate) handed: Snapshot<L>,
}

impl<L: DecisionLog + Drop> ReadLog<L> {
    /// Reads the rows of a log.
    pub fn of(mut log: L) -> Result<ReadLog<L>, LogFault>
        ensures handed { IfOk result (λ read. read.handed.value ≡ log) }
        ensures read { IfOk result (WasRead L.DecisionLog) }
        ensures fault { OnErr result ((left : L) × HasFailed L.DecisionLog log left) }
    {
        let handed = Snapshot::of(&log);
        let rows = log.rows()?;
        Ok(ReadLog { log, rows, handed })
    }
}
