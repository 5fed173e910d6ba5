//! A manager starts over a log.

ghost use Rattle.std.specs.Prelude.{◌≡◌, Err, IfOk};
ghost use Rattle.xa_tm.specs.Reading.{WasRead};
ghost use Rattle.xa_tm.specs.StartFaults.{IsOnlyRead, IsToBlame};
ghost use Rattle.xa_tm.specs.Started.{IsStarted, IsStartedOver};

use crate::ledger::Ledger;
use crate::manager::Manager;
use crate::read_log::ReadLog;
use std::alloc::{AllocError, Global};
use std::snapshot::Snapshot;
use thiserror::Error;
use xa_log::{DecisionLog, LogFault};

/// Why a manager didn't start.
#[derive(Clone, Copy, Debug, PartialEq, Eq, Error)]
pub enum StartFault {
    /// The log failed, or has a row or a record of a later incarnation than its own, or out of
    /// order. The incarnation may have been raised.
    #[error("the decision log failed, or has a row of no earlier incarnation")]
    Log,
    /// A request for memory was refused, except for one within the log, which is its failure. The
    /// log is as it was.
    #[error("out of memory")]
    Memory,
}

impl From<LogFault> for StartFault {
    ghost use Rattle.xa_tm.specs.declared.manager.start.StartFault.TheVariants as StartFaults;

    ghost from_gives = { λ _ fault. fault ≡ StartFaults.Log };

    fn from(_fault: LogFault) -> StartFault {
        StartFault::Log
    }
}

impl From<AllocError> for StartFault {
    ghost use Rattle.xa_tm.specs.declared.manager.start.StartFault.TheVariants as StartFaults;

    ghost from_gives = { λ _ fault. fault ≡ StartFaults.Memory };

    fn from(_error: AllocError) -> StartFault {
        StartFault::Memory
    }
}

impl<L: DecisionLog + Drop> Manager<L> {
    /// A manager over a log, up in the next incarnation, that knows the log's rows and records and
    /// nothing else.
    ///
    /// The rows are read first, then all room for them is made, and only then the incarnation is
    /// raised: if memory is refused for that room, the log has only been read.
    pub fn new(alloc: Global, threads: u32, rms: u32, log: L) -> Result<Manager<L>, StartFault>
        ensures started { IfOk result (IsStarted threads rms) }
        ensures over { IfOk result (IsStartedOver L.moment threads rms (L.moment log)) }
        // Over which logs none starts, and what is left of them.
        ensures log_fault { result ≡ Err StartFault.Log → IsToBlame L.DecisionLog log }
        ensures memory_fault { result ≡ Err StartFault.Memory →
            ((left : L) × IsOnlyRead L.DecisionLog log left) }
    {
        let read = ReadLog::of(log)?;
        Manager::over(alloc, threads, rms, read)
    }

    /// The same, over a log whose rows were read before: all room for them is made, and then the
    /// incarnation is raised.
    pub fn over(
        alloc: Global,
        threads: u32,
        rms: u32,
        read: ReadLog<L>,
    ) -> Result<Manager<L>, StartFault>
        requires { WasRead L.DecisionLog read }
        ensures started { IfOk result (IsStarted threads rms) }
        ensures over { IfOk result
            (IsStartedOver L.moment threads rms (L.moment read.handed.value)) }
        // Over which logs none starts, and what is left of them.
        ensures log_fault { result ≡ Err StartFault.Log →
            IsToBlame L.DecisionLog read.handed.value }
        ensures memory_fault { result ≡ Err StartFault.Memory →
            ((left : L) × IsOnlyRead L.DecisionLog read.handed.value left) }
    {
        let ReadLog { mut log, rows, .. } = read;
        let ledger = Ledger::load(alloc, threads, rms, &rows)?;
        let incarnation = log.bump()?;
        if rows.can_start(incarnation) {
            let ledger = ledger.in_incarnation(incarnation);
            let began = Snapshot::of(&rows);
            Ok(Manager { ledger, log, began })
        } else {
            Err(StartFault::Log)
        }
    }
}
