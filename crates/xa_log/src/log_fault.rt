//! Why a call of a decision log fails, and the count of such calls.
ghost use Rattle.std.specs.Prelude.{◌≡◌};
ghost use Rattle.xa_log.specs.Contract.{faults_after};

use std::alloc::{AllocError, AllocFailed};
use thiserror::Error;

/// Why a call of a decision log fails.
#[derive(Clone, Copy, Debug, PartialEq, Eq, Error)]
pub enum LogFault {
    /// The store failed, for a cause that isn't told. A call that changes something may have made its change.
    #[error("the log's store failed")]
    Store,
    /// A request for memory was refused.
    #[error("out of memory")]
    Memory,
    /// The tables are of a version that isn't known, or hold a number that doesn't fit its type.
    #[error("the log is of an unknown version")]
    Version,
    /// The incarnation is the last that there is, 9,223,372,036,854,775,807. Nothing has changed.
    #[error("the log has no incarnation left")]
    Spent,
}

impl From<AllocError> for LogFault {
    ghost use Rattle.xa_log.specs.declared.log_fault.LogFault.TheVariants.{Memory};

    ghost from_gives = { λ _ fault. fault ≡ Memory };

    fn from(_error: AllocError) -> LogFault {
        LogFault::Memory
    }
}

impl<T: Drop> From<AllocFailed<T>> for LogFault {
    ghost use Rattle.xa_log.specs.declared.log_fault.LogFault.TheVariants.{Memory};

    ghost from_gives = { λ _ fault. fault ≡ Memory };

    fn from(_error: AllocFailed<T>) -> LogFault {
        LogFault::Memory
    }
}

/// The answer of a call of a log, unchanged. Where it is a failure, `faults` is one more, up to the greatest number:
/// so a log counts what [`faults`](crate::DecisionLog::faults) tells.
pub fn counted<T>(faults: &mut u64, answer: Result<T, LogFault>) -> Result<T, LogFault>
    ensures same { result ≡ answer }
    ensures count { faults.new ≡ faults_after result faults.old }
{
    if answer.is_err() {
        *faults = faults.saturating_add(1);
    }
    answer
}
