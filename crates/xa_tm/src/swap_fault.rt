//! Why a log isn't put in.

use thiserror::Error;

/// Why a manager didn't take a log that was handed to it. All is as before, and the log comes back.
#[derive(Clone, Copy, Debug, PartialEq, Eq, Error)]
pub enum SwapFault {
    /// The manager is up or holds a log.
    #[error("the manager is up or holds a log")]
    Up,
    /// A request for memory was refused.
    #[error("out of memory")]
    Memory,
    /// The log handed in failed for another cause.
    #[error("the decision log failed")]
    Log,
    /// Its rows and records are neither those before the change in doubt nor those with it.
    #[error("the decision log has other rows")]
    OtherRows,
}
