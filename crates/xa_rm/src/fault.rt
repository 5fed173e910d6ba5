//! Faults of scripts.
ghost use Rattle.std.specs.Prelude.{◌≡◌};

use thiserror::Error;
use xa_base::Memory;

/// Why a script for a branch wasn't taken. Nothing has changed.
#[derive(Clone, Copy, Debug, PartialEq, Eq, Error)]
pub enum RmFault {
    /// The branch isn't in a state in which the script could be followed.
    #[error("the branch isn't in a state for this script")]
    Script,
    /// A request for memory was refused.
    #[error("out of memory")]
    Memory,
}

impl From<Memory> for RmFault {
    ghost use Rattle.xa_rm.specs.declared.fault.RmFault.TheVariants as Faults;

    ghost from_gives = { λ _ fault. fault ≡ Faults.Memory };

    fn from(_memory: Memory) -> RmFault {
        RmFault::Memory
    }
}
