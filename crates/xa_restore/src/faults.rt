//! Why lines make no log.

ghost use Rattle.std.specs.Prelude.{◌≡◌};
ghost use Rattle.xa_restore.specs.declared.faults.RestoreFault.TheVariants as Faults;

use std::alloc::{AllocError, AllocFailed};
use thiserror::Error;
use xa_base::Memory;

/// What is wrong with a line.
#[derive(Clone, Copy, Debug, PartialEq, Eq, Error)]
pub enum LineFault {
    /// It gives the manager what is no name.
    #[error("a name has 1 to 16 letters, digits, _ and -")]
    Name,
    /// It isn't the line of a resource manager's name that comes here.
    #[error("`rm NUMBER NAME` is wanted, from number 0 on, with another name for each: \
        1 to 64 letters, digits, _ and -")]
    Rm,
    /// It isn't the line of the incarnation, which comes first.
    #[error("`incarnation N` is wanted, with N at most 1000000")]
    Incarnation,
    /// It isn't the line of a decision.
    #[error("a decision is wanted: its transaction, how many participants it has, and these, \
        each another branch of it by its identifier, all as `xatm log` prints them")]
    Decision,
    /// Its transaction doesn't come behind that of the line before it.
    #[error("its transaction is to come behind that of the line before it")]
    Order,
    /// Its transaction is of an incarnation that hasn't been yet.
    #[error("its transaction is of a later incarnation than the log")]
    Later,
    /// The line `end` is missing, which is the last one.
    #[error("`end` is wanted, the last line")]
    End,
}

/// Why lines make no log.
#[derive(Clone, Copy, Debug, PartialEq, Eq)]
pub enum RestoreFault {
    /// This is wrong with the line of this number, from 1.
    Line(usize, LineFault),
    /// A request for memory was refused.
    Memory,
}

impl RestoreFault {
    ghost use Rattle.xa_restore.specs.Faults.{fault_behind};

    /// The same fault of lines behind so many others.
    pub fn behind(self, count: usize) -> RestoreFault
        ensures { result ≡ fault_behind self count }
    {
        match self {
            RestoreFault::Line(number, fault) => {
                RestoreFault::Line(number.saturating_add(count), fault)
            }
            RestoreFault::Memory => RestoreFault::Memory,
        }
    }
}

impl From<Memory> for RestoreFault {
    ghost from_gives = { λ _ fault. fault ≡ Faults.Memory };

    fn from(_error: Memory) -> RestoreFault {
        RestoreFault::Memory
    }
}

impl From<AllocError> for RestoreFault {
    ghost from_gives = { λ _ fault. fault ≡ Faults.Memory };

    fn from(_error: AllocError) -> RestoreFault {
        RestoreFault::Memory
    }
}

impl<T: Drop> From<AllocFailed<T>> for RestoreFault {
    ghost from_gives = { λ _ fault. fault ≡ Faults.Memory };

    fn from(_error: AllocFailed<T>) -> RestoreFault {
        RestoreFault::Memory
    }
}
