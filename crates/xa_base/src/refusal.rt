//! Why a step is refused.
ghost use Rattle.std.specs.Prelude.{◌≡◌};

use crate::Memory;
use std::alloc::AllocError;
use std::error::Error;
use std::fmt;

/// Why a step is refused. Each has a number, and of two that apply the one with the lower number is
/// answered; only [`Refusal::Limit`] comes first if the step names a thread or resource manager
/// that the system doesn't have.
#[derive(Clone, Copy, Debug, PartialEq, Eq)]
pub enum Refusal {
    /// 1: the step needs the transaction manager, which is down.
    ManagerDown,
    /// 2: the step needs the resource manager, which is down.
    RmDown,
    /// 3: no xa_open was issued on the line since it was new or renewed, and the call isn't one.
    NotOpen,
    /// 4: xa_close was issued on the line.
    Closed,
    /// 5: no transaction of that name was begun in this incarnation; for xa_commit and Done, nor
    /// has it a row.
    UnknownTransaction,
    /// 6: the branch belongs to another resource manager or, for calls that are its own thread's,
    /// to another thread.
    WrongThread,
    /// 7: an xa_start of the branch was accepted before.
    AlreadyStarted,
    /// 8: the transaction is decided, claimed or handed over to its resource manager.
    Decided,
    /// 9: the transaction isn't decided so, isn't claimed, has no row, or the branch isn't recorded
    /// as heuristic.
    NotDecided,
    /// 10: a vote for commit is lacking or, in one phase, the transaction has another branch.
    Votes,
    /// 11: a branch isn't finished, started or settled yet, or what is to be restarted is up.
    Busy,
    /// 12: 64 calls or answers wait on the line, or fewer places are free than calls would be
    /// issued.
    Full,
    /// 13: the branch isn't at this resource manager, or not in a state in which the script could
    /// be followed.
    Script,
    /// 14: the system has no such thread or resource manager, or 1,000 transactions or 10,000
    /// events were made.
    Limit,
    /// 15: the decision log failed in this step. The manager is down until it is restarted.
    LogFault,
    /// 16: a request for memory was refused. Nothing has changed.
    Memory,
}

impl Refusal {
    ghost use Rattle.xa_base.specs.Refusal.{refusal_number, refusal_name};

    /// The refusal's number, 1 to 16.
    pub fn number(self) -> u32
        ensures { result ≡ refusal_number self }
    {
        match self {
            Refusal::ManagerDown => 1,
            Refusal::RmDown => 2,
            Refusal::NotOpen => 3,
            Refusal::Closed => 4,
            Refusal::UnknownTransaction => 5,
            Refusal::WrongThread => 6,
            Refusal::AlreadyStarted => 7,
            Refusal::Decided => 8,
            Refusal::NotDecided => 9,
            Refusal::Votes => 10,
            Refusal::Busy => 11,
            Refusal::Full => 12,
            Refusal::Script => 13,
            Refusal::Limit => 14,
            Refusal::LogFault => 15,
            Refusal::Memory => 16,
        }
    }

    /// The refusal's name, as traces print it.
    pub fn name(self) -> &'static str
        ensures { result.now ≡ refusal_name self }
    {
        match self {
            Refusal::ManagerDown => "ManagerDown",
            Refusal::RmDown => "RmDown",
            Refusal::NotOpen => "NotOpen",
            Refusal::Closed => "Closed",
            Refusal::UnknownTransaction => "UnknownTransaction",
            Refusal::WrongThread => "WrongThread",
            Refusal::AlreadyStarted => "AlreadyStarted",
            Refusal::Decided => "Decided",
            Refusal::NotDecided => "NotDecided",
            Refusal::Votes => "Votes",
            Refusal::Busy => "Busy",
            Refusal::Full => "Full",
            Refusal::Script => "Script",
            Refusal::Limit => "Limit",
            Refusal::LogFault => "LogFault",
            Refusal::Memory => "Memory",
        }
    }

    /// The refusal in words.
    fn text(self) -> &'static str {
        match self {
            Refusal::ManagerDown => "the transaction manager is down",
            Refusal::RmDown => "the resource manager is down",
            Refusal::NotOpen => "the line isn't open",
            Refusal::Closed => "the line is closed",
            Refusal::UnknownTransaction => "no such transaction was begun",
            Refusal::WrongThread => "the branch belongs to another thread or resource manager",
            Refusal::AlreadyStarted => "the branch was started before",
            Refusal::Decided => "the transaction is decided",
            Refusal::NotDecided => "the transaction isn't decided so",
            Refusal::Votes => "not all votes are in, or not for commit",
            Refusal::Busy => "a branch or a side of the system is still busy",
            Refusal::Full => "the line is full",
            Refusal::Script => "the branch can't be scripted so",
            Refusal::Limit =>
                "the system has no such thread or resource manager, or no room for more",
            Refusal::LogFault => "the decision log failed",
            Refusal::Memory => "out of memory",
        }
    }
}

impl fmt::Display for Refusal {
    fn fmt<W: fmt::Write>(&self, f: &mut fmt::Formatter<W>) -> fmt::Result {
        f.write_str(self.text())
    }
}

impl Error for Refusal {}

impl From<AllocError> for Refusal {
    ghost use Rattle.xa_base.specs.declared.refusal.Refusal.TheVariants as Refusals;

    ghost from_gives = { λ _ refusal. refusal ≡ Refusals.Memory };

    fn from(error: AllocError) -> Refusal {
        Refusal::from(Memory::from(error))
    }
}

impl From<Memory> for Refusal {
    ghost use Rattle.xa_base.specs.declared.refusal.Refusal.TheVariants as Refusals;

    ghost from_gives = { λ _ refusal. refusal ≡ Refusals.Memory };

    fn from(_memory: Memory) -> Refusal {
        Refusal::Memory
    }
}
