//! What a table of a scenario file asks for.

use xa_base::{Call, How, Outcome, Part, Side, Vote};

/// A branch of the transaction of a `begin`.
#[derive(Clone, Copy, PartialEq, Eq)]
pub struct BranchEntry {
    /// Which of the `begin` entries begins the transaction, from 0.
    pub begin: usize,
    /// The thread that works on the branch, from 0.
    pub thread: u32,
}

/// What a resource manager is told to do with a branch.
#[derive(Clone, Copy, PartialEq, Eq)]
pub enum Script {
    /// It is to vote so.
    Vote(Vote),
    /// It is to put off so many commits of the branch, which is prepared.
    Busy(u32),
    /// It ends the branch, which is prepared, by itself.
    Heuristic(How),
}

/// What is done to end a transaction.
#[derive(Clone, Copy, PartialEq, Eq)]
pub enum Ending {
    /// Its outcome is decided.
    Decide(Outcome),
    /// It is over, and its row leaves the log.
    Done,
    /// It is claimed.
    Claim,
    /// It was claimed, and is committed.
    Settle,
    /// It was claimed, and is rolled back.
    Abandon,
}

/// One table of a scenario file. Threads and resource managers are numbered from 0, and any number
/// may stand there, also if the system has no such thread or resource manager. A transaction is
/// named by its `begin` entry, as in [`BranchEntry`].
#[derive(Drop)]
pub enum Entry {
    /// A thread begins a transaction.
    Begin {
        thread: u32,
    },
    /// A thread issues a call to a resource manager (XA, chapter 5).
    Issue {
        thread: u32,
        rm: u32,
        call: Call<BranchEntry>,
    },
    /// A thread issues a call, the resource manager takes the oldest call that waits, and the
    /// manager hears the oldest answer.
    Call {
        thread: u32,
        rm: u32,
        call: Call<BranchEntry>,
    },
    /// A resource manager takes the oldest call that waits on a line.
    Take {
        thread: u32,
        rm: u32,
    },
    /// The manager hears the oldest answer that waits on a line.
    Hear {
        thread: u32,
        rm: u32,
    },
    /// Both, again and again, up to and with the first time that nothing is taken and nothing is
    /// heard.
    Drain {
        thread: u32,
        rm: u32,
    },
    /// A resource manager is told what to do with a branch.
    Script {
        rm: u32,
        branch: BranchEntry,
        script: Script,
    },
    /// A transaction is decided, claimed or ended.
    End {
        begin: usize,
        ending: Ending,
    },
    /// The manager asks a resource manager which branches are in doubt.
    Recover {
        rm: u32,
        count: i64,
        start_scan: bool,
        end_scan: bool,
    },
    /// The manager issues the calls that end the branches of the last recovery page.
    Resolve {
        rm: u32,
    },
    /// A part crashes.
    Crash(Part),
    /// What is down is started again.
    Restart(Side),
    /// As `Resolve`, and the transactions of the page that are neither decided nor claimed are
    /// rolled back.
    ResolveOpen {
        rm: u32,
    },
}
