//! Steps of the whole system.
ghost use Rattle.std.specs.Prelude.{◌≡◌};
ghost use Rattle.xa_base.specs.declared.step.Step.TheVariants as Steps;

use crate::{Call, Gtrid, How, Vote, Xid};

/// How a transaction ends.
#[derive(Clone, Copy, Debug, PartialEq, Eq)]
pub enum Outcome {
    Commit,
    Rollback,
}

/// What can crash.
#[derive(Clone, Copy, PartialEq, Eq)]
pub enum Part {
    /// The line between a thread and a resource manager: what waits on it is lost.
    Line { thread: u32, rm: u32 },
    /// A resource manager, with all its lines. It is down until it is restarted.
    Rm { rm: u32 },
    /// The transaction manager, with all lines. It is down until it is restarted.
    Manager,
}

/// What can be down, and so be restarted. A line is none of these: it is new at once after its
/// crash.
#[derive(Clone, Copy, PartialEq, Eq)]
pub enum Side {
    /// A resource manager.
    Rm { rm: u32 },
    /// The transaction manager.
    Manager,
}

/// One step of the system. Threads and resource managers are numbered from 0. Branches are named by
/// X.
#[derive(Drop)]
pub enum Step<X = Xid> {
    /// A thread begins a transaction.
    Begin {
        thread: u32,
    },
    /// A thread issues a call to a resource manager.
    Issue {
        thread: u32,
        rm: u32,
        call: Call<X>,
    },
    /// A resource manager takes the oldest call that waits, and answers it.
    Take {
        thread: u32,
        rm: u32,
    },
    /// The manager hears the oldest answer that waits.
    Hear {
        thread: u32,
        rm: u32,
    },
    /// The resource manager is to vote so on the branch.
    Vote {
        rm: u32,
        xid: X,
        vote: Vote,
    },
    /// The resource manager is to put off so many commits of the prepared branch.
    Busy {
        rm: u32,
        xid: X,
        times: u32,
    },
    /// The resource manager ends the prepared branch by itself.
    Heuristic {
        rm: u32,
        xid: X,
        how: How,
    },
    /// The transaction's outcome is decided.
    Decide {
        gtrid: Gtrid,
        outcome: Outcome,
    },
    /// The transaction is claimed, so that no recovery rolls it back before it is settled.
    Claim {
        gtrid: Gtrid,
    },
    /// The claimed transaction is committed.
    Settle {
        gtrid: Gtrid,
    },
    /// The claimed transaction is rolled back.
    Abandon {
        gtrid: Gtrid,
    },
    /// The manager asks a resource manager which branches are in doubt.
    Recover {
        rm: u32,
        count: i64,
        start_scan: bool,
        end_scan: bool,
    },
    /// The manager issues the calls that end the branches that the last recovery page lists.
    Resolve {
        rm: u32,
    },
    /// The same, and the transactions of the page that are neither decided nor claimed are rolled
    /// back.
    ResolveOpen {
        rm: u32,
    },
    /// The transaction is over, and its row leaves the log.
    Done {
        gtrid: Gtrid,
    },
    /// A part crashes.
    Crash(Part),
    /// What is down is started again.
    Restart(Side),
}

impl Step {
    /// The same step. No memory is taken.
    pub fn copy(&self) -> Step
        ensures { result ≡ self.now }
    {
        match *self {
            Step::Begin { thread } => Step::Begin { thread },
            Step::Issue {
                thread,
                rm,
                ref call,
            } => Step::issue(thread, rm, call.copy()),
            Step::Take { thread, rm } => Step::Take { thread, rm },
            Step::Hear { thread, rm } => Step::Hear { thread, rm },
            Step::Vote { rm, ref xid, vote } => Step::vote(rm, xid.copy(), vote),
            Step::Busy { rm, ref xid, times } => Step::busy(rm, xid.copy(), times),
            Step::Heuristic { rm, ref xid, how } => Step::heuristic(rm, xid.copy(), how),
            Step::Decide { gtrid, outcome } => Step::Decide { gtrid, outcome },
            Step::Claim { gtrid } => Step::Claim { gtrid },
            Step::Settle { gtrid } => Step::Settle { gtrid },
            Step::Abandon { gtrid } => Step::Abandon { gtrid },
            Step::Recover {
                rm,
                count,
                start_scan,
                end_scan,
            } => Step::Recover {
                rm,
                count,
                start_scan,
                end_scan,
            },
            Step::Resolve { rm } => Step::Resolve { rm },
            Step::ResolveOpen { rm } => Step::ResolveOpen { rm },
            Step::Done { gtrid } => Step::Done { gtrid },
            Step::Crash(part) => Step::Crash(part),
            Step::Restart(side) => Step::Restart(side),
        }
    }

    fn issue(thread: u32, rm: u32, call: Call) -> Step
        ensures { result ≡ Steps.Issue thread rm call }
    {
        Step::Issue { thread, rm, call }
    }

    fn vote(rm: u32, xid: Xid, vote: Vote) -> Step
        ensures { result ≡ Steps.Vote rm xid vote }
    {
        Step::Vote { rm, xid, vote }
    }

    fn busy(rm: u32, xid: Xid, times: u32) -> Step
        ensures { result ≡ Steps.Busy rm xid times }
    {
        Step::Busy { rm, xid, times }
    }

    fn heuristic(rm: u32, xid: Xid, how: How) -> Step
        ensures { result ≡ Steps.Heuristic rm xid how }
    {
        Step::Heuristic { rm, xid, how }
    }
}
