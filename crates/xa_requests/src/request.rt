//! What a driver asks for.

ghost use Rattle.std.specs.Prelude.{◌≡◌};

use std::marker::Model;
use xa_base::{Answer, Call, CallKind, Gtrid, Outcome, Xid};

/// Transactions, in the order in which a line names them.
#[derive(Drop)]
pub struct Gtrids {
    gtrids: Vec<Gtrid>,
}

impl Model for Gtrids {
    ghost use Rattle.std.specs.Prelude.{List};
    ghost use Rattle.xa_base.specs.declared.branch.Gtrid.{Gtrid};

    ghost Value = { List Gtrid };

    ghost view = { λ g. g.gtrids.items };
}

impl Gtrids {
    /// These transactions. No memory is taken.
    pub fn new(gtrids: Vec<Gtrid>) -> Gtrids
        ensures { result ≡ gtrids.items }
    {
        Self { gtrids }
    }

    /// The transactions, in their order.
    pub fn as_slice(&self) -> &[Gtrid]
        ensures { result.now ≡ self.now }
    {
        self.gtrids.as_slice()
    }
}

/// The call that an answer is to: its kind and, if it is a call on a branch, the branch's
/// identifier.
#[derive(Debug, PartialEq, Eq, Drop)]
pub struct CallName {
    pub kind: CallKind,
    pub xid: Option<Xid>,
}

/// What a line of the driver asks for. Threads and resource managers are numbered from 0, and any
/// number may stand there, also if there is no such thread or resource manager.
#[derive(Drop)]
pub enum Request {
    /// `begin`: a transaction of a thread begins.
    Begin {
        thread: u32,
    },
    /// `issue`: a call is to wait on the line of a thread to a resource manager.
    Issue {
        thread: u32,
        rm: u32,
        call: Call,
    },
    /// `answer`: the call that waits first on a line was done and answered so.
    Answer {
        thread: u32,
        rm: u32,
        name: CallName,
        answer: Answer,
    },
    /// `decide`: the outcome of one transaction or more is decided.
    Decide {
        gtrids: Gtrids,
        outcome: Outcome,
    },
    /// `claim`: a transaction is claimed, so that no recovery rolls it back.
    Claim {
        gtrid: Gtrid,
    },
    /// `settle`: a claimed transaction is committed.
    Settle {
        gtrid: Gtrid,
    },
    /// `abandon`: a claimed transaction is rolled back.
    Abandon {
        gtrid: Gtrid,
    },
    /// `done`: the rows of one transaction or more leave the log.
    Done {
        gtrids: Gtrids,
    },
    /// `resolve`: what the last page of a resource manager lists is ended.
    Resolve {
        rm: u32,
    },
    /// `resolve-open`: the same, and what is open of it is rolled back first.
    ResolveOpen {
        rm: u32,
    },
    /// `waiting`: the call that waits first on a line.
    Waiting {
        thread: u32,
        rm: u32,
    },
    /// `owed`: the branches at a resource manager that rows of earlier incarnations wait for.
    Owed {
        rm: u32,
    },
    /// `crash line`: a line is lost.
    CrashLine {
        thread: u32,
        rm: u32,
    },
    /// `crash rm`: all lines to a resource manager are.
    CrashRm {
        rm: u32,
    },
    /// `status`: how the session stands.
    Status,
    /// `quit`: the session ends.
    Quit,
}
