//! What a request is replied.

use xa_base::{Call, CallKind, Gtrid, Refusal, Xid};

/// Why a request isn't done, if no rule of the protocol refuses it.
#[derive(Clone, Copy, Debug, PartialEq, Eq)]
pub enum RequestFault {
    /// The line is none of the requests.
    NoRequest,
    /// An answer on a line on which nothing waits.
    NothingWaits,
    /// An answer to another call than the one that waits first.
    OtherCall,
    /// The branch state table has no such answer to the call, or a page lists more than was asked
    /// for.
    NoSuchAnswer,
    /// No state of the branch explains the answer.
    NoSuchState,
}

/// The line that a request is replied, and the first line of a session.
#[derive(Drop)]
pub enum Response {
    /// The session is up in this incarnation, with so many rows of either kind in its log.
    Restarted {
        incarnation: u64,
        decisions: usize,
        heuristics: usize,
    },
    /// A transaction was begun.
    Begun(Gtrid),
    /// The call waits on its line.
    Issued(Call),
    /// The call was answered by this number: a code's, or how many identifiers a page lists.
    Heard {
        kind: CallKind,
        number: i128,
    },
    /// The call waits first on its line.
    Waits(Call),
    /// Nothing waits on the line.
    Nothing,
    /// The transaction is decided.
    Decided,
    /// The transaction is claimed.
    Claimed,
    /// The rows left the log.
    Noted,
    /// So many calls wait on the first thread's line.
    Resolved(usize),
    /// The branches that rows of earlier incarnations wait for.
    Owed(Vec<Xid>),
    /// What waited on the lines is lost.
    Crashed,
    /// Whether the manager is up, and how much has happened in the session.
    Status {
        up: bool,
        happened: usize,
    },
    /// The session ends.
    Bye,
    /// A rule refuses the step.
    Refused(Refusal),
    /// The request isn't done for another reason.
    Fault(RequestFault),
}
