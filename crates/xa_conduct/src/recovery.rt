//! The recovery of a resource manager: page, resolve, the calls, and what is owed.

ghost use Rattle.std.specs.Prelude.{◌≡◌, true};
ghost use Rattle.xa_conduct.specs.Pages.{BeganBefore};
ghost use Rattle.xa_conduct.specs.Plain.{is_on_branch};

use crate::debt::Debt;
use crate::report::Report;
use std::alloc::{AllocError, Global};
use xa_base::{Branch, CallKind, Code, Gtrid, How, RbCode, Xid};

/// How many identifiers a page lists. No more than 64 calls wait on a line.
pub(crate) const PAGE: usize = 32;

/// How far a recovery has come.
#[derive(Clone, Copy, Debug, PartialEq, Eq)]
pub(crate) enum Stage {
    /// None is under way.
    Idle,
    /// A page is waited for.
    Paging,
    /// Calls wait that end what the page lists; behind them comes another page, or what is owed.
    Ending { is_last: bool },
    /// A call waits that ends what is owed.
    Paying,
}

/// The recovery of a resource manager.
#[derive(Drop)]
pub(crate) struct Recovery {
    pub stage: Stage,
    /// Whether the first thread's line to it is open.
    pub is_open: bool,
    /// Whether it is to be recovered.
    pub is_due: bool,
    /// Whether all that it listed was looked at once.
    pub is_scanned: bool,
    /// What is yet to be paid: the ends of branches, the last first.
    pub left: Vec<Debt>,
    /// The transactions of earlier sessions of which a branch was owed here.
    pub rows: Vec<Gtrid>,
    /// The debt that is being paid.
    pub paying: Option<Debt>,
    /// How many branches stay owed.
    pub put_off: usize,
}

impl Recovery {
    pub fn new(alloc: Global) -> Recovery {
        Recovery {
            stage: Stage::Idle,
            is_open: false,
            is_due: true,
            is_scanned: false,
            left: Vec::new(alloc),
            rows: Vec::new(alloc),
            paying: None,
            put_off: 0,
        }
    }

    /// The connection is lost: it is broken off.
    pub fn break_off(&mut self) {
        self.stage = Stage::Idle;
        self.is_open = false;
        self.is_due = true;
        self.left.clear();
        self.rows.clear();
        self.paying = None;
    }
}

/// What is listed, as the session may know it.
#[derive(Clone, Copy, Debug, PartialEq, Eq)]
pub(crate) enum Listed {
    /// A branch of an earlier session: the log decides.
    Earlier(Branch),
    /// One of this session, which ends it by itself.
    Own,
    /// Another's.
    Foreign,
    /// One that no session over this log began.
    Unknown,
}

/// What it is that a resource manager lists, in this incarnation, in which so many transactions have begun.
pub(crate) fn listed_as(xid: &Xid, rm: u32, incarnation: u64, begun: u64) -> Listed
    ensures { BeganBefore incarnation result }
{
    match xid.branch() {
        Some(branch) if branch.rm == rm => {
            if branch.gtrid.incarnation < incarnation {
                Listed::Earlier(branch)
            } else if branch.gtrid.incarnation == incarnation && branch.gtrid.sequence <= begun {
                Listed::Own
            } else {
                Listed::Unknown
            }
        }
        _ => Listed::Foreign,
    }
}

/// Whether calls of this kind end a branch.
pub(crate) fn ends_branch(kind: CallKind) -> bool
    ensures { result ≡ true → is_on_branch kind ≡ true }
{
    matches!(
        kind,
        CallKind::Commit | CallKind::Rollback | CallKind::Forget
    )
}

/// What is told for an answer to a call of a recovery: of these codes the first that some state of the branch explains.
pub(crate) fn codes_for(kind: CallKind, said: Code) -> [Option<Code>; 3] {
    match kind {
        CallKind::Commit => commit_codes(said),
        CallKind::Rollback => rollback_codes(said),
        CallKind::Forget => forget_codes(said),
        _ => [None, None, None],
    }
}

fn commit_codes(said: Code) -> [Option<Code>; 3] {
    match said {
        Code::Success => [Some(Code::Success), Some(Code::NotAnXid), None],
        Code::NotAnXid => [Some(Code::NotAnXid), Some(Code::Heuristic(How::Haz)), None],
        Code::RolledBack(_) | Code::RmError => [Some(Code::Heuristic(How::Rb)), None, None],
        Code::Retry => [Some(Code::Retry), None, None],
        Code::Heuristic(how) => [Some(Code::Heuristic(how)), None, None],
        _ => [None, None, None],
    }
}

fn rollback_codes(said: Code) -> [Option<Code>; 3] {
    match said {
        Code::Success | Code::RolledBack(_) => [
            Some(Code::Success),
            Some(Code::NotAnXid),
            Some(Code::RolledBack(RbCode::Rollback)),
        ],
        Code::NotAnXid => [Some(Code::NotAnXid), Some(Code::Heuristic(How::Haz)), None],
        Code::Heuristic(how) => [Some(Code::Heuristic(how)), None, None],
        _ => [None, None, None],
    }
}

fn forget_codes(said: Code) -> [Option<Code>; 3] {
    match said {
        Code::Success | Code::NotAnXid | Code::RmError => [Some(Code::Success), None, None],
        _ => [None, None, None],
    }
}

/// Whether there is such an answer to a call of a recovery.
pub(crate) fn is_end(kind: CallKind, report: Report) -> bool {
    match report {
        Report::Lost => true,
        Report::Code(code) => codes_for(kind, code)[0].is_some(),
    }
}

/// Adds the transaction of a branch, unless it is there.
pub(crate) fn add_row(rows: &mut Vec<Gtrid>, branch: Branch) -> Result<(), AllocError> {
    if rows.iter().all(|gtrid| *gtrid != branch.gtrid) {
        rows.push(branch.gtrid)?;
    }
    Ok(())
}
