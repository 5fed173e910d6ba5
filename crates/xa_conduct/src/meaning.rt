//! What the report of a call means, by the place of the branch that waited for it.

ghost use Rattle.std.specs.Prelude.{◌≡◌, true};
ghost use Rattle.xa_conduct.specs.Meaning.{kind_at, step_by_answer, step_by_loss, step_at, step_to_end, takes};
ghost use Rattle.xa_conduct.specs.Meaning.{step_after_at_once, step_after_commit, step_after_forget};
ghost use Rattle.xa_conduct.specs.Meaning.{step_after_rollback, step_after_undo, step_after_vote};
ghost use Rattle.xa_conduct.specs.NotStuck.{is_in_table};
ghost use Rattle.xa_conduct.specs.Plain.{is_on_branch};

use crate::debt::Due;
use crate::place::Place;
use crate::report::Report;
use xa_base::{CallKind, Code, How, RbCode};

/// What the report of a branch's call means to its transaction.
#[derive(Clone, Copy, Debug, PartialEq, Eq)]
pub(crate) enum Heard {
    /// Nothing more.
    Nothing,
    /// It can't be committed.
    No(RbCode),
    /// Nor can it be if its line is lost before it voted.
    LostVote,
    /// It was committed in one phase.
    Committed,
    /// It was rolled back in place of that.
    RolledBack(RbCode),
    /// Its line was lost in that.
    LostAtOnce,
    /// Its line was lost while it was ended.
    LostEnd,
}

impl Heard {
    /// Whether the thread's line is lost.
    pub fn is_line_lost(self) -> bool {
        matches!(self, Heard::LostVote | Heard::LostAtOnce | Heard::LostEnd)
    }

    /// Why the transaction can't be committed, if it can't, and at which resource manager.
    pub fn objection(self, rm: u32) -> Option<(RbCode, u32)> {
        match self {
            Heard::No(code) => Some((code, rm)),
            Heard::LostVote => Some((RbCode::CommFail, rm)),
            _ => None,
        }
    }
}

/// What follows from the report of a call.
#[derive(Clone, Copy, Debug)]
pub(crate) struct Step {
    /// How the call was answered, as the session is told; none, if the line is lost.
    pub code: Option<Code>,
    /// How far the branch has come then.
    pub place: Place,
    /// What it means to the transaction.
    pub heard: Heard,
}

/// The call was answered so, and the branch is then there.
fn step_by_answer(code: Code, place: Place) -> Step
    ensures { result ≡ step_by_answer code place }
{
    Step {
        code: Some(code),
        place,
        heard: Heard::Nothing,
    }
}

/// So it is, and that is the outcome, or a reason against a commit.
fn step_to_end(code: Code, heard: Heard) -> Step
    ensures { result ≡ step_to_end code heard }
{
    Step {
        code: Some(code),
        place: Place::Over,
        heard,
    }
}

/// Nobody knows: the line is lost, and the end of the branch is left to the recovery.
fn step_by_loss(heard: Heard) -> Step
    ensures { result ≡ step_by_loss heard }
{
    Step {
        code: None,
        place: Place::Owed,
        heard,
    }
}

/// After a report of xa_prepare.
fn step_after_vote(report: Report) -> Step
    ensures { result ≡ step_after_vote report }
{
    match report {
        Report::Code(Code::Success) => step_by_answer(Code::Success, Place::Prepared),
        Report::Code(Code::ReadOnly) => step_by_answer(Code::ReadOnly, Place::Over),
        Report::Code(Code::RolledBack(why)) => step_to_end(Code::RolledBack(why), Heard::No(why)),
        _ => step_by_loss(Heard::LostVote),
    }
}

/// The same of xa_commit in one phase. XAER_RMERR says that the branch's work was rolled back (XA, xa_commit).
fn step_after_at_once(report: Report) -> Step
    ensures { result ≡ step_after_at_once report }
{
    match report {
        Report::Code(Code::Success) => step_to_end(Code::Success, Heard::Committed),
        Report::Code(Code::RolledBack(why)) => {
            step_to_end(Code::RolledBack(why), Heard::RolledBack(why))
        }
        Report::Code(Code::RmError) => step_to_end(
            Code::RolledBack(RbCode::Other),
            Heard::RolledBack(RbCode::Other),
        ),
        _ => step_by_loss(Heard::LostAtOnce),
    }
}

/// The same of the first xa_commit of a prepared branch. One that isn't there any more was ended by somebody else. One
/// that was rolled back against its vote has ended by itself: XAER_RMERR says that too (XA, xa_commit).
fn step_after_commit(report: Report) -> Step
    ensures { result ≡ step_after_commit report }
{
    match report {
        Report::Code(Code::Success) => step_by_answer(Code::Success, Place::Over),
        Report::Code(Code::Retry) => step_by_answer(Code::Retry, Place::Owed),
        Report::Code(Code::Heuristic(how)) => step_by_answer(
            Code::Heuristic(how),
            Place::Forgetting,
        ),
        Report::Code(Code::RolledBack(_)) | Report::Code(Code::RmError) => {
            step_by_answer(Code::Heuristic(How::Rb), Place::Forgetting)
        }
        Report::Code(Code::NotAnXid) => step_by_answer(
            Code::Heuristic(How::Haz),
            Place::Forgetting,
        ),
        _ => step_by_loss(Heard::LostEnd),
    }
}

/// The same of the first xa_rollback of a prepared branch.
fn step_after_rollback(report: Report) -> Step
    ensures { result ≡ step_after_rollback report }
{
    match report {
        Report::Code(Code::Success) | Report::Code(Code::RolledBack(_)) => {
            step_by_answer(Code::Success, Place::Over)
        }
        Report::Code(Code::Heuristic(how)) => step_by_answer(
            Code::Heuristic(how),
            Place::Forgetting,
        ),
        Report::Code(Code::NotAnXid) => step_by_answer(
            Code::Heuristic(How::Haz),
            Place::Forgetting,
        ),
        _ => step_by_loss(Heard::LostEnd),
    }
}

/// The same of xa_rollback of a branch that isn't prepared. The call that waits is answered by that code: xa_rollback, or
/// the xa_prepare that wasn't made.
fn step_after_undo(code: Code, report: Report) -> Step
    ensures { result ≡ step_after_undo code report }
{
    match report {
        Report::Code(Code::Success)
        | Report::Code(Code::RolledBack(_))
        | Report::Code(Code::NotAnXid)
        | Report::Code(Code::Heuristic(How::Rb)) => step_by_answer(code, Place::Over),
        _ => step_by_loss(Heard::LostEnd),
    }
}

/// The same of xa_forget. Resource managers that keep no heuristic ends say that there is no such branch, or that they
/// can't.
fn step_after_forget(report: Report) -> Step
    ensures { result ≡ step_after_forget report }
{
    match report {
        Report::Code(Code::Success) | Report::Code(Code::NotAnXid) | Report::Code(Code::RmError) =>
            { step_by_answer(Code::Success, Place::Over) }
        _ => step_by_loss(Heard::LostEnd),
    }
}

impl Place {
    /// What follows from a report. One that is no answer to the call is taken as a loss.
    pub fn step_of(self, report: Report) -> Step
        ensures { result ≡ step_at self report }
    {
        match self {
            Place::Preparing => step_after_vote(report),
            Place::AtOnce => step_after_at_once(report),
            Place::Committing => step_after_commit(report),
            Place::RollingBack => step_after_rollback(report),
            Place::Undoing => step_after_undo(Code::Success, report),
            Place::Refusing => step_after_undo(Code::RolledBack(RbCode::Rollback), report),
            Place::Forgetting => step_after_forget(report),
            Place::Working | Place::Prepared | Place::Over | Place::Owed => Step {
                code: None,
                place: self,
                heard: Heard::Nothing,
            },
        }
    }

    /// Whether an xa_end waits before that call.
    pub fn has_end(self) -> bool {
        matches!(
            self,
            Place::Preparing | Place::AtOnce | Place::Undoing | Place::Refusing
        )
    }

    /// The call that waits behind xa_end, or alone.
    pub fn kind(self) -> CallKind
        ensures kind { result ≡ kind_at self }
        ensures on_branch { is_on_branch result ≡ true }
    {
        match self {
            Place::Preparing | Place::Refusing => CallKind::Prepare,
            Place::AtOnce | Place::Committing => CallKind::Commit,
            Place::Forgetting => CallKind::Forget,
            _ => CallKind::Rollback,
        }
    }

    /// By which call the branch is to be ended later, if its line is lost there.
    pub fn due(self) -> Due {
        match self {
            Place::Committing => Due::Commit,
            Place::Forgetting => Due::Forget,
            _ => Due::Rollback,
        }
    }

    /// Whether there is such an answer to the call that was told.
    pub fn takes(self, report: Report) -> bool
        ensures takes { result ≡ takes self report }
        ensures table { result ≡ is_in_table self report }
    {
        match report {
            Report::Lost => self.is_asked(),
            Report::Code(_) => self.is_asked() && self.step_of(report).code.is_some(),
        }
    }
}
