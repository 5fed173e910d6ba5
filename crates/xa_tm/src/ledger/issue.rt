//! The refusals of calls, and what is noted of a call that is issued.

ghost use Rattle.std.specs.Prelude.{true, false, ◌≡◌, nat_eq, if◌then◌else◌, Option, Some, None, IfErr, OnOk, OnErr};
ghost use Rattle.std.specs.Result.{result_err, result_ok};
ghost use Rattle.xa_tm.specs.Book.{after};
ghost use Rattle.xa_base.specs.declared.call.Call.TheVariants as Calls;
ghost use Rattle.xa_base.specs.declared.step.Step.TheVariants as Steps;
ghost use Rattle.xa_model.specs.Trace.{Line, Call as KnownCall, Happening.Issued};
ghost use Rattle.xa_base.specs.declared.refusal.Refusal.TheVariants.{UnknownTransaction, WrongThread};
ghost use Rattle.std.specs.List.{list_any};
ghost use Rattle.xa_base.specs.Branch.{branch_of_xid};
ghost use Rattle.xa_base.specs.Call.{map_call};
ghost use Rattle.xa_model.specs.Replies.Steps.{accepted};
ghost use Rattle.xa_model.specs.Replies.History.{name_of};
ghost use Rattle.xa_model.specs.Replies.Guards.{call_guards, first_guard};
ghost use Rattle.xa_model.specs.Trace.{Kind.Start, Kind.End, Kind.Prepare, Kind.Commit, Kind.Rollback, Kind.Forget};
ghost use Rattle.xa_model.specs.Trace.{Name.Ours, line};
ghost use Rattle.xa_log.specs.KeySet.{items};
ghost use Rattle.xa_tm.specs.Answering.{branch_handed_over, branch_started};
ghost use Rattle.xa_tm.specs.LedgerBook.{IsSound, as_book};
ghost use Rattle.xa_tm.specs.Refusing.{is_unfinished, refusal_in, view_in};

use crate::ledger::Ledger;
use std::alloc::AllocError;
use xa_base::{Branch, Call, Refusal, Xid};

impl Ledger {
    /// Whether a branch that was started on a line, since that last broke, isn't finished.
    fn has_unfinished(&self, thread: u32, rm: u32) -> bool
        ensures { result ≡ list_any (is_unfinished (as_book self.now) (line thread rm))
            (items (as_book self.now).known) }
    {
        self.branches.iter().any(|(b, notes)| {
            notes.is_started
                && b.thread == thread
                && b.rm == rm
                && notes.is_on_line
                && !notes.is_finished
        })
    }

    /// The refusal of a call on a line, except for those that the line and the resource manager
    /// find.
    pub(crate) fn check_issue(&self, thread: u32, rm: u32, call: &Call) -> Result<(), Refusal>
        ensures { result_err result ≡ refusal_in (as_book self.now)
            (Steps.Issue thread rm (map_call name_of call.now)) }
    {
        if thread >= self.threads || rm >= self.rms {
            return Err(Refusal::Limit);
        }
        if !self.is_up {
            return Err(Refusal::ManagerDown);
        }
        self.check_call(thread, rm, call)
    }

    /// The same on a line of the system, while the manager is up: what the call itself is refused
    /// for.
    fn check_call(&self, thread: u32, rm: u32, call: &Call) -> Result<(), Refusal>
        ensures { result_err result ≡ first_guard
            (call_guards (view_in (as_book self.now)) thread rm (map_call name_of call.now)) }
    {
        match call {
            Call::OpenRm => Ok(()),
            Call::CloseRm => self.check_close(thread, rm),
            Call::Recover { .. } => check_recover(thread),
            Call::Start { xid, join: true } | Call::Start { xid, join: false } => self.check_start(
                thread,
                rm,
                own_branch(xid)?,
            ),
            Call::End { xid, .. } => self.check_own(thread, rm, own_branch(xid)?),
            Call::Prepare { xid } => self.check_prepare(thread, rm, own_branch(xid)?),
            Call::Commit { xid, one_phase } => {
                let b = own_branch(xid)?;
                if *one_phase {
                    self.check_hand_over(thread, rm, b)
                } else {
                    self.check_commit(rm, b)
                }
            }
            Call::Rollback { xid } => self.check_roll_back(rm, own_branch(xid)?),
            Call::Forget { xid } => self.check_forget(rm, own_branch(xid)?),
        }
    }

    /// Notes a call that is issued: xa_start makes a branch, and xa_commit in one phase hands a
    /// transaction over.
    pub(crate) fn note_issued(&mut self, call: &Call) -> Result<(), AllocError>
        requires { IsSound (as_book self.old) }
        ensures ok { OnOk result
            ((l : Line) (c : KnownCall) → accepted (map_call name_of call.now) ≡ Some c →
            as_book self.new ≡ after (as_book self.old) (Issued l c)) }
        ensures err { OnErr result (as_book self.new ≡ as_book self.old) }
    {
        match started_by(call) {
            Some(b) => self.start(b),
            None => match handed_over_by(call) {
                Some(b) => self.hand_over(b.gtrid),
                None => Ok(()),
            },
        }
    }

    /// The refusal of xa_close.
    fn check_close(&self, thread: u32, rm: u32) -> Result<(), Refusal>
        ensures { result_err result ≡ first_guard
            (call_guards (view_in (as_book self.now)) thread rm Calls.CloseRm) }
    {
        if self.has_unfinished(thread, rm) {
            return Err(Refusal::Busy);
        }
        Ok(())
    }

    /// The refusal of xa_start.
    fn check_start(&self, thread: u32, rm: u32, b: Branch) -> Result<(), Refusal>
        ensures start { result_err result ≡ first_guard
            (call_guards (view_in (as_book self.now)) thread rm (Calls.Start (Ours b) false)) }
        ensures join { result_err result ≡ first_guard
            (call_guards (view_in (as_book self.now)) thread rm (Calls.Start (Ours b) true)) }
    {
        self.check_own(thread, rm, b)?;
        if self.branch(b).is_started {
            return Err(Refusal::AlreadyStarted);
        }
        if self.is_shut(b.gtrid) {
            return Err(Refusal::Decided);
        }
        Ok(())
    }

    /// The refusal of a call on a branch that is its own thread's alone: of xa_end, and the first
    /// of others.
    fn check_own(&self, thread: u32, rm: u32, b: Branch) -> Result<(), Refusal>
        ensures { result_err result ≡ first_guard
            (call_guards (view_in (as_book self.now)) thread rm (Calls.End (Ours b) false)) }
    {
        if !self.is_begun(b.gtrid) {
            return Err(Refusal::UnknownTransaction);
        }
        if rm != b.rm || thread != b.thread {
            return Err(Refusal::WrongThread);
        }
        Ok(())
    }

    /// The refusal of xa_prepare.
    fn check_prepare(&self, thread: u32, rm: u32, b: Branch) -> Result<(), Refusal>
        ensures { result_err result ≡ first_guard
            (call_guards (view_in (as_book self.now)) thread rm (Calls.Prepare (Ours b))) }
    {
        self.check_own(thread, rm, b)?;
        if self.is_shut(b.gtrid) {
            return Err(Refusal::Decided);
        }
        Ok(())
    }

    /// The refusal of xa_commit in one phase.
    fn check_hand_over(&self, thread: u32, rm: u32, b: Branch) -> Result<(), Refusal>
        ensures { result_err result ≡ first_guard
            (call_guards (view_in (as_book self.now)) thread rm (Calls.Commit (Ours b) true)) }
    {
        self.check_prepare(thread, rm, b)?;
        if !self.branch(b).is_started || self.transaction(b.gtrid).branches != 1 {
            return Err(Refusal::Votes);
        }
        Ok(())
    }

    /// The refusal of xa_commit in two phases.
    fn check_commit(&self, rm: u32, b: Branch) -> Result<(), Refusal>
        ensures { (thread : _) →
            result_err result ≡ first_guard
            (call_guards (view_in (as_book self.now)) thread rm (Calls.Commit (Ours b) false)) }
    {
        if !self.is_begun(b.gtrid) && !self.is_outlived(b.gtrid) {
            return Err(Refusal::UnknownTransaction);
        }
        if rm != b.rm {
            return Err(Refusal::WrongThread);
        }
        if !self.has_row(b.gtrid) {
            return Err(Refusal::NotDecided);
        }
        Ok(())
    }

    /// The refusal of xa_rollback.
    fn check_roll_back(&self, rm: u32, b: Branch) -> Result<(), Refusal>
        ensures { (thread : _) →
            result_err result ≡ first_guard
            (call_guards (view_in (as_book self.now)) thread rm (Calls.Rollback (Ours b))) }
    {
        if !self.is_begun(b.gtrid) {
            return Err(Refusal::UnknownTransaction);
        }
        if rm != b.rm {
            return Err(Refusal::WrongThread);
        }
        if !self.transaction(b.gtrid).may_roll_back() {
            return Err(Refusal::NotDecided);
        }
        if self.branch(b).may_still_start() {
            return Err(Refusal::Busy);
        }
        Ok(())
    }

    /// The refusal of xa_forget.
    fn check_forget(&self, rm: u32, b: Branch) -> Result<(), Refusal>
        ensures { (thread : _) →
            result_err result ≡ first_guard
            (call_guards (view_in (as_book self.now)) thread rm (Calls.Forget (Ours b))) }
    {
        if !self.is_begun(b.gtrid) {
            return Err(Refusal::UnknownTransaction);
        }
        if rm != b.rm {
            return Err(Refusal::WrongThread);
        }
        if self.branch(b).recorded.is_none() {
            return Err(Refusal::NotDecided);
        }
        Ok(())
    }
}

/// The branch of this manager that an identifier names. Of any other there is no transaction here.
fn own_branch(xid: &Xid) -> Result<Branch, Refusal>
    ensures own { result_ok result ≡ branch_of_xid xid.now }
    ensures other { IfErr result (λ n. n ≡ UnknownTransaction) }
{
    xid.branch().ok_or(Refusal::UnknownTransaction)
}

/// The refusal of xa_recover: it is the first thread's alone.
fn check_recover(thread: u32) -> Result<(), Refusal>
    ensures { result_err result ≡ (if nat_eq thread 0 then None else Some WrongThread) }
{
    if thread != 0 {
        return Err(Refusal::WrongThread);
    }
    Ok(())
}

/// The branch of this manager that a call starts.
fn started_by(call: &Call) -> Option<Branch>
    ensures { result ≡ branch_started (map_call name_of call.now) }
{
    match call {
        Call::Start { xid, join: true } | Call::Start { xid, join: false } => xid.branch(),
        _ => None,
    }
}

/// The branch of this manager that a call commits in one phase.
fn handed_over_by(call: &Call) -> Option<Branch>
    ensures { result ≡ branch_handed_over (map_call name_of call.now) }
{
    match call {
        Call::Commit {
            xid,
            one_phase: true,
        } => xid.branch(),
        _ => None,
    }
}
