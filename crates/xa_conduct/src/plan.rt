//! Requests that are to be done in turn.

ghost use Rattle.std.specs.List.{list_all, list_any};
ghost use Rattle.std.specs.Prelude.{◌≡◌, ◌+◌, ◌≤◌, ◌++◌, ◌∷◌, [], length, Bool, true, IfOk, Some};
ghost use Rattle.xa_base.specs.Branch.{branch_of_xid, xid_of_branch};
ghost use Rattle.xa_base.specs.declared.branch.Gtrid.{Gtrid};
ghost use Rattle.xa_base.specs.declared.call.CallKind.{CallKind};
ghost use Rattle.xa_base.specs.declared.code.Code.{Code};
ghost use Rattle.xa_base.specs.declared.step.Outcome.TheVariants as Outcomes;
ghost use Rattle.xa_conduct.specs.Backing.{asks_at_once, asks_commit, asks_forget, asks_prepare};
ghost use Rattle.xa_conduct.specs.Backing.{asks_rollback, loses, tells_code};
ghost use Rattle.xa_conduct.specs.Decided.{AsksNoLess, CommitIsAsked, is_rollback_of, is_same};
ghost use Rattle.xa_conduct.specs.Plain.{ArePlain, is_gtrid, is_on_branch, is_own, is_plain, is_plain_call};
ghost use Rattle.xa_requests.specs.declared.request.Request.TheVariants as Requests;

use std::alloc::{AllocError, Global};
use xa_base::{Answer, Branch, Call, CallKind, Code, Gtrid, Outcome, Xid};
use xa_requests::{CallName, Gtrids, Request};

/// Requests, in the order in which they are to be done.
#[derive(Drop)]
pub(crate) struct Plan {
    alloc: Global,
    requests: Vec<Request>,
    ghost plain: { ArePlain requests.items },
}

/// The identifier of a branch.
pub(crate) fn name_of(branch: Branch) -> Xid
    ensures own { is_own result ≡ true }
    ensures branch { result ≡ xid_of_branch branch }
    ensures found { branch_of_xid result ≡ Some branch }
{
    branch.xid()
}

/// Adds a transaction.
fn add_gtrid(copy: &mut Vec<Gtrid>, gtrid: Gtrid) -> Result<(), AllocError>
    requires { list_all is_gtrid copy.old.items ≡ true }
    ensures fit { IfOk result (λ _. list_all is_gtrid copy.new.items ≡ true) }
    ensures added { IfOk result (λ _. copy.new.items ≡ copy.old.items ++ gtrid ∷ []) }
{
    copy.push(gtrid)?;
    Ok(())
}

/// The same transactions.
fn copy_of(alloc: Global, gtrids: &[Gtrid]) -> Result<Vec<Gtrid>, AllocError>
    ensures fit { IfOk result (λ copy. list_all is_gtrid copy.items ≡ true) }
    ensures same { IfOk result (λ copy. copy.items ≡ gtrids.now) }
{
    let mut copy = Vec::with_capacity(alloc, gtrids.len())?;
    for gtrid in gtrids {
        add_gtrid(&mut copy, *gtrid)?;
    }
    Ok(copy)
}

impl Plan {
    /// Nothing is to be done yet.
    pub fn new(alloc: Global) -> Plan
        ensures { result.requests.items ≡ [] }
    {
        Plan {
            alloc,
            requests: Vec::new(alloc),
        }
    }

    pub fn requests(&self) -> &[Request]
        ensures plain { ArePlain result.now }
        ensures same { result.now ≡ self.now.requests.items }
    {
        self.requests.as_slice()
    }

    fn add(&mut self, request: Request) -> Result<(), AllocError>
        requires { is_plain request ≡ true }
        ensures added { IfOk result (λ _.
            self.new.requests.items ≡ self.old.requests.items ++ request ∷ []) }
        ensures more { IfOk result (λ _.
            AsksNoLess self.old.requests.items self.new.requests.items) }
    {
        self.requests.push(request)?;
        Ok(())
    }

    /// A transaction of the thread begins.
    pub fn begin(&mut self, thread: u32) -> Result<(), AllocError>
        ensures { IfOk result (λ _.
            AsksNoLess self.old.requests.items self.new.requests.items) }
    {
        self.add(Request::Begin { thread })?;
        Ok(())
    }

    /// The line of a thread opens: there is a connection.
    pub fn open(&mut self, thread: u32, rm: u32) -> Result<(), AllocError>
        ensures { IfOk result (λ _.
            AsksNoLess self.old.requests.items self.new.requests.items) }
    {
        self.add(Request::Issue {
            thread,
            rm,
            call: Call::OpenRm,
        })?;
        self.add(Request::Answer {
            thread,
            rm,
            name: CallName {
                kind: CallKind::OpenRm,
                xid: None,
            },
            answer: Answer::Ret(Code::Success),
        })?;
        Ok(())
    }

    /// A call waits on the line of the branch.
    fn issue(&mut self, branch: Branch, call: Call) -> Result<(), AllocError>
        requires { is_plain_call call ≡ true }
        ensures added { IfOk result (λ _. self.new.requests.items
            ≡ self.old.requests.items ++ Requests.Issue branch.thread branch.rm call ∷ []) }
        ensures more { IfOk result (λ _.
            AsksNoLess self.old.requests.items self.new.requests.items) }
    {
        self.add(Request::Issue {
            thread: branch.thread,
            rm: branch.rm,
            call,
        })?;
        Ok(())
    }

    /// The call of this kind on the branch, which waits first on its line, was answered so.
    pub fn answer(&mut self, branch: Branch, kind: CallKind, code: Code) -> Result<(), AllocError>
        requires { is_on_branch kind ≡ true }
        ensures more { IfOk result (λ _.
            AsksNoLess self.old.requests.items self.new.requests.items) }
        ensures told { IfOk result (λ _. (are_so : CallKind → Code → Bool) →
            are_so kind code ≡ true →
            list_any (tells_code are_so branch) self.new.requests.items ≡ true) }
    {
        self.add(Request::Answer {
            thread: branch.thread,
            rm: branch.rm,
            name: CallName {
                kind,
                xid: Some(name_of(branch)),
            },
            answer: Answer::Ret(code),
        })?;
        Ok(())
    }

    /// The branch began.
    pub fn start(&mut self, branch: Branch) -> Result<(), AllocError>
        ensures { IfOk result (λ _.
            AsksNoLess self.old.requests.items self.new.requests.items) }
    {
        self.issue(
            branch,
            Call::Start {
                xid: name_of(branch),
                join: false,
            },
        )?;
        self.answer(branch, CallKind::Start, Code::Success)?;
        Ok(())
    }

    /// Its work is to end.
    pub fn issue_end(&mut self, branch: Branch) -> Result<(), AllocError>
        ensures { IfOk result (λ _.
            AsksNoLess self.old.requests.items self.new.requests.items) }
    {
        self.issue(
            branch,
            Call::End {
                xid: name_of(branch),
                fail: false,
            },
        )?;
        Ok(())
    }

    pub fn issue_prepare(&mut self, branch: Branch) -> Result<(), AllocError>
        ensures more { IfOk result (λ _.
            AsksNoLess self.old.requests.items self.new.requests.items) }
        ensures asked { IfOk result (λ _.
            list_any (asks_prepare branch) self.new.requests.items ≡ true) }
    {
        self.issue(
            branch,
            Call::Prepare {
                xid: name_of(branch),
            },
        )?;
        Ok(())
    }

    /// It is to be committed in two phases: behind a decision of this plan.
    pub fn issue_commit(&mut self, branch: Branch) -> Result<(), AllocError>
        requires { CommitIsAsked self.old.requests.items branch.gtrid }
        ensures more { IfOk result (λ _.
            AsksNoLess self.old.requests.items self.new.requests.items) }
        ensures asked { IfOk result (λ _.
            list_any (asks_commit branch) self.new.requests.items ≡ true) }
    {
        self.issue(
            branch,
            Call::Commit {
                xid: name_of(branch),
                one_phase: false,
            },
        )?;
        Ok(())
    }

    pub fn issue_commit_at_once(&mut self, branch: Branch) -> Result<(), AllocError>
        ensures more { IfOk result (λ _.
            AsksNoLess self.old.requests.items self.new.requests.items) }
        ensures asked { IfOk result (λ _.
            list_any (asks_at_once branch) self.new.requests.items ≡ true) }
    {
        self.issue(
            branch,
            Call::Commit {
                xid: name_of(branch),
                one_phase: true,
            },
        )?;
        Ok(())
    }

    pub fn issue_rollback(&mut self, branch: Branch) -> Result<(), AllocError>
        ensures more { IfOk result (λ _.
            AsksNoLess self.old.requests.items self.new.requests.items) }
        ensures asked { IfOk result (λ _.
            list_any (asks_rollback branch) self.new.requests.items ≡ true) }
    {
        self.issue(
            branch,
            Call::Rollback {
                xid: name_of(branch),
            },
        )?;
        Ok(())
    }

    pub fn issue_forget(&mut self, branch: Branch) -> Result<(), AllocError>
        ensures more { IfOk result (λ _.
            AsksNoLess self.old.requests.items self.new.requests.items) }
        ensures asked { IfOk result (λ _.
            list_any (asks_forget branch) self.new.requests.items ≡ true) }
    {
        self.issue(
            branch,
            Call::Forget {
                xid: name_of(branch),
            },
        )?;
        Ok(())
    }

    /// Its work has ended.
    pub fn ended(&mut self, branch: Branch) -> Result<(), AllocError>
        ensures { IfOk result (λ _.
            AsksNoLess self.old.requests.items self.new.requests.items) }
    {
        self.answer(branch, CallKind::End, Code::Success)?;
        Ok(())
    }

    /// Its line is lost.
    pub fn lose(&mut self, branch: Branch) -> Result<(), AllocError>
        ensures more { IfOk result (λ _.
            AsksNoLess self.old.requests.items self.new.requests.items) }
        ensures asked { IfOk result (λ _.
            list_any (loses branch) self.new.requests.items ≡ true) }
    {
        self.add(Request::CrashLine {
            thread: branch.thread,
            rm: branch.rm,
        })?;
        Ok(())
    }

    /// These transactions are decided so, if there are some.
    pub fn decide(&mut self, gtrids: &[Gtrid], outcome: Outcome) -> Result<(), AllocError>
        requires { length gtrids.now ≤ 1024 }
        ensures more { IfOk result (λ _.
            AsksNoLess self.old.requests.items self.new.requests.items) }
        ensures commits { IfOk result (λ _. outcome ≡ Outcomes.Commit → (g : Gtrid) →
            list_any (is_same g) gtrids.now ≡ true → CommitIsAsked self.new.requests.items g) }
        ensures rolls_back { IfOk result (λ _. outcome ≡ Outcomes.Rollback → (g : Gtrid) →
            list_any (is_same g) gtrids.now ≡ true →
            list_any (is_rollback_of g) self.new.requests.items ≡ true) }
    {
        if gtrids.is_empty() {
            return Ok(());
        }
        let gtrids = copy_of(self.alloc, gtrids)?;
        self.add(Request::Decide {
            gtrids: Gtrids::new(gtrids),
            outcome,
        })?;
        Ok(())
    }

    /// The rows of these leave the log, if there are some.
    pub fn done(&mut self, gtrids: &[Gtrid]) -> Result<(), AllocError>
        requires { length gtrids.now ≤ 1024 }
        ensures { IfOk result (λ _.
            AsksNoLess self.old.requests.items self.new.requests.items) }
    {
        if gtrids.is_empty() {
            return Ok(());
        }
        let gtrids = copy_of(self.alloc, gtrids)?;
        self.add(Request::Done {
            gtrids: Gtrids::new(gtrids),
        })?;
        Ok(())
    }
}
