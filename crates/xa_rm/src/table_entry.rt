//! What is held of one branch, and the branch state table.
ghost use Rattle.std.specs.Prelude.{◌≡◌, ℕ};

use xa_base::{Call, Code, RbCode, Standing, Vote};

/// What a resource manager holds of a branch.
#[derive(Clone, Copy)]
pub(crate) struct TableEntry {
    pub(crate) standing: Standing,
    /// The thread that started it last.
    pub(crate) starter: u32,
    pub(crate) vote: Vote,
    /// How many commits are still put off.
    pub(crate) retries: u32,
}

impl TableEntry {
    ghost use Rattle.xa_base.specs.HeldBranch.{answer_of, called};
    ghost use Rattle.xa_base.specs.StateTable.{Kind, asks_of, broken};
    ghost use Rattle.xa_base.specs.Standing.{is_in_doubt};
    ghost use Rattle.xa_base.specs.Xid.{Xid};
    ghost use Rattle.xa_rm.specs.TableEntries.{held_branch, was_started};
    ghost use Rattle.std.specs.Prelude.{Some};

    /// A branch that nobody has named.
    pub(crate) const NEW: TableEntry = TableEntry {
        standing: Standing::Unstarted,
        starter: 0,
        vote: Vote::Yes,
        retries: 0,
    };

    /// Whether a recovery scan lists the branch.
    pub(crate) fn is_in_doubt(&self) -> bool
        ensures { result ≡ is_in_doubt self.now.standing }
    {
        matches!(self.standing, Standing::Prepared | Standing::Completed(_))
    }

    /// Whether the branch ever was.
    pub(crate) fn was_started(&self) -> bool
        ensures { result ≡ was_started self.now.standing }
    {
        !matches!(self.standing, Standing::Unstarted)
    }

    /// Answers a thread's call that names the branch.
    pub(crate) fn apply(&mut self, thread: u32, call: &Call) -> Code
        ensures answer { (kind : Kind) (x : Xid) → asks_of call.now ≡ Some (kind, x) →
            result ≡ answer_of (held_branch self.old) kind }
        ensures held { (kind : Kind) (x : Xid) → asks_of call.now ≡ Some (kind, x) →
            held_branch self.new ≡ called thread kind (held_branch self.old) }
    {
        match call {
            Call::Start { join: false, .. } => self.start(thread),
            Call::Start { join: true, .. } => self.misplaced(),
            Call::End { fail, .. } => self.end(*fail),
            Call::Prepare { .. } => self.prepare(),
            Call::Commit {
                one_phase: false,
                ..
            } => self.commit(),
            Call::Commit {
                one_phase: true,
                ..
            } => self.commit_one_phase(),
            Call::Rollback { .. } => self.rollback(),
            Call::Forget { .. } => self.forget(),
            Call::OpenRm | Call::CloseRm | Call::Recover { .. } => Code::Success,
        }
    }

    /// The branch after a break of the line on which it was started.
    pub(crate) fn break_line(&mut self)
        ensures { self.new ≡ record self.old { standing = broken self.old.standing } }
    {
        match self.standing {
            Standing::Active | Standing::Idle | Standing::RollbackOnly => {
                self.standing = Standing::Lost;
            }
            _ => {}
        }
    }

    /// The answer in a state in which the call can't be made: XAER_NOTA if there is no branch, else
    /// XAER_PROTO.
    fn misplaced(&self) -> Code
        ensures { result ≡ answer_of (held_branch self.now) Kind.Join }
    {
        match self.standing {
            Standing::Active
            | Standing::Idle
            | Standing::Prepared
            | Standing::RollbackOnly
            | Standing::Completed(_) => Code::Protocol,
            Standing::Unstarted
            | Standing::Committed
            | Standing::RolledBack
            | Standing::Lost
            | Standing::ReadOnly
            | Standing::Forgotten(_) => Code::NotAnXid,
        }
    }

    /// xa_start, without TMJOIN.
    fn start(&mut self, thread: u32) -> Code
        ensures answer { result ≡ answer_of (held_branch self.old) Kind.Start }
        ensures held { held_branch self.new ≡ called thread Kind.Start (held_branch self.old) }
    {
        match self.standing {
            Standing::Unstarted
            | Standing::Committed
            | Standing::RolledBack
            | Standing::Lost
            | Standing::ReadOnly
            | Standing::Forgotten(_) => {
                self.standing = Standing::Active;
                self.starter = thread;
                Code::Success
            }
            Standing::Active
            | Standing::Idle
            | Standing::Prepared
            | Standing::RollbackOnly
            | Standing::Completed(_) => Code::DuplicateXid,
        }
    }

    /// xa_end, with TMFAIL or TMSUCCESS.
    fn end(&mut self, fail: bool) -> Code
        ensures answer { result ≡ answer_of (held_branch self.old) (Kind.End fail) }
        ensures held { (thread : ℕ) →
            held_branch self.new ≡ called thread (Kind.End fail) (held_branch self.old) }
    {
        match (self.standing, fail) {
            (Standing::Active, false) => self.go(Standing::Idle, Code::Success),
            (Standing::Active, true) => self.go(
                Standing::RollbackOnly,
                Code::RolledBack(RbCode::Rollback),
            ),
            _ => self.misplaced(),
        }
    }

    /// xa_prepare, answered by the vote.
    fn prepare(&mut self) -> Code
        ensures answer { result ≡ answer_of (held_branch self.old) Kind.Prepare }
        ensures held { (thread : ℕ) →
            held_branch self.new ≡ called thread Kind.Prepare (held_branch self.old) }
    {
        match (self.standing, self.vote) {
            (Standing::Idle, Vote::Yes) => self.go(Standing::Prepared, Code::Success),
            (Standing::Idle, Vote::ReadOnly) => self.go(Standing::ReadOnly, Code::ReadOnly),
            (Standing::Idle, Vote::No(code)) => self.go(
                Standing::RolledBack,
                Code::RolledBack(code),
            ),
            _ => self.misplaced(),
        }
    }

    /// xa_commit, without TMONEPHASE. While retries are left it uses up one of them.
    fn commit(&mut self) -> Code
        ensures answer { result ≡ answer_of (held_branch self.old) Kind.Commit }
        ensures held { (thread : ℕ) →
            held_branch self.new ≡ called thread Kind.Commit (held_branch self.old) }
    {
        match self.standing {
            Standing::Prepared if self.retries == 0 => self.go(Standing::Committed, Code::Success),
            Standing::Prepared => {
                self.retries -= 1;
                Code::Retry
            }
            Standing::Completed(how) => Code::Heuristic(how),
            _ => self.misplaced(),
        }
    }

    /// xa_commit with TMONEPHASE, answered by the vote.
    fn commit_one_phase(&mut self) -> Code
        ensures answer { result ≡ answer_of (held_branch self.old) Kind.OnePhase }
        ensures held { (thread : ℕ) →
            held_branch self.new ≡ called thread Kind.OnePhase (held_branch self.old) }
    {
        match (self.standing, self.vote) {
            (Standing::Idle, Vote::No(code)) => self.go(
                Standing::RolledBack,
                Code::RolledBack(code),
            ),
            (Standing::Idle, Vote::Yes | Vote::ReadOnly) => self.go(
                Standing::Committed,
                Code::Success,
            ),
            (Standing::Completed(how), _) => Code::Heuristic(how),
            _ => self.misplaced(),
        }
    }

    /// xa_rollback.
    fn rollback(&mut self) -> Code
        ensures answer { result ≡ answer_of (held_branch self.old) Kind.Rollback }
        ensures held { (thread : ℕ) →
            held_branch self.new ≡ called thread Kind.Rollback (held_branch self.old) }
    {
        match self.standing {
            Standing::Idle | Standing::Prepared => self.go(Standing::RolledBack, Code::Success),
            Standing::RollbackOnly => self.go(
                Standing::RolledBack,
                Code::RolledBack(RbCode::Rollback),
            ),
            Standing::Completed(how) => Code::Heuristic(how),
            _ => self.misplaced(),
        }
    }

    /// xa_forget. The fate of the branch stays heuristic.
    fn forget(&mut self) -> Code
        ensures answer { result ≡ answer_of (held_branch self.old) Kind.Forget }
        ensures held { (thread : ℕ) →
            held_branch self.new ≡ called thread Kind.Forget (held_branch self.old) }
    {
        match self.standing {
            Standing::Completed(how) => self.go(Standing::Forgotten(how), Code::Success),
            _ => self.misplaced(),
        }
    }

    /// The branch stands so from now on, and the call is answered so.
    fn go(&mut self, standing: Standing, code: Code) -> Code
        ensures answer { result ≡ code }
        ensures held { self.new ≡ record self.old { standing = standing } }
    {
        self.standing = standing;
        code
    }
}
