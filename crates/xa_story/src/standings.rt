//! Where the branches stand.

ghost use Rattle.std.specs.Prelude.{◌≡◌, []};
ghost use Rattle.xa_base.specs.StateTable.{Kind.Start, after_end, after_prepare, broken, moved};
ghost use Rattle.xa_base.specs.declared.code.Code.{Code};
ghost use Rattle.xa_story.specs.Standings.{committed_or, standing_after_answer};

use crate::waits::breaks;
use std::alloc::Global;
use xa_base::{Answer, Branch, Call, Code, Memory, Part, Standing};

/// A branch, and where it stands now.
#[derive(Clone, Copy, Debug, PartialEq, Eq)]
pub struct Move {
    pub branch: Branch,
    pub standing: Standing,
}

/// Where a branch stands after a call on it was answered, by the branch state table (XA, chapter 6,
/// State Tables).
fn standing_after(before: Standing, call: &Call, code: Code) -> Standing
    ensures { result ≡ standing_after_answer before call.now code }
{
    match (before, call) {
        (Standing::Active, Call::End { .. }) => after_end(code),
        (Standing::Idle, Call::Prepare { .. }) => after_prepare(code),
        (
            Standing::Idle,
            Call::Commit {
                one_phase: true,
                ..
            },
        ) => after_commit(code, Standing::RolledBack),
        (
            Standing::Prepared,
            Call::Commit {
                one_phase: false,
                ..
            },
        ) => after_commit(code, Standing::Prepared),
        (Standing::Idle | Standing::Prepared | Standing::RollbackOnly, Call::Rollback { .. }) =>
            Standing::RolledBack,
        (Standing::Completed(how), Call::Forget { .. }) => Standing::Forgotten(how),
        (before, Call::Start { join: false, .. }) => after_start(before),
        (before, _) => before,
    }
}

fn after_start(before: Standing) -> Standing
    ensures { (code : Code) → result ≡ moved before Start code }
{
    match before {
        Standing::Active
        | Standing::Idle
        | Standing::Prepared
        | Standing::RollbackOnly
        | Standing::Completed(_) => before,
        _ => Standing::Active,
    }
}

fn after_end(code: Code) -> Standing
    ensures { result ≡ after_end code }
{
    match code {
        Code::RolledBack(_) => Standing::RollbackOnly,
        _ => Standing::Idle,
    }
}

fn after_prepare(code: Code) -> Standing
    ensures { result ≡ after_prepare code }
{
    match code {
        Code::Success => Standing::Prepared,
        Code::ReadOnly => Standing::ReadOnly,
        _ => Standing::RolledBack,
    }
}

fn after_commit(code: Code, otherwise: Standing) -> Standing
    ensures { result ≡ committed_or otherwise code }
{
    match code {
        Code::Success => Standing::Committed,
        _ => otherwise,
    }
}

/// Where a branch stands after the line broke on which it was started.
fn after_break(before: Standing) -> Standing
    ensures { result ≡ broken before }
{
    match before {
        Standing::Active | Standing::Idle | Standing::RollbackOnly => Standing::Lost,
        _ => before,
    }
}

/// Where each branch stands that did anything.
#[derive(Drop)]
pub struct Standings {
    moves: Vec<Move>,
}

impl Standings {
    /// No branch did anything.
    pub fn new(alloc: Global) -> Standings
        ensures { result.moves.items ≡ [] }
    {
        Standings {
            moves: Vec::new(alloc),
        }
    }

    /// Where a branch stands.
    pub fn standing(&self, branch: Branch) -> Standing {
        match self.moves.iter().find(|known| known.branch == branch) {
            Some(known) => known.standing,
            None => Standing::Unstarted,
        }
    }

    /// The branch stands there now.
    pub fn set(&mut self, branch: Branch, standing: Standing) -> Result<(), Memory> {
        for known in self.moves.iter_mut() {
            if known.branch == branch {
                known.standing = standing;
                return Ok(());
            }
        }
        Ok(self.moves.push(Move { branch, standing })?)
    }

    /// A resource manager took a call and answered. Tells where the branch goes, if it goes
    /// anywhere.
    pub fn answer(&mut self, call: &Call, answer: &Answer) -> Result<Option<Move>, Memory> {
        let Answer::Ret(code) = answer else {
            return Ok(None);
        };
        let Some(xid) = call.xid() else {
            return Ok(None);
        };
        let Some(branch) = xid.branch() else {
            return Ok(None);
        };
        let before = self.standing(branch);
        let standing = standing_after(before, call, *code);
        if standing == before {
            return Ok(None);
        }
        self.set(branch, standing)?;
        Ok(Some(Move { branch, standing }))
    }

    /// A part crashes. Tells which branches are lost with the lines that break.
    pub fn lose(&mut self, alloc: Global, part: Part) -> Result<Vec<Move>, Memory> {
        let mut lost = Vec::new(alloc);
        for known in self.moves.iter_mut() {
            let standing = after_break(known.standing);
            if standing != known.standing && breaks(part, known.branch.thread, known.branch.rm) {
                known.standing = standing;
                lost.push(*known)?;
            }
        }
        Ok(lost)
    }
}
