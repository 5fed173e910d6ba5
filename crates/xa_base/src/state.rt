//! What becomes of a branch.
ghost use Rattle.std.specs.Prelude.{◌≡◌};

use crate::How;

/// The state of a branch at its resource manager (XA, chapter 6, State Tables: the states of
/// transaction branches).
#[derive(Clone, Copy, Debug, PartialEq, Eq)]
pub enum BranchState {
    /// Non-existent.
    S0,
    /// Active: work is being done on it.
    S1,
    /// Idle: its work is done.
    S2,
    /// Prepared.
    S3,
    /// Rollback-only.
    S4,
    /// Heuristically completed.
    S5,
}

/// What became of a branch, in words: the name of its state or, if it is in none, its last end.
#[derive(Clone, Copy, Debug, PartialEq, Eq)]
pub enum Fate {
    /// It never was.
    Unstarted,
    Active,
    Idle,
    Prepared,
    RollbackOnly,
    Committed,
    RolledBack,
    /// It was lost with the line on which it was started, before it was prepared.
    Lost,
    /// It voted read-only, and so has no part in the outcome.
    ReadOnly,
    /// Its resource manager ended it by itself, also if that is forgotten since.
    Heuristic(How),
}

/// Where a branch stands: in one of the states or, if it doesn't exist, at its last end. XA's state
/// S0 doesn't tell how a branch ended, so its state and its fate are both read off this.
#[derive(Clone, Copy, Debug, PartialEq, Eq)]
pub enum Standing {
    /// It never was.
    Unstarted,
    Active,
    Idle,
    Prepared,
    RollbackOnly,
    /// Ended by its resource manager alone, which still knows of it.
    Completed(How),
    Committed,
    RolledBack,
    Lost,
    ReadOnly,
    /// Ended by its resource manager alone, which was told to forget it.
    Forgotten(How),
}

impl Standing {
    ghost use Rattle.xa_base.specs.Standing.{branch_state_of, fate_of};

    /// The state of a branch that stands so.
    pub fn state(self) -> BranchState
        ensures { result ≡ branch_state_of self }
    {
        match self {
            Standing::Active => BranchState::S1,
            Standing::Idle => BranchState::S2,
            Standing::Prepared => BranchState::S3,
            Standing::RollbackOnly => BranchState::S4,
            Standing::Completed(_) => BranchState::S5,
            Standing::Unstarted
            | Standing::Committed
            | Standing::RolledBack
            | Standing::Lost
            | Standing::ReadOnly
            | Standing::Forgotten(_) => BranchState::S0,
        }
    }

    /// The fate of a branch that stands so.
    pub fn fate(self) -> Fate
        ensures { result ≡ fate_of self }
    {
        match self {
            Standing::Unstarted => Fate::Unstarted,
            Standing::Active => Fate::Active,
            Standing::Idle => Fate::Idle,
            Standing::Prepared => Fate::Prepared,
            Standing::RollbackOnly => Fate::RollbackOnly,
            Standing::Committed => Fate::Committed,
            Standing::RolledBack => Fate::RolledBack,
            Standing::Lost => Fate::Lost,
            Standing::ReadOnly => Fate::ReadOnly,
            Standing::Completed(how) | Standing::Forgotten(how) => Fate::Heuristic(how),
        }
    }
}
