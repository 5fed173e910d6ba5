//! How far a branch has come.

ghost use Rattle.std.specs.Prelude.{◌≡◌};
ghost use Rattle.xa_conduct.specs.NotStuck.{may_be_undone};
ghost use Rattle.xa_conduct.specs.Places.{is_asked};
ghost use Rattle.xa_conduct.specs.Texts.{verb_at};

/// How far a branch has come: which of its calls wait on its line, and so, which one its driver was told to make.
#[derive(Clone, Copy, Debug, PartialEq, Eq)]
pub(crate) enum Place {
    /// Work goes on; no call waits.
    Working,
    /// xa_end and xa_prepare wait.
    Preparing,
    /// xa_end and an xa_commit in one phase wait.
    AtOnce,
    /// It voted yes; no call waits.
    Prepared,
    /// xa_commit waits.
    Committing,
    /// xa_rollback waits.
    RollingBack,
    /// xa_end and xa_rollback wait.
    Undoing,
    /// xa_end and xa_prepare wait, and it is rolled back: xa_prepare is answered by a no.
    Refusing,
    /// It ended by itself; xa_forget waits.
    Forgetting,
    /// It is over.
    Over,
    /// Its end is left to the recovery.
    Owed,
}

impl Place {
    /// Whether the driver was told to make a call.
    pub fn is_asked(self) -> bool
        ensures { result ≡ is_asked self }
    {
        match self {
            Place::Preparing
            | Place::AtOnce
            | Place::Committing
            | Place::RollingBack
            | Place::Undoing
            | Place::Refusing
            | Place::Forgetting => true,
            Place::Working | Place::Prepared | Place::Over | Place::Owed => false,
        }
    }

    /// Whether its transaction may still be rolled back by its program: no call was told by which it is ended.
    pub fn may_be_undone(self) -> bool
        ensures { result ≡ may_be_undone self }
    {
        match self {
            Place::AtOnce
            | Place::Committing
            | Place::RollingBack
            | Place::Undoing
            | Place::Refusing
            | Place::Forgetting => false,
            Place::Working | Place::Preparing | Place::Prepared | Place::Over | Place::Owed => true,
        }
    }

    /// The word of the call that is told.
    pub fn verb(self) -> &'static str
        ensures { result.now ≡ verb_at self }
    {
        match self {
            Place::Preparing => "prepare",
            Place::AtOnce => "commit-at-once",
            Place::Committing => "commit",
            Place::RollingBack => "rollback",
            Place::Undoing | Place::Refusing => "undo",
            Place::Forgetting => "forget",
            Place::Working | Place::Prepared | Place::Over | Place::Owed => "",
        }
    }
}
