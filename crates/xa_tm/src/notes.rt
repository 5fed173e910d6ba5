//! What the manager notes of a transaction and of a branch.

ghost use Rattle.std.specs.Prelude.{◌≡◌, ◌<◌, ◌+◌, ◌-◌, ◌^◌, false, not, is_some, ◌&&◌, ◌||◌, if◌then◌else◌, Option};
ghost use Rattle.std.specs.Prelude.{Some};
ghost use Rattle.xa_tm.specs.News.{found_ended, notes_with};
ghost use Rattle.xa_tm.specs.Outcomes.{is_commit, is_rollback};

use crate::news::News;
use xa_base::{How, Outcome};

/// What is noted of a transaction.
#[derive(Clone, Copy, PartialEq, Eq)]
pub(crate) struct Transaction {
    /// It was begun, and is not released.
    pub is_begun: bool,
    /// How it was decided.
    pub outcome: Option<Outcome>,
    /// Its one branch was told to commit in one phase, so that the outcome is its resource
    /// manager's.
    pub is_handed_over: bool,
    /// It was claimed and isn't decided yet. A claim ends with the incarnation.
    pub is_claimed: bool,
    /// A branch voted XA_OK.
    pub has_yes: bool,
    /// How many branches it has.
    pub branches: u64,
    /// How many of them have not voted for commit.
    pub unvoted: u64,
    /// How many of them are not settled.
    pub unsettled: u64,
}

/// What is noted of a branch.
#[derive(Clone, Copy, Debug, PartialEq, Eq)]
pub(crate) struct BranchNotes {
    /// An xa_start was accepted.
    pub is_started: bool,
    /// And its line hasn't broken since.
    pub is_on_line: bool,
    /// An answer to an xa_start was heard.
    pub start_is_answered: bool,
    /// XA_OK to an xa_prepare was heard.
    pub said_yes: bool,
    /// XA_RDONLY to an xa_prepare was heard.
    pub said_read_only: bool,
    /// XA_OK or XAER_NOTA to an xa_commit was heard.
    pub is_acknowledged: bool,
    /// And that since the manager came up.
    pub is_acknowledged_lately: bool,
    /// An answer was heard after which the manager owes it nothing more.
    pub is_finished: bool,
    /// How its resource manager ended it by itself, as the log has it.
    pub recorded: Option<How>,
}

impl Transaction {
    /// A transaction of which nothing is noted.
    pub(crate) const NEW: Transaction = Transaction {
        is_begun: false,
        outcome: None,
        is_handed_over: false,
        is_claimed: false,
        has_yes: false,
        branches: 0,
        unvoted: 0,
        unsettled: 0,
    };

    /// With one branch more, which has voted and is settled, or hasn't and isn't.
    pub(crate) fn with_branch(self, has_voted: bool, is_settled: bool) -> Transaction
        requires branches { self.branches < 2 ^ 64 - 1 }
        requires unvoted { self.unvoted < 2 ^ 64 - 1 }
        requires unsettled { self.unsettled < 2 ^ 64 - 1 }
        ensures { result ≡ record self {
          branches = self.branches + 1;
          unvoted = if has_voted then self.unvoted else self.unvoted + 1;
          unsettled = if is_settled then self.unsettled else self.unsettled + 1;
        } }
    {
        let unvoted = if has_voted {
            self.unvoted
        } else {
            self.unvoted + 1
        };
        let unsettled = if is_settled {
            self.unsettled
        } else {
            self.unsettled + 1
        };
        Transaction {
            branches: self.branches + 1,
            unvoted,
            unsettled,
            ..self
        }
    }

    /// After an answer of a branch, by what it newly says.
    pub(crate) fn with_answer(self, is_yes: bool, votes: bool, settles: bool) -> Transaction
        ensures { result ≡ record self {
          has_yes = is_yes || self.has_yes;
          unvoted = if votes then self.unvoted - 1 else self.unvoted;
          unsettled = if settles then self.unsettled - 1 else self.unsettled;
        } }
    {
        let unvoted = if votes {
            self.unvoted.saturating_sub(1)
        } else {
            self.unvoted
        };
        let unsettled = if settles {
            self.unsettled.saturating_sub(1)
        } else {
            self.unsettled
        };
        Transaction {
            has_yes: is_yes || self.has_yes,
            unvoted,
            unsettled,
            ..self
        }
    }

    /// Decided, which ends its claim.
    pub(crate) fn decided(self, outcome: Outcome) -> Transaction
        ensures { result ≡ record self { outcome = Some outcome; is_claimed = false } }
    {
        Transaction {
            outcome: Some(outcome),
            is_claimed: false,
            ..self
        }
    }

    /// Whether a decision writes a row: a commit that some branch voted XA_OK for.
    pub(crate) fn adds_row(self, outcome: Outcome) -> bool
        ensures { result ≡ (is_commit (Some outcome) && self.has_yes) }
    {
        match outcome {
            Outcome::Commit => self.has_yes,
            Outcome::Rollback => false,
        }
    }

    /// Its branches may be rolled back: it is decided so, or its resource manager's to end.
    pub(crate) fn may_roll_back(self) -> bool
        ensures { result ≡ (is_rollback self.outcome || self.is_handed_over) }
    {
        matches!(self.outcome, Some(Outcome::Rollback)) || self.is_handed_over
    }

    /// Neither claimed, committed nor handed over, so that it may be rolled back.
    pub(crate) fn is_open(self) -> bool
        ensures { result ≡ not (self.is_claimed
            || (is_commit self.outcome || self.is_handed_over)) }
    {
        !(self.is_claimed || matches!(self.outcome, Some(Outcome::Commit)) || self.is_handed_over)
    }

    /// Decided or handed over in this incarnation.
    pub(crate) fn is_over(self) -> bool
        ensures { result ≡ (is_commit self.outcome
            || (is_rollback self.outcome || self.is_handed_over)) }
    {
        self.outcome.is_some() || self.is_handed_over
    }
}

impl BranchNotes {
    /// A branch of which nothing is noted.
    pub(crate) const NEW: BranchNotes = BranchNotes {
        is_started: false,
        is_on_line: false,
        start_is_answered: false,
        said_yes: false,
        said_read_only: false,
        is_acknowledged: false,
        is_acknowledged_lately: false,
        is_finished: false,
        recorded: None,
    };

    /// Its xa_start may still be taken: it waits, or its answer does.
    pub(crate) fn may_still_start(self) -> bool
        ensures { result ≡ (self.is_on_line && not self.start_is_answered) }
    {
        self.is_on_line && !self.start_is_answered
    }

    /// It voted for commit.
    pub(crate) fn has_voted(self) -> bool
        ensures { result ≡ (self.said_yes || self.said_read_only) }
    {
        self.said_yes || self.said_read_only
    }

    /// It is settled: recorded, or by an answer of its own.
    pub(crate) fn is_settled(self) -> bool
        ensures { result ≡ (is_some self.recorded
            || (self.said_read_only || self.is_acknowledged)) }
    {
        self.recorded.is_some() || self.said_read_only || self.is_acknowledged
    }

    /// It is settled, and if not by its record then since the manager came up.
    pub(crate) fn is_settled_lately(self) -> bool
        ensures { result ≡ (is_some self.recorded || self.is_acknowledged_lately) }
    {
        self.recorded.is_some() || self.is_acknowledged_lately
    }

    /// Something may still come of it: its last answer, or what its record asks for.
    pub(crate) fn is_owed(self) -> bool
        ensures { result ≡ ((self.is_started && not self.is_finished) || is_some self.recorded) }
    {
        (self.is_started && !self.is_finished) || self.recorded.is_some()
    }

    /// It has still to vote for commit.
    pub(crate) fn lacks_vote(self) -> bool
        ensures { result ≡ (self.is_started && not (self.said_yes || self.said_read_only)) }
    {
        self.is_started && !self.has_voted()
    }

    /// It has still to be settled.
    pub(crate) fn is_unsettled(self) -> bool
        ensures { result ≡ (self.is_started
            && not (is_some self.recorded || (self.said_read_only || self.is_acknowledged))) }
    {
        self.is_started && !self.is_settled()
    }

    /// The news are its first vote for commit.
    pub(crate) fn first_votes(self, news: News) -> bool
        ensures { result ≡ ((news.says_yes || news.says_read_only)
            && (self.is_started && not (self.said_yes || self.said_read_only))) }
    {
        news.votes() && self.lacks_vote()
    }

    /// The news settle it first.
    pub(crate) fn first_settles(self, news: News) -> bool
        ensures { result ≡ ((is_some news.how || (news.says_read_only || news.acknowledges))
            && (self.is_started && not
            (is_some self.recorded || (self.said_read_only || self.is_acknowledged)))) }
    {
        news.settles() && self.is_unsettled()
    }

    /// The news record it first.
    pub(crate) fn first_records(self, news: News) -> bool
        ensures { result ≡ (is_some news.how && not (is_some self.recorded)) }
    {
        news.how.is_some() && self.recorded.is_none()
    }

    /// Recorded so, if it wasn't recorded.
    pub(crate) fn found_ended(self, how: How) -> BranchNotes
        ensures { result ≡ found_ended how self }
    {
        BranchNotes {
            recorded: self.recorded.or(Some(how)),
            ..self
        }
    }

    /// With an answer more. The first record stays.
    pub(crate) fn with(self, news: News) -> BranchNotes
        ensures { result ≡ notes_with news self }
    {
        BranchNotes {
            start_is_answered: news.answers_start || self.start_is_answered,
            said_yes: news.says_yes || self.said_yes,
            said_read_only: news.says_read_only || self.said_read_only,
            is_acknowledged: news.acknowledges || self.is_acknowledged,
            is_acknowledged_lately: news.acknowledges || self.is_acknowledged_lately,
            is_finished: news.finishes || self.is_finished,
            recorded: self.recorded.or(news.how),
            ..self
        }
    }
}
