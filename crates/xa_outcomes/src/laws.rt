//! What is so after all sessions. These functions do nothing: each contract is a theorem.

ghost use Rattle.xa_outcomes.specs.Outcomes.{DecidedWillCommit, FoundWillCommit, HeuristicEndsStay};
ghost use Rattle.xa_outcomes.specs.Outcomes.{NeverDecidedIsNeverCommitted, UndecidedIsUncommitted};
ghost use Rattle.xa_outcomes.specs.Parts.{SessionsAreParts};
ghost use Rattle.xa_outcomes.specs.Recovered.{ServedRecoveriesComplete};
ghost use Rattle.xa_outcomes.specs.Served.{FoundRowsWillCommit, NeverToldIsNeverCommitted, OwedAreLogged};
ghost use Rattle.xa_outcomes.specs.Served.{OwedTellsOfRows, ServedSessionsAreParts, ToldDecidedWillCommit};
ghost use Rattle.xa_outcomes.specs.Served.{ToldHeuristicEndsStay, UntoldIsLeftUndecided};
ghost use Rattle.xa_outcomes.specs.ServedTransactions.{ServedCommitRowStays, ServedCommitStands};
ghost use Rattle.xa_outcomes.specs.ServedTransactions.{ServedHandedOverIsAlone};
ghost use Rattle.xa_outcomes.specs.ServedTransactions.{ServedRollbackStands};

use xa_log::DecisionLog;
use xa_server::laws::heard_ends_stay;
use xa_session::laws::{sessions_are_explained, starts_find_the_log, waiting_calls_are_tracked};
use xa_tm::laws::starts_are_histories;

/// Of sessions one after another there is one right history, and each of them is a part of it, in
/// their order: after what was seen in a session comes what wasn't told of it, calls that were done
/// and lines that broke, and the step in which its log failed, if it did.
pub fn sessions_are_parts()
    ensures { SessionsAreParts }
{}

/// What a session decided, and what none decided, is so after all sessions, over databases that
/// obey the branch state table.
///
/// - `never`: a transaction that none of them decided to commit, nor was left in a decision of, nor
///   asked to commit in one phase, has no branch that is committed;
/// - `decided`: a branch that voted XA_OK before one of them decided to commit its transaction is
///   committed, or stands prepared still, or its database ended it by itself. No branch of the
///   transaction is ever rolled back or lost, and its row is there as long as one stands prepared;
/// - `found`: the same of a branch that voted XA_OK in a session before one that found the row of
///   its transaction;
/// - `so_far`: if none of them decided a transaction, but the last one was left in a decision of
///   it, none of its branches is committed yet.
pub fn decisions_stand()
    ensures never { NeverDecidedIsNeverCommitted }
    ensures decided { DecidedWillCommit }
    ensures found { FoundWillCommit }
    ensures so_far { UndecidedIsUncommitted }
{}

/// If the answer to a call on a branch told that its database had ended it by itself, and how, it
/// is so after all sessions, whatever was asked and answered since: the database reports that end,
/// or was told to forget it.
pub fn heuristic_ends_stay()
    ensures { HeuristicEndsStay }
{}

/// The same of sessions of drivers that a server serves, one after another over one log: what their
/// lines and replies tell is what is seen.
///
/// - `never`: as long as no `decide` or `settle` of a transaction was replied by `decided`, no
///   session was left in one, and no xa_commit in one phase of a branch of it waited, none of its
///   branches is committed;
/// - `decided`: once a commit was replied by `decided`, each branch of the transaction that had
///   voted XA_OK before is committed, or stands prepared still, or its database ended it by
///   itself. No branch of it is ever rolled back or lost, and the log that is left has its row as
///   long as one stands prepared;
/// - `heuristic`: where an answer of XA_HEURCOM, XA_HEURRB, XA_HEURMIX or XA_HEURHAZ was heard, the
///   branch stays ended so.
pub fn told_outcomes_stand<L: DecisionLog + Drop>()
    ensures never { NeverToldIsNeverCommitted L.moment }
    ensures decided { ToldDecidedWillCommit L.moment }
    ensures heuristic { ToldHeuristicEndsStay L.moment }
{
    starts_are_histories();
    starts_find_the_log::<L>();
    sessions_are_explained::<L>();
    waiting_calls_are_tracked::<L>();
}

/// What the lines of a session and their replies told of a whole transaction is so after all
/// sessions.
///
/// - `committed`: once a commit was replied by `decided`, or XA_OK to an xa_commit of a branch was
///   heard, each branch of the transaction is committed, or stands prepared still, or its database
///   ended it by itself; or it only read, or never began. None is ever rolled back or lost;
/// - `row_stays`: the log that is left then has the row, as long as one stands prepared;
/// - `rolled_back`: once a rollback was replied by `decided`, or an xa_commit of a branch was
///   answered by an XA_RB code, as it may be in one phase, no branch of it is ever committed;
/// - `alone`: once an xa_commit in one phase of a branch waited, no other branch of it ever began.
pub fn told_transactions_stand<L: DecisionLog + Drop>()
    ensures committed { ServedCommitStands L.moment }
    ensures row_stays { ServedCommitRowStays L.moment }
    ensures rolled_back { ServedRollbackStands L.moment }
    ensures alone { ServedHandedOverIsAlone L.moment }
{
    starts_are_histories();
    starts_find_the_log::<L>();
    sessions_are_explained::<L>();
    waiting_calls_are_tracked::<L>();
}

/// And of these there is one right history, of which each session is a part, in their order.
pub fn served_sessions_are_parts<L: DecisionLog + Drop>()
    ensures { ServedSessionsAreParts L.moment }
{
    starts_find_the_log::<L>();
    sessions_are_explained::<L>();
    waiting_calls_are_tracked::<L>();
}

/// What became of a decision whose reply never came, as the next start tells.
///
/// - `owed`: the branches that `owed` lists at a start over a log (`owed` of
///   [`Server::new`](xa_server::Server::new)) have the row of their transactions in it;
/// - `listed`: whether `owed` of a branch's resource manager, at a start over the log that is left,
///   lists the branch tells whether that log has the row of its transaction, if a session had told
///   the branch's vote XA_OK;
/// - `found`: if a session began over a log with the row of a transaction, each branch of it that
///   had voted XA_OK in an earlier one is committed, or stands prepared still, or its database
///   ended it by itself. No branch of it is ever rolled back or lost;
/// - `undecided`: if no session told that a transaction was decided, whether or not the last one
///   was left in a request to commit it, none of its branches is committed yet. If the log that is
///   left has no row of it either, none ever is (`undecided` of
///   [`served_transactions_agree`](xa_server::laws::served_transactions_agree)).
pub fn next_starts_tell<L: DecisionLog + Drop>()
    ensures owed { OwedAreLogged L }
    ensures listed { OwedTellsOfRows L.moment }
    ensures found { FoundRowsWillCommit L.moment }
    ensures undecided { UntoldIsLeftUndecided L.moment }
{
    starts_are_histories();
    starts_find_the_log::<L>();
    sessions_are_explained::<L>();
    waiting_calls_are_tracked::<L>();
}

/// A recovery ends what it lists. If the lines of the last session and their replies tell a page of
/// a resource manager, and of each branch on it that an earlier start began that it has ended
/// (committed, rolled back, or by its database), and the page left out none that is prepared still,
/// then no branch of an earlier start is prepared there.
pub fn recoveries_complete<L: DecisionLog + Drop>()
    ensures { ServedRecoveriesComplete L.moment }
{
    heard_ends_stay::<L>();
    told_outcomes_stand::<L>();
}
