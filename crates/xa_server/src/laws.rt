//! How a session tracks what a driver tells. These functions do nothing: each contract is a theorem.

ghost use Rattle.xa_server.specs.Branches.{CallsAreOnBranches};
ghost use Rattle.xa_server.specs.Faults.{FaultsLeaveAllOrNone, NothingBehindFaults};
ghost use Rattle.xa_server.specs.HeardEnds.{HeardEndsStay, ServedEndsStay, SessionsKeepEnds};
ghost use Rattle.xa_server.specs.LeftSessions.{LeftSessionsAgree, ManagersAgree};
ghost use Rattle.xa_server.specs.LeftSessions.{ServedManagersAgree, ServedSessionsGoOn, SessionsBegin};
ghost use Rattle.xa_server.specs.LeftSessions.{SessionsGoOn, SessionsWait, StandingsAreUnder};
ghost use Rattle.xa_server.specs.Managers.{ManagersAreApart, RepliesTellOwn};
ghost use Rattle.xa_server.specs.Sessions.{ServedCommitsStand, ServedLogsDecide};
ghost use Rattle.xa_server.specs.Sessions.{ServedSessionsAgree, ServedSessionsAreSeen};
ghost use Rattle.xa_server.specs.Sessions.{ServedSessionsHaveOneHistory};
ghost use Rattle.xa_server.specs.Tracking.{RepliesAreTracked, ServedDatabasesAgree};
ghost use Rattle.xa_server.specs.Tracking.{ServedSessionsAreExplained, SessionsAreTracked};
ghost use Rattle.xa_server.specs.Transactions.{LeftDecisionsStand, LeftUndecidedStays, ServedTransactionsAgree};
ghost use Rattle.xa_server.specs.Votes.{CommitsAreLogged, VotedCommitsAreLogged};
ghost use Rattle.xa_server.specs.WorkedSessions.{SessionsAreThere};

use xa_log::DecisionLog;
use xa_monitor::laws::{answers_are_explained, sessions_agree};
use xa_names::laws::{names_part_identifiers, renaming_goes_back};
use xa_session::laws::{
    answers_are_tracked, losses_are_tracked, refusals_are_tracked, releases_are_tracked,
    sessions_are_explained, starts_are_tracked, starts_find_the_log, steps_are_tracked,
    waiting_calls_are_tracked,
};
use xa_tm::laws::starts_are_histories;

/// A session that tracks what was seen does so with each request and its reply (`performs` of
/// [`Server::perform`](crate::Server::perform)), as long as the log doesn't fail: just what both tell is seen
/// more (`Tells`).
pub fn replies_are_tracked<L: DecisionLog + Drop>()
    ensures { RepliesAreTracked L.moment }
{
    steps_are_tracked::<L>();
    answers_are_tracked::<L>();
    losses_are_tracked::<L>();
    refusals_are_tracked::<L>();
    releases_are_tracked::<L>();
}

/// And so it does with all lines and their replies (`served` and `broken` of
/// [`Server::serve`](crate::Server::serve)), up to where the log failed.
pub fn sessions_are_tracked<L: DecisionLog + Drop>()
    ensures { SessionsAreTracked L.moment }
{
    steps_are_tracked::<L>();
    answers_are_tracked::<L>();
    losses_are_tracked::<L>();
    refusals_are_tracked::<L>();
    releases_are_tracked::<L>();
}

/// What a driver told a new server has a right history, wherever it was cut off and whatever the resource managers
/// are: of them it is only known what the driver says that they answered. The server stands at a start (`stands` of
/// [`Server::new`](crate::Server::new)), from an old log (`old`).
///
/// What was told is read off the requests, each as a line of its own, and their replies alone (`HaveTold`). It ends where
/// the log failed: the manager is then down, and hears nothing more.
pub fn served_sessions_are_explained<L: DecisionLog + Drop>()
    ensures explained { ServedSessionsAreExplained L.moment }
{
    starts_are_tracked::<L>();
    sessions_are_tracked::<L>();
    sessions_are_explained::<L>();
}

/// And databases that obey the branch state table agree, behind each line that a driver told a new server. Let the
/// branches stand wherever they may by what was told; of the calls that wait on any line let the first ones be done, however
/// many, though their answers aren't told; let lines be cut off, as all are where the driver is killed; and let databases
/// end prepared branches by themselves. Then no branch of a transaction that this session began is committed beside one that is rolled back or
/// lost.
///
/// That a database obeys the table is the one premise about it (`StandSo`), and that it has no branch of this incarnation
/// at the start. Where the log failed, this is of the moment before, at which all that waits on the lines may still be done.
pub fn served_databases_agree<L: DecisionLog + Drop>()
    ensures agree { ServedDatabasesAgree L.moment }
{
    starts_are_tracked::<L>();
    sessions_are_tracked::<L>();
    sessions_are_explained::<L>();
    waiting_calls_are_tracked::<L>();
    answers_are_explained();
}

/// So sessions of drivers agree, one after another over one log and the same databases, of which each obeys the branch
/// state table (`AreServed`). Each session starts over the log that the one before it left, or that a crash of its store
/// left, the first over an empty one. A session may be left after any line, or in a request in which its log failed, or
/// in which the program was killed; calls may be under way then, several on a line too, and in between what was open is
/// lost.
///
/// - `agree`: no branch of any transaction is committed beside one that is rolled back or lost, whichever session began,
///   decided or recovered it;
/// - `rows`: the log that is left decides of what is prepared still. It has the row of each transaction of which a branch
///   is committed, and no row of one of which a branch is rolled back or lost;
/// - `decided`: a branch that a session found prepared, and its transaction's row in the log, commits, or its database ends
///   it by itself. The row is there as long as the branch stands prepared, so a log without it says that this is over;
/// - `seen`: each session that starts so is one of these;
/// - `history`: there is one right history of all of them, so that whatever is proved of right histories holds of their
///   branches and of the log. It leaves the branches where they stand once what was open is lost.
///
/// Each of them is a session of a manager of the same name, and lines are those that this manager means.
pub fn served_sessions_agree<L: DecisionLog + Drop>()
    ensures agree { ServedSessionsAgree L.moment }
    ensures rows { ServedLogsDecide L.moment }
    ensures decided { ServedCommitsStand L.moment }
    ensures seen { ServedSessionsAreSeen L.moment }
    ensures history { ServedSessionsHaveOneHistory L.moment }
{
    sessions_agree();
    starts_are_histories();
    starts_find_the_log::<L>();
    starts_are_tracked::<L>();
    sessions_are_tracked::<L>();
    sessions_are_explained::<L>();
    waiting_calls_are_tracked::<L>();
}

/// The same of sessions of which each has a log of a type of its own, as where each process opens files of which it supposes only
/// what the process before it left. What one hands to the next is no log, but what a log holds (`HaveLeft`).
///
/// - `on`: a session over a log that holds what was left leaves what its own log then holds, or a crash of its store leaves of it.
///   What it found prepared, with a row in that log, is found decided from then on;
/// - `served`: so does each session that a server serves, up to a failure of its log, and one that is left in the request in which
///   its log failed.
pub fn sessions_go_on<L: DecisionLog + Drop>()
    ensures on { SessionsGoOn L.moment }
    ensures served { ServedSessionsGoOn L.moment }
{
    served_sessions_agree::<L>();
    starts_find_the_log::<L>();
    sessions_are_explained::<L>();
    waiting_calls_are_tracked::<L>();
}

/// And each transaction agrees for itself: of the databases it is supposed only that they obey the branch state table as far as the
/// branches of this transaction go (`AreServedFor`). One that forgot a branch of another, or at which somebody ended one against the log,
/// is no matter to it.
///
/// Between two sessions its branches may be ended by hand as the log says: committed where that has the row, rolled back where it
/// has none. A database may end a prepared branch by itself, and forget by itself that it did. Where the log has no row it may roll one
/// back and report nothing, or forget that it rolled one back, and have it prepared again (`MayTurn`).
///
/// - `agree`: none of its branches is committed beside one that is rolled back or lost, and the log that is left decides of what is
///   prepared still;
/// - `decided`: once a log that was left has its row, none of its branches is ever rolled back or lost, and the row is there as long as one
///   is prepared;
/// - `undecided`: once a log that was left has none, and no branch of it is committed, none ever is.
///
/// So the next start tells what became of a decision whose reply never came: its log has the row, or has none.
pub fn served_transactions_agree<L: DecisionLog + Drop>()
    ensures agree { ServedTransactionsAgree L.moment }
    ensures decided { LeftDecisionsStand L.moment }
    ensures undecided { LeftUndecidedStays L.moment }
{
    starts_are_histories();
    starts_find_the_log::<L>();
    sessions_are_explained::<L>();
    waiting_calls_are_tracked::<L>();
}

/// Such sessions begin with an empty log and no branch (`begin`), and between two a database may end a prepared branch by
/// itself (`between`). All that [`served_sessions_agree`] says is so of them (`agree`, at `AreLeftAlike`). They are told of databases by
/// identifiers, and however branches stand, there are such databases (`standings`).
pub fn left_sessions_agree()
    ensures begin { SessionsBegin }
    ensures between { SessionsWait }
    ensures agree { LeftSessionsAgree }
    ensures standings { StandingsAreUnder }
{
    sessions_agree();
    starts_are_histories();
    names_part_identifiers();
}

/// What was heard of the end of a branch is so for ever, over databases that obey the branch state table: where the answer to a call on
/// it told that it is committed (XA_OK to xa_commit) or rolled back (XA_OK to xa_rollback, or an XA_RB code), it stands so
/// behind all sessions, whatever was asked and answered since.
///
/// - `seen`: the sessions are those of `xa_monitor`, each with what was seen in it;
/// - `served`: they are served, over one log;
/// - `kept`: each has a log of a type of its own. What had ended before it, or was heard in it to have ended, stands so behind it.
pub fn heard_ends_stay<L: DecisionLog + Drop>()
    ensures seen { HeardEndsStay }
    ensures served { ServedEndsStay L.moment }
    ensures kept { SessionsKeepEnds L.moment }
{
    starts_find_the_log::<L>();
    sessions_are_explained::<L>();
    waiting_calls_are_tracked::<L>();
}

/// What is supposed of sessions can be met: of a transaction with a branch at each of two databases the first session hears both votes
/// and is left in its `decide`; the second finds the row. Then the one branch is committed, and the other one is prepared still, or
/// was ended by its database.
pub fn sessions_are_there()
    ensures { SessionsAreThere }
{}

/// Two managers of different names agree over databases that they share, each through any number of sessions over logs of its own:
/// where all identifiers stand, the branches of each stand alike, and no identifier is of a branch of both.
///
/// - `left`: each session has a log of a type of its own;
/// - `served`: they are told server by server, over logs of one type.
pub fn managers_agree<L: DecisionLog + Drop>()
    ensures left { ManagersAgree }
    ensures served { ServedManagersAgree L.moment }
{
    left_sessions_agree();
    served_sessions_agree::<L>();
    names_part_identifiers();
    renaming_goes_back();
}

/// What lines and their replies tell is of branches that have identifiers (XA, section 4.2): each call that was let wait is on
/// one, and each branch of this manager that a page listed has one.
pub fn calls_are_on_branches()
    ensures { CallsAreOnBranches }
{}

/// Where a `decide` of commits, a `settle` or a `done` is replied that the log failed (reply 15 of a manager that was up), the log
/// has either all of the change that was asked for or nothing of it, unless it is shut; and so has whatever a crash of its
/// store then leaves.
pub fn faults_leave_all_or_none<L: DecisionLog + Drop>()
    ensures { FaultsLeaveAllOrNone L.moment }
{}

/// Behind a request in which the log failed the manager is down, and no line changes anything, of the server or of its log: a `decide`
/// or a `done` behind it names a transaction, as each that is read does.
pub fn nothing_changes_behind_faults<L: DecisionLog + Drop>()
    ensures { NothingBehindFaults L.moment }
{}

/// Behind lines that tell a vote each, XA_OK to an xa_prepare, and are heard, a line commits their transactions and is replied by
/// `decided`: the log then has the row of each. It was in order and had what the book says before, and has been honest since.
pub fn voted_commits_are_logged<L: DecisionLog + Drop>()
    ensures { VotedCommitsAreLogged L.moment }
{}

/// Where a request to commit is replied by `decided`, the log has the row of each of its transactions that some branch voted XA_OK
/// for, which waits for those that did. It was in order and had what the book says before, and has been honest since.
pub fn commits_are_logged<L: DecisionLog + Drop>()
    ensures { CommitsAreLogged L.moment }
{}

/// A manager tells its driver calls on identifiers of its own name alone (`own`). So managers of different names never tell
/// their drivers calls on the same identifier (`apart`): what one does at a database touches no branch of another. Nothing
/// is asked of what other managers do, nor of the databases.
pub fn managers_stay_apart<L: DecisionLog + Drop>()
    ensures own { RepliesTellOwn L.moment }
    ensures apart { ManagersAreApart L.moment }
{
    names_part_identifiers();
    sessions_are_explained::<L>();
}
