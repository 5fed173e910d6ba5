//! What keeps the numbers of the manager's book small enough, and how a session tracks what is
//! seen. These functions do nothing: each contract is a theorem.

ghost use Rattle.xa_session.specs.Headroom.{HeadroomIsSound, HeadroomIsUsedUpByOne};
ghost use Rattle.xa_session.specs.Headroom.{ReleasesKeepHeadroom, StartsHaveHeadroom};
ghost use Rattle.xa_session.specs.Logging.{LaterSessionsAreNewer, LogsHaveAllOrNone, RowsAreHandedOn};
ghost use Rattle.xa_session.specs.Tracking.{AnswersAreTracked, LossesAreTracked, RefusalsAreTracked, ReleasesAreTracked};
ghost use Rattle.xa_session.specs.Tracking.{FailedAnswersAreFound, FailedDecisionsAreFound};
ghost use Rattle.xa_session.specs.Tracking.{FailedDonesAreFound, FailedSettlementsAreFound};
ghost use Rattle.xa_session.specs.Tracking.{SessionsAreExplained, StartsAreTracked, StartsFindTheLog, StepsAreTracked};
ghost use Rattle.xa_session.specs.Tracking.{WaitingCallsAreTracked};

use xa_log::DecisionLog;

/// So much more may happen after a start before a number of the book is too great, whatever the
/// resource managers answer:
///
/// - `kept`: one happening more leaves headroom for one less;
/// - `released`: a release uses none up;
/// - `sound`: a book with headroom is sound, as each call of the manager requires;
/// - `starts`: a start that [`Manager::new`](xa_tm::Manager::new) gives has headroom for
///   4,611,686,018,427,387,904.
pub fn books_have_headroom()
    ensures kept { HeadroomIsUsedUpByOne }
    ensures released { ReleasesKeepHeadroom }
    ensures sound { HeadroomIsSound }
    ensures starts { StartsHaveHeadroom }
{}

/// A new session tracks what is seen, as nothing is: from each start that has its log's rows and
/// records (`stands` of [`Session::new`](crate::Session::new)).
pub fn starts_are_tracked<L: DecisionLog + Drop>()
    ensures { StartsAreTracked L }
{}

/// A session that tracks what is seen, in which its manager kept the rules, and does what was right
/// to happen wherever it stood (`follows` of its methods), keeps the rules, and tracks that too.
pub fn steps_are_tracked<L: DecisionLog + Drop>()
    ensures { StepsAreTracked L }
{}

/// And so does one that hears an answer which such a call has (`has` and `follows` of
/// [`Session::answer`](crate::Session::answer)).
pub fn answers_are_tracked<L: DecisionLog + Drop>()
    ensures { AnswersAreTracked L }
{}

/// And so does one that loses a line, if it isn't known whether the call that waited first was done
/// (`follows` of [`Session::lose_line`](crate::Session::lose_line)).
pub fn losses_are_tracked<L: DecisionLog + Drop>()
    ensures { LossesAreTracked L }
{}

/// And so does one that stays as it was (`stays` of its methods), as when a request for memory was
/// refused.
pub fn refusals_are_tracked<L: DecisionLog + Drop>()
    ensures { RefusalsAreTracked L }
{}

/// And so does one that releases a transaction (`stands` and `monitor` of
/// [`Session::release`](crate::Session::release)).
pub fn releases_are_tracked<L: DecisionLog + Drop>()
    ensures { ReleasesAreTracked L }
{}

/// The calls that wait on a line of a session that tracks what is seen do so, in that order, by
/// each right history of that. So it is known of which calls it isn't known whether they were done.
pub fn waiting_calls_are_tracked<L: DecisionLog + Drop>()
    ensures { WaitingCallsAreTracked L }
{}

/// The next start finds what a session left: its log has what the session's book says, which is
/// what each right history of the session says. So sessions one after another agree
/// (`sessions_agree` of `xa_monitor`).
///
/// - `left`: of a session whose log didn't fail;
/// - `decision`, `settlement`, `done`: of one whose log failed as rows were to be written or taken
///   away, or that was killed in that. The change is in doubt then, and the step was right;
/// - `answer`: of one whose log failed as a heuristic end was to be recorded. The next start finds
///   what is left after the answer, or what was left before it.
pub fn starts_find_the_log<L: DecisionLog + Drop>()
    ensures left { StartsFindTheLog L }
    ensures decision { FailedDecisionsAreFound L }
    ensures settlement { FailedSettlementsAreFound L }
    ensures done { FailedDonesAreFound L }
    ensures answer { FailedAnswersAreFound L }
{}

/// What a session tracks has a right history, whatever the resource managers are: of them it is
/// only known what they answered, and each answer that was heard was looked at. The log that the
/// session started from is old (`old` of [`Session::new`](crate::Session::new)).
pub fn sessions_are_explained<L: DecisionLog + Drop>()
    ensures { SessionsAreExplained L }
{}

/// What a session leaves to the next: its log, or any content that a crash of the log's store may
/// leave.
///
/// - `all`: it has the rows of the book and, once the log has failed, all those that are in doubt
///   with them, or none;
/// - `newer`: a session that starts over it is of a later incarnation, so that no identifier comes
///   twice;
/// - `rows`: and has these rows.
pub fn later_sessions_go_on<L: DecisionLog + Drop>()
    ensures all { LogsHaveAllOrNone L.moment }
    ensures newer { LaterSessionsAreNewer L.moment }
    ensures rows { RowsAreHandedOn L.moment }
{}
