//! What is so of sessions among which a log was made anew of a mirror. These functions do nothing:
//! each contract is a theorem.

ghost use Rattle.xa_mirror.specs.HistoryWithout.{DecisionsMayBeLeftOut};
ghost use Rattle.xa_mirror.specs.MadeLogs.{MadeLogsHoldLines};
ghost use Rattle.xa_mirror.specs.Mirrors.{AnewAgree, AnewDecisionsStand, AnewUndecidedStays};
ghost use Rattle.xa_mirror.specs.Mirrors.{CopiesAreMirrors, CopiesMayLackARow, FailoversAgree};
ghost use Rattle.xa_mirror.specs.Mirrors.{ParticipantsAreOver, ServedAreServedAnew, SettledAreOver};
ghost use Rattle.xa_mirror.specs.OneHistory.{FailoversHaveOneHistory, MadeLogsHaveOneHistory};
ghost use Rattle.xa_mirror.specs.ToldMirrors.{ToldFailoversAgree, ToldMirrorsAreMirrors};

use xa_log::DecisionLog;
use xa_outcomes::laws::served_sessions_are_parts;
use xa_restore::restored_logs_hold_what_is_said;
use xa_server::laws::heard_ends_stay;
use xa_session::laws::{sessions_are_explained, starts_find_the_log, waiting_calls_are_tracked};
use xa_tm::laws::starts_are_histories;

/// Sessions of a manager one after another agree on each transaction, also if the log was lost
/// between two of them, once or more, and made anew of a mirror (`AreServedAnew`). Of the mirror it
/// is supposed (`IsMirrorFor`) that it may lack the row of a transaction none of whose branches is
/// committed, or whose branches are all over; that it may have a row that left the log, if they are
/// all over; that a row is the same in both, and a record of the mirror one of the log's; and that
/// its incarnation isn't smaller.
///
/// - `agree`: none of the transaction's branches is committed beside one that is rolled back or
///   lost, and the log that is left decides of what is prepared still;
/// - `decided`: if a log that was left, or that was made of a mirror, has its row, and no mirror
///   since then lacked it as the log still had it, none of its branches is ever rolled back or
///   lost, and the row is there as long as one is prepared;
/// - `undecided`: if such a log has none, no branch of it is committed, and it is begun no more,
///   none ever is, as long as no mirror has the row;
/// - `over`: if the log that is left has no row of it, and one of its branches is committed, or a
///   log that was left before had the row, all of them are over;
/// - `participants`: so they are if the log has the row, and all that it waits for are over;
/// - `one_log`: sessions over one log, which was never lost, are such;
/// - `failover`: of all transactions at once: sessions over a log, a log that is made anew of its
///   mirror, and a session over that.
pub fn mirrors_go_on<L: DecisionLog + Drop>()
    ensures agree { AnewAgree L.moment }
    ensures decided { AnewDecisionsStand L.moment }
    ensures undecided { AnewUndecidedStays L.moment }
    ensures over { SettledAreOver L.moment }
    ensures participants { ParticipantsAreOver L.moment }
    ensures one_log { ServedAreServedAnew L.moment }
    ensures failover { FailoversAgree L.moment }
{
    starts_are_histories();
    starts_find_the_log::<L>();
    sessions_are_explained::<L>();
    waiting_calls_are_tracked::<L>();
}

/// There are such mirrors, wherever branches stand: one that has the rows that were left, in an
/// incarnation that isn't smaller (`copies`), also without that of a transaction none of whose
/// branches is committed (`lacking`).
pub fn mirrors_are_there()
    ensures copies { CopiesAreMirrors }
    ensures lacking { CopiesMayLackARow }
{}

/// What a mirror has is what `mirrors_go_on` supposes, if the driver writes the row of a
/// transaction before it issues an xa_commit of a branch of it, and takes a row away only once it
/// has left the log, or all that it waits for are committed (`IsToldMirror`). Of a transaction that
/// the mirror lacks no lines and replies tell an xa_commit, or they tell that all are committed. Of
/// one whose row left the log they tell that a branch is committed, or a session was handed a log
/// with the row.
///
/// - `mirrors`: each such mirror is one;
/// - `failover`: so sessions over a log, a log that is made anew of such a mirror, and a session
///   over that agree.
pub fn told_mirrors_are_mirrors<L: DecisionLog + Drop>()
    ensures mirrors { ToldMirrorsAreMirrors L.moment }
    ensures failover { ToldFailoversAgree L.moment }
{
    starts_are_histories();
    served_sessions_are_parts::<L>();
    heard_ends_stay::<L>();
    mirrors_go_on::<L>();
}

/// A log that was made of lines may be handed to the next session: what `restore_log` of
/// `xa_restore` leaves in an empty log that is in order (`made`, `order`) has the row of each
/// decision of the lines, no other row, no record, and as many starts as they say.
pub fn made_logs_hold_lines<L: DecisionLog + Drop>()
    ensures { MadeLogsHoldLines L.moment }
{
    restored_logs_hold_what_is_said();
}

/// There is one right history of sessions over a log and of one over a log that was made anew of
/// its mirror. The mirror may lack rows of transactions of which no xa_commit was issued: their
/// decisions are left out of the history, as if the log had failed in them. It has all other rows,
/// and the same records (`LacksOnly`).
///
/// - `history`: a start over such a log goes on from one right history of the sessions before;
/// - `failover`: a session over it is the last part of one, wherever branches then stand. Before it
///   comes the history of the others, without those decisions.
pub fn made_logs_go_on<L: DecisionLog + Drop>()
    ensures history { MadeLogsHaveOneHistory L.moment }
    ensures failover { FailoversHaveOneHistory L.moment }
{
    starts_are_histories();
    starts_find_the_log::<L>();
    sessions_are_explained::<L>();
    waiting_calls_are_tracked::<L>();
}

/// A decision to commit about which nothing was done may be left out of a right history: no
/// xa_commit of a branch of the transaction was issued, and no page that lists one was resolved
/// after it. Without it the history is right, leaves each branch where it stood, and has the same
/// records and the same rows, except this one. It is as if the log had failed in it.
pub fn decisions_may_be_left_out()
    ensures { DecisionsMayBeLeftOut }
{}
