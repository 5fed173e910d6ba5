//! Laws of what conductors tell. These functions do nothing: each contract is a theorem.

ghost use Rattle.xa_conduct.specs.Outcomes.{OutcomesAreTrue};
ghost use Rattle.xa_truth.specs.Outcomes.{NotesAreTrue, RepliesAreTrue};
ghost use Rattle.xa_truth.specs.Sessions.{NotesAreServed, TurnsAreServed};

use xa_log::DecisionLog;
use xa_outcomes::laws::told_transactions_stand;
use xa_server::laws::served_sessions_agree;

/// What a conductor tells in sessions one after another is so, over databases that obey the branch
/// state table. Any of the sessions may be conducted, and any may be one of a driver that asks by
/// requests.
///
/// - `told`: the replies to a line of moves are one to each part of the line, and each tells of the
///   transaction that was noted of the thread which this part names. Where it tells that this is
///   committed (its first word is `committed`, or `commit` for the call to be made), each branch of
///   it is committed, or stands prepared still and the log has its row, or its database ended it by
///   itself; or it only read, or never began. None is ever rolled back or lost. Where it tells that
///   this is rolled back (`rolled-back`, `rollback`, `undo`), no branch of it is ever committed.
///   Where it tells that nobody knows (`unknown`), its branch was to be committed in one phase, and
///   the line on which that call waited was lost in the same session; no other branch of it ever
///   began;
/// - `noted`: so is what a conductor has noted of a transaction, by its name;
/// - `decided`: of a transaction that a line of one of these sessions decided to commit, no branch
///   is ever rolled back or lost; of one that was decided to roll back, none is ever committed.
pub fn outcomes_are_true<L: DecisionLog + Drop>()
    ensures told { RepliesAreTrue L.moment }
    ensures noted { NotesAreTrue L.moment }
    ensures decided { OutcomesAreTrue L.moment }
{
    told_transactions_stand::<L>();
}

/// A conducted session is one of these, whose lines ask for the conductor's requests, and what is
/// told and noted in it is what a conductor tells and notes.
///
/// - `turns`: each reply to a line by which a transaction moved rests on what lines of the session
///   asked for, and was done, and is told of the transactions that were noted of the threads that
///   moved (`rests` of [`Conductor::turn`](xa_conduct::Conductor::turn)), whatever the conductor
///   did since;
/// - `notes`: so does what is noted of each transaction (`rests` of [`serve`](xa_conduct::serve)).
pub fn conducted_sessions_tell<L: DecisionLog + Drop>()
    ensures turns { TurnsAreServed L.moment }
    ensures notes { NotesAreServed L.moment }
{
    served_sessions_agree::<L>();
}
