//! What holds of every history in which each reply is allowed.
ghost use Rattle.std.specs.Prelude.{◌≡◌, ◌≤◌, List, length, map};
ghost use Rattle.xa_model.specs.Promises.Agreement.{AreAlike, AsLogged, ClosesLast, DoubtIsDown, HeuristicsAreHeld};
ghost use Rattle.xa_model.specs.Promises.Agreement.{IsCommitment, IsFinal, IsMoment, IsPrefixOf, call_of, ends, phases};
ghost use Rattle.xa_model.specs.Promises.AgreementInvariant.{ClaimedIsPrepared, CommitHasRow, FreshGtrids, HandedOverAlone};
ghost use Rattle.xa_model.specs.Promises.AgreementInvariant.{NoStartAfterCommit, RollbackHasNoRow, RowsWerePrepared, SettledIsOver};
ghost use Rattle.xa_model.specs.Promises.Commitment.{Phase};
ghost use Rattle.xa_model.specs.Facts.{issued, standing, taken};
ghost use Rattle.xa_model.specs.Promises.Headline.{Headline};
ghost use Rattle.xa_model.specs.Replies.History.{AreAllowed};
ghost use Rattle.xa_model.specs.Protocol.{AllRight, RightOrigin};
ghost use Rattle.xa_model.specs.Trace.{Branch, Happening, Line, Origin, Trace, Trace.From};
ghost use Rattle.xa_base.specs.declared.reply.Event.{Event};

use crate::histories::{one_more_event, replies_are_allowed};

/// The headline, all of it at once: agreement and its invariant, as [`agreement`] and [`agreement_invariant`] state
/// them, hold at every moment of a list of events, if its start is right and each event's reply is one that the history
/// before it allows (`AreAllowed`).
///
/// A start is right if its rows and records are of earlier incarnations, no branch of this manager was ever started,
/// and all that it lists in doubt is another manager's.
pub fn headline_holds()
    ensures { (o : Origin) (events : List Event) → RightOrigin o → AreAllowed o events
        → Headline o events }
{
    replies_are_allowed();
    one_more_event();
    agreement();
    agreement_invariant();
}

/// Agreement. It holds of every history in which each happening is right after those before it:
///
/// - `prefix`: what a resource manager took from a line since it last broke is a prefix of what was issued on it;
/// - `nothing_after_close`: where xa_close was issued, it is the last call;
/// - `ends_once`: each branch ends at most once;
/// - `stays_ended`: a branch that was committed, rolled back, lost, read-only or forgotten stays so;
/// - `alike`: no branch of a transaction is committed beside one that is rolled back or lost;
/// - `at_first`, `commitment`: each transaction runs TCommit of Gray and Lamport ("Consensus on Transaction Commit").
///   All its branches are working at first, and each happening is no step or some steps of TCommit, over the branches
///   that the transaction has in the end;
/// - `heuristics`: if a resource manager ended a branch on its own, then either it still reports that, or the log has
///   a record of it;
/// - `logged`: where a prepared branch is committed, its transaction has a row in the log; where it is rolled back,
///   there was no row before and comes none later;
/// - `doubt`: at most one change of the log is in doubt, only while the manager is down, and then no line holds a
///   call or an answer.
pub fn agreement()
    // The lines.
    ensures prefix { (tr : Trace) (l : Line) →
        AllRight tr → IsPrefixOf (map call_of (taken tr l)) (issued tr l) }
    ensures nothing_after_close { (tr : Trace) (l : Line) → AllRight tr → ClosesLast (issued tr l) }
    // A branch: it ends once, and for good.
    ensures ends_once { (tr : Trace) (b : Branch) → AllRight tr → length (ends tr b) ≤ 1 }
    ensures stays_ended { (tr : Trace) (e : Happening) (whole : Trace) (b : Branch) →
        AllRight whole → IsMoment tr e whole → IsFinal (standing tr b) →
        standing whole b ≡ standing tr b }
    // A transaction: its branches end alike, as TCommit has it.
    ensures alike { (tr : Trace) → AllRight tr → AreAlike tr }
    ensures at_first { (o : Origin) (b : Branch) →
        RightOrigin o → phases (From o) b ≡ Phase.Working }
    ensures commitment { (tr : Trace) (e : Happening) (whole : Trace) →
        AllRight whole → IsMoment tr e whole → IsCommitment tr e whole }
    ensures heuristics { (tr : Trace) → AllRight tr → HeuristicsAreHeld tr }
    // The log.
    ensures logged { (tr : Trace) (e : Happening) (whole : Trace) →
        AllRight whole → IsMoment tr e whole → AsLogged tr e whole }
    ensures doubt { (tr : Trace) → AllRight tr → DoubtIsDown tr }
{}

/// What carries agreement through every crash, at every moment:
///
/// - `commit_has_row`: a waiting xa_commit in two phases has its row, or its branch is settled;
/// - `rollback_has_no_row`: a waiting xa_rollback is of a transaction that never had a row, or all of whose
///   branches are settled;
/// - `no_start_after_commit`: no waiting xa_start is of a committed or a claimed transaction;
/// - `rows_were_prepared`: no branch of a transaction that ever had a row is unstarted, active, idle,
///   rollback-only, rolled back or lost;
/// - `settled_is_over`: a settled branch has ended, and a row leaves only when all branches of its transaction are
///   settled;
/// - `fresh_gtrids`: no row and no branch is of a transaction that may still be begun;
/// - `handed_over_alone`: a transaction that was committed in one phase has one branch and never a row;
/// - `claimed_is_prepared`: each branch of a claimed transaction is prepared, heuristically completed or read-only.
pub fn agreement_invariant()
    // The calls that wait.
    ensures commit_has_row { (tr : Trace) → AllRight tr → CommitHasRow tr }
    ensures rollback_has_no_row { (tr : Trace) → AllRight tr → RollbackHasNoRow tr }
    ensures no_start_after_commit { (tr : Trace) → AllRight tr → NoStartAfterCommit tr }
    // The rows and their branches.
    ensures rows_were_prepared { (tr : Trace) → AllRight tr → RowsWerePrepared tr }
    ensures settled_is_over { (tr : Trace) → AllRight tr → SettledIsOver tr }
    // The transactions.
    ensures fresh_gtrids { (tr : Trace) → AllRight tr → FreshGtrids tr }
    ensures handed_over_alone { (tr : Trace) → AllRight tr → HandedOverAlone tr }
    ensures claimed_is_prepared { (tr : Trace) → AllRight tr → ClaimedIsPrepared tr }
{}
