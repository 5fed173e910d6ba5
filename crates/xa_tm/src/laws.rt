//! What ties the manager's book to histories. These functions do nothing: each contract is a
//! theorem.

ghost use Rattle.std.specs.Prelude.{◌≡◌, Bool, true, false};
ghost use Rattle.xa_model.specs.Trace.{Fault, Fault.InRestart, Happening.Crashed, Happening.Failed};
ghost use Rattle.xa_base.specs.declared.step.Part.{Part as Crashing};
ghost use Rattle.xa_log.specs.Content.{with_bump};
ghost use Rattle.xa_log.specs.Contract.{LeavesAlso};
ghost use Rattle.xa_tm.specs.Book.{Book, Doubt, Doubt.NoDoubt, after, book_after, failed_restarts_after};
ghost use Rattle.xa_tm.specs.Leaving.{LeavesTied};
ghost use Rattle.xa_tm.specs.BookAndLog.{IsChangeOf, IsTied, changed_by};
ghost use Rattle.xa_tm.specs.Laws.{AnswersAskTheRecord, BooksFollowHistories, BranchesAreCounted};
ghost use Rattle.xa_tm.specs.Laws.{DecisionsAskTheRows, DonesAskTheRows, DoubtsAreOfRows, DropsAreCounted, DroppedRowsAreThere};
ghost use Rattle.xa_tm.specs.Laws.{ManagersRefusalsAreAll, OpenHasNoRow, OpenResolvesAreRead};
ghost use Rattle.xa_tm.specs.Laws.{RecoveriesCloseNone, RefusalsAreRead, ResolvesAreRead, RightBooksFollow};
ghost use Rattle.xa_tm.specs.Laws.{RowsAreCounted, SettlementsAreCounted, StartRowsAreApart, ViewsAgree};
ghost use Rattle.xa_tm.specs.Laws.{VotesAreCounted};
ghost use Rattle.xa_tm.specs.Limits.{AnswersAreCodes, BooksAreSound, EventsAreHappenings, FoundIsAllowed};
ghost use Rattle.xa_tm.specs.Limits.{FoundIsThere, LimitsAreKept, OldStartsAreRight, RecordsFit};
ghost use Rattle.xa_tm.specs.RefusalOrder.{RefusalsAreMerged};
ghost use Rattle.xa_tm.specs.Release.{BooksAreWhole, OneMoreIsReleased, OthersAreRefusedAlike, RecoveriesAreAlike};
ghost use Rattle.xa_tm.specs.Release.{ReleasedAreSound, ReleasedAreUnknown, WholesFollow, WholesRefuseNoMore};
ghost use Rattle.xa_tm.specs.Starting.{StartsAreHistories, StartsHaveContent};

use xa_log::DecisionLog;

/// The book changes with each happening as the history does:
///
/// - `any`: of any history, if the numbers of rows change as they should;
/// - `right`: of a right history over a start whose rows are of different transactions.
pub fn books_follow_histories()
    ensures any { BooksFollowHistories }
    ensures right { RightBooksFollow }
{}

/// The rows of a right history over a start whose rows are of different transactions are counted:
///
/// - `counted`: a Done takes one row away, and a restart tells the numbers of the rows that are
///   there;
/// - `there`: rows whose removal is in doubt are there, each of another transaction;
/// - `drops`: and their removal takes so many rows away;
/// - `doubt`: the change in doubt is one of these rows: those that it adds are not there, those
///   that it takes away are.
pub fn rows_are_counted()
    ensures counted { RowsAreCounted }
    ensures there { DroppedRowsAreThere }
    ensures drops { DropsAreCounted }
    ensures doubt { DoubtsAreOfRows }
{}

/// The numbers of a transaction that the book keeps are those of a count over its branches: of all
/// (`branches`), of those that have not voted for commit (`votes`) and, while it is begun in this
/// incarnation, of those that are not settled (`settlements`).
pub fn branches_are_counted()
    ensures branches { BranchesAreCounted }
    ensures votes { VotesAreCounted }
    ensures settlements { SettlementsAreCounted }
{}

/// The book of a right history of at most 10,000 events is sound, as each call of the manager
/// requires:
///
/// - `sound`: it is, if the book of the start is, if the start has no more rows and records than a
///   number of the log can tell, and if no restart gave a greater incarnation than the log can
///   hold;
/// - `kept`: one right happening more keeps within these limits, if there was room for what it
///   counts and no restart in it gives a greater incarnation;
/// - `events`: there happened as much as there are events: no step fails in a decision of several
///   transactions;
/// - `starts`: a start is right whose rows and records are of earlier incarnations.
pub fn books_are_sound()
    ensures sound { BooksAreSound }
    ensures kept { LimitsAreKept }
    ensures events { EventsAreHappenings }
    ensures starts { OldStartsAreRight }
{}

/// The answer that waits first on a line of a right history can be heard:
///
/// - `codes`: if it answers a call on a branch, it is a code;
/// - `fits`: if it makes a record, the branch fits the log.
pub fn answers_can_be_heard()
    ensures codes { AnswersAreCodes }
    ensures fits { RecordsFit }
{}

/// What the manager asks its log for, and what is in doubt if the log fails, is what the history
/// says: the rows of decisions with their participants (`decide`), the rows that a Done takes away
/// (`done`), the record of the answer that waits first (`hear`).
pub fn log_is_asked()
    ensures decide { DecisionsAskTheRows }
    ensures done { DonesAskTheRows }
    ensures hear { AnswersAskTheRecord }
{}

/// The calls of a recovery that are read off the book are those of the history: of one that decides
/// nothing (`resolve`), and of one that first rolls back what is open (`open`). None of them is an
/// xa_close (`closes`).
pub fn recoveries_are_read()
    ensures resolve { ResolvesAreRead }
    ensures open { OpenResolvesAreRead }
    ensures closes { RecoveriesCloseNone }
{}

/// What a restart of the manager finds, if its book allows it (`IsFound`): the numbers of rows that
/// the history says are then there (`there`), and so a reply that the history demands (`allowed`).
pub fn restarts_find_what_is_there()
    ensures there { FoundIsThere }
    ensures allowed { FoundIsAllowed }
{}

/// The refusals that are read off the book are those that the history forces:
///
/// - `views`: the book of a right history says what a refusal looks at as the history does;
/// - `read`: so the manager refuses a step by its book as the history has it refused;
/// - `alone`: if a step asks the manager alone, these are all its refusals;
/// - `merged`: else a step is refused with the lower of what the manager finds and what lines and
///   resource managers find.
pub fn refusals_are_read()
    ensures views { ViewsAgree }
    ensures read { RefusalsAreRead }
    ensures alone { ManagersRefusalsAreAll }
    ensures merged { RefusalsAreMerged }
{}

/// A transaction that is begun and not committed has no row in the log.
pub fn open_has_no_row()
    ensures { OpenHasNoRow }
{}

/// A history that starts with what a log has (`content`: with its rows and records, as a start
/// lists them) has the book of a start over the log (`book`), and rows of different transactions
/// (`apart`).
pub fn starts_are_histories()
    ensures book { StartsAreHistories }
    ensures content { StartsHaveContent }
    ensures apart { StartRowsAreApart }
{}

/// Each content that a crash of the log's store may leave has what the book says, with or without
/// the change in doubt, and, of a near log, an incarnation that a restart may follow:
///
/// - `up`: while the manager is up, of a log in order that is tied to the book;
/// - `fault`: after a failure of the log in a call that asked it for one change, which is one of
///   the book's rows;
/// - `restart`: after a failed restart, if it was so before;
/// - `crash`: after the crash of a part, if it was so before.
pub fn crashes_leave_the_book<L: DecisionLog>()
    ensures up { (near : Bool) (k : Book) (log : L) → k.up ≡ true → (L.moment log).is_in_order →
        IsTied near k (L.moment log).content →
        LeavesTied near k (L.moment log).may_leave }
    ensures fault { (near : Bool) (k : Book) (asked : Doubt) (f : Fault) (old new : L) →
        k.up ≡ true → IsChangeOf k.row asked →
        failed_restarts_after (Failed f) k.failed_restarts ≡ k.failed_restarts →
        (L.moment old).is_in_order → IsTied near k (L.moment old).content →
        LeavesAlso (changed_by asked) (L.moment old).content (L.moment old).may_leave
        (L.moment new).may_leave →
        LeavesTied near (book_after k asked (Failed f)) (L.moment new).may_leave }
    ensures restart { (near : Bool) (k : Book) (old new : L) → k.up ≡ false →
        IsTied near k (L.moment old).content →
        LeavesTied near k (L.moment old).may_leave →
        LeavesAlso with_bump (L.moment old).content (L.moment old).may_leave
        (L.moment new).may_leave →
        LeavesTied near (book_after k NoDoubt (Failed InRestart)) (L.moment new).may_leave }
    ensures crash { (near : Bool) (k : Book) (part : Crashing) (log : L) →
        LeavesTied near k (L.moment log).may_leave →
        LeavesTied near (after k (Crashed part)) (L.moment log).may_leave }
{}

/// A book that has released transactions ([`Manager::release`](crate::Manager::release)) goes on as
/// the whole book does, which has released none (`HasReleased`):
///
/// - `start`: a book that has released none is its own whole;
/// - `released`: one more transaction that is over may be released;
/// - `follows`: both books go on alike with whatever may happen until the manager is restarted;
/// - `others`: a step that names none of the released transactions is refused as the whole book
///   refuses it;
/// - `unknown`: one that names one of them is always refused, as a step that names a transaction
///   which was never begun;
/// - `refuses`: so that what is not refused isn't refused by the whole book either;
/// - `resolves`: a recovery ends the same branches;
/// - `sound`: a sound book stays sound.
pub fn released_books_go_on()
    ensures start { BooksAreWhole }
    ensures released { OneMoreIsReleased }
    ensures follows { WholesFollow }
    ensures others { OthersAreRefusedAlike }
    ensures unknown { ReleasedAreUnknown }
    ensures refuses { WholesRefuseNoMore }
    ensures resolves { RecoveriesAreAlike }
    ensures sound { ReleasedAreSound }
{}
