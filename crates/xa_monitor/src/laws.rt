//! Why answers that some standing explains are enough. These functions do nothing: each contract is a theorem.
ghost use Rattle.xa_base.specs.declared.state.Standing.{Standing};
ghost use Rattle.xa_model.specs.Facts.{held_of};
ghost use Rattle.xa_model.specs.Promises.Processes.{Resumes};
ghost use Rattle.xa_model.specs.Protocol.{AllRight, OldOrigin};
ghost use Rattle.xa_model.specs.Trace.{Branch, Origin, Trace};
ghost use Rattle.xa_monitor.specs.Seen.{KeepsRules, Seen};
ghost use Rattle.xa_monitor.specs.Standings.{Comes, MayStand};
ghost use Rattle.xa_monitor.specs.Across.{GoesOn, IsKnownAsLeft};
ghost use Rattle.xa_monitor.specs.Agreement.{HaveCome, OwnStandAlike, StandAlike, StandSo};
ghost use Rattle.xa_monitor.specs.Explained.{HasOnlyOlderRows, IsExplained, IsExplainedAt};
ghost use Rattle.xa_monitor.specs.Sessions.{AfterSessions, CommitStands, Finds, HaveOneHistory};
ghost use Rattle.xa_monitor.specs.Sessions.{Log, RowsDecide, WasFoundDecided};

/// A manager that keeps its own rules, over resource managers of which only the answers are known: if each branch may
/// stand somewhere, by the branch state table and all that was answered, then what was seen has a right history.
///
/// - `each`: however it is chosen where each branch stands, among where it may, there is such a history that leaves each
///   branch there;
/// - `some`: so there is one, if for each branch some standing explains all answers;
/// - `across`: where the start resumes the right history of earlier processes, and each branch may have come from where it
///   stood at the start to some standing, what was seen has a history that is right behind theirs. So all promises hold
///   of the whole: of the states of all branches, and of how those ended of which the start knows all that the past says;
/// - `agree`: so databases that obey the table agree. Wherever all branches may stand, also while calls are under way and
///   where lines are cut off of which nothing was told, no branch of a transaction of this incarnation is committed beside
///   one that is rolled back or lost;
/// - `agree_across`: the same of all transactions, where the start has each branch just as the past left it.
pub fn answers_are_explained()
    ensures each { (o : Origin) (seen : Seen) → HasOnlyOlderRows o → KeepsRules o seen →
        (f : Branch → Standing) → ((b : Branch) → MayStand o seen b (f b)) →
        IsExplainedAt o seen f }
    ensures some { (o : Origin) (seen : Seen) → HasOnlyOlderRows o → KeepsRules o seen →
        ((b : Branch) → (s : Standing) × MayStand o seen b s) → IsExplained o seen }
    ensures across { (past : Trace) (o : Origin) (seen : Seen) →
        AllRight past → Resumes past o → OldOrigin o → KeepsRules o seen →
        (f : Branch → Standing) → ((b : Branch) → Comes seen b (held_of o b).standing (f b)) →
        GoesOn past o seen f }
    // And where they all stand.
    ensures agree { (o : Origin) (seen : Seen) → HasOnlyOlderRows o → KeepsRules o seen →
        (f : Branch → Standing) → StandSo o seen f → OwnStandAlike o.incarnation f }
    ensures agree_across { (past : Trace) (o : Origin) (seen : Seen) →
        AllRight past → Resumes past o → OldOrigin o → KeepsRules o seen →
        ((b : Branch) → IsKnownAsLeft past o b) →
        (f : Branch → Standing) → HaveCome o seen f → StandAlike f }
{}

/// Databases that obey the branch state table agree through any number of sessions of a manager, one after another, over
/// the same log. Each starts with what the one before it left in that, with or without the change in doubt, in a later
/// incarnation; the first over an empty log, before any branch. In between what was open is lost. A session may end at any
/// moment, also where calls are under way, and where its log fails in a step that asks it for rows.
///
/// - `agree`: no branch of a transaction stands committed beside one that stands rolled back or lost, whichever session
///   began, decided or recovered it;
/// - `rows`: the log that is left decides of what stands prepared still. It has the row of each transaction of which a
///   branch stands committed, and no row of one of which a branch stands rolled back or lost;
/// - `decided`: a branch that one of these sessions found prepared, and its transaction's row in the log, is never rolled
///   back or lost. It commits, unless its database ends it by itself; and its row is there as long as it stands prepared;
/// - `history`: there is one right history of all sessions, so that whatever is proved of right histories (`agreement`,
///   `agreement_invariant` and `headline_holds` of `xa_model`) holds of the branches and of the log.
pub fn sessions_agree()
    ensures agree { (log : Log) (f : Branch → Standing) → AfterSessions log f → StandAlike f }
    ensures rows { (log : Log) (f : Branch → Standing) (next : Origin) → AfterSessions log f →
        Finds log next → RowsDecide f next }
    ensures decided { (log : Log) (f : Branch → Standing) (next : Origin) (b : Branch) →
        (after : AfterSessions log f) → WasFoundDecided b log f after → Finds log next →
        CommitStands f next b }
    ensures history { (log : Log) (f : Branch → Standing) → AfterSessions log f →
        HaveOneHistory log f }
{}

/// What is promised of right histories is promised of sessions: that their branches stand alike (`agree`), and that the log
/// decides of what is prepared still (`rows`), follows from the one right history of all of them alone (`history` of
/// [`sessions_agree`]), by what `agreement` of `xa_model` says of that.
pub fn one_history_agrees()
    ensures agree { (log : Log) (f : Branch → Standing) → HaveOneHistory log f → StandAlike f }
    ensures rows { (log : Log) (f : Branch → Standing) (next : Origin) →
        HaveOneHistory log f → Finds log next → RowsDecide f next }
{}
