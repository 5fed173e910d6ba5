//! What holds through any number of processes of the manager.
ghost use Rattle.std.specs.Prelude.{ℕ, ◌<◌, List};
ghost use Rattle.xa_base.specs.declared.reply.Event.{Event};
ghost use Rattle.xa_model.specs.Promises.Headline.{HeadlineSince};
ghost use Rattle.xa_model.specs.Facts.{incarnation};
ghost use Rattle.xa_model.specs.Promises.Processes.{AllAreNamed, IsLeft, ListsFound, OfProcesses, OwnAreAlike};
ghost use Rattle.xa_model.specs.Promises.Processes.{IsNext, Resumes, joined, next_start, resumed};
ghost use Rattle.xa_model.specs.Promises.Recovery.{IsRecovered, MayComplete, recovery};
ghost use Rattle.xa_model.specs.Protocol.{AllRight, IsRun, OldOrigin};
ghost use Rattle.xa_model.specs.Replies.Allowed.{AllAllowed, with_steps};
ghost use Rattle.xa_model.specs.Replies.History.{history};
ghost use Rattle.xa_model.specs.Trace.{Answer, Call, Name, Origin, Recorded, Row, Trace};

/// The promises hold through any number of processes of the manager, one after another, over the same resource managers
/// and the same log. A process ends with a crash of its manager, whether or not anyone saw it. The next one begins with
/// a restart: it finds what the log and the resource managers then hold, and knows nothing else of the past.
///
/// In `right`, `headline`, `passes_on` and `recovers` the past history is right, the new start resumes it, and each
/// reply of the new process is one that the process's own events allow (`IsNext`):
///
/// - `right`: the past and the new process together are one right history;
/// - `headline`: so agreement and its invariant hold at every moment of the new process, of the branches of all
///   processes. A branch that an earlier process left prepared ends as its transaction's row says, alike with the other
///   branches of its transaction, and no branch ends twice;
/// - `passes_on`: a start that resumes the new process's own history resumes the whole. So it is enough to look at
///   one process at a time;
/// - `all`: a history of any number of processes is right;
/// - `left`: such a start exists, whether or not the change in doubt was made: `next_start` over what is left, if every
///   branch has an identifier;
/// - `recovers`: a whole recovery by the new process also ends what earlier processes left prepared: each branch that
///   is still prepared is of a live transaction. The start has to list all that it found in doubt, of older
///   incarnations;
/// - `own`: whatever a process found, even what no right history leaves, its own transactions are alike, as long as all
///   that it found is of older incarnations.
pub fn across_processes()
    // One process more.
    ensures right { (past : Trace) (o : Origin) (events : List Event) →
        IsNext past o events → AllRight (joined past o events) }
    ensures headline { (past : Trace) (o : Origin) (events : List Event) →
        IsNext past o events → HeadlineSince (resumed past o) events }
    ensures passes_on { (past : Trace) (o : Origin) (events : List Event) (next : Origin) →
        IsNext past o events → Resumes (history o events) next →
        Resumes (joined past o events) next }
    // All of them.
    ensures all { (whole : Trace) → OfProcesses whole → AllRight whole }
    // What is left, and its recovery.
    ensures left { (past : Trace) (i : ℕ) (rows : List Row) (records : List Recorded) →
        AllAreNamed past → incarnation past < i → IsLeft past rows records
        → Resumes past (next_start past i rows records) }
    ensures recovers { (past : Trace) (o : Origin) (events : List Event)
        (r count : ℕ) (names : List Name) (answers : List (Call × Answer)) →
        IsNext past o events → OldOrigin o → ListsFound o →
        MayComplete (history o events) r count answers →
        AllAllowed (history o events) (recovery r count names answers) →
        IsRecovered (with_steps (history o events) (recovery r count names answers)) r }
    // Over anything else that was found.
    ensures own { (tr : Trace) → IsRun tr → OwnAreAlike tr }
{}
