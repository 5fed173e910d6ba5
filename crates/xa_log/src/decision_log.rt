//! What every decision log promises.
ghost use Rattle.std.specs.Prelude.{◌≡◌, ◌≤◌, ◌+◌, Err, Option, Some, IsSomeAnd, IfOk};
ghost use Rattle.std.specs.FinMap.{contains_key, entries, get, keys};
ghost use Rattle.xa_log.specs.KeySet.{from_list, items};
ghost use Rattle.std.specs.List.{AllByRecursion};
ghost use Rattle.xa_log.specs.Content.{AreOwn, Content, all_listed, with_bump, with_commit, with_commits, last_number, logged_as, logged_each, participants_of, with_heuristic_record, unchanged, without_decision, without_decisions};
ghost use Rattle.xa_log.specs.Contract.{AllFit, Changes, FitsRow, Honestly, Moment, Reads, fault_of};

use crate::decision::Decision;
use crate::log_fault::LogFault;
use crate::log_rows::LogRows;
use std::alloc::Global;
use xa_base::{Branch, Gtrid, How};

/// Whether a decision is a new row.
#[derive(Clone, Copy, Debug, PartialEq, Eq)]
pub enum Logged {
    /// The row was written.
    New,
    /// There was a row, which stays with its own participants.
    Already,
}

/// The kinds of a log's calls that can fail.
#[derive(Clone, Copy, Debug, PartialEq, Eq)]
pub enum LogCall {
    /// `commit`, and `commit_all`, which counts as one.
    Commit,
    Contains,
    Participants,
    /// `done`, and `done_all`, which counts as one.
    Done,
    NoteHeuristic,
    HeuristicOf,
    Bump,
    Rows,
}

/// What outlives the transaction manager: which transactions are decided to commit, with the branches whose xa_commit
/// each waits for; which branches their resource managers ended by themselves; and how often the manager has started.
/// A transaction without a row is rolled back (presumed rollback: XA, section 2.3, Transaction Completion and Recovery).
///
/// A contract speaks of the log's moments before and after a call: what it holds, what a crash may leave of it then, and
/// how many calls have failed. It has two premises: that the log is in order, known where it is made and kept by every
/// call, and that what it rests on has been honest, known at the end. Each number of a transaction is at most
/// 9,223,372,036,854,775,807. Transactions and branches are listed by their numbers, which is the order of their
/// identifiers (`xa_base`'s law `branches_in_order`).
///
/// Each call is one of two relations between its moments (`specs/Contract.antt`), with these fields:
///
/// - `Changes`: `ok`, a call that succeeds has made its one change; `err`, one that fails has shut the log, or left it as it
///   was, or made the change; `crash`, at its end a crash leaves what it might have left before the call, or the content
///   with the change. While the log holds something it leaves just that (the law `durable`), so after success only the latter;
/// - `Reads`: no change is made, a failure may have shut the log, and a crash leaves nothing new;
/// - both: `order` and `honest`, the two premises are handed on; `faults`, a failure is counted.
///
/// Beside it stand `answer`, of the log before the call, and `cause`, what the log says may make a call fail and what it
/// then holds.
pub trait DecisionLog {
    ghost use Rattle.xa_log.specs.declared.decision_log.LogCall.{LogCall};
    ghost use Rattle.xa_log.specs.declared.log_fault.LogFault.{LogFault};

    /// What the log is at this moment. Its content is nothing once a failure has shut it, after which every call fails; it
    /// is in order where it is as a log leaves it; it is honest while what it rests on has given back what was written to
    /// it and nobody else has written, which may end at any call; and it counts failures up to the greatest number.
    ghost moment: { Self → Moment };

    /// What a call of a kind says more, of the change that it is to make, of the log before and after it, and of its
    /// fault, where it fails.
    ghost says: { LogCall → (Content → Content) → Self → Self → Option LogFault → Type 0 };

    /// Decides that a transaction commits, and which branches it then waits for: those that voted XA_OK. A row that is
    /// there stays with its own participants.
    fn commit(&mut self, g: Gtrid, participants: &[Branch]) -> Result<Logged, LogFault>
        requires fits { FitsRow g }
        requires own { AllByRecursion (λ b. b.gtrid ≡ g) participants.now }
        ensures answer { Honestly (moment self.old) (moment self.new)
            (IfOk result (λ logged. IsSomeAnd (moment self.old).content (λ c.
            logged ≡ logged_as c g))) }
        ensures changes { Changes (with_commit g (from_list participants.now))
            (moment self.old) (moment self.new) result }
        ensures cause { says LogCall.Commit (with_commit g (from_list participants.now))
            self.old self.new (fault_of result) };

    /// Decides that these transactions commit, as [`commit`](DecisionLog::commit) of each in turn, and answers for each
    /// whether its row is new. All rows are written at once: a crash, or a call that fails, leaves all of them or none.
    /// One that is named twice has one row, with the participants that come first.
    fn commit_all(&mut self, alloc: Global, decisions: &[Decision]) -> Result<Vec<Logged>, LogFault>
        requires fits { AllByRecursion (λ d. FitsRow d.gtrid) decisions.now }
        requires own { AllByRecursion (λ d.
            AllByRecursion (λ b. b.gtrid ≡ d.gtrid) d.participants.items) decisions.now }
        ensures answer { Honestly (moment self.old) (moment self.new)
            (IfOk result (λ list. IsSomeAnd (moment self.old).content (λ c.
            list.items ≡ logged_each decisions.now c))) }
        ensures changes { Changes (with_commits decisions.now)
            (moment self.old) (moment self.new) result }
        ensures cause { says LogCall.Commit (with_commits decisions.now)
            self.old self.new (fault_of result) };

    /// Whether a transaction is decided to commit.
    fn contains(&mut self, g: Gtrid) -> Result<bool, LogFault>
        requires { FitsRow g }
        ensures answer { Honestly (moment self.old) (moment self.new)
            (IfOk result (λ found. IsSomeAnd (moment self.old).content (λ c.
            found ≡ contains_key c.decisions g))) }
        ensures reads { Reads (moment self.old) (moment self.new) result }
        ensures cause { says LogCall.Contains unchanged self.old self.new (fault_of result) };

    /// The branches whose xa_commit a transaction waits for, in the order of their identifiers; none where it has no row.
    fn participants(&mut self, g: Gtrid) -> Result<Vec<Branch>, LogFault>
        requires { FitsRow g }
        ensures answer { Honestly (moment self.old) (moment self.new)
            (IfOk result (λ list. IsSomeAnd (moment self.old).content (λ c.
            list.items ≡ items (participants_of c g)))) }
        ensures reads { Reads (moment self.old) (moment self.new) result }
        ensures cause { says LogCall.Participants unchanged self.old self.new (fault_of result) };

    /// Takes the row of a transaction away with its participants, and answers whether it was there.
    fn done(&mut self, g: Gtrid) -> Result<bool, LogFault>
        requires { FitsRow g }
        ensures answer { Honestly (moment self.old) (moment self.new)
            (IfOk result (λ found. IsSomeAnd (moment self.old).content (λ c.
            found ≡ contains_key c.decisions g))) }
        ensures changes { Changes (without_decision g) (moment self.old) (moment self.new) result }
        ensures cause { says LogCall.Done (without_decision g) self.old self.new
            (fault_of result) };

    /// Takes the rows of these transactions away with their participants. All go at once: a crash, or a call that fails,
    /// leaves all of them or none. A transaction without a row may be named, and one may be named twice.
    fn done_all(&mut self, gtrids: &[Gtrid]) -> Result<(), LogFault>
        requires fits { AllByRecursion FitsRow gtrids.now }
        ensures changes { Changes (without_decisions gtrids.now)
            (moment self.old) (moment self.new) result }
        ensures cause { says LogCall.Done (without_decisions gtrids.now)
            self.old self.new (fault_of result) };

    /// Records for good how a resource manager ended a branch by itself (XA, section 2.3.3, Heuristic Branch
    /// Completion). The first record of a branch stays.
    fn note_heuristic(&mut self, b: Branch, how: How) -> Result<(), LogFault>
        requires { FitsRow b.gtrid }
        ensures changes { Changes (with_heuristic_record b how) (moment self.old) (moment self.new)
            result }
        ensures cause { says LogCall.NoteHeuristic (with_heuristic_record b how)
            self.old self.new (fault_of result) };

    /// How a branch is recorded as heuristic, or none where it isn't.
    fn heuristic_of(&mut self, b: Branch) -> Result<Option<How>, LogFault>
        requires { FitsRow b.gtrid }
        ensures answer { Honestly (moment self.old) (moment self.new)
            (IfOk result (λ how. IsSomeAnd (moment self.old).content (λ c.
            how ≡ get c.heuristics b))) }
        ensures reads { Reads (moment self.old) (moment self.new) result }
        ensures cause { says LogCall.HeuristicOf unchanged self.old self.new (fault_of result) };

    /// Adds one to the incarnation, and answers the new one. At the last one it is [`LogFault::Spent`].
    fn bump(&mut self) -> Result<u64, LogFault>
        ensures answer { Honestly (moment self.old) (moment self.new)
            (IfOk result (λ n. IsSomeAnd (moment self.old).content (λ c.
            n ≡ c.incarnation + 1))) }
        ensures most { IfOk result (λ n. n ≤ last_number) }
        ensures spent { Honestly (moment self.old) (moment self.new)
            (result ≡ Err LogFault.Spent → IsSomeAnd (moment self.old).content (λ c.
            (last_number ≤ c.incarnation) × ((moment self.new).content ≡ Some c))) }
        ensures changes { Changes with_bump (moment self.old) (moment self.new) result }
        ensures cause { says LogCall.Bump with_bump self.old self.new (fault_of result) };

    /// All rows.
    fn rows(&mut self) -> Result<LogRows, LogFault>
        ensures decisions { Honestly (moment self.old) (moment self.new)
            (IfOk result (λ rows. IsSomeAnd (moment self.old).content (λ c.
            rows.decisions.items ≡ keys c.decisions))) }
        ensures participants { Honestly (moment self.old) (moment self.new)
            (IfOk result (λ rows. IsSomeAnd (moment self.old).content (λ c.
            rows.participants.items ≡ all_listed (entries c.decisions)))) }
        ensures heuristics { Honestly (moment self.old) (moment self.new)
            (IfOk result (λ rows. IsSomeAnd (moment self.old).content (λ c.
            rows.heuristics.items ≡ entries c.heuristics))) }
        ensures reads { Reads (moment self.old) (moment self.new) result }
        ensures cause { says LogCall.Rows unchanged self.old self.new (fault_of result) };

    /// How many calls of this log have failed, 0 in a new one. At the greatest number it stays.
    fn faults(&self) -> u64
        ensures { result ≡ (moment self.now).fault_count };

    /// While the log holds something, a crash leaves just that.
    ghost durable: { (log : Self) (c d : Content) →
        (moment log).is_in_order → (moment log).content ≡ Some c → (moment log).may_leave d →
        d ≡ c };

    /// The participants of a transaction are branches of it.
    ghost own: { (log : Self) (c : Content) →
        (moment log).is_in_order → (moment log).content ≡ Some c → AreOwn c };

    /// The numbers of all that the log holds fit into rows, so that the calls may name it: of each transaction that has
    /// a row, and of each branch that has a record. Those of participants fit with it, by `own`.
    ghost fits: { (log : Self) (c : Content) →
        (moment log).is_in_order → (moment log).content ≡ Some c → AllFit c };
}
