//! Calls of a log, made in turn: what any list of them leaves, and what they are told.
ghost use Rattle.std.specs.Prelude.{◌≡◌, IfErr, IfOk, OnOk, OnErr, Some, IsSomeAnd};
ghost use Rattle.std.specs.List.{AllByRecursion};
ghost use Rattle.xa_log.specs.Commands.{AreTold, EndsBy, Fits, LeavesFirst, AnswersCommand, content_after, content_after_all, kind_of};
ghost use Rattle.xa_log.specs.Content.{Content};
ghost use Rattle.xa_log.specs.Contract.{Changes, Honestly};

use crate::{DecisionLog, LogFault, LogRows, Logged};
use std::alloc::Global;
use xa_base::{Branch, Gtrid, How};

/// A call of a decision log, with what it is given: each but `commit_all` and `done_all`, which leave what their commits and
/// dones leave in turn.
#[derive(Drop)]
pub enum Command {
    Commit(Gtrid, Vec<Branch>),
    Contains(Gtrid),
    Participants(Gtrid),
    Done(Gtrid),
    NoteHeuristic(Branch, How),
    HeuristicOf(Branch),
    Bump,
    Rows,
}

/// What a call of a decision log answers.
#[derive(Drop)]
pub enum Told {
    /// Of `commit`.
    Logged(Logged),
    /// Of `contains` and `done`.
    Found(bool),
    /// Of `participants`.
    Waiting(Vec<Branch>),
    /// Of `note_heuristic`.
    Noted,
    /// Of `heuristic_of`.
    Ended(Option<How>),
    /// Of `bump`.
    Incarnation(u64),
    /// Of `rows`.
    Rows(LogRows),
}

/// Makes one call.
fn run_one<L: DecisionLog>(log: &mut L, command: &Command) -> Result<Told, LogFault>
    requires { Fits command.now }
    ensures told { Honestly (L.moment log.old) (L.moment log.new)
        (IfOk result (λ told. IsSomeAnd (L.moment log.old).content (λ c.
        AnswersCommand c command.now told))) }
    ensures changes { Changes (content_after command.now) (L.moment log.old)
        (L.moment log.new) result }
    ensures cause { IfErr result (λ e. L.says (kind_of command.now) (content_after command.now)
        log.old log.new (Some e)) }
{
    match command {
        Command::Commit(g, participants) => {
            Ok(Told::Logged(log.commit(*g, participants.as_slice())?))
        }
        Command::Contains(g) => Ok(Told::Found(log.contains(*g)?)),
        Command::Participants(g) => Ok(Told::Waiting(log.participants(*g)?)),
        Command::Done(g) => Ok(Told::Found(log.done(*g)?)),
        Command::NoteHeuristic(b, how) => {
            log.note_heuristic(*b, *how)?;
            Ok(Told::Noted)
        }
        Command::HeuristicOf(b) => Ok(Told::Ended(log.heuristic_of(*b)?)),
        Command::Bump => Ok(Told::Incarnation(log.bump()?)),
        Command::Rows => Ok(Told::Rows(log.rows()?)),
    }
}

/// Makes these calls in turn, up to the first that fails, and answers what they were told. Two logs that held the same
/// hold the same afterwards, and tell the same. A failure has shut the log, or leaves what some first calls of these
/// have made. Its fault is that of the call that failed, after which none is made; or [`LogFault::Memory`] where no
/// memory was left for the answers and no call failed.
pub fn run_commands<L: DecisionLog>(
    alloc: Global,
    log: &mut L,
    commands: &[Command],
) -> Result<Vec<Told>, LogFault>
    requires { AllByRecursion Fits commands.now }
    // What is told and left: by calls that succeed, and by the first ones where one fails.
    ensures told { (c : Content) → Honestly (L.moment log.old)
        (L.moment log.new) ((L.moment log.old).content ≡ Some c →
        IfOk result (λ list. AreTold c commands.now list.items)) }
    ensures ok { (c : Content) → Honestly (L.moment log.old)
        (L.moment log.new) ((L.moment log.old).content ≡ Some c →
        OnOk result ((L.moment log.new).content ≡ Some (content_after_all commands.now c))) }
    ensures err { (c : Content) → Honestly (L.moment log.old)
        (L.moment log.new) ((L.moment log.old).content ≡ Some c →
        OnErr result (LeavesFirst commands.now c (L.moment log.new).content)) }
    // The two premises, handed on.
    ensures order { (L.moment log.old).is_in_order → (L.moment log.new).is_in_order }
    ensures honest { (L.moment log.new).is_honest → (L.moment log.old).is_honest }
    // Failures: how many, and which.
    ensures faults { OnOk result
        ((L.moment log.new).fault_count ≡ (L.moment log.old).fault_count) }
    ensures cause { IfErr result (EndsBy L.says L.moment commands.now
        log.old log.new) }
{
    let mut told = Vec::new(alloc);
    for command in commands {
        told.push(run_one(log, command)?)?;
    }
    Ok(told)
}
