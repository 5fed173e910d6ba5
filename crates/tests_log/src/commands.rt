//! Each call of a log, made with success, and worked answers, which are the same of every log.
//!
//! Each call is one of a function with no clause, so that the proof of a test carries none.

ghost use Rattle.std.specs.Prelude.{◌≡◌, IfOk};
ghost use Rattle.std.specs.List.{AllByRecursion};
ghost use Rattle.xa_log.specs.Contract.{FitsRow};

use std::alloc::Global;
use xa_base::{Branch, Gtrid, How};
use xa_log::{Decision, DecisionLog, LogFault, LogRows, Logged};

pub(crate) const FIRST: Gtrid = Gtrid {
    incarnation: 1,
    sequence: 2,
};

const SECOND: Gtrid = Gtrid {
    incarnation: 1,
    sequence: 10,
};

const THIRD: Gtrid = Gtrid {
    incarnation: 2,
    sequence: 1,
};

const FIRST_A: Branch = Branch {
    gtrid: FIRST,
    thread: 0,
    rm: 1,
};

const FIRST_B: Branch = Branch {
    gtrid: FIRST,
    thread: 1,
    rm: 0,
};

const SECOND_A: Branch = Branch {
    gtrid: SECOND,
    thread: 0,
    rm: 0,
};

fn commit<L: DecisionLog>(
    log: &mut L,
    g: Gtrid,
    participants: &[Branch],
) -> Result<Logged, LogFault>
    requires fits { FitsRow g }
    requires own { AllByRecursion (λ b. b.gtrid ≡ g) participants.now }
{
    log.commit(g, participants)
}

pub(crate) fn contains<L: DecisionLog>(log: &mut L, g: Gtrid) -> Result<bool, LogFault>
    requires { FitsRow g }
{
    log.contains(g)
}

pub(crate) fn participants<L: DecisionLog>(log: &mut L, g: Gtrid) -> Result<Vec<Branch>, LogFault>
    requires { FitsRow g }
{
    log.participants(g)
}

fn done<L: DecisionLog>(log: &mut L, g: Gtrid) -> Result<bool, LogFault>
    requires { FitsRow g }
{
    log.done(g)
}

fn note_heuristic<L: DecisionLog>(log: &mut L, b: Branch, how: How) -> Result<(), LogFault>
    requires { FitsRow b.gtrid }
{
    log.note_heuristic(b, how)
}

fn heuristic_of<L: DecisionLog>(log: &mut L, b: Branch) -> Result<Option<How>, LogFault>
    requires { FitsRow b.gtrid }
{
    log.heuristic_of(b)
}

fn bump<L: DecisionLog>(log: &mut L) -> Result<u64, LogFault> {
    log.bump()
}

pub(crate) fn rows<L: DecisionLog>(log: &mut L) -> Result<LogRows, LogFault> {
    log.rows()
}

/// A decision with these participants.
fn decision(alloc: Global, g: Gtrid, participants: &[Branch]) -> Result<Decision, LogFault>
    requires fits { FitsRow g }
    requires own { AllByRecursion (λ b. b.gtrid ≡ g) participants.now }
    ensures fits { IfOk result (λ d. FitsRow d.gtrid) }
    ensures own { IfOk result (λ d.
        AllByRecursion (λ b. b.gtrid ≡ d.gtrid) d.participants.items) }
{
    Ok(Decision {
        gtrid: g,
        participants: Vec::from_slice(alloc, participants)?,
    })
}

fn commit_all<L: DecisionLog>(
    log: &mut L,
    alloc: Global,
    decisions: &[Decision],
) -> Result<Vec<Logged>, LogFault>
    requires fits { AllByRecursion (λ d. FitsRow d.gtrid) decisions.now }
    requires own { AllByRecursion (λ d.
        AllByRecursion (λ b. b.gtrid ≡ d.gtrid) d.participants.items) decisions.now }
{
    log.commit_all(alloc, decisions)
}

fn done_all<L: DecisionLog>(log: &mut L, gtrids: &[Gtrid]) -> Result<(), LogFault>
    requires { AllByRecursion FitsRow gtrids.now }
{
    log.done_all(gtrids)
}

/// Whether each call succeeds at an empty log of no incarnation, and those that are worked out here
/// answer so.
pub(crate) fn answers_each_call<L: DecisionLog>(
    log: &mut L,
    alloc: Global,
) -> Result<bool, LogFault> {
    Ok(
        commits(log)?
            && commits_lists(log, alloc)?
            && notes(log)?
            && raises(log)?
            && has_rows(log)?
            && takes_away(log)?
            && takes_lists_away(log)?
            && log.faults() == 0,
    )
}

/// Leaves the decision FIRST, whose participants are listed in their order. A row that is there
/// stays with its own.
fn commits<L: DecisionLog>(log: &mut L) -> Result<bool, LogFault> {
    Ok(
        matches!(commit(log, FIRST, &[FIRST_B, FIRST_A])?, Logged::New)
            && matches!(commit(log, FIRST, &[])?, Logged::Already)
            && participants(log, FIRST)?.as_slice() == [FIRST_A, FIRST_B].as_slice(),
    )
}

/// Writes a list at a log that has FIRST: SECOND, FIRST again, and SECOND once more.
fn write_three<L: DecisionLog>(log: &mut L, alloc: Global) -> Result<Vec<Logged>, LogFault> {
    let decisions = [
        decision(alloc, SECOND, &[SECOND_A])?,
        decision(alloc, FIRST, &[])?,
        decision(alloc, SECOND, &[])?,
    ];
    commit_all(log, alloc, &decisions)
}

/// Leaves SECOND beside FIRST. A list may be empty.
fn commits_lists<L: DecisionLog>(log: &mut L, alloc: Global) -> Result<bool, LogFault> {
    let expected = [Logged::New, Logged::Already, Logged::Already];
    Ok(
        write_three(log, alloc)?.as_slice() == expected.as_slice()
            && commit_all(log, alloc, &[])?.is_empty(),
    )
}

/// Leaves the heuristic end of FIRST_B. Another isn't kept.
fn notes<L: DecisionLog>(log: &mut L) -> Result<bool, LogFault> {
    note_heuristic(log, FIRST_B, How::Rb)?;
    note_heuristic(log, FIRST_B, How::Com)?;
    Ok(
        matches!(heuristic_of(log, FIRST_B)?, Some(How::Rb))
            && heuristic_of(log, FIRST_A)?.is_none(),
    )
}

/// The incarnation is raised, and raised again.
fn raises<L: DecisionLog>(log: &mut L) -> Result<bool, LogFault> {
    Ok(bump(log)? == 1 && bump(log)? == 2)
}

/// Whether a log has all that was left.
fn has_rows<L: DecisionLog>(log: &mut L) -> Result<bool, LogFault> {
    let rows = rows(log)?;
    Ok(
        rows.decisions.as_slice() == [FIRST, SECOND].as_slice()
            && rows.participants.as_slice() == [FIRST_A, FIRST_B, SECOND_A].as_slice()
            && rows.heuristics.as_slice() == [(FIRST_B, How::Rb)].as_slice(),
    )
}

/// FIRST is taken away. It isn't there to be taken away again.
fn takes_away<L: DecisionLog>(log: &mut L) -> Result<bool, LogFault> {
    Ok(done(log, FIRST)? && !done(log, FIRST)? && !contains(log, FIRST)?)
}

/// SECOND, which is named twice, is taken away, beside a transaction that isn't there. A list may
/// be empty.
fn takes_lists_away<L: DecisionLog>(log: &mut L) -> Result<bool, LogFault> {
    if !contains(log, SECOND)? {
        return Ok(false);
    }
    done_all(log, &[SECOND, THIRD, SECOND])?;
    done_all(log, &[])?;
    Ok(!contains(log, SECOND)?)
}
