//! What the rows of a log ask of an operator.

ghost use Rattle.std.specs.Prelude.{◌≡◌, ◌++◌, IfErr, IfOk, OnOk};
ghost use Rattle.std.specs.List.{flat_map};
ghost use Rattle.std.specs.String.{string_bytes};
ghost use Rattle.xa_files.specs.declared.fault.RunFault.TheVariants.{Memory};
ghost use Rattle.xa_listing.specs.Asks.{commit_lines, decision_asks, ends_asked, hint, place_line, rows_asks, statement_line, waits_line, waits_text};
ghost use Rattle.xa_listing.specs.Ends.{against_commit, own_end_line, own_end_text, lists_decision, without_row};
ghost use Rattle.xa_listing.specs.Lines.{row_lines};

use crate::lines::own_count;
use crate::statements::{mariadb_commit, postgresql_commit};
use std::alloc::Global;
use xa_base::{Branch, Gtrid, How};
use xa_files::RunFault;
use xa_log::LogRows;

const NOTHING: &str = "Nothing waits: the log has no row and no record.\n";

/// What ends the branches that rows name.
const ENDED_BY: &str =
    "A service over this log commits these branches at its next start, and each as \
    soon as its database is back. By hand it is done only where that can't wait, and where the \
    database still lists the branch: in pg_prepared_xacts, or by XA RECOVER. Nothing waits for a \
    row that xatm run or xatm threads left: its branches ended with that program.\n";

/// How a transaction that is decided to commit waits for so many branches.
fn waits_text(alloc: Global, count: usize) -> Result<String, RunFault>
    ensures text { IfOk result (λ text. string_bytes text ≡ waits_text count) }
    ensures fault { IfErr result (λ e. e ≡ Memory) }
{
    match count {
        0 => Ok(format!(in alloc; "names no branch.")?),
        1 => Ok(format!(in alloc; "waits for 1 branch:")?),
        _ => Ok(format!(in alloc; "waits for {count} branches:")?),
    }
}

/// What is told of a transaction that is decided to commit.
fn waits_line(alloc: Global, g: Gtrid, count: usize) -> Result<String, RunFault>
    ensures text { IfOk result (λ text. string_bytes text ≡ waits_line g count) }
    ensures fault { IfErr result (λ e. e ≡ Memory) }
{
    let name = g.text(alloc)?;
    let waits = waits_text(alloc, count)?;
    Ok(format!(in alloc; "{name} is decided to commit, and its row {waits}\n")?)
}

/// Where a branch is that a row waits for.
fn place_line(alloc: Global, branch: &Branch) -> Result<String, RunFault>
    ensures text { IfOk result (λ text. string_bytes text ≡ place_line branch.now) }
    ensures fault { IfErr result (λ e. e ≡ Memory) }
{
    let rm = branch.rm;
    let name = branch.xid().text(alloc)?;
    let front = format!(in alloc; "    {name} at resource manager ")?;
    Ok(format!(in alloc; "{front}{rm}\n")?)
}

/// A statement of a database.
fn statement_line(alloc: Global, database: &str, statement: &str) -> Result<String, RunFault>
    ensures text { IfOk result (λ text.
        string_bytes text ≡ statement_line database.now statement.now) }
    ensures fault { IfErr result (λ e. e ≡ Memory) }
{
    let front = format!(in alloc; "        {database}: ")?;
    Ok(format!(in alloc; "{front}{statement}\n")?)
}

/// Where a branch is that a row waits for, and the statements that commit it.
fn commit_lines(alloc: Global, manager: &[u8], branch: &Branch) -> Result<String, RunFault>
    ensures text { IfOk result (λ text.
        string_bytes text ≡ commit_lines manager.now branch.now) }
    ensures fault { IfErr result (λ e. e ≡ Memory) }
{
    let xid = branch.xid();
    let postgresql = postgresql_commit(alloc, manager, &xid)?;
    let mariadb = mariadb_commit(alloc, manager, &xid)?;
    let mut text = place_line(alloc, branch)?;
    text.push_str(statement_line(alloc, "PostgreSQL", postgresql.as_str())?.as_str())?;
    text.push_str(statement_line(alloc, "MariaDB", mariadb.as_str())?.as_str())?;
    Ok(text)
}

/// What a heuristic end is to a decision to commit.
fn against_commit(how: How) -> &'static str
    ensures { result.now ≡ against_commit how }
{
    match how {
        How::Com => "committed, as was decided: nothing is left to do",
        How::Rb => "rolled back, against the decision to commit: do its work again there, or undo \
            that of the other branches",
        How::Mix => "committed in part, and the rest rolled back against the decision to commit: \
            look which part is lacking there",
        How::Haz => "perhaps rolled back, against the decision to commit: look what is there",
    }
}

/// What a heuristic end is to a transaction without a row: that was rolled back, or is committed and over.
fn without_row(how: How) -> &'static str
    ensures { result.now ≡ without_row how }
{
    match how {
        How::Com => "committed. Its transaction has no row: it was rolled back, or is committed \
            and over. If another branch of it is rolled back, undo the work of this one",
        How::Rb => "rolled back. Its transaction has no row: it was rolled back, or is committed \
            and over. If another branch of it is committed, do the work of this one again",
        How::Mix => "committed in part. Its transaction has no row: it was rolled back, or is \
            committed and over. Look how another branch of it ended, and make this one alike",
        How::Haz => "perhaps ended. Its transaction has no row: it was rolled back, or is \
            committed and over. Look what is there, and how another branch of it ended",
    }
}

/// Whether a transaction has a row among these.
fn lists_decision(decisions: &[Gtrid], gtrid: Gtrid) -> bool
    ensures { result ≡ lists_decision decisions.now gtrid }
{
    decisions.contains(&gtrid)
}

/// What a heuristic end is to its transaction, by whether that has a row.
fn own_end_text(how: How, is_listed: bool) -> &'static str
    ensures { result.now ≡ own_end_text how is_listed }
{
    if is_listed {
        against_commit(how)
    } else {
        without_row(how)
    }
}

/// What there is to do about a branch that its resource manager has ended by itself.
fn heuristic_text(
    alloc: Global,
    row: &(Branch, How),
    decisions: &[Gtrid],
) -> Result<String, RunFault>
    ensures text { IfOk result (λ text. string_bytes text ≡ own_end_line row.now
        (lists_decision decisions.now row.now.0.gtrid)) }
    ensures fault { IfErr result (λ e. e ≡ Memory) }
{
    let (branch, how) = row;
    let rm = branch.rm;
    let name = branch.xid().text(alloc)?;
    let what = own_end_text(*how, lists_decision(decisions, branch.gtrid));
    Ok(format!(in alloc; "{name} was ended by resource manager {rm} itself: {what}\n")?)
}

/// Adds where these branches are, and the statements that commit them.
fn push_branches(
    text: &mut String,
    alloc: Global,
    manager: &[u8],
    branches: &[Branch],
) -> Result<(), RunFault>
    ensures text { OnOk result (string_bytes text.new ≡
        string_bytes text.old ++ flat_map (commit_lines manager.now) branches.now) }
    ensures fault { IfErr result (λ e. e ≡ Memory) }
{
    for branch in branches {
        let lines = commit_lines(alloc, manager, branch)?;
        text.push_str(lines.as_str())?;
    }
    Ok(())
}

/// Adds what there is to do about the transactions. The participants are listed transaction by
/// transaction, in the same order.
fn push_decisions(
    text: &mut String,
    alloc: Global,
    manager: &[u8],
    decisions: &[Gtrid],
    participants: &[Branch],
) -> Result<(), RunFault>
    ensures text { OnOk result (string_bytes text.new ≡ string_bytes text.old
        ++ row_lines (decision_asks manager.now) decisions.now participants.now) }
    ensures fault { IfErr result (λ e. e ≡ Memory) }
{
    let mut rest = participants;
    for g in decisions {
        let (own, later) = rest.split_at(own_count(*g, rest));
        let line = waits_line(alloc, *g, own.len())?;
        text.push_str(line.as_str())?;
        push_branches(text, alloc, manager, own)?;
        rest = later;
    }
    Ok(())
}

/// Adds what there is to do about the branches that their resource managers have ended.
fn push_ends(
    text: &mut String,
    alloc: Global,
    decisions: &[Gtrid],
    heuristics: &[(Branch, How)],
) -> Result<(), RunFault>
    ensures text { OnOk result (string_bytes text.new ≡
        string_bytes text.old ++ ends_asked decisions.now heuristics.now) }
    ensures fault { IfErr result (λ e. e ≡ Memory) }
{
    for row in heuristics {
        let line = heuristic_text(alloc, row, decisions)?;
        text.push_str(line.as_str())?;
    }
    Ok(())
}

/// What ends the branches that are waited for, if there are some.
fn hint(participants: &[Branch]) -> &'static str
    ensures { result.now ≡ hint participants.now }
{
    if participants.is_empty() {
        ""
    } else {
        ENDED_BY
    }
}

/// What the rows of a log ask of an operator. The statements name branches as the manager of this name does.
pub fn asks_text(manager: &[u8], rows: &LogRows) -> Result<String, RunFault>
    ensures text { IfOk result (λ text. string_bytes text ≡ rows_asks manager.now
        rows.now.decisions.items rows.now.participants.items rows.now.heuristics.items) }
    ensures fault { IfErr result (λ e. e ≡ Memory) }
{
    let alloc = *rows.decisions.allocator();
    let mut text = String::new(alloc);
    push_decisions(
        &mut text,
        alloc,
        manager,
        &rows.decisions,
        &rows.participants,
    )?;
    push_ends(&mut text, alloc, &rows.decisions, &rows.heuristics)?;
    text.push_str(hint(&rows.participants))?;
    if text.is_empty() {
        text.push_str(NOTHING)?;
    }
    Ok(text)
}
