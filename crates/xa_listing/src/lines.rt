//! The lines of a log's rows.

ghost use Rattle.std.specs.Prelude.{◌≡◌, ◌≤◌, ◌++◌, IfErr, IfOk, OnOk, length};
ghost use Rattle.std.specs.String.{string_bytes};
ghost use Rattle.xa_files.specs.declared.fault.RunFault.TheVariants.{Memory};
ghost use Rattle.xa_listing.specs.Lines.{decision_lines, heuristic_lines, own_count, rows_text};
ghost use Rattle.xa_listing.specs.Texts.{count_line, heuristic_line};

use std::alloc::Global;
use xa_base::{Branch, Fate, Gtrid, How};
use xa_files::{RunFault, fate_line};
use xa_log::LogRows;

/// How many of the branches, from the first on, are of the transaction.
pub(crate) fn own_count(g: Gtrid, branches: &[Branch]) -> usize
    ensures count { result ≡ own_count g branches.now }
    ensures within { result ≤ length branches.now }
{
    branches.iter().take_while(|b| b.gtrid == g).count()
}

/// The line of a transaction that waits for so many branches.
fn count_line(alloc: Global, g: Gtrid, count: usize) -> Result<String, RunFault>
    ensures text { IfOk result (λ text. string_bytes text ≡ count_line g count) }
    ensures fault { IfErr result (λ e. e ≡ Memory) }
{
    let name = g.text(alloc)?;
    Ok(format!(in alloc; "{name} {count}\n")?)
}

/// The line of a branch that is recorded as heuristic.
fn heuristic_line(alloc: Global, row: &(Branch, How)) -> Result<String, RunFault>
    ensures text { IfOk result (λ text. string_bytes text ≡ heuristic_line row.now) }
    ensures fault { IfErr result (λ e. e ≡ Memory) }
{
    let (b, how) = row;
    fate_line(alloc, &(b.xid(), Fate::Heuristic(*how)))
}

/// Adds a line for each transaction. The participants are listed transaction by transaction, in the
/// same order.
fn push_decisions(
    text: &mut String,
    alloc: Global,
    decisions: &[Gtrid],
    participants: &[Branch],
) -> Result<(), RunFault>
    ensures text { OnOk result (string_bytes text.new ≡
        string_bytes text.old ++ decision_lines decisions.now participants.now) }
    ensures fault { IfErr result (λ e. e ≡ Memory) }
{
    let mut rest = participants;
    for g in decisions {
        let (own, later) = rest.split_at(own_count(*g, rest));
        let line = count_line(alloc, *g, own.len())?;
        text.push_str(line.as_str())?;
        rest = later;
    }
    Ok(())
}

/// Adds a line for each branch that is recorded as heuristic.
fn push_heuristics(
    text: &mut String,
    alloc: Global,
    heuristics: &[(Branch, How)],
) -> Result<(), RunFault>
    ensures text { OnOk result (string_bytes text.new ≡
        string_bytes text.old ++ heuristic_lines heuristics.now) }
    ensures fault { IfErr result (λ e. e ≡ Memory) }
{
    for row in heuristics {
        let line = heuristic_line(alloc, row)?;
        text.push_str(line.as_str())?;
    }
    Ok(())
}

/// The text of a log's rows.
pub fn rows_text(rows: &LogRows) -> Result<String, RunFault>
    ensures text { IfOk result (λ text. string_bytes text ≡
        rows_text rows.now.decisions.items rows.now.participants.items rows.now.heuristics.items) }
    ensures fault { IfErr result (λ e. e ≡ Memory) }
{
    let alloc = *rows.decisions.allocator();
    let mut text = String::new(alloc);
    push_decisions(&mut text, alloc, &rows.decisions, &rows.participants)?;
    push_heuristics(&mut text, alloc, &rows.heuristics)?;
    Ok(text)
}
