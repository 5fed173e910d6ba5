//! The tables that make calls.

ghost use Rattle.std.specs.Prelude.{◌≡◌, codes, map, option_and_then};
ghost use Rattle.std.specs.Result.{result_ok};
ghost use Rattle.toml.specs.View.{table_view};
ghost use Rattle.xa_base.specs.Call.{call_with};
ghost use Rattle.xa_files.specs.Fields.{text_at};
ghost use Rattle.xa_files.specs.Words.{call_named};
ghost use Rattle.xa_scenario_file.specs.Calls.{call_at, call_row, count_at, issue_row};

use crate::branches::branch_if_named;
use crate::entry::{BranchEntry, Entry};
use crate::flags::flags_at;
use toml::Table;
use xa_base::{Call, CallKind};
use xa_files::{Finding, call_named, holds, index_at, integer_at, meaning_at, only_keys, text_at};

const CALL_KEYS: [&str; 8] = ["do", "thread", "rm", "xa", "tx", "of", "flags", "count"];

/// The count that the table gives, if it gives one.
#[tactic(auto, unfolding(crate::specs::Calls::count_at))]
fn count_at<'a>(table: &'a Table, of: &'static str) -> Result<Option<i64>, Finding<'a>>
    ensures { result_ok result ≡ count_at (table_view table.now) }
{
    if holds(table, "count") {
        let count = integer_at(table, of, "count")?;
        Ok(Some(count))
    } else {
        Ok(None)
    }
}

/// The kind of the call.
fn kind_at<'a>(table: &'a Table, of: &'static str) -> Result<CallKind, Finding<'a>>
    ensures { result_ok result
        ≡ option_and_then call_named (text_at (codes "xa") (table_view table.now)) }
{
    let word = text_at(table, of, "xa")?;
    meaning_at(table, of, "xa", call_named(word))
}

/// Whether a call of this kind names a branch.
fn names_branch(kind: CallKind) -> bool {
    !matches!(
        kind,
        CallKind::OpenRm | CallKind::CloseRm | CallKind::Recover
    )
}

/// Why there is no call of these parts.
fn misfit(kind: CallKind, has_branch: bool, has_count: bool) -> Finding<'static> {
    if names_branch(kind) && !has_branch {
        Finding::NeedsBranch(kind)
    } else if has_branch && !names_branch(kind) {
        Finding::NamesNoBranch(kind)
    } else if kind == CallKind::Recover && !has_count {
        Finding::NeedsCount
    } else if has_count && kind != CallKind::Recover {
        Finding::HasNoCount(kind)
    } else {
        Finding::FlagsOfCall(kind)
    }
}

/// The call of these parts.
fn call_of<'a>(
    kind: CallKind,
    branch: Option<BranchEntry>,
    flags: u32,
    count: Option<i64>,
) -> Result<Call<BranchEntry>, Finding<'a>>
    ensures { result_ok result ≡ call_with kind branch flags count }
{
    let found = misfit(kind, branch.is_some(), count.is_some());
    match Call::with(kind, branch, flags, count) {
        Ok(call) => Ok(call),
        Err(_) => Err(found),
    }
}

/// The call of a table that has no other keys, with the thread and the resource manager of its
/// line.
#[tactic(auto, unfolding(crate::specs::Calls::call_at))]
fn call_at<'a>(
    table: &'a Table,
    of: &'static str,
    begun: &[&str],
) -> Result<(u32, u32, Call<BranchEntry>), Finding<'a>>
    ensures { result_ok result ≡ call_at (map (λ name. name.now) begun.now)
        (table_view table.now) }
{
    only_keys(table, of, &CALL_KEYS)?;
    let thread = index_at(table, of, "thread")?;
    let rm = index_at(table, of, "rm")?;
    let kind = kind_at(table, of)?;
    let branch = branch_if_named(table, of, begun, thread)?;
    let flags = flags_at(table)?;
    let count = count_at(table, of)?;
    let call = call_of(kind, branch, flags, count)?;
    Ok((thread, rm, call))
}

/// What an `issue` asks for.
pub fn issue_row<'a>(table: &'a Table, begun: &[&str]) -> Result<Entry, Finding<'a>>
    ensures { result_ok result ≡ issue_row (map (λ name. name.now) begun.now)
        (table_view table.now) }
{
    let (thread, rm, call) = call_at(table, "an issue", begun)?;
    Ok(Entry::Issue { thread, rm, call })
}

/// What a `call` asks for.
pub fn call_row<'a>(table: &'a Table, begun: &[&str]) -> Result<Entry, Finding<'a>>
    ensures { result_ok result ≡ call_row (map (λ name. name.now) begun.now)
        (table_view table.now) }
{
    let (thread, rm, call) = call_at(table, "a call", begun)?;
    Ok(Entry::Call { thread, rm, call })
}
