//! What each table of a scenario file asks for, or what is wrong with it.

ghost use Rattle.std.specs.Prelude.{◌≡◌, codes, map, option_and_then};
ghost use Rattle.std.specs.Result.{result_ok};
ghost use Rattle.toml.specs.View.{table_view};
ghost use Rattle.xa_files.specs.Fields.{text_at};
ghost use Rattle.xa_scenario_file.specs.Tables.{entry_of, entry_in_table};
ghost use Rattle.xa_scenario_file.specs.Words.{entry_named};

use crate::begins::begin_row;
use crate::calls::{call_row, issue_row};
use crate::crashes::{crash_row, restart_row};
use crate::endings::{abandon_row, claim_row, decide_row, done_row, settle_row};
use crate::entry::Entry;
use crate::moves::{drain_row, hear_row, take_row};
use crate::recoveries::{recover_row, resolve_open_row, resolve_row};
use crate::scripts::{busy_entry, heuristic_entry, vote_entry};
use crate::words::{EntryKind, entry_named};
use toml::Table;
use xa_files::{Finding, meaning_at, text_at};

/// What a table of a kind asks for.
fn row_of<'a>(kind: EntryKind, table: &'a Table, begun: &[&str]) -> Result<Entry, Finding<'a>>
    ensures { result_ok result ≡ entry_in_table kind (map (λ name. name.now) begun.now)
        (table_view table.now) }
{
    match kind {
        EntryKind::Begin => begin_row(table, begun),
        EntryKind::Issue => issue_row(table, begun),
        EntryKind::Call => call_row(table, begun),
        EntryKind::Take => take_row(table),
        EntryKind::Hear => hear_row(table),
        EntryKind::Drain => drain_row(table),
        EntryKind::Vote => vote_entry(table, begun),
        EntryKind::Busy => busy_entry(table, begun),
        EntryKind::Heuristic => heuristic_entry(table, begun),
        EntryKind::Decide => decide_row(table, begun),
        EntryKind::Recover => recover_row(table),
        EntryKind::Resolve => resolve_row(table),
        EntryKind::Done => done_row(table, begun),
        EntryKind::Crash => crash_row(table),
        EntryKind::Restart => restart_row(table),
        EntryKind::Claim => claim_row(table, begun),
        EntryKind::Settle => settle_row(table, begun),
        EntryKind::Abandon => abandon_row(table, begun),
        EntryKind::ResolveOpen => resolve_open_row(table),
    }
}

/// The kind of the entry that a table is.
fn kind_at(table: &Table) -> Result<EntryKind, Finding<'_>>
    ensures { result_ok result
        ≡ option_and_then entry_named (text_at (codes "do") (table_view table.now)) }
{
    let word = text_at(table, "an entry", "do")?;
    meaning_at(table, "an entry", "do", entry_named(word))
}

/// What a table asks for, where `begun` are the names that were begun before it.
#[tactic(auto, unfolding(crate::specs::Tables::entry_of))]
pub fn entry_of<'a>(table: &'a Table, begun: &[&str]) -> Result<Entry, Finding<'a>>
    ensures { result_ok result
        ≡ entry_of (map (λ name. name.now) begun.now) (table_view table.now) }
{
    let kind = kind_at(table)?;
    row_of(kind, table, begun)
}
