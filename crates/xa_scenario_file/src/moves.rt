//! The tables that move calls and answers along a line.

ghost use Rattle.std.specs.Prelude.{◌≡◌};
ghost use Rattle.std.specs.Result.{result_ok};
ghost use Rattle.toml.specs.View.{table_view};
ghost use Rattle.xa_scenario_file.specs.Moves.{drain_row, hear_row, line_in_table, only_line, take_row};

use crate::entry::Entry;
use toml::Table;
use xa_files::{Finding, index_at, only_keys};

/// The line that a table names, by its thread and its resource manager.
#[tactic(auto, unfolding(crate::specs::Moves::line_in_table))]
pub fn line_at<'a>(table: &'a Table, of: &'static str) -> Result<(u32, u32), Finding<'a>>
    ensures { result_ok result ≡ line_in_table (table_view table.now) }
{
    let thread = index_at(table, of, "thread")?;
    let rm = index_at(table, of, "rm")?;
    Ok((thread, rm))
}

/// The same, of a table that has no other keys.
#[tactic(auto, unfolding(crate::specs::Moves::only_line))]
fn only_line<'a>(table: &'a Table, of: &'static str) -> Result<(u32, u32), Finding<'a>>
    ensures { result_ok result ≡ only_line (table_view table.now) }
{
    only_keys(table, of, &["do", "thread", "rm"])?;
    line_at(table, of)
}

/// What a `take` asks for.
pub fn take_row<'a>(table: &'a Table) -> Result<Entry, Finding<'a>>
    ensures { result_ok result ≡ take_row (table_view table.now) }
{
    let (thread, rm) = only_line(table, "a take")?;
    Ok(Entry::Take { thread, rm })
}

/// What a `hear` asks for.
pub fn hear_row<'a>(table: &'a Table) -> Result<Entry, Finding<'a>>
    ensures { result_ok result ≡ hear_row (table_view table.now) }
{
    let (thread, rm) = only_line(table, "a hear")?;
    Ok(Entry::Hear { thread, rm })
}

/// What a `drain` asks for.
pub fn drain_row<'a>(table: &'a Table) -> Result<Entry, Finding<'a>>
    ensures { result_ok result ≡ drain_row (table_view table.now) }
{
    let (thread, rm) = only_line(table, "a drain")?;
    Ok(Entry::Drain { thread, rm })
}
