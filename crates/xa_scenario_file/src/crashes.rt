//! The tables by which parts crash and are started again.

ghost use Rattle.std.specs.Prelude.{◌≡◌};
ghost use Rattle.std.specs.Result.{result_ok};
ghost use Rattle.toml.specs.View.{table_view};
ghost use Rattle.xa_scenario_file.specs.Crashes.{crash_row, part_kind_at, restart_row};

use crate::entry::Entry;
use crate::moves::line_at;
use crate::words::{PartKind, part_named};
use toml::Table;
use xa_base::{Part, Side};
use xa_files::{Finding, index_at, meaning_at, only_keys, text_at};

/// The kind of the part that a table names.
fn part_kind_at<'a>(table: &'a Table, of: &'static str) -> Result<PartKind, Finding<'a>>
    ensures { result_ok result ≡ part_kind_at (table_view table.now) }
{
    let word = text_at(table, of, "part")?;
    meaning_at(table, of, "part", part_named(word))
}

/// What a `crash` asks for.
#[tactic(auto, unfolding(crate::specs::Crashes::crash_row))]
pub fn crash_row<'a>(table: &'a Table) -> Result<Entry, Finding<'a>>
    ensures { result_ok result ≡ crash_row (table_view table.now) }
{
    match part_kind_at(table, "a crash")? {
        PartKind::Line => {
            let of = "a crash of a line";
            only_keys(table, of, &["do", "part", "thread", "rm"])?;
            let (thread, rm) = line_at(table, of)?;
            Ok(Entry::Crash(Part::Line { thread, rm }))
        }
        PartKind::Rm => {
            let of = "a crash of a resource manager";
            only_keys(table, of, &["do", "part", "rm"])?;
            let rm = index_at(table, of, "rm")?;
            Ok(Entry::Crash(Part::Rm { rm }))
        }
        PartKind::Manager => {
            only_keys(table, "a crash of the manager", &["do", "part"])?;
            Ok(Entry::Crash(Part::Manager))
        }
    }
}

/// What a `restart` asks for.
#[tactic(auto, unfolding(crate::specs::Crashes::restart_row))]
pub fn restart_row<'a>(table: &'a Table) -> Result<Entry, Finding<'a>>
    ensures { result_ok result ≡ restart_row (table_view table.now) }
{
    match part_kind_at(table, "a restart")? {
        PartKind::Line => Err(Finding::RestartOfLine),
        PartKind::Rm => {
            let of = "a restart of a resource manager";
            only_keys(table, of, &["do", "part", "rm"])?;
            let rm = index_at(table, of, "rm")?;
            Ok(Entry::Restart(Side::Rm { rm }))
        }
        PartKind::Manager => {
            only_keys(table, "a restart of the manager", &["do", "part"])?;
            Ok(Entry::Restart(Side::Manager))
        }
    }
}
