//! The tables that begin transactions.

ghost use Rattle.std.specs.Prelude.{◌≡◌, map, option_map};
ghost use Rattle.std.specs.Result.{result_ok};
ghost use Rattle.toml.specs.View.{table_view};
ghost use Rattle.xa_scenario_file.specs.Begins.{begin_row, name_begun};

use crate::entry::Entry;
use toml::Table;
use xa_files::{Finding, index_at, is_among, name_at, only_keys, text_at};

/// What a `begin` asks for: a name that wasn't begun before.
#[tactic(auto, unfolding(crate::specs::Begins::begin_row))]
pub fn begin_row<'a>(table: &'a Table, begun: &[&str]) -> Result<Entry, Finding<'a>>
    ensures { result_ok result ≡ begin_row (map (λ name. name.now) begun.now)
        (table_view table.now) }
{
    let of = "a begin";
    only_keys(table, of, &["do", "thread", "tx"])?;
    let thread = index_at(table, of, "thread")?;
    let name = name_at(table, of, "tx")?;
    if is_among(begun, name) {
        Err(Finding::BegunBefore(name))
    } else {
        Ok(Entry::Begin { thread })
    }
}

/// The name that a table begins.
#[tactic(auto, unfolding(crate::specs::Begins::name_begun))]
pub fn name_begun(table: &Table) -> Option<&str>
    ensures { option_map (λ name. name.now) result ≡ name_begun (table_view table.now) }
{
    match text_at(table, "an entry", "do").ok()? {
        "begin" => name_at(table, "a begin", "tx").ok(),
        _ => None,
    }
}
