//! The transactions and branches that a table names.

ghost use Rattle.std.specs.Prelude.{◌≡◌, map, position};
ghost use Rattle.std.specs.Result.{result_ok};
ghost use Rattle.std.specs.Str.{bytes_eq};
ghost use Rattle.toml.specs.View.{table_view};
ghost use Rattle.xa_scenario_file.specs.Branches.{begin_at, branch_at, branch_if_named, only_begin};

use crate::entry::BranchEntry;
use toml::Table;
use xa_files::{Finding, holds, index_or, name_at, only_keys};

/// Where a name stands among the names.
fn place_of(names: &[&str], name: &str) -> Option<usize>
    ensures { result ≡ position (bytes_eq name.now) (map (λ x. x.now) names.now) }
{
    names.iter().position(|other| name == *other)
}

/// Which `begin` begins the transaction that the table names.
pub fn begin_at<'a>(
    table: &'a Table,
    of: &'static str,
    begun: &[&str],
) -> Result<usize, Finding<'a>>
    ensures { result_ok result ≡ begin_at (map (λ name. name.now) begun.now)
        (table_view table.now) }
{
    let name = name_at(table, of, "tx")?;
    place_of(begun, name).ok_or(Finding::NotBegun(name))
}

/// The same, of a table that has no other key.
#[tactic(auto, unfolding(crate::specs::Branches::only_begin))]
pub fn only_begin<'a>(
    table: &'a Table,
    of: &'static str,
    begun: &[&str],
) -> Result<usize, Finding<'a>>
    ensures { result_ok result ≡ only_begin (map (λ name. name.now) begun.now)
        (table_view table.now) }
{
    only_keys(table, of, &["do", "tx"])?;
    begin_at(table, of, begun)
}

/// The branch that the table names.
#[tactic(auto, unfolding(crate::specs::Branches::branch_at))]
pub fn branch_at<'a>(
    table: &'a Table,
    of: &'static str,
    begun: &[&str],
    default: u32,
) -> Result<BranchEntry, Finding<'a>>
    ensures { result_ok result ≡ branch_at (map (λ name. name.now) begun.now) default
        (table_view table.now) }
{
    let begin = begin_at(table, of, begun)?;
    let thread = index_or(table, of, "of", default)?;
    Ok(BranchEntry { begin, thread })
}

/// The same, if the table may name none.
#[tactic(auto, unfolding(crate::specs::Branches::branch_if_named))]
pub fn branch_if_named<'a>(
    table: &'a Table,
    of: &'static str,
    begun: &[&str],
    default: u32,
) -> Result<Option<BranchEntry>, Finding<'a>>
    ensures { result_ok result ≡ branch_if_named (map (λ name. name.now) begun.now) default
        (table_view table.now) }
{
    if holds(table, "tx") {
        let branch = branch_at(table, of, begun, default)?;
        Ok(Some(branch))
    } else if holds(table, "of") {
        Err(Finding::NoTransaction)
    } else {
        Ok(None)
    }
}
