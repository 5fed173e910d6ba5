//! The tables that recover branches in doubt.

ghost use Rattle.std.specs.Prelude.{◌≡◌};
ghost use Rattle.std.specs.Result.{result_ok};
ghost use Rattle.toml.specs.View.{table_view};
ghost use Rattle.xa_scenario_file.specs.Recoveries.{only_rm, recover_row, resolve_open_row, resolve_row, scan_of_flags};

use crate::entry::Entry;
use crate::flags::flags_at;
use toml::Table;
use xa_base::{TMENDRSCAN, TMNOFLAGS, TMSTARTRSCAN};
use xa_files::{Finding, index_at, integer_at, only_keys};

/// The flags of a scan that begins and ends with one call.
const WHOLE_SCAN: u32 = TMSTARTRSCAN + TMENDRSCAN;

/// Whether a scan begins, and whether it ends, by these flags of an xa_recover.
fn scan_of_flags<'a>(flags: u32) -> Result<(bool, bool), Finding<'a>>
    ensures { result_ok result ≡ scan_of_flags flags }
{
    if flags == TMNOFLAGS {
        Ok((false, false))
    } else if flags == TMENDRSCAN {
        Ok((false, true))
    } else if flags == TMSTARTRSCAN {
        Ok((true, false))
    } else if flags == WHOLE_SCAN {
        Ok((true, true))
    } else {
        Err(Finding::FlagsOfRecovery)
    }
}

/// What a `recover` asks for.
#[tactic(auto, unfolding(crate::specs::Recoveries::recover_row))]
pub fn recover_row<'a>(table: &'a Table) -> Result<Entry, Finding<'a>>
    ensures { result_ok result ≡ recover_row (table_view table.now) }
{
    let of = "a recover";
    only_keys(table, of, &["do", "rm", "count", "flags"])?;
    let rm = index_at(table, of, "rm")?;
    let count = integer_at(table, of, "count")?;
    let flags = flags_at(table)?;
    let (start_scan, end_scan) = scan_of_flags(flags)?;
    Ok(Entry::Recover {
        rm,
        count,
        start_scan,
        end_scan,
    })
}

/// The resource manager of a table that has no other key.
#[tactic(auto, unfolding(crate::specs::Recoveries::only_rm))]
fn only_rm<'a>(table: &'a Table, of: &'static str) -> Result<u32, Finding<'a>>
    ensures { result_ok result ≡ only_rm (table_view table.now) }
{
    only_keys(table, of, &["do", "rm"])?;
    index_at(table, of, "rm")
}

/// What a `resolve` asks for.
pub fn resolve_row<'a>(table: &'a Table) -> Result<Entry, Finding<'a>>
    ensures { result_ok result ≡ resolve_row (table_view table.now) }
{
    let rm = only_rm(table, "a resolve")?;
    Ok(Entry::Resolve { rm })
}

/// What a `resolve-open` asks for.
pub fn resolve_open_row<'a>(table: &'a Table) -> Result<Entry, Finding<'a>>
    ensures { result_ok result ≡ resolve_open_row (table_view table.now) }
{
    let rm = only_rm(table, "a resolve-open")?;
    Ok(Entry::ResolveOpen { rm })
}
