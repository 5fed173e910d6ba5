//! The tables that decide transactions and end them.

ghost use Rattle.std.specs.Prelude.{◌≡◌, codes, map, option_and_then};
ghost use Rattle.std.specs.Result.{result_ok};
ghost use Rattle.toml.specs.View.{table_view};
ghost use Rattle.xa_files.specs.Fields.{text_at};
ghost use Rattle.xa_files.specs.Words.{outcome_named};
ghost use Rattle.xa_scenario_file.specs.Endings.{abandon_row, claim_row, decide_row, done_row, settle_row};

use crate::branches::{begin_at, only_begin};
use crate::entry::{Ending, Entry};
use toml::Table;
use xa_base::Outcome;
use xa_files::{Finding, meaning_at, only_keys, outcome_named, text_at};

/// The outcome of a decision.
fn outcome_at<'a>(table: &'a Table) -> Result<Outcome, Finding<'a>>
    ensures { result_ok result
        ≡ option_and_then outcome_named (text_at (codes "outcome") (table_view table.now)) }
{
    let word = text_at(table, "a decide", "outcome")?;
    meaning_at(table, "a decide", "outcome", outcome_named(word))
}

/// What a `decide` asks for.
#[tactic(auto, unfolding(crate::specs::Endings::decide_row))]
pub fn decide_row<'a>(table: &'a Table, begun: &[&str]) -> Result<Entry, Finding<'a>>
    ensures { result_ok result ≡ decide_row (map (λ name. name.now) begun.now)
        (table_view table.now) }
{
    only_keys(table, "a decide", &["do", "tx", "outcome"])?;
    let begin = begin_at(table, "a decide", begun)?;
    let outcome = outcome_at(table)?;
    Ok(Entry::End {
        begin,
        ending: Ending::Decide(outcome),
    })
}

/// What a `done` asks for.
pub fn done_row<'a>(table: &'a Table, begun: &[&str]) -> Result<Entry, Finding<'a>>
    ensures { result_ok result ≡ done_row (map (λ name. name.now) begun.now)
        (table_view table.now) }
{
    let begin = only_begin(table, "a done", begun)?;
    Ok(Entry::End {
        begin,
        ending: Ending::Done,
    })
}

/// What a `claim` asks for.
pub fn claim_row<'a>(table: &'a Table, begun: &[&str]) -> Result<Entry, Finding<'a>>
    ensures { result_ok result ≡ claim_row (map (λ name. name.now) begun.now)
        (table_view table.now) }
{
    let begin = only_begin(table, "a claim", begun)?;
    Ok(Entry::End {
        begin,
        ending: Ending::Claim,
    })
}

/// What a `settle` asks for.
pub fn settle_row<'a>(table: &'a Table, begun: &[&str]) -> Result<Entry, Finding<'a>>
    ensures { result_ok result ≡ settle_row (map (λ name. name.now) begun.now)
        (table_view table.now) }
{
    let begin = only_begin(table, "a settle", begun)?;
    Ok(Entry::End {
        begin,
        ending: Ending::Settle,
    })
}

/// What an `abandon` asks for.
pub fn abandon_row<'a>(table: &'a Table, begun: &[&str]) -> Result<Entry, Finding<'a>>
    ensures { result_ok result ≡ abandon_row (map (λ name. name.now) begun.now)
        (table_view table.now) }
{
    let begin = only_begin(table, "an abandon", begun)?;
    Ok(Entry::End {
        begin,
        ending: Ending::Abandon,
    })
}
