//! The tables that tell a resource manager what to do with a branch.

ghost use Rattle.std.specs.Prelude.{◌≡◌, codes, map, option_and_then};
ghost use Rattle.std.specs.Result.{result_ok};
ghost use Rattle.toml.specs.View.{table_view};
ghost use Rattle.xa_files.specs.Fields.{text_at};
ghost use Rattle.xa_files.specs.Words.{vote_named};
ghost use Rattle.xa_scenario_file.specs.Scripts.{busy_entry, heuristic_entry, vote_entry};
ghost use Rattle.xa_scenario_file.specs.Words.{how_named};

use crate::branches::branch_at;
use crate::entry::{Entry, Script};
use crate::words::how_named;
use toml::Table;
use xa_base::{How, Vote};
use xa_files::{Finding, index_at, meaning_at, number_at, only_keys, text_at, vote_named};

/// The most times that a commit is put off.
const MAX_TIMES: u32 = 1000;

/// The vote.
fn vote_at<'a>(table: &'a Table) -> Result<Vote, Finding<'a>>
    ensures { result_ok result
        ≡ option_and_then vote_named (text_at (codes "vote") (table_view table.now)) }
{
    let word = text_at(table, "a vote", "vote")?;
    meaning_at(table, "a vote", "vote", vote_named(word))
}

/// How the resource manager ends the branch.
fn how_at<'a>(table: &'a Table) -> Result<How, Finding<'a>>
    ensures { result_ok result
        ≡ option_and_then how_named (text_at (codes "how") (table_view table.now)) }
{
    let word = text_at(table, "a heuristic", "how")?;
    meaning_at(table, "a heuristic", "how", how_named(word))
}

/// What a `vote` asks for.
#[tactic(auto, unfolding(crate::specs::Scripts::vote_entry))]
pub fn vote_entry<'a>(table: &'a Table, begun: &[&str]) -> Result<Entry, Finding<'a>>
    ensures { result_ok result ≡ vote_entry (map (λ name. name.now) begun.now)
        (table_view table.now) }
{
    let of = "a vote";
    only_keys(table, of, &["do", "rm", "tx", "of", "vote"])?;
    let rm = index_at(table, of, "rm")?;
    let branch = branch_at(table, of, begun, 0)?;
    let vote = vote_at(table)?;
    Ok(Entry::Script {
        rm,
        branch,
        script: Script::Vote(vote),
    })
}

/// What a `busy` asks for.
#[tactic(auto, unfolding(crate::specs::Scripts::busy_entry))]
pub fn busy_entry<'a>(table: &'a Table, begun: &[&str]) -> Result<Entry, Finding<'a>>
    ensures { result_ok result ≡ busy_entry (map (λ name. name.now) begun.now)
        (table_view table.now) }
{
    let of = "a busy";
    only_keys(table, of, &["do", "rm", "tx", "of", "times"])?;
    let rm = index_at(table, of, "rm")?;
    let branch = branch_at(table, of, begun, 0)?;
    let times = number_at(table, of, "times", MAX_TIMES)?;
    Ok(Entry::Script {
        rm,
        branch,
        script: Script::Busy(times),
    })
}

/// What a `heuristic` asks for.
#[tactic(auto, unfolding(crate::specs::Scripts::heuristic_entry))]
pub fn heuristic_entry<'a>(table: &'a Table, begun: &[&str]) -> Result<Entry, Finding<'a>>
    ensures { result_ok result ≡ heuristic_entry (map (λ name. name.now) begun.now)
        (table_view table.now) }
{
    let of = "a heuristic";
    only_keys(table, of, &["do", "rm", "tx", "of", "how"])?;
    let rm = index_at(table, of, "rm")?;
    let branch = branch_at(table, of, begun, 0)?;
    let how = how_at(table)?;
    Ok(Entry::Script {
        rm,
        branch,
        script: Script::Heuristic(how),
    })
}
