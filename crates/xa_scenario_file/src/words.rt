//! The words of scenario files alone.

ghost use Rattle.std.specs.Prelude.{◌≡◌};
ghost use Rattle.xa_scenario_file.specs.Words.{entry_named, how_named, part_named};

use xa_base::How;

/// The kinds of entries.
#[derive(Clone, Copy, Debug, PartialEq, Eq)]
pub enum EntryKind {
    Begin,
    Issue,
    Call,
    Take,
    Hear,
    Drain,
    Vote,
    Busy,
    Heuristic,
    Decide,
    Recover,
    Resolve,
    Done,
    Crash,
    Restart,
    Claim,
    Settle,
    Abandon,
    ResolveOpen,
}

/// The kinds of parts that can crash.
#[derive(Clone, Copy, Debug, PartialEq, Eq)]
pub enum PartKind {
    Line,
    Rm,
    Manager,
}

/// The kind of an entry, by its `do`.
pub fn entry_named(word: &str) -> Option<EntryKind>
    ensures { result ≡ entry_named word.now }
{
    match word {
        "begin" => Some(EntryKind::Begin),
        "issue" => Some(EntryKind::Issue),
        "call" => Some(EntryKind::Call),
        "take" => Some(EntryKind::Take),
        "hear" => Some(EntryKind::Hear),
        "drain" => Some(EntryKind::Drain),
        "vote" => Some(EntryKind::Vote),
        "busy" => Some(EntryKind::Busy),
        "heuristic" => Some(EntryKind::Heuristic),
        "decide" => Some(EntryKind::Decide),
        "recover" => Some(EntryKind::Recover),
        "resolve" => Some(EntryKind::Resolve),
        "done" => Some(EntryKind::Done),
        "crash" => Some(EntryKind::Crash),
        "restart" => Some(EntryKind::Restart),
        "claim" => Some(EntryKind::Claim),
        "settle" => Some(EntryKind::Settle),
        "abandon" => Some(EntryKind::Abandon),
        "resolve-open" => Some(EntryKind::ResolveOpen),
        _ => None,
    }
}

/// How a resource manager ends a branch by itself.
pub fn how_named(word: &str) -> Option<How>
    ensures { result ≡ how_named word.now }
{
    match word {
        "com" => Some(How::Com),
        "rb" => Some(How::Rb),
        "mix" => Some(How::Mix),
        "haz" => Some(How::Haz),
        _ => None,
    }
}

/// The kind of a part, by its `part`.
pub fn part_named(word: &str) -> Option<PartKind>
    ensures { result ≡ part_named word.now }
{
    match word {
        "line" => Some(PartKind::Line),
        "rm" => Some(PartKind::Rm),
        "manager" => Some(PartKind::Manager),
        _ => None,
    }
}
