//! What is wrong with a table, and what is allowed there.

use toml::Value;
use xa_base::CallKind;

/// What is wrong with a table of a file, or with its top. It lends what it tells of the file.
#[derive(Clone, Copy)]
pub enum Finding<'a> {
    /// A table of this kind has these keys, and this is none of them.
    OtherKey {
        of: &'static str,
        key: &'a str,
        keys: &'static [&'static str],
    },
    /// A table of this kind needs the key.
    Missing {
        of: &'static str,
        key: &'static str,
    },
    /// The key holds something else than what it may.
    Unfit {
        key: &'static str,
        value: &'a Value,
    },
    /// A `begin` before it has the name.
    BegunBefore(&'a str),
    /// No `begin` before it has the name.
    NotBegun(&'a str),
    /// `of` stands beside no `tx`.
    NoTransaction,
    /// The text names no flag.
    NoFlag(&'a str),
    /// The flag is named twice.
    FlagTwice(&'a str),
    /// An item of the flags is no text.
    FlagNoText(&'a Value),
    /// Such a call doesn't take these flags.
    FlagsOfCall(CallKind),
    /// A recovery doesn't take these flags.
    FlagsOfRecovery,
    /// Such a call names a branch.
    NeedsBranch(CallKind),
    /// Such a call names no branch.
    NamesNoBranch(CallKind),
    /// An xa_recover needs a count.
    NeedsCount,
    /// Such a call has no count.
    HasNoCount(CallKind),
    /// A line is restarted.
    RestartOfLine,
    /// There are more than so many entries.
    TooMany(&'static str),
    /// The item is none of a list of entries.
    NoTable,
    /// There are so many votes, but so many resource managers.
    VoteForEach {
        votes: usize,
        rms: u32,
    },
    /// The item is no vote of a job.
    NoVote(&'a Value),
}

impl Finding<'_> {
    /// The key that is wrong.
    pub fn key(&self) -> Option<&str> {
        match self {
            Finding::OtherKey { key, .. } => Some(key),
            Finding::Unfit { key, .. } => Some(key),
            Finding::BegunBefore(_) | Finding::NotBegun(_) | Finding::NamesNoBranch(_) => {
                Some("tx")
            }
            Finding::NoTransaction => Some("of"),
            Finding::NoFlag(_)
            | Finding::FlagTwice(_)
            | Finding::FlagNoText(_)
            | Finding::FlagsOfCall(_)
            | Finding::FlagsOfRecovery => Some("flags"),
            Finding::HasNoCount(_) => Some("count"),
            Finding::RestartOfLine => Some("part"),
            Finding::VoteForEach { .. } | Finding::NoVote(_) => Some("votes"),
            Finding::Missing { .. }
            | Finding::NeedsBranch(_)
            | Finding::NeedsCount
            | Finding::TooMany(_)
            | Finding::NoTable => None,
        }
    }
}
