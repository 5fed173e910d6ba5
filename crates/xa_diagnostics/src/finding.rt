//! What is wrong with a table, and what is allowed there, in words.

use crate::allowed::{AllFlags, Allowed, flags_of_call, write_list};
use std::fmt;
use toml::Value;
use xa_base::CallKind;
use xa_files::Finding;

/// What is wrong, in words.
#[derive(Clone, Copy)]
pub struct InWords<'a>(pub Finding<'a>);

/// Writes what a key holds: a text or a number as it is, else of which kind it is.
fn write_value<W: fmt::Write>(f: &mut fmt::Formatter<W>, value: &Value) -> fmt::Result {
    match value {
        Value::String(text) => write!(f, "{text:?}"),
        Value::Integer(number) => write!(f, "{number}"),
        Value::Float(_) => f.write_str("a float"),
        Value::Boolean(truth) => write!(f, "{truth}"),
        Value::Datetime(_) => f.write_str("a date or time"),
        Value::Array(_) => f.write_str("an array"),
        Value::Table(_) => f.write_str("a table"),
    }
}

/// Writes what is wrong with the keys of a table.
fn write_key<W: fmt::Write>(f: &mut fmt::Formatter<W>, finding: &Finding<'_>) -> fmt::Result {
    match finding {
        Finding::OtherKey { of, key, keys } => {
            write!(f, "{key:?} is no key of {of}, which has ")?;
            write_list(f, keys, "and")
        }
        Finding::Missing { of, key } => {
            write!(f, "{of} needs the key {key}, which holds {}", Allowed(key))
        }
        Finding::Unfit { key, value } => {
            write!(f, "{key} is ")?;
            write_value(f, value)?;
            write!(f, "; it has to be {}", Allowed(key))
        }
        _ => Ok(()),
    }
}

/// Writes what is wrong with the flags of a table.
fn write_flags<W: fmt::Write>(f: &mut fmt::Formatter<W>, finding: &Finding<'_>) -> fmt::Result {
    match finding {
        Finding::NoFlag(word) => {
            write!(f, "{word:?} is a flag of no call: there are {}", AllFlags)
        }
        Finding::FlagTwice(word) => write!(f, "flags names {word} twice"),
        Finding::FlagNoText(value) => {
            write!(f, "flags has ")?;
            write_value(f, value)?;
            write!(f, "; it is {}", Allowed("flags"))
        }
        Finding::FlagsOfCall(kind) => {
            write!(f, "{} takes {}", kind.name(), flags_of_call(*kind))
        }
        Finding::FlagsOfRecovery => {
            write!(f, "a recover takes {}", flags_of_call(CallKind::Recover))
        }
        _ => Ok(()),
    }
}

/// Writes what is wrong with the branch or the count of a call.
fn write_call<W: fmt::Write>(f: &mut fmt::Formatter<W>, finding: &Finding<'_>) -> fmt::Result {
    match finding {
        Finding::NeedsBranch(kind) => {
            write!(f, "{} is of a branch: it needs the key tx", kind.name())
        }
        Finding::NamesNoBranch(kind) => {
            write!(f, "{} is of no branch: it has no key tx", kind.name())
        }
        Finding::NeedsCount => {
            write!(
                f,
                "xa_recover needs the key count, which holds {}",
                Allowed("count")
            )
        }
        Finding::HasNoCount(kind) => {
            write!(f, "{} has no key count: only xa_recover has", kind.name())
        }
        _ => Ok(()),
    }
}

/// Writes what is wrong with the names of transactions.
fn write_name<W: fmt::Write>(f: &mut fmt::Formatter<W>, finding: &Finding<'_>) -> fmt::Result {
    match finding {
        Finding::BegunBefore(name) => {
            write!(
                f,
                "a begin before it has the name {name:?}: each begin needs a name of its own"
            )
        }
        Finding::NotBegun(name) => write!(f, "no begin before it has the name {name:?}"),
        Finding::NoTransaction => write!(f, "of stands only beside tx"),
        _ => Ok(()),
    }
}

/// Writes what is wrong with the votes of a job.
fn write_votes<W: fmt::Write>(f: &mut fmt::Formatter<W>, finding: &Finding<'_>) -> fmt::Result {
    match finding {
        Finding::VoteForEach { votes, rms } => {
            write!(
                f,
                "votes has a text for each resource manager: {rms}, and not {votes}"
            )
        }
        Finding::NoVote(value) => {
            write!(f, "votes has ")?;
            write_value(f, value)?;
            write!(
                f,
                "; it has ok, ro, 100 to 107 or none for each resource manager, as a text"
            )
        }
        _ => Ok(()),
    }
}

impl fmt::Display for InWords<'_> {
    fn fmt<W: fmt::Write>(&self, f: &mut fmt::Formatter<W>) -> fmt::Result {
        match &self.0 {
            Finding::OtherKey { .. } | Finding::Missing { .. } | Finding::Unfit { .. } => {
                write_key(f, &self.0)
            }
            Finding::BegunBefore(_) | Finding::NotBegun(_) | Finding::NoTransaction => {
                write_name(f, &self.0)
            }
            Finding::NoFlag(_)
            | Finding::FlagTwice(_)
            | Finding::FlagNoText(_)
            | Finding::FlagsOfCall(_)
            | Finding::FlagsOfRecovery => write_flags(f, &self.0),
            Finding::NeedsBranch(_)
            | Finding::NamesNoBranch(_)
            | Finding::NeedsCount
            | Finding::HasNoCount(_) => write_call(f, &self.0),
            Finding::RestartOfLine => {
                write!(
                    f,
                    "a line is never down, so it isn't restarted: part is rm or manager"
                )
            }
            Finding::TooMany(most) => write!(f, "there are at most {most}"),
            Finding::NoTable => write!(f, "it is no table"),
            Finding::VoteForEach { .. } | Finding::NoVote(_) => write_votes(f, &self.0),
        }
    }
}
