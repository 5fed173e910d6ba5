//! What to do about a fault, if it is plain what was meant.

use crate::allowed::{call_names, words_at};
use crate::finding::InWords;
use crate::nearest::nearest;
use std::alloc::Global;
use toml::{Table, Value};
use xa_base::{CallKind, Memory};
use xa_files::{Finding, holds};

/// The keys of an entry of a scenario.
const ENTRY_KEYS: [&str; 14] = [
    "do", "thread", "rm", "xa", "tx", "of", "flags", "count", "vote", "times", "how", "outcome",
    "part", "votes",
];

/// Whether a table has a key already.
fn has(table: Option<&Table>, key: &str) -> bool {
    match table {
        Some(table) => holds(table, key),
        None => false,
    }
}

/// What is said of a key that isn't one of the table's. One that the table has already isn't the
/// one that was meant.
fn of_key(
    alloc: Global,
    table: Option<&Table>,
    of: &str,
    key: &str,
    keys: &[&str],
) -> Result<Option<String>, Memory> {
    if key == "job" && keys.contains(&"step") {
        return Ok(Some(format!(in alloc;
            "\"job\" is a key of jobs files, which xatm threads runs"
        )?));
    }
    if key == "step" && keys.contains(&"job") {
        return Ok(Some(format!(in alloc;
            "\"step\" is a key of scenario files, which xatm run runs"
        )?));
    }
    match nearest(alloc, key, keys)? {
        Some(near) if !has(table, near) => {
            return Ok(Some(format!(in alloc; "{key:?} is no key of {of}; did you mean {near}?")?));
        }
        _ => {}
    }
    if keys.contains(&"threads") && ENTRY_KEYS.contains(&key) {
        return Ok(Some(format!(in alloc;
            "{key:?} is no key of {of}: it belongs to an entry, below its [[step]] or [[job]]"
        )?));
    }
    if matches!(key, "threads" | "rms" | "sweep") {
        return Ok(Some(format!(in alloc;
            "{key:?} is no key of {of}: it is one of the top, before the first [[step]] or [[job]]"
        )?));
    }
    Ok(None)
}

/// The name of a call that a word is nearest to, with or without its prefix.
fn nearest_call(alloc: Global, word: &str) -> Result<Option<&'static str>, Memory> {
    let names = call_names();
    match nearest(alloc, word, &names)? {
        Some(near) => Ok(Some(near)),
        None => {
            let prefixed = format!(in alloc; "xa_{word}")?;
            nearest(alloc, prefixed.as_str(), &names)
        }
    }
}

/// What is said of a word that isn't one of those that a key has, or `is`.
fn of_word(alloc: Global, key: &str, has: &str, word: &str) -> Result<Option<String>, Memory> {
    let near = match key {
        "xa" => nearest_call(alloc, word)?,
        _ => nearest(alloc, word, words_at(key))?,
    };
    if let Some(near) = near {
        return Ok(Some(format!(in alloc; "{key} {has} {word:?}; did you mean {near}?")?));
    }
    if matches!(key, "vote" | "votes") && matches!(word, "no" | "rb" | "rollback") {
        return Ok(Some(format!(in alloc;
            "{key} {has} {word:?}; a no is one of \"100\" to \"107\", as \"100\" for XA_RBROLLBACK"
        )?));
    }
    Ok(None)
}

/// What is said of a text in the place of a number.
fn of_text(alloc: Global, key: &str, text: &str) -> Result<Option<String>, Memory> {
    if matches!(key, "flags" | "votes") {
        return Ok(Some(format!(in alloc;
            "{key} is {text:?}; it is an array, as in {key} = [{text:?}]"
        )?));
    }
    let is_number = !text.is_empty() && text.bytes().all(|byte| matches!(byte, b'0'..=b'9'));
    if is_number
        && matches!(
            key,
            "threads" | "rms" | "thread" | "rm" | "of" | "count" | "times"
        )
    {
        return Ok(Some(format!(in alloc;
            "{key} is {text:?}; it is a number, without quotes: {key} = {text}"
        )?));
    }
    of_word(alloc, key, "is", text)
}

/// What is said of a number in the place of a text.
fn of_number(alloc: Global, key: &str, number: i64) -> Result<Option<String>, Memory> {
    let text = format!(in alloc; "{number}")?;
    if words_at(key).contains(&text.as_str()) {
        return Ok(Some(format!(in alloc;
            "{key} is {number}; it is a text, in quotes: {key} = \"{number}\""
        )?));
    }
    Ok(None)
}

/// What is said of a value that a key doesn't hold.
fn of_value(alloc: Global, key: &str, value: &Value) -> Result<Option<String>, Memory> {
    match value {
        Value::String(text) => of_text(alloc, key, text),
        Value::Integer(number) => of_number(alloc, key, *number),
        Value::Table(_) if matches!(key, "step" | "job") => Ok(Some(format!(in alloc;
            "{key} is a table; it is an array of tables: [[{key}]] with two brackets"
        )?)),
        _ => Ok(None),
    }
}

/// What is said of a vote of a job.
fn of_vote(alloc: Global, value: &Value) -> Result<Option<String>, Memory> {
    match value {
        Value::String(text) => of_word(alloc, "votes", "has", text),
        Value::Integer(number) if (100..=107).contains(number) => Ok(Some(format!(in alloc;
            "votes has {number}; it is a text, in quotes: \"{number}\""
        )?)),
        _ => Ok(None),
    }
}

/// What is said of the flags of a call.
fn of_flags(
    alloc: Global,
    table: Option<&Table>,
    kind: CallKind,
) -> Result<Option<String>, Memory> {
    if kind == CallKind::End && !has(table, "flags") {
        return Ok(Some(String::from_str(
            alloc,
            "xa_end needs flags = [\"TMSUCCESS\"], or [\"TMFAIL\"] where its work failed",
        )?));
    }
    Ok(None)
}

/// What is said of a name that no transaction has.
fn of_name(alloc: Global, name: &str, begun: &[&str]) -> Result<Option<String>, Memory> {
    match nearest(alloc, name, begun)? {
        Some(near) if near != name => Ok(Some(format!(in alloc;
            "no begin before it has the name {name:?}; did you mean {near:?}?"
        )?)),
        _ => Ok(None),
    }
}

/// What is said of a fault, if it is plain what was meant. `table` is the table that has the fault,
/// and `begun` are the names of all transactions of the file.
fn advice(
    alloc: Global,
    table: Option<&Table>,
    begun: &[&str],
    finding: &Finding<'_>,
) -> Result<Option<String>, Memory> {
    match finding {
        Finding::OtherKey { of, key, keys } => of_key(alloc, table, of, key, keys),
        Finding::Unfit { key, value } => of_value(alloc, key, value),
        Finding::NoFlag(word) => match nearest(alloc, word, words_at("flags"))? {
            Some(near) => Ok(Some(format!(in alloc;
                "{word:?} is a flag of no call; did you mean {near}?"
            )?)),
            None => Ok(None),
        },
        Finding::FlagsOfCall(kind) => of_flags(alloc, table, *kind),
        Finding::NotBegun(name) => of_name(alloc, name, begun),
        Finding::NoVote(value) => of_vote(alloc, value),
        _ => Ok(None),
    }
}

/// What is wrong, and what to do about it: that which was meant, if it is plain, and else what is
/// allowed there.
pub fn reason_text(
    alloc: Global,
    table: Option<&Table>,
    begun: &[&str],
    finding: &Finding<'_>,
) -> Result<String, Memory> {
    match advice(alloc, table, begun, finding)? {
        Some(text) => Ok(text),
        None => Ok(format!(in alloc; "{}", InWords(*finding))?),
    }
}
