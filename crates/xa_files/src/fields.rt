//! What the keys of a table hold, or what is wrong with it. A table is told of as one of a kind, as
//! "a vote".

ghost use Rattle.std.specs.Prelude.{◌≡◌, IfErr, map, option_map};
ghost use Rattle.std.specs.Result.{is_ok, result_ok};
ghost use Rattle.toml.specs.View.{view, table_view};
ghost use Rattle.toml.specs.Data.{get_member};
ghost use Rattle.xa_files.specs.Fields.{is_text_among, has_only, text_at, integer_at, number_at, index_at, holds, index_or, is_name_byte, is_name, name_at};
ghost use Rattle.xa_files.specs.Findings.{NamesOtherKey, TellsOfKey, first_other};

use crate::finding::Finding;
use toml::{Table, Value};

/// Whether the text is one of these.
pub fn is_among(texts: &[&str], text: &str) -> bool
    ensures { result ≡ is_text_among (map (λ x. x.now) texts.now) text.now }
{
    texts.contains(&text)
}

/// The first key that is none of these, if there is one.
fn other_key<'a>(table: &'a Table, keys: &[&str]) -> Option<&'a str>
    ensures { option_map (λ key. key.now) result
        ≡ first_other (map (λ key. key.now) keys.now) (table_view table.now) }
{
    let key = table.keys().find(|key| !is_among(keys, key.as_str()))?;
    Some(key.as_str())
}

/// Refuses other keys than these.
pub fn only_keys<'a>(
    table: &'a Table,
    of: &'static str,
    keys: &'static [&'static str],
) -> Result<(), Finding<'a>>
    ensures only { is_ok result
        ≡ has_only (map (λ key. key.now) keys.now) (table_view table.now) }
    ensures finding { IfErr result (NamesOtherKey of.now keys.now (table_view table.now)) }
{
    match other_key(table, keys) {
        Some(key) => Err(Finding::OtherKey { of, key, keys }),
        None => Ok(()),
    }
}

/// The value at a key.
pub fn value_at<'a>(table: &'a Table, key: &str) -> Option<&'a Value>
    ensures { option_map (λ value. view value.now) result
        ≡ get_member key.now (table_view table.now) }
{
    table.get(key)
}

/// Whether the key is there.
pub fn holds(table: &Table, key: &str) -> bool
    ensures { result ≡ holds key.now (table_view table.now) }
{
    value_at(table, key).is_some()
}

/// What is wrong with what a key holds, or that it is missing.
pub fn unfit<'a>(table: &'a Table, of: &'static str, key: &'static str) -> Finding<'a>
    ensures { TellsOfKey of.now key.now (table_view table.now) result }
{
    match value_at(table, key) {
        Some(value) => Finding::Unfit { key, value },
        None => Finding::Missing { of, key },
    }
}

/// The meaning of what a key holds, if it has one.
pub fn meaning_at<'a, T>(
    table: &'a Table,
    of: &'static str,
    key: &'static str,
    meaning: Option<T>,
) -> Result<T, Finding<'a>>
    ensures value { result_ok result ≡ meaning }
    ensures finding { IfErr result (TellsOfKey of.now key.now (table_view table.now)) }
{
    match meaning {
        Some(meant) => Ok(meant),
        None => Err(unfit(table, of, key)),
    }
}

/// The text at a key.
pub fn text_at<'a>(
    table: &'a Table,
    of: &'static str,
    key: &'static str,
) -> Result<&'a str, Finding<'a>>
    ensures value { option_map (λ text. text.now) (result_ok result)
        ≡ text_at key.now (table_view table.now) }
    ensures finding { IfErr result (TellsOfKey of.now key.now (table_view table.now)) }
{
    match value_at(table, key) {
        Some(value) => value.as_str().ok_or(Finding::Unfit { key, value }),
        None => Err(Finding::Missing { of, key }),
    }
}

/// The integer at a key.
pub fn integer_at<'a>(
    table: &'a Table,
    of: &'static str,
    key: &'static str,
) -> Result<i64, Finding<'a>>
    ensures value { result_ok result ≡ integer_at key.now (table_view table.now) }
    ensures finding { IfErr result (TellsOfKey of.now key.now (table_view table.now)) }
{
    match value_at(table, key) {
        Some(value) => value.as_integer().ok_or(Finding::Unfit { key, value }),
        None => Err(Finding::Missing { of, key }),
    }
}

/// The number at a key, at most the limit.
pub fn number_at<'a>(
    table: &'a Table,
    of: &'static str,
    key: &'static str,
    limit: u32,
) -> Result<u32, Finding<'a>>
    ensures value { result_ok result ≡ number_at limit key.now (table_view table.now) }
    ensures finding { IfErr result (TellsOfKey of.now key.now (table_view table.now)) }
{
    let integer = integer_at(table, of, key)?;
    match u32::try_from(integer) {
        Ok(number) if number <= limit => Ok(number),
        _ => Err(unfit(table, of, key)),
    }
}

/// The number of a thread or of a resource manager at a key.
pub fn index_at<'a>(
    table: &'a Table,
    of: &'static str,
    key: &'static str,
) -> Result<u32, Finding<'a>>
    ensures value { result_ok result ≡ index_at key.now (table_view table.now) }
    ensures finding { IfErr result (TellsOfKey of.now key.now (table_view table.now)) }
{
    number_at(table, of, key, u32::MAX)
}

/// The number at a key, or the default if the key is missing.
pub fn index_or<'a>(
    table: &'a Table,
    of: &'static str,
    key: &'static str,
    default: u32,
) -> Result<u32, Finding<'a>>
    ensures value { result_ok result ≡ index_or default key.now (table_view table.now) }
    ensures finding { IfErr result (TellsOfKey of.now key.now (table_view table.now)) }
{
    if holds(table, key) {
        index_at(table, of, key)
    } else {
        Ok(default)
    }
}

/// Whether it is a character of names: a to z, 0 to 9 and the hyphen.
fn is_name_byte(byte: u8) -> bool
    ensures { result ≡ is_name_byte byte }
{
    matches!(byte, b'a'..=b'z' | b'0'..=b'9' | b'-')
}

/// Whether a text is a name: 1 to 32 characters from a to z, 0 to 9 and the hyphen.
pub fn is_name(text: &str) -> bool
    ensures { result ≡ is_name text.now }
{
    (1..=32).contains(&text.len()) && text.bytes().all(is_name_byte)
}

/// The name at a key.
pub fn name_at<'a>(
    table: &'a Table,
    of: &'static str,
    key: &'static str,
) -> Result<&'a str, Finding<'a>>
    ensures value { option_map (λ text. text.now) (result_ok result)
        ≡ name_at key.now (table_view table.now) }
    ensures finding { IfErr result (TellsOfKey of.now key.now (table_view table.now)) }
{
    let text = text_at(table, of, key)?;
    if is_name(text) {
        Ok(text)
    } else {
        Err(unfit(table, of, key))
    }
}
