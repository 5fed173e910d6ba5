//! The flags that a table names.

ghost use Rattle.std.specs.Prelude.{◌≡◌, option_map};
ghost use Rattle.std.specs.Result.{result_ok};
ghost use Rattle.toml.specs.Data.{as_str};
ghost use Rattle.toml.specs.View.{view, table_view, items_view};
ghost use Rattle.xa_files.specs.Words.{flag_named};
ghost use Rattle.xa_scenario_file.specs.Flags.{is_text, holds_text, flags_of, flags_at};

use toml::{Table, Value};
use xa_files::{Finding, flag_named, value_at};

/// Whether the value is this text.
fn is_text(value: &Value, text: &str) -> bool
    ensures { result ≡ is_text text.now (view value.now) }
{
    match value {
        Value::String(other) => other.as_str() == text,
        _ => false,
    }
}

/// Whether the text is an item.
fn holds_text(items: &[Value], text: &str) -> bool
    ensures { result ≡ holds_text text.now (items_view items.now) }
{
    items.iter().any(|item| is_text(item, text))
}

/// The text that an item is.
fn text_of(item: &Value) -> Result<&str, Finding<'_>>
    ensures { option_map (λ text. text.now) (result_ok result) ≡ as_str (view item.now) }
{
    item.as_str().ok_or(Finding::FlagNoText(item))
}

/// The flag that a word names.
fn flag_of(word: &str) -> Result<u32, Finding<'_>>
    ensures { result_ok result ≡ flag_named word.now }
{
    flag_named(word).ok_or(Finding::NoFlag(word))
}

/// The flags together, each named once.
fn flags_of(items: &[Value]) -> Result<u32, Finding<'_>>
    ensures { result_ok result ≡ flags_of (items_view items.now) }
{
    let mut flags = 0;
    let mut rest = items;
    'items: while let Some((item, later)) = rest.split_first() {
        let word = text_of(item)?;
        flags |= flag_of(word)?;
        if holds_text(later, word) {
            return Err(Finding::FlagTwice(word));
        }
        rest = later;
    }
    Ok(flags)
}

/// The flags that the table names; none, if it has no such key.
#[tactic(auto, unfolding(crate::specs::Flags::flags_at))]
pub fn flags_at(table: &Table) -> Result<u32, Finding<'_>>
    ensures { result_ok result ≡ flags_at (table_view table.now) }
{
    match value_at(table, "flags") {
        None => Ok(0),
        Some(value) => match value.as_array() {
            Some(items) => flags_of(items.as_slice()),
            None => Err(Finding::Unfit {
                key: "flags",
                value,
            }),
        },
    }
}
