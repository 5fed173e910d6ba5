//! A file as a document of TOML, and what the tops of documents have in common.

ghost use Rattle.std.specs.Prelude.{◌≡◌, IfErr, option_map};
ghost use Rattle.std.specs.Result.{result_ok};
ghost use Rattle.toml.specs.View.{items_view, table_view, view};
ghost use Rattle.xa_files.specs.Documents.{are_tables, document_of, size_at, tables_at, tables_in};
ghost use Rattle.xa_files.specs.Findings.{IsUnfitAt, TellsOfKey};
ghost use Rattle.xa_files.specs.Reading.{Gives};

use crate::fault::RunFault;
use crate::fields::{number_at, unfit, value_at};
use crate::finding::Finding;
use std::alloc::Global;
use toml::{Table, Value};

/// Whether each of the items is a table.
fn are_tables(items: &[Value]) -> bool
    ensures { result ≡ are_tables (items_view items.now) }
{
    items.iter().all(|item| item.is_table())
}

/// The items of a value that is an array of tables.
fn tables_in(value: &Value) -> Option<&[Value]>
    ensures { option_map (λ items. items_view items.now) result ≡ tables_in (view value.now) }
{
    let items = value.as_array()?.as_slice();
    if are_tables(items) { Some(items) } else { None }
}

/// The tables at a key, of which there may be none, as when the key is missing.
#[tactic(auto, unfolding(crate::specs::Documents::tables_at))]
pub fn tables_at<'a>(document: &'a Table, key: &'static str) -> Result<&'a [Value], Finding<'a>>
    ensures tables { option_map (λ items. items_view items.now) (result_ok result)
        ≡ tables_at key.now (table_view document.now) }
    ensures finding { IfErr result (IsUnfitAt key.now (table_view document.now)) }
{
    match value_at(document, key) {
        None => Ok(&[]),
        Some(value) => tables_in(value).ok_or(Finding::Unfit { key, value }),
    }
}

/// The number at a key, from 1 to the limit.
pub fn size_at<'a>(
    document: &'a Table,
    of: &'static str,
    key: &'static str,
    limit: u32,
) -> Result<u32, Finding<'a>>
    ensures value { result_ok result ≡ size_at limit key.now (table_view document.now) }
    ensures finding { IfErr result (TellsOfKey of.now key.now (table_view document.now)) }
{
    let number = number_at(document, of, key, limit)?;
    if number == 0 {
        Err(unfit(document, of, key))
    } else {
        Ok(number)
    }
}

/// The document that a text is. NotToml if it isn't UTF-8 or no document, Memory if a request was
/// refused.
#[tactic(auto, unfolding(crate::specs::Documents::document_of))]
pub fn document_of(alloc: Global, text: &[u8]) -> Result<Table, RunFault>
    ensures { Gives (λ document. table_view document) result (document_of text.now) }
{
    match toml::table_from_slice(alloc, text) {
        Ok(document) => Ok(document),
        Err(e) if e.is_memory() => Err(RunFault::Memory),
        Err(_) => Err(RunFault::NotToml),
    }
}
