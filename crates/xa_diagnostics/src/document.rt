//! The document of a file that is read again and again: what is faulty in it is mended, so that the
//! next fault shows.

ghost use Rattle.std.specs.Prelude.{◌≡◌, IfOk};
ghost use Rattle.xa_diagnostics.specs.CheckJson.{file_kind_name};
ghost use Rattle.toml.specs.View.{table_view};
ghost use Rattle.xa_diagnostics.specs.Documents.{file_kind_of, kind_in};

use std::alloc::Global;
use toml::{Table, Value};
use xa_base::{MAX_RMS, MAX_THREADS, Memory};
use xa_files::{RunFault, document_of, holds, is_name, text_at, value_at};

/// What a file is read as.
#[derive(Clone, Copy, Debug, PartialEq, Eq)]
pub enum FileKind {
    /// A scenario.
    Scenario,
    /// Jobs.
    Jobs,
}

impl FileKind {
    /// The key of the file's tables.
    pub fn array(self) -> &'static str {
        match self {
            FileKind::Scenario => "step",
            FileKind::Jobs => "job",
        }
    }

    /// The word for it.
    pub fn name(self) -> &'static str
        ensures { result.now ≡ file_kind_name self }
    {
        match self {
            FileKind::Scenario => "scenario",
            FileKind::Jobs => "jobs",
        }
    }
}

/// What a document is read as.
fn kind_in(document: &Table) -> FileKind
    ensures { result ≡ kind_in (table_view document.now) }
{
    if holds(document, "job") && !holds(document, "step") {
        FileKind::Jobs
    } else {
        FileKind::Scenario
    }
}

/// What a text is read as: jobs, if it has the key `job` at its top and no `step`, and else a
/// scenario, also if it is no document.
pub fn kind_of(alloc: Global, text: &[u8]) -> Result<FileKind, Memory>
    ensures { IfOk result (λ kind. kind ≡ file_kind_of text.now) }
{
    match document_of(alloc, text) {
        Ok(document) => Ok(kind_in(&document)),
        Err(RunFault::Memory) => Err(Memory),
        Err(_) => Ok(FileKind::Scenario),
    }
}

/// The items of the array at a key, none if there is no array.
pub fn items_at<'a>(document: &'a Table, key: &str) -> &'a [Value] {
    match value_at(document, key) {
        Some(Value::Array(items)) => items.as_slice(),
        _ => &[],
    }
}

/// The table of a number, from 1.
pub fn table_at(document: &Table, kind: FileKind, number: usize) -> Option<&Table> {
    items_at(document, kind.array())
        .get(number.checked_sub(1)?)?
        .as_table()
}

/// The name that a table gives to a transaction, or has for one.
pub fn name_in(table: &Table) -> Option<&str> {
    match text_at(table, "an entry", "tx") {
        Ok(name) if is_name(name) => Some(name),
        _ => None,
    }
}

/// The name that an item begins.
pub fn begun_in(item: &Value) -> Option<&str> {
    let table = item.as_table()?;
    match text_at(table, "an entry", "do") {
        Ok("begin") => name_in(table),
        _ => None,
    }
}

/// Puts a value at a key.
fn put(alloc: Global, table: &mut Table, key: &str, value: Value) -> Result<(), Memory> {
    table.insert(String::from_str(alloc, key)?, value)?;
    Ok(())
}

/// Puts a text at a key.
fn put_text(alloc: Global, table: &mut Table, key: &str, text: &str) -> Result<(), Memory> {
    put(alloc, table, key, Value::string(alloc, text)?)
}

/// Makes of a table an entry that begins a transaction of a name.
fn put_begin(alloc: Global, table: &mut Table, name: &str) -> Result<(), Memory> {
    put_text(alloc, table, "do", "begin")?;
    put(alloc, table, "thread", Value::Integer(0))?;
    put_text(alloc, table, "tx", name)
}

/// An entry that begins a transaction of a name.
fn begin_of(alloc: Global, name: &str) -> Result<Value, Memory> {
    let mut table = Table::new(alloc);
    match put_begin(alloc, &mut table, name) {
        Ok(()) => Ok(Value::Table(table)),
        Err(memory) => Err(memory),
    }
}

/// Adds a vote of none for each of so many resource managers.
fn add_votes(alloc: Global, rms: i64, votes: &mut Vec<Value>) -> Result<(), Memory> {
    for _ in 0..rms.clamp(0, i64::from(MAX_RMS)) {
        votes.push(Value::string(alloc, "none")?)?;
    }
    Ok(())
}

/// Makes of a table a faultless job.
fn put_job(alloc: Global, table: &mut Table, rms: i64) -> Result<(), Memory> {
    let mut votes = Vec::new(alloc);
    match add_votes(alloc, rms, &mut votes) {
        Ok(()) => put(alloc, table, "votes", Value::Array(votes)),
        Err(memory) => Err(memory),
    }
}

/// Makes of a table a faultless entry.
fn put_entry(alloc: Global, table: &mut Table) -> Result<(), Memory> {
    put_text(alloc, table, "do", "take")?;
    put(alloc, table, "thread", Value::Integer(0))?;
    put(alloc, table, "rm", Value::Integer(0))
}

/// A faultless table, of a file with so many resource managers.
fn faultless(alloc: Global, kind: FileKind, rms: i64) -> Result<Value, Memory> {
    let mut table = Table::new(alloc);
    let made = match kind {
        FileKind::Scenario => put_entry(alloc, &mut table),
        FileKind::Jobs => put_job(alloc, &mut table, rms),
    };
    match made {
        Ok(()) => Ok(Value::Table(table)),
        Err(memory) => Err(memory),
    }
}

/// Puts a value in the place of the item of a number.
fn put_item(array: &mut Value, number: usize, value: Value) {
    if let Some(items) = array.as_array_mut() {
        if let Some(item) = items.get_mut(number.saturating_sub(1)) {
            *item = value;
        }
    }
}

/// Mends the table of a number.
pub fn mend_table(
    alloc: Global,
    document: &mut Table,
    kind: FileKind,
    number: usize,
) -> Result<(), Memory> {
    let rms = value_at(document, "rms").and_then(|value| value.as_integer());
    let mended = faultless(alloc, kind, rms.unwrap_or(0))?;
    if let Some(array) = document.get_mut(kind.array()) {
        put_item(array, number, mended);
    }
    Ok(())
}

/// Mends a key at the top.
pub fn mend_key(alloc: Global, document: &mut Table, key: &str) -> Result<(), Memory> {
    let most = match key {
        "threads" => MAX_THREADS,
        "rms" => MAX_RMS,
        _ => {
            let _removed = document.remove(key);
            return Ok(());
        }
    };
    put(alloc, document, key, Value::Integer(i64::from(most)))
}

/// Removes a key from the table of a number.
pub fn remove_key(document: &mut Table, kind: FileKind, number: usize, key: &str) {
    if let Some(array) = document.get_mut(kind.array()) {
        if let Some(items) = array.as_array_mut() {
            if let Some(item) = items.get_mut(number.saturating_sub(1)) {
                if let Some(table) = item.as_table_mut() {
                    let _removed = table.remove(key);
                }
            }
        }
    }
}

/// Adds entries that begin these names.
fn add_begins(alloc: Global, names: &[String], items: &mut Vec<Value>) -> Result<(), Memory> {
    for name in names {
        items.push(begin_of(alloc, name)?)?;
    }
    Ok(())
}

/// Adds these items.
fn add_items(later: Vec<Value>, items: &mut Vec<Value>) -> Result<(), Memory> {
    for item in later {
        items.push(item)?;
    }
    Ok(())
}

/// The items after entries that begin these names.
fn behind(alloc: Global, names: &[String], later: Vec<Value>) -> Result<Vec<Value>, Memory> {
    let mut items = Vec::new(alloc);
    add_begins(alloc, names, &mut items)?;
    match add_items(later, &mut items) {
        Ok(()) => Ok(items),
        Err(memory) => Err(memory),
    }
}

/// Puts entries in front of the others that begin these names.
pub fn put_begins(alloc: Global, document: &mut Table, names: &[String]) -> Result<(), Memory> {
    match document.remove("step") {
        Some(Value::Array(later)) => {
            let items = behind(alloc, names, later)?;
            put(alloc, document, "step", Value::Array(items))
        }
        Some(other) => put(alloc, document, "step", other),
        None => Ok(()),
    }
}
