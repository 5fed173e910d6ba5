//! Which tables of a log a database has, by the definitions of all of them: what is found here is known before anything is written.
ghost use Rattle.std.specs.Prelude.{◌≡◌, ◌⊎◌, true, false, Err, Ok, OnErr, OnOk};
ghost use Rattle.std.specs.List.{list_any};
ghost use Rattle.sqlite.specs.Held.{state};
ghost use Rattle.xa_sql_log.specs.Layouts.{begins_with_branch, has_first_tables, is_at, is_decision, is_heuristic, is_meta, is_participant, is_taken, layout_in, takes_names, HasOtherTables};
ghost use Rattle.xa_sql_log.specs.OpenedDatabase.{IsBlank, HasTables};
ghost use Rattle.xa_sql_log.specs.Tables.{old_schema, log_schema};

use sqlite::{Alter, Connection};
use sqlite_schema::schema::{Schema, Table};
use xa_log::LogFault;

/// What a database has of a log's tables.
#[derive(Clone, Copy, Debug, PartialEq, Eq)]
pub(crate) enum Layout {
    /// Nothing has the name of one.
    Missing,
    Version1,
    Version2,
    /// Something has the name of one, and they aren't those of a log: one is missing, or has other columns.
    Other,
}

/// Whether the column of this name is at this place.
fn is_at(table: &Table, name: &[u8], place: usize) -> bool
    ensures { result ≡ is_at table.now name.now place }
{
    table.column_named(name) == Some(place)
}

fn is_meta(table: &Table) -> bool
    ensures { result ≡ is_meta table.now }
{
    table.is_named(b"tm_meta")
        && table.columns.len() == 3
        && is_at(table, b"k", 0)
        && is_at(table, b"version", 1)
        && is_at(table, b"incarnation", 2)
}

fn is_decision(table: &Table) -> bool
    ensures { result ≡ is_decision table.now }
{
    table.is_named(b"decision")
        && table.columns.len() == 2
        && is_at(table, b"inc", 0)
        && is_at(table, b"seq", 1)
}

/// Whether the first four columns name a branch.
fn begins_with_branch(table: &Table) -> bool
    ensures { result ≡ begins_with_branch table.now }
{
    is_at(table, b"inc", 0)
        && is_at(table, b"seq", 1)
        && is_at(table, b"thread", 2)
        && is_at(table, b"rm", 3)
}

fn is_heuristic(table: &Table) -> bool
    ensures { result ≡ is_heuristic table.now }
{
    table.is_named(b"heuristic")
        && table.columns.len() == 5
        && begins_with_branch(table)
        && is_at(table, b"how", 4)
}

fn is_participant(table: &Table) -> bool
    ensures { result ≡ is_participant table.now }
{
    table.is_named(b"participant") && table.columns.len() == 4 && begins_with_branch(table)
}

/// Whether a table or a view has this name. What can't be read of a table is kept as a view.
fn is_taken(schema: &Schema, name: &[u8]) -> bool
    ensures { result ≡ is_taken schema.now name.now }
{
    schema.table_named(name).is_some() || schema.view_named(name).is_some()
}

/// Whether something has the name of a log's table.
fn takes_names(schema: &Schema) -> bool
    ensures { result ≡ takes_names schema.now }
{
    is_taken(schema, b"tm_meta")
        || is_taken(schema, b"decision")
        || is_taken(schema, b"heuristic")
        || is_taken(schema, b"participant")
}

fn has_meta(schema: &Schema) -> bool
    ensures { result ≡ list_any is_meta schema.now.tables }
{
    schema.tables.as_slice().iter().any(is_meta)
}

fn has_decision(schema: &Schema) -> bool
    ensures { result ≡ list_any is_decision schema.now.tables }
{
    schema.tables.as_slice().iter().any(is_decision)
}

fn has_heuristic(schema: &Schema) -> bool
    ensures { result ≡ list_any is_heuristic schema.now.tables }
{
    schema.tables.as_slice().iter().any(is_heuristic)
}

fn has_participant(schema: &Schema) -> bool
    ensures { result ≡ list_any is_participant schema.now.tables }
{
    schema.tables.as_slice().iter().any(is_participant)
}

/// Whether each table is there that a log of version 1 has.
fn has_first_tables(schema: &Schema) -> bool
    ensures { result ≡ has_first_tables schema.now }
{
    has_meta(schema) && has_decision(schema) && has_heuristic(schema)
}

#[tactic(auto, unfolding(crate::specs::Layouts::layout_in))]
fn layout_in(schema: &Schema) -> Layout
    ensures { result ≡ layout_in schema.now }
{
    if !takes_names(schema) {
        return Layout::Missing;
    }
    if !has_first_tables(schema) {
        return Layout::Other;
    }
    if has_participant(schema) {
        return Layout::Version2;
    }
    if is_taken(schema, b"participant") {
        return Layout::Other;
    }
    Layout::Version1
}

/// Which tables of a log the database has.
pub(crate) fn layout_of<S: Alter>(conn: &Connection<S>) -> Layout
    ensures value { result ≡ layout_in (state S.Store conn.now).now.schema }
    ensures missing { IsBlank (state S.Store conn.now) → result ≡ Layout.Missing }
    ensures version_1 { (state S.Store conn.now).now.schema ≡ old_schema →
        result ≡ Layout.Version1 }
    ensures version_2 { (state S.Store conn.now).now.schema ≡ log_schema →
        result ≡ Layout.Version2 }
{
    layout_in(conn.schema())
}

/// Whether the database has tables of a log, or others of their names.
pub(crate) fn has_log<S: Alter>(conn: &Connection<S>) -> bool
    ensures blank { IsBlank (state S.Store conn.now) → result ≡ false }
    ensures tables { HasTables (state S.Store conn.now) → result ≡ true }
{
    match layout_of(conn) {
        Layout::Missing => false,
        Layout::Version1 | Layout::Version2 | Layout::Other => true,
    }
}

/// Refuses tables that have a log's names and aren't those of one.
pub(crate) fn refuse_other<S: Alter>(conn: &Connection<S>) -> Result<(), LogFault>
    ensures ok { OnOk result (¬ HasOtherTables (state S.Store conn.now)) }
    ensures other { HasOtherTables (state S.Store conn.now) → result ≡ Err LogFault.Version }
    ensures tables { HasTables (state S.Store conn.now) → result ≡ Ok tt }
{
    match layout_of(conn) {
        Layout::Other => Err(LogFault::Version),
        Layout::Missing | Layout::Version1 | Layout::Version2 => Ok(()),
    }
}
